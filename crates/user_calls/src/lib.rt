//! Lists of calls on any map, on any set and on vectors, a user's own map on which they run, maps
//! with any hasher, the first runs of a source, vectors in a random order, and collections that are
//! written out. The calls are proved from the contracts of `run_map`, `run_set` and `run_vec`
//! alone.
#![tactic(auto)]

pub mod hashers;
pub mod map_calls;
pub mod own_maps;
pub mod random;
pub mod runs;
pub mod set_calls;
pub mod vector_calls;
pub mod written_out;
