//! Generic code as a user writes it: chains of adapters over any source, a user's own sources, and
//! vectors. All of it is proved only from the contracts of the public methods and functions, among
//! them laws. It imports from the crates below the facade, so that a change of a map does not prove
//! it again.
#![tactic(auto)]

mod any_source;
mod inner_sources;
mod nested;
mod numbering;
mod over_a_stack;
mod own_sources;
mod runs;
mod sides;
mod two_collections;
pub mod vectors;

pub use any_source::{first_items, greatest, halves, joined, small};
pub use inner_sources::{spread, spread_countdown, spread_pairs};
pub use nested::{running_totals, scan_of_all};
pub use numbering::{numbered, numbered_halves};
pub use over_a_stack::{all_below_ten, second_parts};
pub use own_sources::{Boxed, Countdown, CountdownIter, Stack, StackIntoIter, StackIter, Start};
pub use runs::{first_runs, run_lengths, runs_of_results};
pub use sides::mapped_side;
pub use two_collections::parted;
