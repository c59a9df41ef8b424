//! Chains over references, over structs with vectors and over texts, chunks and runs, as a user
//! writes them. One function has a proof file, `chunk_vectors`, for its loop; `total_of_few` and
//! two functions of `runs` call a law. If less than the exact result is proved today, as of `unzip`
//! of texts, the function ensures that.
//!
//! As `user_manual` it imports from the crates below the facade.
#![tactic(auto)]

pub mod joins;
pub mod mixed;
pub mod nested;
pub mod optional;
pub mod parts;
pub mod references;
pub mod runs;
pub mod texts;
