//! Functions over vectors and chains, as a user writes them: the manual of the library in code.
//! Chains over references and texts, and runs, are in `user_references`, maps in `user_maps`,
//! queues in `user_queues`.
//!
//! They show more than the examples in comments do, and are proved from the public contracts of
//! what they call. Two have proof files: `pairs_of_any_sources`, which calls two laws, and
//! `how_many_small`, for its loop. Most ensure the exact result.
//!
//! The manual imports from the crates below the facade, so that a change of a map does not prove it
//! again; code over the facade imports the same from `nonempty_collections`.
#![tactic(auto)]

pub mod adapters;
pub mod chains;
pub mod consumers;
pub mod first_item;
pub mod generic;
pub mod instead;
pub mod loops;
pub mod sources;
pub mod start;
pub mod vectors;
