//! Functions that a user writes first over queues, priority queues and texts.
#![tactic(auto)]

pub mod heaps;
pub mod laws;
pub mod names;
pub mod queues;
