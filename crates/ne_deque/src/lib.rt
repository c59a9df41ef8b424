//! A double-ended queue that holds at least one item.
//!
//! In contracts the value of an [`NEVecDeque`] is the list of its items, from front to back. That
//! this list is not empty is the invariant of the type.
#![tactic(auto)]

pub mod laws;
mod macros;
pub mod vec_deque;

pub use ne_iter::{Error, Singleton};
pub use vec_deque::NEVecDeque;
