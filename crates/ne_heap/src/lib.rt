//! Priority queues that hold at least one item.
//!
//! An [`NEBinaryHeap`] is std's `BinaryHeap`, and gives its greatest item first. The Rust crate has
//! no such type.
//!
//! In contracts an [`NEBinaryHeap`] is the list of its items: a greatest one first, and the others
//! in some order of a heap. The invariant of the type, `IsValid`, is that there is an item, and
//! that the list is a heap.
#![tactic(auto)]

pub mod binary_heap;
pub mod laws;

pub use binary_heap::NEBinaryHeap;
