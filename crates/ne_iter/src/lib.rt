//! Iterators that give at least one item, and collecting from them.
//!
//! This is the part of the port of `nonempty-collections` that the crates of maps and sets build
//! on. What the Rust crate has too has its name there, in a module of the same name.
//!
//! Contracts describe a source by the items that it may yield: the lists `xs` for which
//! `reads whole source xs` holds. If `whole` is true, the source yields `xs` and ends; otherwise it
//! may yield more after `xs`. That a source yields at least one item is the law of
//! [`NonEmptyIterator`].
#![tactic(auto)]

pub mod array;
pub mod iter;
mod keys;
pub mod laws;
mod slice;
mod vector;

pub use array::{ArrayNonEmptyIterator, NonEmptyArrayExt};
pub use iter::{FromNonEmptyIterator, IntoIteratorExt, IntoNonEmptyIterator, NonEmptyIterator};
pub use ne_vec::{Error, Singleton};
