//! Products of two non-empty iterators, and values of one of two types.
//!
//! This crate is a part of the port of `nonempty-collections`. The crate of that name re-exports it
//! as its modules `either` and `itertools`: [`NEEither`] is a value of one of two types, and
//! [`NonEmptyItertools`] has further methods of non-empty iterators, besides those of
//! [`NonEmptyIterator`](ne_iter::NonEmptyIterator). The code is in a crate of its own, because a
//! crate that depends on the library `either` may not have a module of that name.
#![tactic(auto)]

pub mod laws;
pub mod products;
pub mod sides;

pub use products::{NonEmptyItertools, Product, ProductIter};
pub use sides::NEEither;
