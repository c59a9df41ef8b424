//! Non-empty collections and iterators: a port of the Rust crate of this name.
//!
//! A vector, slice, map, set or source of this crate always has an item, so methods that return an
//! item always succeed. This crate has no code of its own except the macros and some laws. It
//! exports the other crates of the port under the Rust crate's names and modules, and their laws in
//! [`laws`]. Contracts name the definitions as `Rattle.nonempty_collections.specs`.
#![tactic(auto)]

pub mod either;
pub mod itertools;
pub mod laws;
mod macros;

pub use ne_hash::{NEMap, NESet, map, set};
pub use ne_index::{NEIndexMap, NEIndexSet, index_map, index_set};
pub use ne_iter::{
    ArrayNonEmptyIterator, Error, FromNonEmptyIterator, IntoIteratorExt, IntoNonEmptyIterator,
    NonEmptyArrayExt, NonEmptyIterator, Singleton, array, iter,
};
pub use ne_products::{NEEither, NonEmptyItertools};
pub use ne_tree::{NEBTreeMap, NEBTreeSet, btree_map, btree_set};
pub use ne_vec::{NESlice, NEVec, slice, vector};
