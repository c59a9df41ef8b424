//! Index maps and sets that hold at least one item, and keep their items in the order of insertion
//! until a call that swaps moves some.
//!
//! This crate is a part of the port of `nonempty-collections`. What the Rust crate has too has its
//! name there, in a module of the same name. The maps and sets are `IndexMap` and `IndexSet` of the
//! crate `indexmap`. A new key is added at the end, and each key has an index, from 0.
//!
//! In contracts, an [`NEIndexMap`] is the record of the inner map, whose `entries` are in the map's
//! order, and an [`NEIndexSet`] is the record of the inner set, with its `keys`, so std's
//! definitions for hashed maps and sets apply. The invariant of both types, `IsValid`, is that
//! there is at least one item, and that no two keys or items are equal.
#![tactic(auto)]

pub mod index_map;
pub mod index_set;
pub mod laws;

pub use index_map::NEIndexMap;
pub use index_set::NEIndexSet;
