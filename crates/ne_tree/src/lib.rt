//! Tree maps and sets that hold at least one item.
//!
//! This crate is a part of the port of `nonempty-collections`. What the Rust crate has too has its
//! name there, in a module of the same name. The maps and sets are std's `BTreeMap` and `BTreeSet`,
//! and iterate in ascending order of their keys.
//!
//! In contracts, an [`NEBTreeMap`] is std's record of a map and an [`NEBTreeSet`] is std's record
//! of a set, so std's definitions for them apply. The invariant of both types, `IsValid`, is
//! that there is at least one item, and that keys or items ascend.
#![tactic(auto)]

pub mod btree_map;
pub mod btree_set;
pub mod laws;

pub use btree_map::NEBTreeMap;
pub use btree_set::NEBTreeSet;
