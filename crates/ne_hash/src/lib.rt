//! Hashed maps and sets that hold at least one item.
//!
//! This crate is a part of the port of `nonempty-collections`. What the Rust crate has too has its
//! name there, in a module of the same name. The maps and sets are std's `HashMap` and `HashSet`,
//! with any hasher. The order of iteration is unspecified; a map or set that has not changed since
//! iterates in the same order again.
//!
//! In contracts, an [`NEMap`] is std's record of a map and an [`NESet`] is std's record of a set,
//! so std's definitions for them apply. The invariant of both types, `IsValid`, is that there is
//! at least one item, and that no two keys or items are equal.
#![tactic(auto)]

pub mod laws;
pub mod map;
pub mod set;

pub use map::NEMap;
pub use set::NESet;
