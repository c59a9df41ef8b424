//! Text that holds at least one character.
//!
//! The Rust crate `nonempty-collections` has no such type. [`NEString`] is made as its types are:
//! `first`, `last` and `len` always have a value, and what removes characters never takes the only
//! one.
//!
//! In contracts the value of an [`NEString`] is the list of its bytes, as that of a `&str`, and
//! `chars` of it is the list of its characters.
#![tactic(auto)]

pub mod laws;
pub mod string;

pub use string::NEString;
