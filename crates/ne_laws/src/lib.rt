//! Functions that make several calls of the library, with contracts that say what all of the calls
//! did. [`reader`] reads the first runs of an iterator and then stops, [`vector_calls`] makes a
//! list of calls on a vector, [`map_calls`] makes a list of calls on a map, which can be any of
//! [`maps`], and [`set_calls`] on a set, which can be any of [`sets`].
//!
//! The Rust crate has nothing like this crate.
#![tactic(auto)]

pub mod map_calls;
pub mod maps;
pub mod reader;
pub mod set_calls;
pub mod sets;
pub mod vector_calls;
