//! A value of one of two types, which is a source if both are.
//!
//! Its code is in the crate `ne_products`, like that of [`itertools`](crate::itertools): a crate
//! that depends on the library `either` cannot have a module of that name.

pub use ne_products::NEEither;
