//! Further methods of non-empty sources: the product of two sources, and whether the items of one
//! are all different.

pub use ne_products::{NonEmptyItertools, Product, ProductIter};
