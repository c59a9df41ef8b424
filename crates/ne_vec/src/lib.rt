//! Vectors and slices that hold at least one item.
//!
//! This is the part of the port of `nonempty-collections` that the other crates build on. What the
//! Rust crate has too has its name there, in a module of the same name.
//!
//! In contracts the value of an [`NEVec`] or an [`NESlice`] is the list of its items. That this
//! list is not empty is the invariant of both types.
#![tactic(auto)]

pub mod laws;
pub mod serialized;
pub mod slice;
pub mod vector;

ghost use Rattle.std.specs.Prelude.{List, [], ◌∷◌, ◌++◌, IfOk, OnOk, OnErr};

pub use slice::NESlice;
use std::alloc::{AllocError, Global};
use std::fmt;
pub use vector::NEVec;

/// Why a value could not be made.
///
/// ```
/// let none = NEVec::try_from(Vec::<u32>::new(alloc)); // Err(Error::Empty)
/// ```
#[derive(Debug, Clone, Copy, Drop)]
pub enum Error {
    /// The given collection has no items.
    Empty,
}

impl fmt::Display for Error {
    ghost use Rattle.std.specs.Prelude.{Some, codes};

    ghost output = { λ _. Some (codes "Given collection was empty") };

    fn fmt<W: fmt::Write>(&self, f: &mut fmt::Formatter<W>) -> fmt::Result {
        f.write_str(serialized::EMPTY)
    }
}

/// A collection that can be made from one item and then grows one item at a time.
///
/// `collected xs c` says that `c` is what the items `xs` make, in this order; for a vector, that
/// `c` is the list `xs`. The clauses of the two methods are laws, which each implementation proves
/// for its own `collected`. In the Rust crate the trait has no `extend_one`, and code that adds
/// items requires `Extend` as well.
///
/// ```
/// let mut two: NEVec<u32> = Singleton::singleton(alloc, 1)?;
/// two.extend_one(2)?; // [1, 2]
/// ```
pub trait Singleton: Sized {
    /// The type of the items; for a map, pairs of a key and a value.
    type Item;

    ghost collected: { List Self.Item → Self → Type 0 };

    /// Returns a collection of one item.
    ///
    /// Returns `AllocError` if the allocation fails; the item is then dropped.
    fn singleton(alloc: Global, item: Self::Item) -> Result<Self, AllocError>
        ensures { IfOk result (collected (item ∷ [])) };

    /// Adds an item, as `push` on a vector and `insert` on a set or a map do.
    ///
    /// Returns `AllocError` if the collection has to grow and the allocation fails; it is then
    /// still what its items made, and the new item is dropped.
    fn extend_one(&mut self, item: Self::Item) -> Result<(), AllocError>
        ensures added { OnOk result ((xs : List Self.Item) → collected xs self.old
            → collected (xs ++ item ∷ []) self.new) }
        ensures unchanged { OnErr result ((xs : List Self.Item) → collected xs self.old
            → collected xs self.new) };
}
