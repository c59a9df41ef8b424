//! A non-empty iterator that holds an iterator of std or of a crate.
//!
//! The iterators over maps and sets are this type, by an alias for each, except the mutable ones.
//! What is known of the iterator inside is said by a type of the crate that has the alias, which
//! implements [`HeldIterator`].
ghost use Rattle.std.specs.Prelude.{◌≡◌, ◌<◌, ℕ, ⊤};
ghost use Rattle.ne_vec.specs.Lists.{View, itself};
ghost use Rattle.ne_iter.specs.Sources.{HasFirst};

use super::NonEmptyIterator;
use std::alloc::AllocError;
use std::marker::{Model, PhantomData};

/// Says what is known of an iterator `I` that a non-empty iterator holds. It is used in contracts
/// only, and has no method.
///
/// `items_left` is the number of items that it has left, and `known` what else a caller knows of
/// it. The law `has_first` says that it first returns an item if it has one left.
pub trait HeldIterator<I: Iterator> {
    ghost item_view: { View I.Item } = { itself };

    ghost items_left: { I → ℕ };

    ghost known: { I → Type 0 } = { λ _. ⊤ };

    ghost has_first: { (it : I) → 0 < items_left it → HasFirst I.next_gives it };
}

/// A non-empty iterator that holds the iterator `I`. In contracts it is that iterator.
#[derive(Drop)]
pub struct NonEmptyIter<I: Iterator, W: HeldIterator<I>> {
    inner: I,
    of: PhantomData<W>,
}

impl<I: Iterator, W: HeldIterator<I>> Model for NonEmptyIter<I, W> {
    ghost use Rattle.std.specs.Prelude.{◌<◌};

    ghost Value = { I };

    ghost view = { λ w. w.inner };

    ghost invariant = { λ w. (0 < W.items_left w.inner) × W.known w.inner };
}

impl<I: Iterator, W: HeldIterator<I>> NonEmptyIter<I, W> {
    /// Holds an iterator that has an item left.
    pub fn new(inner: I) -> Self
        requires nonempty { 0 < W.items_left inner }
        requires known { W.known inner }
        ensures { result ≡ inner }
    {
        NonEmptyIter {
            inner,
            of: PhantomData,
        }
    }
}

impl<I: Iterator, W: HeldIterator<I>> NonEmptyIterator for NonEmptyIter<I, W> {
    ghost use Rattle.std.proofs.Common.{subst, sym};

    ghost item_view = { W.item_view };

    ghost not_empty = { λ w it made.
        W.has_first it (subst (λ v. 0 < W.items_left v) (sym made.1) made.0) };
}

impl<I: Iterator, W: HeldIterator<I>> IntoIterator for NonEmptyIter<I, W> {
    type Item = I::Item;

    type IntoIter = I;

    ghost into_iter_gives = { λ w it. (0 < W.items_left w) × (it ≡ w) × W.known w };

    fn into_iter(self) -> I {
        self.inner
    }
}

/// Says that a clone of the iterator `I` is the same iterator. It is used in contracts only.
pub trait ClonedIterator<I: Iterator + Clone>: HeldIterator<I> {
    ghost is_same: { (it jt : I) → I.is_clone it jt → jt ≡ it };
}

/// Clones the iterator inside.
impl<I: Iterator + Clone, W: ClonedIterator<I>> Clone for NonEmptyIter<I, W> {
    ghost is_clone = { I.is_clone };

    ghost is_infallible = { I.is_infallible };

    fn clone(&self) -> Result<NonEmptyIter<I, W>, AllocError> {
        Ok(NonEmptyIter {
            inner: self.inner.clone()?,
            of: PhantomData,
        })
    }
}
