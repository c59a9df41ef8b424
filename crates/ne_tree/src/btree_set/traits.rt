//! The traits of an [`NEBTreeSet`]: conversions, clones, equality as a set, collecting, printing.
ghost use Rattle.std.specs.Prelude.{◌≡◌, ◌↔◌, ◌++◌, IsTrue, MatchResult};
ghost use Rattle.std.specs.BTreeSet.{IsClone, IsEmpty, IsFromIterResult, IsSameSet};
ghost use Rattle.std.specs.Cmp.{on_equiv, on_per};
ghost use Rattle.std.specs.Cmp.Lexicographic.{lists_equiv, lists_per, pointwise};
ghost use Rattle.ne_iter.specs.Collected.{IsSetOf};
ghost use Rattle.ne_iter.specs.Keyed.Clones.{KeepsItems};
ghost use Rattle.ne_tree.specs.ValidTreeSet.{IsValid};

use super::NEBTreeSet;
use ne_iter::{Error, FromNonEmptyIterator, IntoNonEmptyIterator, Singleton};
use std::alloc::{AllocError, Global};
use std::collections::{BTreeSet, btree_set};
use std::fmt;
use std::fmt::Debug;

/// Returns the inner `BTreeSet`, for the methods that only a `BTreeSet` has. The set cannot be
/// changed through it.
impl<T: Ord> AsRef<BTreeSet<T>> for NEBTreeSet<T> {
    fn as_ref(&self) -> &BTreeSet<T>
        ensures same { result.now ≡ self.now }
        ensures valid { IsValid T.cmp self.now }
    {
        &self.inner
    }
}

/// Compares sets: they are equal if each item of either is in the other. It iterates over both sets
/// once, side by side, up to the first difference, and does not allocate.
impl<T: Ord> PartialEq for NEBTreeSet<T> {
    ghost eq = { λ s t. pointwise T.eq s.keys t.keys };

    ghost laws = { on_per (λ s. s.keys) (lists_per T.PartialEq.laws) };

    fn eq(&self, other: &NEBTreeSet<T>) -> bool
        ensures eq { result ≡ pointwise T.eq self.now.keys other.now.keys }
        ensures same_set { IsTrue result ↔ IsSameSet T.cmp self.now other.now }
    {
        equal_iterators(self.inner.iter(), other.inner.iter())
    }
}

// Returns whether the two iterators have equal items at each place and end together.
fn equal_iterators<'a, T: Ord>(mine: btree_set::Iter<'a, T>, theirs: btree_set::Iter<'a, T>) -> bool
    ensures { result ≡ pointwise T.eq mine.entry theirs.entry }
{
    let mut mine = mine;
    let mut theirs = theirs;
    while let Some(x) = mine.next() {
        let Some(y) = theirs.next() else {
            return false;
        };
        if x != y {
            return false;
        }
    }
    theirs.next().is_none()
}

impl<T: Ord> Eq for NEBTreeSet<T> {
    ghost laws = { on_equiv (λ s. s.keys) (lists_equiv T.Eq.laws) };
}

/// Calls the inherent method `into_set`.
impl<T: Ord> From<NEBTreeSet<T>> for BTreeSet<T> {
    ghost from_gives = { λ s t. (t ≡ s) × IsValid T.cmp t };

    fn from(s: NEBTreeSet<T>) -> BTreeSet<T> {
        s.into_set()
    }
}

/// Converts a set as `try_from_set` does, and returns `Error::Empty` if and only if `set` is empty.
/// It does not allocate; the Rust crate collects the items into a new set.
impl<T: Ord> TryFrom<BTreeSet<T>> for NEBTreeSet<T> {
    ghost use Rattle.std.specs.Prelude.{Result};

    type Error = Error;

    ghost try_from_gives = { λ set r. MatchResult r (λ s. s ≡ set) (λ _. IsEmpty set) };

    fn try_from(set: BTreeSet<T>) -> Result<NEBTreeSet<T>, Error> {
        match NEBTreeSet::try_from_set(set) {
            Some(made) => Ok(made),
            None => Err(Error::Empty),
        }
    }
}

/// Calls the inherent method `clone`.
impl<T: Ord + Clone> Clone for NEBTreeSet<T> {
    ghost is_clone = { λ s t. IsClone T.is_clone s t × KeepsItems T.is_clone s.keys t.keys };

    fn clone(&self) -> Result<NEBTreeSet<T>, AllocError> {
        NEBTreeSet::clone(self)
    }
}

/// Collects items into a set that holds each of them once. The items are in ascending order.
impl<T: Ord + Drop> FromNonEmptyIterator<T> for NEBTreeSet<T> {
    ghost collected = { λ xs s. IsSetOf T.eq xs s.keys × IsFromIterResult T.cmp xs s };

    fn from_nonempty_iter<I: IntoNonEmptyIterator<Item = T>>(
        alloc: Global,
        iter: I,
    ) -> Result<NEBTreeSet<T>, AllocError> {
        let inner: BTreeSet<T> = BTreeSet::from_nonempty_iter(alloc, iter)?;
        Ok(NEBTreeSet { inner })
    }
}

/// Prints as std prints a set: `{1, 2}`.
impl<T: Ord + Debug> Debug for NEBTreeSet<T> {
    fn fmt<W: fmt::Write>(&self, f: &mut fmt::Formatter<W>) -> fmt::Result {
        self.inner.fmt(f)
    }
}

/// Starts with one item, and adds each further item by `insert`.
impl<T: Ord + Drop> Singleton for NEBTreeSet<T> {
    type Item = T;

    ghost collected = { λ xs s. IsSetOf T.eq xs s.keys × IsFromIterResult T.cmp xs s };

    fn singleton(alloc: Global, item: T) -> Result<NEBTreeSet<T>, AllocError> {
        NEBTreeSet::new(alloc, item)
    }

    fn extend_one(&mut self, item: T) -> Result<(), AllocError> {
        let _added = self.insert(item)?;
        Ok(())
    }
}

/// Calls the inherent method `extend`.
impl<T: Ord + Drop> Extend<T> for NEBTreeSet<T> {
    ghost extend_gives = { λ s items t. IsSetOf T.eq (s.keys ++ items) t.keys
        × IsValid T.cmp t };

    fn extend<I: IntoIterator<Item = T>>(&mut self, iter: I) -> Result<(), AllocError> {
        NEBTreeSet::extend(self, iter)
    }
}
