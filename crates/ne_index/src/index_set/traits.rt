//! The traits of an [`NEIndexSet`]: conversions, clones, equality as a set, collecting, printing.
ghost use Rattle.std.specs.Prelude.{◌≡◌, ◌<◌, ◌↔◌, ◌++◌, IfOk, IsTrue, List, MatchResult, true};
ghost use Rattle.std.specs.HashSet.Eq.{hash_set_eq_equiv};
ghost use Rattle.std.specs.Cmp.{partial_equiv_from_equiv};
ghost use Rattle.std.specs.Iterator.{IsFiniteIterable};
ghost use Rattle.indexmap.specs.IndexSet.{hasher_of, index_set_eq, index_set_len, IsEmpty, IsClone};
ghost use Rattle.indexmap.specs.IndexSet.{IsSameSet};
ghost use Rattle.ne_iter.specs.Keyed.Clones.{KeepsItems};
ghost use Rattle.ne_index.specs.KeyListSets.{IsKeyListSetOf};
ghost use Rattle.ne_index.specs.ValidIndexSet.{IsValid};

use super::NEIndexSet;
use indexmap::IndexSet;
use ne_iter::iter::ItemSource;
use ne_iter::{Error, FromNonEmptyIterator, IntoNonEmptyIterator, NonEmptyIterator, Singleton};
use std::alloc::{AllocError, Global};
use std::fmt;
use std::fmt::Debug;
use std::hash::{BuildHasher, Hash};

/// Returns the inner `IndexSet`, for the methods that only an `IndexSet` has. The set cannot be
/// changed through it.
impl<T: Eq + Hash, S: BuildHasher> AsRef<IndexSet<T, S>> for NEIndexSet<T, S> {
    fn as_ref(&self) -> &IndexSet<T, S>
        ensures same { result.now ≡ self.now }
        ensures valid { IsValid T.eq self.now }
    {
        &self.inner
    }
}

/// Compares sets: they are equal if each item of either is in the other. The order of the items
/// does not matter.
impl<T: Eq + Hash, S: BuildHasher> PartialEq for NEIndexSet<T, S> {
    ghost eq = { index_set_eq T.eq };

    ghost laws = { partial_equiv_from_equiv (hash_set_eq_equiv T.Eq.laws) };

    fn eq(&self, other: &NEIndexSet<T, S>) -> bool
        ensures eq { result ≡ index_set_eq T.eq self.now other.now }
        ensures same_set { IsTrue result ↔ IsSameSet T.eq self.now other.now }
    {
        self.inner == other.inner
    }
}

impl<T: Eq + Hash, S: BuildHasher> Eq for NEIndexSet<T, S> {
    ghost laws = { hash_set_eq_equiv T.Eq.laws };
}

/// Calls the inherent method `into_set`.
impl<T: Eq + Hash, S: BuildHasher> From<NEIndexSet<T, S>> for IndexSet<T, S> {
    ghost from_gives = { λ s t. (t ≡ s) × IsValid T.eq t };

    fn from(s: NEIndexSet<T, S>) -> IndexSet<T, S> {
        s.into_set()
    }
}

/// Converts a set as `try_from_set` does, and returns `Error::Empty` if and only if `set` is empty.
/// It does not allocate and keeps the hasher; the Rust crate collects the items into a new set with
/// a default hasher.
impl<T: Eq + Hash, S: BuildHasher + Drop> TryFrom<IndexSet<T, S>> for NEIndexSet<T, S> {
    ghost use Rattle.std.specs.Prelude.{Result};

    type Error = Error;

    ghost try_from_gives = { λ set r. MatchResult r (λ s. s ≡ set) (λ _. IsEmpty set) };

    fn try_from(set: IndexSet<T, S>) -> Result<NEIndexSet<T, S>, Error> {
        match NEIndexSet::try_from_set(set) {
            Some(made) => Ok(made),
            None => Err(Error::Empty),
        }
    }
}

/// Calls the inherent method `clone`.
impl<T: Eq + Hash + Clone, S: BuildHasher + Clone> Clone for NEIndexSet<T, S> {
    ghost is_clone = { λ s t. IsClone T.is_clone s t × KeepsItems T.is_clone s.keys t.keys };

    fn clone(&self) -> Result<NEIndexSet<T, S>, AllocError> {
        NEIndexSet::clone(self)
    }
}

/// Collects items into a set that holds each of them once, in the order in which they first appear.
impl<T: Eq + Hash + Drop, S: BuildHasher + Default + Drop> FromNonEmptyIterator<T>
    for NEIndexSet<T, S> {
    ghost collected = { λ items s. IsKeyListSetOf T.eq items s.keys };

    fn from_nonempty_iter<I: IntoNonEmptyIterator<Item = T>>(
        alloc: Global,
        iter: I,
    ) -> Result<NEIndexSet<T, S>, AllocError> {
        let inner = collected(alloc, iter)?;
        Ok(NEIndexSet { inner })
    }
}

// Collects items into an `IndexSet`, whose type does not guarantee an item.
fn collected<
    T: Eq + Hash + Drop,
    S: BuildHasher + Default + Drop,
    I: IntoNonEmptyIterator<Item = T>,
>(alloc: Global, iter: I) -> Result<IndexSet<T, S>, AllocError>
    requires { (source : I.IntoNEIter) → I.into_nonempty_iter_gives iter source
        → IsFiniteIterable I.IntoNEIter.into_iter_gives I.IntoNEIter.IntoIter.can_next
        I.IntoNEIter.IntoIter.remaining source }
    ensures { IfOk result (λ s. (items : List T) × ⟦<I as ItemSource>⟧.reads true iter items
        × (IsKeyListSetOf T.eq items s.keys × (0 < index_set_len s))) }
{
    iter.into_nonempty_iter().into_iter().collect(alloc)
}

/// Prints as std prints a set: `{1, 2}`.
impl<T: Eq + Hash + Debug, S: BuildHasher> Debug for NEIndexSet<T, S> {
    fn fmt<W: fmt::Write>(&self, f: &mut fmt::Formatter<W>) -> fmt::Result {
        self.inner.fmt(f)
    }
}

/// Starts with one item, and adds each further item by `insert`.
impl<T: Eq + Hash + Drop> Singleton for NEIndexSet<T> {
    type Item = T;

    ghost collected = { λ items s. IsKeyListSetOf T.eq items s.keys };

    fn singleton(alloc: Global, item: T) -> Result<NEIndexSet<T>, AllocError> {
        NEIndexSet::new(alloc, item)
    }

    fn extend_one(&mut self, item: T) -> Result<(), AllocError> {
        let _added = self.insert(item)?;
        Ok(())
    }
}

/// Calls the inherent method `extend`.
impl<T: Eq + Hash + Drop, S: BuildHasher> Extend<T> for NEIndexSet<T, S> {
    ghost extend_gives = { λ s items t. IsKeyListSetOf T.eq (s.keys ++ items) t.keys
        × (hasher_of t ≡ hasher_of s) × IsValid T.eq t };

    fn extend<I: IntoIterator<Item = T>>(&mut self, iter: I) -> Result<(), AllocError> {
        NEIndexSet::extend(self, iter)
    }
}
