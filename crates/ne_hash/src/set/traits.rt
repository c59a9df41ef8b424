//! The traits of an [`NESet`]: conversions, clones, equality as a set, collecting, printing.
ghost use Rattle.std.specs.Prelude.{◌≡◌, ◌↔◌, ◌++◌, IsTrue, MatchResult};
ghost use Rattle.std.specs.HashSet.{hash_set_eq, IsEmpty, IsSameSet};
ghost use Rattle.std.specs.HashSet.{IsClone};
ghost use Rattle.ne_iter.specs.Collected.{IsSetOf};
ghost use Rattle.ne_iter.specs.Keyed.Clones.{KeepsItems};
ghost use Rattle.ne_hash.specs.ValidHashSet.{IsValid};

use super::NESet;
use ne_iter::{Error, FromNonEmptyIterator, IntoNonEmptyIterator, Singleton};
use std::alloc::{AllocError, Global};
use std::collections::HashSet;
use std::fmt;
use std::fmt::Debug;
use std::hash::{BuildHasher, Hash};

/// Returns the inner `HashSet`, for the methods that only a `HashSet` has. The set cannot be
/// changed through it.
impl<T: Eq + Hash, S: BuildHasher> AsRef<HashSet<T, S>> for NESet<T, S> {
    fn as_ref(&self) -> &HashSet<T, S>
        ensures same { result.now ≡ self.now }
        ensures valid { IsValid T.eq self.now }
    {
        &self.inner
    }
}

/// Compares sets: they are equal if each item of either is in the other. The order of iteration
/// does not matter.
impl<T: Eq + Hash, S: BuildHasher> PartialEq for NESet<T, S> {
    ghost use Rattle.std.specs.Cmp.{partial_equiv_from_equiv};
    ghost use Rattle.std.specs.HashSet.Eq.{hash_set_eq_equiv};

    ghost eq = { hash_set_eq T.eq };

    ghost laws = { partial_equiv_from_equiv (hash_set_eq_equiv T.Eq.laws) };

    fn eq(&self, other: &NESet<T, S>) -> bool
        ensures eq { result ≡ hash_set_eq T.eq self.now other.now }
        ensures same_set { IsTrue result ↔ IsSameSet T.eq self.now other.now }
    {
        self.inner == other.inner
    }
}

impl<T: Eq + Hash, S: BuildHasher> Eq for NESet<T, S> {
    ghost use Rattle.std.specs.HashSet.Eq.{hash_set_eq_equiv};

    ghost laws = { hash_set_eq_equiv T.Eq.laws };
}

/// Calls the inherent method `into_set`.
impl<T: Eq + Hash, S: BuildHasher> From<NESet<T, S>> for HashSet<T, S> {
    ghost from_gives = { λ s t. (t ≡ s) × IsValid T.eq t };

    fn from(s: NESet<T, S>) -> HashSet<T, S> {
        s.into_set()
    }
}

/// Converts a set as `try_from_set` does, and returns `Error::Empty` if and only if `set` is empty.
/// It does not allocate and keeps the hasher; the Rust crate collects the items into a new set with
/// a default hasher.
impl<T: Eq + Hash, S: BuildHasher + Drop> TryFrom<HashSet<T, S>> for NESet<T, S> {
    ghost use Rattle.std.specs.Prelude.{Result};

    type Error = Error;

    ghost try_from_gives = { λ set r. MatchResult r (λ s. s ≡ set) (λ _. IsEmpty set) };

    fn try_from(set: HashSet<T, S>) -> Result<NESet<T, S>, Error> {
        match NESet::try_from_set(set) {
            Some(made) => Ok(made),
            None => Err(Error::Empty),
        }
    }
}

/// Calls the inherent method `clone`.
impl<T: Eq + Hash + Clone, S: BuildHasher + Clone> Clone for NESet<T, S> {
    ghost is_clone = { λ s t. IsClone T.is_clone s t × KeepsItems T.is_clone s.keys t.keys };

    fn clone(&self) -> Result<NESet<T, S>, AllocError> {
        NESet::clone(self)
    }
}

/// Collects items into a set that holds each of them once.
impl<T: Eq + Hash + Drop, S: BuildHasher + Default + Drop> FromNonEmptyIterator<T> for NESet<T, S> {
    ghost collected = { λ xs s. IsSetOf T.eq xs s.keys };

    fn from_nonempty_iter<I: IntoNonEmptyIterator<Item = T>>(
        alloc: Global,
        iter: I,
    ) -> Result<NESet<T, S>, AllocError> {
        let inner: HashSet<T, S> = HashSet::from_nonempty_iter(alloc, iter)?;
        Ok(NESet { inner })
    }
}

/// Prints as std prints a set: `{1}`.
impl<T: Eq + Hash + Debug, S: BuildHasher> Debug for NESet<T, S> {
    fn fmt<W: fmt::Write>(&self, f: &mut fmt::Formatter<W>) -> fmt::Result {
        self.inner.fmt(f)
    }
}

/// Starts with one item, and adds each further item by `insert`.
impl<T: Eq + Hash + Drop> Singleton for NESet<T> {
    type Item = T;

    ghost collected = { λ xs s. IsSetOf T.eq xs s.keys };

    fn singleton(alloc: Global, item: T) -> Result<NESet<T>, AllocError> {
        NESet::new(alloc, item)
    }

    fn extend_one(&mut self, item: T) -> Result<(), AllocError> {
        let _added = self.insert(item)?;
        Ok(())
    }
}

/// Calls the inherent method `extend`.
impl<T: Eq + Hash + Drop, S: BuildHasher> Extend<T> for NESet<T, S> {
    ghost extend_gives = { λ s items t. IsSetOf T.eq (s.keys ++ items) t.keys
        × IsValid T.eq t };

    fn extend<I: IntoIterator<Item = T>>(&mut self, iter: I) -> Result<(), AllocError> {
        NESet::extend(self, iter)
    }
}
