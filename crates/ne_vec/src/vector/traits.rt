//! Traits that [`NEVec`] implements: conversions, indexing, cloning, extending, comparison and
//! hashing as a list, and printing. `iter` and `serialized` have the others.
ghost use Rattle.std.specs.Prelude.{◌≡◌, ◌-◌, ◌<◌, ◌≤◌, [], ◌++◌, length, Some, MatchResult};
ghost use Rattle.std.specs.Prelude.{slice_get};
ghost use Rattle.std.specs.Cmp.Lexicographic.{pointwise, slice_cmp, slice_partial_cmp, lists_equiv};
ghost use Rattle.std.specs.Cmp.Lexicographic.{lists_agrees, lists_total, lists_ties, lists_po};
ghost use Rattle.std.specs.Cmp.Lexicographic.{lists_per};
ghost use Rattle.std.specs.Hash.{items_Alike};
ghost use Rattle.std.specs.Hash as fed;

use super::NEVec;
use crate::{Error, Singleton};
use std::alloc::{AllocError, Global};
use std::cmp::Ordering;
use std::convert::AsSlice;
use std::fmt;
use std::fmt::Debug;
use std::hash::{Hash, Hasher};
use std::ops::{Index, IndexMut};

/// Returns the inner `Vec`, which no longer guarantees an item.
///
/// ```
/// let vec: Vec<u32> = nev![alloc; 4, 6, 8]?.into(); // [4, 6, 8]
/// ```
impl<T> From<NEVec<T>> for Vec<T> {
    ghost from_gives = { λ v w. (w.items ≡ v) × (0 < length v) };

    fn from(value: NEVec<T>) -> Vec<T> {
        value.into_vec()
    }
}

/// Returns the inner `Vec`, for the methods that only `Vec` has. It cannot be changed through this
/// reference; `as_mut_slice` gives mutable access to the items.
impl<T> AsRef<Vec<T>> for NEVec<T> {
    fn as_ref(&self) -> &Vec<T>
        ensures same { result.now.items ≡ self.now }
        ensures nonempty { 0 < length self.now }
    {
        &self.inner
    }
}

/// Returns the items as a slice. Not in the Rust crate, where a caller calls `as_ref` first.
impl<T> AsSlice<T> for NEVec<T> {
    ghost items = { λ v. v };

    fn as_slice(&self) -> &[T]
        ensures same { result.now ≡ self.now }
        ensures nonempty { 0 < length self.now }
    {
        self.inner.as_slice()
    }
}

/// Returns the item at `index`, which must be at most the last index; 0 is always allowed. The Rust
/// crate panics otherwise, and also takes ranges.
///
/// ```
/// let items = nev![alloc; 4, 6, 8, 9]?;
/// let (first, last) = (items[0], items[3]); // 4 and 9
/// ```
impl<T> Index<usize> for NEVec<T> {
    type Output = T;

    ghost can_index = { λ v i. i ≤ length v - 1 };

    ghost index_gives = { λ v i x. slice_get v i ≡ Some x };

    fn index(&self, index: usize) -> &T
        requires { index ≤ length self.now - 1 }
        ensures { slice_get self.now index ≡ Some result.now }
    {
        &self.inner[index]
    }
}

/// Returns a mutable reference to the item at `index`, which must be at most the last index; 0 is
/// always allowed. The other items stay unchanged.
///
/// ```
/// let mut items = nev![alloc; 11, 20, 31]?;
/// items[1] = 21; // [11, 21, 31]
/// ```
impl<T> IndexMut<usize> for NEVec<T> {
    ghost use Rattle.std.specs.Borrow.{sem};
    ghost use Rattle.ne_vec.specs.VectorLends.{LendsItem};

    fn index_mut(&mut self, index: usize) -> &mut T
        requires { index ≤ length self.old - 1 }
        ensures* writes_back { sem 𝓛 (LendsItem T.row self.entry index result) }
        ensures value { slice_get self.old index ≡ Some result.now }
    {
        &mut self.inner[index]
    }
}

/// Calls the inherent method `clone`. It may fail, like the clone of a `Vec`, whatever the type of
/// the items is.
impl<T: Clone> Clone for NEVec<T> {
    ghost use Rattle.ne_vec.specs.Clones.{IsCloneOfList};

    ghost is_clone = { IsCloneOfList T.is_clone };

    fn clone(&self) -> Result<NEVec<T>, AllocError> {
        NEVec::clone(self)
    }
}

/// Calls the inherent method `extend`.
impl<T: Drop> Extend<T> for NEVec<T> {
    ghost extend_gives = { λ v xs w. w ≡ v ++ xs };

    fn extend<I: IntoIterator<Item = T>>(&mut self, iter: I) -> Result<(), AllocError> {
        NEVec::extend(self, iter)
    }
}

impl<T: PartialEq> PartialEq for NEVec<T> {
    ghost eq = { pointwise T.eq };

    ghost laws = { lists_per T.laws };

    fn eq(&self, other: &NEVec<T>) -> bool {
        self.inner == other.inner
    }
}

impl<T: Eq> Eq for NEVec<T> {
    ghost laws = { lists_equiv T.Eq.laws };
}

impl<T: Hash> Hash for NEVec<T> {
    ghost hash_input = { fed.slice T.hash_input };

    ghost respects_eq = { (items_Alike (record { fed = T.respects_eq })).fed };

    fn hash<H: Hasher>(&self, state: &mut H) {
        self.inner.hash(state);
    }
}

impl<T: PartialOrd> PartialOrd for NEVec<T> {
    ghost partial_cmp = { slice_partial_cmp T.partial_cmp };

    ghost laws = { lists_po T.PartialOrd.laws };

    fn partial_cmp(&self, other: &NEVec<T>) -> Option<Ordering> {
        self.inner.partial_cmp(&other.inner)
    }
}

impl<T: Ord> Ord for NEVec<T> {
    ghost cmp = { slice_cmp T.cmp };

    ghost total = { lists_total T.total };

    ghost matches_partial_cmp = { lists_agrees T.matches_partial_cmp };

    ghost matches_eq = { lists_ties T.cmp T.matches_eq };

    fn cmp(&self, other: &NEVec<T>) -> Ordering {
        self.inner.cmp(&other.inner)
    }
}

/// Prints the vector as std prints a list: `[1, 2, 3]`.
impl<T: Debug> Debug for NEVec<T> {
    fn fmt<W: fmt::Write>(&self, f: &mut fmt::Formatter<W>) -> fmt::Result {
        self.inner.fmt(f)
    }
}

/// Returns the vector that `try_from_vec` returns, or `Error::Empty` if `vec` is empty. It does not
/// allocate.
///
/// ```
/// let some = NEVec::try_from(vec![in alloc; 1, 2]?); // Ok([1, 2])
/// ```
impl<T> TryFrom<Vec<T>> for NEVec<T> {
    ghost use Rattle.std.specs.Prelude.{Result};
    ghost use Rattle.ne_vec.specs.declared.Error.{Error};

    type Error = Error;

    ghost try_from_gives = { λ vec r. MatchResult r (λ v. v ≡ vec.items) (λ _. vec.items ≡ []) };

    fn try_from(vec: Vec<T>) -> Result<NEVec<T>, Error> {
        match NEVec::try_from_vec(vec) {
            Some(made) => Ok(made),
            None => Err(Error::Empty),
        }
    }
}

impl<T: Drop> Singleton for NEVec<T> {
    type Item = T;

    ghost collected = { λ xs v. v ≡ xs };

    fn singleton(alloc: Global, item: T) -> Result<NEVec<T>, AllocError> {
        NEVec::new(alloc, item)
    }

    fn extend_one(&mut self, item: T) -> Result<(), AllocError> {
        self.push(item)
    }
}
