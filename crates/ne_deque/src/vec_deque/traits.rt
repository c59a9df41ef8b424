//! The traits that [`NEVecDeque`] implements: conversions, indexing, comparison as a list, and
//! printing.
ghost use Rattle.std.specs.Prelude.{◌≡◌, ◌-◌, ◌<◌, ◌≤◌, [], ◌++◌, length, Some, MatchResult};
ghost use Rattle.std.specs.Prelude.{slice_get};
ghost use Rattle.std.specs.Cmp.Lexicographic.{pointwise, slice_cmp, slice_partial_cmp, lists_equiv};
ghost use Rattle.std.specs.Cmp.Lexicographic.{lists_agrees, lists_total, lists_ties, lists_po};
ghost use Rattle.std.specs.Cmp.Lexicographic.{lists_per};
ghost use Rattle.std.specs.Hash.{items_Alike};
ghost use Rattle.std.specs.Hash as fed;

use super::NEVecDeque;
use ne_iter::{Error, Singleton};
use ne_vec::NEVec;
use std::alloc::{AllocError, Global};
use std::cmp::Ordering;
use std::collections::VecDeque;
use std::fmt;
use std::fmt::Debug;
use std::hash::{Hash, Hasher};
use std::ops::{Index, IndexMut};

/// Returns the inner `VecDeque`, which no longer guarantees an item.
///
/// ```
/// let inner: VecDeque<u32> = nevd![alloc; 4, 6, 8]?.into(); // [4, 6, 8]
/// ```
impl<T> From<NEVecDeque<T>> for VecDeque<T> {
    ghost from_gives = { λ q w. (w.items ≡ q) × (0 < length q) };

    fn from(value: NEVecDeque<T>) -> VecDeque<T> {
        value.inner
    }
}

/// Returns the queue that `try_from_deque` returns, or `Error::Empty` if `queue` is empty. It
/// does not allocate.
///
/// ```
/// let some = NEVecDeque::try_from(nevd![alloc; 1, 2]?.into_deque()); // Ok([1, 2])
/// ```
impl<T> TryFrom<VecDeque<T>> for NEVecDeque<T> {
    ghost use Rattle.std.specs.Prelude.{Result};
    ghost use Rattle.ne_vec.specs.declared.Error.{Error};

    type Error = Error;

    ghost try_from_gives = { λ queue r. MatchResult r (λ q. q ≡ queue.items)
        (λ _. queue.items ≡ []) };

    fn try_from(queue: VecDeque<T>) -> Result<NEVecDeque<T>, Error> {
        match NEVecDeque::try_from_deque(queue) {
            Some(made) => Ok(made),
            None => Err(Error::Empty),
        }
    }
}

/// Returns the items of a vector as a queue, in the same memory: the first is at the front. It
/// does not allocate.
///
/// ```
/// let queue = NEVecDeque::from(NEVec::new(alloc, 4)?); // [4]
/// ```
impl<T> From<NEVec<T>> for NEVecDeque<T> {
    ghost from_gives = { λ v q. q ≡ v };

    fn from(value: NEVec<T>) -> NEVecDeque<T> {
        NEVecDeque {
            inner: VecDeque::from_vec(value.into()),
        }
    }
}

/// Returns the items of a queue as a vector, in the same memory, from front to back. It does not
/// allocate, but may have to move the items.
///
/// ```
/// let items = NEVec::from(nevd![alloc; 4, 6]?); // [4, 6]
/// ```
impl<T> From<NEVecDeque<T>> for NEVec<T> {
    ghost from_gives = { λ q v. v ≡ q };

    fn from(value: NEVecDeque<T>) -> NEVec<T> {
        NEVec::try_from_vec(value.inner.into_vec()).unwrap()
    }
}

/// Returns the inner `VecDeque`, for the methods that only `VecDeque` has. It cannot be changed
/// through this reference.
impl<T> AsRef<VecDeque<T>> for NEVecDeque<T> {
    fn as_ref(&self) -> &VecDeque<T>
        ensures same { result.now.items ≡ self.now }
        ensures nonempty { 0 < length self.now }
    {
        &self.inner
    }
}

/// Returns the item at `index`, which must be at most the last index; 0 is always allowed. Rust's
/// `VecDeque` panics otherwise.
///
/// ```
/// let queue = nevd![alloc; 4, 6, 8, 9]?;
/// let (first, last) = (queue[0], queue[3]); // 4 and 9
/// ```
impl<T> Index<usize> for NEVecDeque<T> {
    type Output = T;

    ghost can_index = { λ q i. i ≤ length q - 1 };

    ghost index_gives = { λ q i x. slice_get q i ≡ Some x };

    fn index(&self, index: usize) -> &T
        requires { index ≤ length self.now - 1 }
        ensures { slice_get self.now index ≡ Some result.now }
    {
        &self.inner[index]
    }
}

/// Returns a mutable reference to the item at `index`, which must be at most the last index; 0 is
/// always allowed. The other items stay unchanged.
///
/// ```
/// let mut queue = nevd![alloc; 11, 20, 31]?;
/// queue[1] = 21; // [11, 21, 31]
/// ```
impl<T> IndexMut<usize> for NEVecDeque<T> {
    ghost use Rattle.std.specs.Borrow.{sem};
    ghost use Rattle.ne_deque.specs.QueueLends.{LendsItem};

    fn index_mut(&mut self, index: usize) -> &mut T
        requires { index ≤ length self.old - 1 }
        ensures* writes_back { sem 𝓛 (LendsItem T.row self.entry index result) }
        ensures value { slice_get self.old index ≡ Some result.now }
    {
        &mut self.inner[index]
    }
}

/// Calls the inherent method `clone`. It may fail, like the clone of a `VecDeque`, whatever the
/// type of the items is.
impl<T: Clone> Clone for NEVecDeque<T> {
    ghost use Rattle.ne_vec.specs.Clones.{IsCloneOfList};

    ghost is_clone = { IsCloneOfList T.is_clone };

    fn clone(&self) -> Result<NEVecDeque<T>, AllocError> {
        NEVecDeque::clone(self)
    }
}

/// Calls the inherent method `extend`.
impl<T: Drop> Extend<T> for NEVecDeque<T> {
    ghost extend_gives = { λ q xs w. w ≡ q ++ xs };

    fn extend<I: IntoIterator<Item = T>>(&mut self, iter: I) -> Result<(), AllocError> {
        NEVecDeque::extend(self, iter)
    }
}

impl<T: PartialEq> PartialEq for NEVecDeque<T> {
    ghost eq = { pointwise T.eq };

    ghost laws = { lists_per T.laws };

    fn eq(&self, other: &NEVecDeque<T>) -> bool {
        self.inner == other.inner
    }
}

impl<T: Eq> Eq for NEVecDeque<T> {
    ghost laws = { lists_equiv T.Eq.laws };
}

impl<T: Hash> Hash for NEVecDeque<T> {
    ghost hash_input = { fed.slice T.hash_input };

    ghost respects_eq = { (items_Alike (record { fed = T.respects_eq })).fed };

    fn hash<H: Hasher>(&self, state: &mut H) {
        self.inner.hash(state);
    }
}

impl<T: PartialOrd> PartialOrd for NEVecDeque<T> {
    ghost partial_cmp = { slice_partial_cmp T.partial_cmp };

    ghost laws = { lists_po T.PartialOrd.laws };

    fn partial_cmp(&self, other: &NEVecDeque<T>) -> Option<Ordering> {
        self.inner.partial_cmp(&other.inner)
    }
}

impl<T: Ord> Ord for NEVecDeque<T> {
    ghost cmp = { slice_cmp T.cmp };

    ghost total = { lists_total T.total };

    ghost matches_partial_cmp = { lists_agrees T.matches_partial_cmp };

    ghost matches_eq = { lists_ties T.cmp T.matches_eq };

    fn cmp(&self, other: &NEVecDeque<T>) -> Ordering {
        self.inner.cmp(&other.inner)
    }
}

/// Prints the queue as std prints a list: `[1, 2, 3]`.
impl<T: Debug> Debug for NEVecDeque<T> {
    fn fmt<W: fmt::Write>(&self, f: &mut fmt::Formatter<W>) -> fmt::Result {
        self.inner.fmt(f)
    }
}

/// Starts with one item, and adds each further item at the back.
impl<T: Drop> Singleton for NEVecDeque<T> {
    type Item = T;

    ghost collected = { λ xs q. q ≡ xs };

    fn singleton(alloc: Global, item: T) -> Result<NEVecDeque<T>, AllocError> {
        NEVecDeque::new(alloc, item)
    }

    fn extend_one(&mut self, item: T) -> Result<(), AllocError> {
        self.push_back(item)
    }
}
