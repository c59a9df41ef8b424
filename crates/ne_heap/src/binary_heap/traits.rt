//! The traits of an [`NEBinaryHeap`]: conversions, clones, collecting, printing.
ghost use Rattle.std.specs.Prelude.{◌≡◌, ◌++◌, [], MatchResult};
ghost use Rattle.std.specs.BinaryHeap.{heap_items};
ghost use Rattle.ne_heap.specs.HeapClones.{IsCloneOfItems};
ghost use Rattle.ne_heap.specs.HeapItems.{SameItems};
ghost use Rattle.ne_heap.specs.ValidHeap.{IsValid};

use super::NEBinaryHeap;
use ne_iter::{Error, FromNonEmptyIterator, IntoNonEmptyIterator, Singleton};
use ne_vec::NEVec;
use std::alloc::{AllocError, Global};
use std::collections::BinaryHeap;
use std::fmt;
use std::fmt::Debug;

/// Returns the inner `BinaryHeap`, for the methods that only a `BinaryHeap` has. The heap cannot be
/// changed through it.
impl<T: Ord> AsRef<BinaryHeap<T>> for NEBinaryHeap<T> {
    fn as_ref(&self) -> &BinaryHeap<T>
        ensures same { heap_items result.now ≡ self.now }
        ensures valid { IsValid T.cmp self.now }
    {
        &self.inner
    }
}

/// Returns a heap of the items, in the memory of the vector. It does not allocate.
///
/// ```
/// let heap = NEBinaryHeap::from(NEVec::new(alloc, 4)?);
/// let greatest = *heap.peek(); // 4
/// ```
impl<T: Ord> From<NEVec<T>> for NEBinaryHeap<T> {
    ghost from_gives = { λ v h. SameItems v h };

    fn from(items: NEVec<T>) -> NEBinaryHeap<T> {
        let items = Vec::from(items);
        NEBinaryHeap {
            inner: BinaryHeap::from(items),
        }
    }
}

/// Calls the inherent method `into_vec`.
impl<T: Ord> From<NEBinaryHeap<T>> for NEVec<T> {
    ghost from_gives = { λ h v. v ≡ h };

    fn from(heap: NEBinaryHeap<T>) -> NEVec<T> {
        heap.into_vec()
    }
}

/// Calls the inherent method `into_heap`.
impl<T: Ord> From<NEBinaryHeap<T>> for BinaryHeap<T> {
    ghost from_gives = { λ h inner. (heap_items inner ≡ h) × IsValid T.cmp (heap_items inner) };

    fn from(heap: NEBinaryHeap<T>) -> BinaryHeap<T> {
        heap.into_heap()
    }
}

/// Converts a heap as `try_from_heap` does, and returns `Error::Empty` if and only if `heap` is
/// empty.
///
/// ```
/// let none = NEBinaryHeap::try_from(BinaryHeap::<u32>::new(alloc)); // Err(Error::Empty)
/// ```
impl<T: Ord> TryFrom<BinaryHeap<T>> for NEBinaryHeap<T> {
    ghost use Rattle.std.specs.Prelude.{Result};
    ghost use Rattle.ne_vec.specs.declared.Error.{Error};

    type Error = Error;

    ghost try_from_gives = { λ heap r. MatchResult r (SameItems (heap_items heap))
        (λ _. heap_items heap ≡ []) };

    fn try_from(heap: BinaryHeap<T>) -> Result<NEBinaryHeap<T>, Error> {
        match NEBinaryHeap::try_from_heap(heap) {
            Some(made) => Ok(made),
            None => Err(Error::Empty),
        }
    }
}

/// Calls the inherent method `clone`.
impl<T: Ord + Clone> Clone for NEBinaryHeap<T> {
    ghost is_clone = { IsCloneOfItems T.is_clone };

    fn clone(&self) -> Result<NEBinaryHeap<T>, AllocError> {
        NEBinaryHeap::clone(self)
    }
}

/// Collects items into a heap.
///
/// ```
/// let heap: NEBinaryHeap<u32> = [4u32, 6].into_nonempty_iter().collect(alloc)?;
/// let greatest = *heap.peek(); // 6
/// ```
impl<T: Ord + Drop> FromNonEmptyIterator<T> for NEBinaryHeap<T> {
    ghost collected = { SameItems };

    fn from_nonempty_iter<I: IntoNonEmptyIterator<Item = T>>(
        alloc: Global,
        iter: I,
    ) -> Result<NEBinaryHeap<T>, AllocError> {
        let items: NEVec<T> = NEVec::from_nonempty_iter(alloc, iter)?;
        Ok(NEBinaryHeap::from(items))
    }

    fn from_drained(alloc: Global, items: &mut Vec<T>) -> Result<NEBinaryHeap<T>, AllocError> {
        let items: NEVec<T> = NEVec::from_drained(alloc, items)?;
        Ok(NEBinaryHeap::from(items))
    }
}

/// Prints as std prints a heap, in no particular order: `[2, 1]`.
impl<T: Ord + Debug> Debug for NEBinaryHeap<T> {
    fn fmt<W: fmt::Write>(&self, f: &mut fmt::Formatter<W>) -> fmt::Result {
        self.inner.fmt(f)
    }
}

/// Starts with one item, and adds each further item by `push`.
impl<T: Ord + Drop> Singleton for NEBinaryHeap<T> {
    type Item = T;

    ghost collected = { SameItems };

    fn singleton(alloc: Global, item: T) -> Result<NEBinaryHeap<T>, AllocError> {
        NEBinaryHeap::new(alloc, item)
    }

    fn extend_one(&mut self, item: T) -> Result<(), AllocError> {
        self.push(item)
    }
}

/// Calls the inherent method `extend`.
impl<T: Ord + Drop> Extend<T> for NEBinaryHeap<T> {
    ghost extend_gives = { λ h xs made. SameItems (h ++ xs) made };

    fn extend<I: IntoIterator<Item = T>>(&mut self, iter: I) -> Result<(), AllocError> {
        NEBinaryHeap::extend(self, iter)
    }
}
