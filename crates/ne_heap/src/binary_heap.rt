//! Priority queues that hold at least one item, their iterators, and the traits that they
//! implement.
//!
//! An [`NEBinaryHeap`] gives its greatest item first. Items are compared by `Ord`; for the least
//! item first, `std::cmp::Reverse` holds the items. Iterators go over the items in no particular
//! order, and [`NEBinaryHeap::into_sorted_vec`] returns them in ascending order.
//!
//! [`NEBinaryHeap::pop`] never removes the only item, and there is no `clear` or `drain`. The Rust
//! crate has no such type.
ghost use Rattle.std.specs.Prelude.{◌≡◌, ◌≤◌, ◌++◌, [], ◌∷◌, false, length};
ghost use Rattle.std.specs.Prelude.{Bool, List, ◌↔◌, IfOk, IfSome, IsErr, MatchOption, OnErr, OnOk};
ghost use Rattle.std.specs.BinaryHeap.{heap_items, IsUpperBound};
ghost use Rattle.std.specs.Int.NonZero.{non_zero_usize_get};
ghost use Rattle.std.specs.Fn.{CalledAt};
ghost use Rattle.std.specs.Iterator.{ActsAsAt, ExtendsWithItems, IsFiniteIterable};
ghost use Rattle.std.specs.List.{filter};
ghost use Rattle.std.specs.List.Retain.{IsFiltered};
ghost use Rattle.std.specs.List.Sorted.{IsPermutation, IsSorted};
ghost use Rattle.ne_vec.specs.Iterators.{IteratesOver, ListsItems};
ghost use Rattle.ne_vec.specs.Taken.{TakesUnlessLast};
ghost use Rattle.ne_vec.specs.Lists.{itself};
ghost use Rattle.ne_iter.specs.Keyed.Extends.{ExtendsByList};
ghost use Rattle.ne_iter.specs.SourceLists.{MeetsList};
ghost use Rattle.ne_heap.specs.HeapClones.{IsCloneOfItems};
ghost use Rattle.ne_heap.specs.HeapItems.{AddsItem, IsGreatestItem, ReplacesItem, SameItems};
ghost use Rattle.ne_heap.specs.HeapItems.{TakesItem};
ghost use Rattle.ne_heap.specs.KeptItems.{kept_items};
ghost use Rattle.ne_heap.specs.ValidHeap.{IsValid};

mod iter;
mod serialized;
mod traits;

pub use iter::{IntoIter, Iter};
use ne_iter::iter::ItemSource;
use ne_vec::{NESlice, NEVec};
use std::alloc::{AllocError, Global};
use std::collections::BinaryHeap;
use std::marker::Model;
use std::num::NonZeroUsize;
use std::{mem, slice};

/// A priority queue that holds at least one item. It wraps std's [`BinaryHeap`].
///
/// There always is a greatest item. In contracts the value of a heap is the list of its items.
/// Item 0 is a greatest one, and no clause fixes the order of the others: clauses say by
/// `SameItems`, a permutation, which items there are, and by `IsUpperBound T.cmp x h` that no item
/// of `h` is greater than `x`.
///
/// ```
/// let mut heap = NEBinaryHeap::new(alloc, 4)?;
/// heap.push(6)?;
/// let (greatest, len) = (*heap.peek(), heap.len().get()); // 6 and 2
/// ```
#[derive(Drop)]
pub struct NEBinaryHeap<T: Ord> {
    inner: BinaryHeap<T>,
}

impl<T: Ord> Model for NEBinaryHeap<T> {
    ghost use Rattle.std.specs.Prelude.{List};
    ghost use Rattle.std.specs.BinaryHeap.{heap_items};
    ghost use Rattle.ne_heap.specs.ValidHeap.{IsValid};

    ghost Value = { List T };

    ghost view = { λ h. heap_items h.inner };

    ghost invariant = { λ h. IsValid T.cmp (heap_items h.inner) };
}

impl<T: Ord> NEBinaryHeap<T> {
    /// Returns a heap of one item, `first`.
    ///
    /// Returns `AllocError` if the allocation fails; `first` is then dropped.
    ///
    /// ```
    /// let heap = NEBinaryHeap::new(alloc, 7)?; // [7]
    /// ```
    #[tactic(auto, using(crate::proofs::OneItem::only_order))]
    pub fn new(alloc: Global, first: T) -> Result<Self, AllocError>
    where
        T: Drop,
        ensures { IfOk result (λ h. h ≡ first ∷ []) }
    {
        let mut inner = BinaryHeap::new(alloc);
        inner.push(first)?;
        Ok(NEBinaryHeap { inner })
    }

    /// Returns a heap of one item, `first`, with room for `capacity` items from the start.
    ///
    /// Returns `AllocError` if the allocation fails; `first` is then dropped. The capacity of the
    /// result is not specified.
    ///
    /// ```
    /// let capacity = NonZeroUsize::new(5).unwrap();
    /// let heap = NEBinaryHeap::with_capacity(alloc, capacity, 1)?; // [1]
    /// ```
    #[tactic(auto, using(crate::proofs::OneItem::only_order))]
    pub fn with_capacity(
        alloc: Global,
        capacity: NonZeroUsize,
        first: T,
    ) -> Result<Self, AllocError>
    where
        T: Drop,
        ensures { IfOk result (λ h. h ≡ first ∷ []) }
    {
        let mut inner = BinaryHeap::with_capacity(alloc, capacity.get())?;
        inner.push(first)?;
        Ok(NEBinaryHeap { inner })
    }

    /// Returns a heap of the items of `heap` in the same memory, or `None` if and only if `heap` is
    /// empty. It does not allocate.
    ///
    /// The type of std's `BinaryHeap` has no invariant that says that it is in order, so this puts
    /// the items in order again, in linear time.
    ///
    /// ```
    /// let mut inner = BinaryHeap::new(alloc);
    /// inner.push(4)?;
    /// inner.push(6)?;
    /// let some = NEBinaryHeap::try_from_heap(inner); // Some([6, 4])
    /// let none = NEBinaryHeap::try_from_heap(BinaryHeap::<u32>::new(alloc)); // None
    /// ```
    pub fn try_from_heap(heap: BinaryHeap<T>) -> Option<Self>
        ensures { MatchOption result (heap_items heap ≡ []) (SameItems (heap_items heap)) }
    {
        if heap.is_empty() {
            heap.destroy_empty();
            None
        } else {
            let inner = BinaryHeap::from(heap.into_vec());
            Some(NEBinaryHeap { inner })
        }
    }

    /// Returns the greatest item, which is always there. It is the item that `pop` would return if
    /// there were others.
    ///
    /// ```
    /// let mut heap = NEBinaryHeap::new(alloc, 4)?;
    /// heap.push(6)?;
    /// let greatest = *heap.peek(); // 6
    /// ```
    pub fn peek(&self) -> &T
        ensures { IsGreatestItem T.eq T.cmp self.now result.now }
    {
        self.inner.peek().unwrap()
    }

    /// Replaces the greatest item by `item`, and returns it. It does not allocate.
    ///
    /// It stands in place of std's `peek_mut`, whose guard can remove the only item.
    ///
    /// ```
    /// let mut heap = NEBinaryHeap::new(alloc, 4)?;
    /// heap.push(6)?;
    /// let replaced = heap.replace_greatest(1); // 6
    /// let greatest = *heap.peek(); // 4
    /// ```
    pub fn replace_greatest(&mut self, item: T) -> T
    where
        T: Drop,
        ensures replaced { ReplacesItem self.old result item self.new }
        ensures greatest { IsGreatestItem T.eq T.cmp self.old result }
    {
        let mut greatest = self.inner.peek_mut().unwrap();
        mem::replace(&mut *greatest, item)
    }

    /// Removes the greatest item and returns it, or returns `None` if it is the only one, which
    /// then stays.
    ///
    /// ```
    /// let mut heap = NEBinaryHeap::new(alloc, 4)?;
    /// heap.push(6)?;
    /// let popped = heap.pop(); // Some(6)
    /// let none = heap.pop(); // None: the only item stays
    /// ```
    pub fn pop(&mut self) -> Option<T>
        // `None` if and only if there is one item; then nothing changes.
        ensures items { TakesUnlessLast self.old self.new result
            (λ x. TakesItem self.old x self.new) }
        ensures greatest { IfSome result (IsGreatestItem T.eq T.cmp self.old) }
        // So no item that stays is greater.
        ensures rest { IfSome result (λ x. IsUpperBound T.cmp x self.new) }
    {
        if self.inner.len() > 1 {
            self.inner.pop()
        } else {
            None
        }
    }

    /// Adds an item.
    ///
    /// Returns `AllocError` if the heap has to grow and the allocation fails; the heap is then
    /// unchanged, and `item` is dropped.
    ///
    /// ```
    /// let mut heap = NEBinaryHeap::new(alloc, 4)?;
    /// heap.push(6)?;
    /// heap.push(5)?;
    /// let greatest = *heap.peek(); // 6
    /// ```
    pub fn push(&mut self, item: T) -> Result<(), AllocError>
    where
        T: Drop,
        ensures added { OnOk result (AddsItem item self.old self.new) }
        ensures unchanged { OnErr result (self.new ≡ self.old) }
    {
        self.inner.push(item)?;
        Ok(())
    }

    /// Returns the items in ascending order, in the same memory. It does not allocate.
    ///
    /// ```
    /// let mut heap = NEBinaryHeap::new(alloc, 4)?;
    /// heap.push(6)?;
    /// heap.push(5)?;
    /// let sorted = heap.into_sorted_vec(); // [4, 5, 6]
    /// ```
    pub fn into_sorted_vec(self) -> NEVec<T>
        ensures items { SameItems self result }
        ensures sorted { IsSorted T.cmp result }
    {
        NEVec::try_from_vec(self.inner.into_sorted_vec()).unwrap()
    }

    /// Moves the items of `other` into the heap, and leaves `other` empty.
    ///
    /// Returns `AllocError` if the heap has to grow and the allocation fails; both heaps are then
    /// unchanged.
    ///
    /// ```
    /// let mut heap = NEBinaryHeap::new(alloc, 4)?;
    /// let mut others = NEBinaryHeap::new(alloc, 6)?.into_heap();
    /// heap.append(&mut others)?;
    /// let (greatest, left) = (*heap.peek(), others.len()); // 6 and 0
    /// ```
    pub fn append(&mut self, other: &mut BinaryHeap<T>) -> Result<(), AllocError>
        ensures added { OnOk result (SameItems (self.old ++ heap_items other.old) self.new
            × (heap_items other.new ≡ [])) }
        ensures unchanged { OnErr result ((self.new ≡ self.old)
            × (heap_items other.new ≡ heap_items other.old)) }
    {
        self.inner.append(other)
    }

    /// Returns std's iterator over the items, in no particular order.
    ///
    /// ```
    /// let heap = NEBinaryHeap::new(alloc, 4)?;
    /// let halves: Vec<u32> = heap.iter().map(|x| *x / 2).collect(alloc)?; // [2]
    /// ```
    pub fn iter(&self) -> slice::Iter<'_, T>
        ensures { IteratesOver self.now result }
    {
        self.inner.iter()
    }

    /// Returns a non-empty iterator over the items, in no particular order.
    ///
    /// ```
    /// let mut heap = NEBinaryHeap::new(alloc, 4)?;
    /// heap.push(6)?;
    /// let count = heap.nonempty_iter().count().get(); // 2
    /// ```
    pub fn nonempty_iter(&self) -> Iter<'_, T>
        ensures items { result ≡ self.now }
        ensures lists { ListsItems result self.now }
    {
        self.as_nonempty_slice().nonempty_iter()
    }

    /// Returns how many items the heap can hold before it has to grow, which is at least the
    /// length.
    ///
    /// ```
    /// let heap = NEBinaryHeap::new(alloc, 4)?;
    /// let has_room = heap.capacity().get() >= 1; // true
    /// ```
    pub fn capacity(&self) -> NonZeroUsize
        ensures { length self.now ≤ non_zero_usize_get result }
    {
        NonZeroUsize::new(self.inner.capacity().max(self.inner.len())).unwrap()
    }

    /// Makes room for at least `additional` more items. The items stay.
    ///
    /// Returns `AllocError` if the allocation fails, or if `additional` is more than can be
    /// allocated.
    ///
    /// ```
    /// let mut heap = NEBinaryHeap::new(alloc, 4)?;
    /// heap.reserve(20)?; // the capacity is now at least 21
    /// ```
    pub fn reserve(&mut self, additional: usize) -> Result<(), AllocError>
        ensures unchanged { self.new ≡ self.old }
    {
        self.inner.reserve(additional)
    }

    /// Releases room that the heap does not need. The items stay. If the allocation of the smaller
    /// room fails, the heap keeps the room that it has.
    ///
    /// ```
    /// let mut heap = NEBinaryHeap::new(alloc, 4)?;
    /// heap.shrink_to_fit(); // [4]
    /// ```
    pub fn shrink_to_fit(&mut self)
        ensures unchanged { self.new ≡ self.old }
    {
        self.inner.shrink_to_fit();
    }

    /// Keeps the items for which `f` returns `true`, or returns the empty heap as an error if there
    /// is no such item.
    ///
    /// `f` is called once for each item, in no particular order. It must be callable with any value
    /// of the items' type. The clause `kept` covers an `f` whose result depends only on the item
    /// and that changes nothing; `called` covers any `f`.
    ///
    /// ```
    /// let even = NEBinaryHeap::new(alloc, 4)?.retain(|x| *x % 2 == 0); // Ok([4])
    /// let none = NEBinaryHeap::new(alloc, 3)?.retain(|x| *x % 2 == 0); // Err([])
    /// ```
    pub fn retain<F: FnMut(&T) -> bool>(self, f: F) -> Result<Self, BinaryHeap<T>>
    where
        T: Drop,
        requires { F.IsAlwaysCallable f }
        ensures none { IsErr result ↔ (kept_items result ≡ []) }
        ensures kept { (keeps : T → Bool) → ActsAsAt F.FnMut f keeps
            → SameItems (filter keeps self) (kept_items result) }
        ensures called { (kept : List T) × IsFiltered (CalledAt F.FnMut) f self kept
            × IsPermutation kept (kept_items result) }
    {
        let mut inner = self.inner;
        inner.retain(f);
        if inner.is_empty() {
            Err(inner)
        } else {
            Ok(NEBinaryHeap { inner })
        }
    }

    /// Returns the items as a vector, in no particular order, in the same memory. It does not
    /// allocate.
    ///
    /// ```
    /// let items = NEBinaryHeap::new(alloc, 4)?.into_vec(); // [4]
    /// ```
    pub fn into_vec(self) -> NEVec<T>
        ensures { result ≡ self }
    {
        NEVec::try_from_vec(self.inner.into_vec()).unwrap()
    }

    /// Returns the inner `BinaryHeap` unchanged. Its type no longer guarantees an item.
    ///
    /// ```
    /// let inner = NEBinaryHeap::new(alloc, 4)?.into_heap();
    /// let len = inner.len(); // 1
    /// ```
    pub fn into_heap(self) -> BinaryHeap<T>
        ensures same { heap_items result ≡ self }
        ensures valid { IsValid T.cmp (heap_items result) }
    {
        self.inner
    }

    /// Returns the items as a non-empty slice, in no particular order.
    ///
    /// ```
    /// let heap = NEBinaryHeap::new(alloc, 4)?;
    /// let len = heap.as_nonempty_slice().len().get(); // 1
    /// ```
    pub fn as_nonempty_slice(&self) -> NESlice<'_, T>
        ensures { result ≡ self.now }
    {
        NESlice::try_from_slice(self.inner.as_slice()).unwrap()
    }

    /// Returns the number of items, which is at least 1.
    ///
    /// ```
    /// let mut heap = NEBinaryHeap::new(alloc, 4)?;
    /// heap.push(4)?;
    /// let len = heap.len().get(); // 2
    /// ```
    pub fn len(&self) -> NonZeroUsize
        ensures { non_zero_usize_get result ≡ length self.now }
    {
        NonZeroUsize::new(self.inner.len()).unwrap()
    }

    /// Returns `false`, as there is always an item.
    ///
    /// It exists for code that is written for `BinaryHeap` too.
    ///
    /// ```
    /// let is_empty = NEBinaryHeap::new(alloc, 4)?.is_empty(); // false
    /// ```
    pub fn is_empty(&self) -> bool
        ensures never { result ≡ false }
        ensures valid { IsValid T.cmp self.now }
    {
        self.inner.is_empty()
    }

    /// Adds the items of `iter`.
    ///
    /// `iter` must be finite. Returns `AllocError` if the heap has to grow and the allocation
    /// fails; the items taken from `iter` before that are then added, and the item that had no room
    /// is dropped. `Extend` calls this method.
    ///
    /// ```
    /// let mut heap = NEBinaryHeap::new(alloc, 4)?;
    /// heap.extend([6, 5])?;
    /// let (greatest, len) = (*heap.peek(), heap.len().get()); // 6 and 3
    /// ```
    pub fn extend<I: IntoIterator<Item = T>>(&mut self, iter: I) -> Result<(), AllocError>
    where
        T: Drop,
        requires { IsFiniteIterable I.into_iter_gives I.IntoIter.can_next I.IntoIter.remaining
            iter }
        ensures ran { ExtendsWithItems I.into_iter_gives I.IntoIter.next_gives
            (λ old xs new. SameItems (old ++ xs) new) iter self.old self.new result }
        // The same at `Ok`, by the list of the source.
        ensures lists { OnOk result (ExtendsByList (⟦<I as ItemSource>⟧.lists itself)
            (MeetsList I.into_iter_gives I.IntoIter.next_gives itself) iter self.old
            (λ all. SameItems all self.new)) }
    {
        self.inner.extend(iter)
    }

    /// Returns a heap of clones of the items, with the same allocator.
    ///
    /// Returns `AllocError` if the allocation fails, or if cloning an item fails. No law says that
    /// a clone equals its original, so the clones are put in order again, in linear time. `Clone`
    /// calls this method.
    ///
    /// ```
    /// let mut heap = NEBinaryHeap::new(alloc, 4)?;
    /// heap.push(6)?;
    /// let greatest = *heap.clone()?.peek(); // 6
    /// ```
    pub fn clone(&self) -> Result<Self, AllocError>
    where
        T: Clone,
        ensures { IfOk result (IsCloneOfItems T.is_clone self.now) }
    {
        let inner = BinaryHeap::from(self.inner.clone()?.into_vec());
        Ok(NEBinaryHeap { inner })
    }
}
