//! [`NEVecDeque`], a double-ended queue that is never empty, and its iterators.
//!
//! Most methods have the names of those of std's [`VecDeque`]. `first` and `last` are the names
//! that the other collections of this library have for `front` and `back`. A method that removes an
//! item by `&mut self` never removes the only one; `retain` and `retain_mut` take the queue.
//! `clear`, `drain` and `resize_with`, which may leave none, are not here. Nor are `as_mut_slices`
//! and `range`.
//!
//! This module has the methods that read and edit, `search` those that search, `retain` those that
//! keep what meets a test or remove an item that does, `iter` the non-empty iterators, `traits` the
//! other trait implementations, and `serialized` the traits of `serde`.
//!
//! A method that allocates returns `AllocError` if the allocation fails, and its comment says what
//! holds after that; only `shrink_to_fit` then keeps the memory. `new` and `with_capacity` take an
//! allocator, the other constructors that of their argument, and each queue keeps its own.
ghost use Rattle.std.specs.Prelude.{◌≡◌, ◌-◌, ◌<◌, ◌≤◌, ◌↔◌, false, [], ◌∷◌, ◌++◌};
ghost use Rattle.std.specs.Prelude.{length, take, drop, replicate, Some, None, IsSome};
ghost use Rattle.std.specs.Prelude.{IfSome, IfOk, OnOk, OnErr, slice_get};
ghost use Rattle.std.specs.NonZero.{non_zero_usize_get};
ghost use Rattle.std.specs.List.{AllZip, AppendsClonesOf, insert, list_any, remove, swap};
ghost use Rattle.std.specs.List.{swap_remove};
ghost use Rattle.std.specs.Iterator.{IsFiniteIterable, ExtendsWithItems};
ghost use Rattle.std.specs.Iterator.Runs.{YieldsRefsInReverse};
ghost use Rattle.std.specs.VecDeque.Iter.{deque_iter_rest, deque_iter_steps_back};

mod iter;
mod retain;
mod search;
mod serialized;
mod traits;

pub use iter::{IntoIter, Iter, IterMut};
use ne_iter::iter::ItemSource;
use std::alloc::{AllocError, Global};
use std::collections::{VecDeque, vec_deque};
use std::marker::Model;
use std::num::NonZeroUsize;
use std::slice;

/// A double-ended queue that holds at least one item. It wraps std's [`VecDeque`].
///
/// Items are added and removed at both ends, and there is always a first and a last one. In
/// contracts its value is the list of its items, from front to back. Methods that do not mention
/// allocation do not allocate.
///
/// ```
/// let mut jobs = nevd![alloc; 4, 6]?;
/// jobs.push_back(8)?;
/// let next = jobs.pop_front(); // Some(4)
/// let (front, back) = (*jobs.front(), *jobs.back()); // 6 and 8
/// ```
#[derive(Drop)]
pub struct NEVecDeque<T> {
    inner: VecDeque<T>,
}

impl<T> Model for NEVecDeque<T> {
    ghost use Rattle.std.specs.Prelude.{◌<◌, List, length};

    ghost Value = { List T };

    ghost view = { λ q. q.inner.items };

    ghost invariant = { λ q. 0 < length q.inner.items };
}

impl<T> NEVecDeque<T> {
    ghost use Rattle.std.specs.Borrow.{sem};
    ghost use Rattle.ne_vec.specs.Iterators.{IteratesOverMut};
    ghost use Rattle.ne_vec.specs.Lists.{itself};
    ghost use Rattle.ne_vec.specs.Taken.{TakesFoundUnlessLast, TakesUnlessLast};
    ghost use Rattle.ne_iter.specs.Keyed.Extends.{ExtendsByList};
    ghost use Rattle.ne_iter.specs.SourceLists.{MeetsList};
    ghost use Rattle.ne_deque.specs.Iterators.{IteratesQueue, ListsQueue};
    ghost use Rattle.ne_deque.specs.QueueLends.{LendsItem, LendsItemIf, LendsItems};
    ghost use Rattle.ne_deque.specs.QueueLends.{LendsIterator, std_iterator};

    /// Returns a queue of one item, `head`.
    ///
    /// Returns `AllocError` if the allocation fails; `head` is then dropped.
    ///
    /// ```
    /// let queue = NEVecDeque::new(alloc, 7)?; // [7]
    /// ```
    pub fn new(alloc: Global, head: T) -> Result<Self, AllocError>
    where
        T: Drop,
        ensures { IfOk result (λ q. q ≡ head ∷ []) }
    {
        let mut inner = VecDeque::new(alloc);
        inner.push_back(head)?;
        Ok(NEVecDeque { inner })
    }

    /// Returns a queue of one item, `head`, with room for `capacity` items from the start.
    ///
    /// Returns `AllocError` if the allocation fails; `head` is then dropped. The capacity of the
    /// result is not specified.
    ///
    /// ```
    /// let capacity = NonZeroUsize::new(5).unwrap();
    /// let queue = NEVecDeque::with_capacity(alloc, capacity, 1)?; // [1]
    /// ```
    pub fn with_capacity(alloc: Global, capacity: NonZeroUsize, head: T) -> Result<Self, AllocError>
    where
        T: Drop,
        ensures { IfOk result (λ q. q ≡ head ∷ []) }
    {
        let mut inner = VecDeque::with_capacity(alloc, capacity.get())?;
        inner.push_back(head)?;
        Ok(NEVecDeque { inner })
    }

    /// Returns a queue of `head`, followed by the items of `tail`. It takes over the memory and the
    /// allocator of `tail`.
    ///
    /// Returns `AllocError` if `tail` has to grow and the allocation fails; all items are then
    /// dropped.
    ///
    /// ```
    /// let tail = nevd![alloc; 2, 3]?.into_deque();
    /// let queue = NEVecDeque::from_parts(1, tail)?; // [1, 2, 3]
    /// ```
    pub fn from_parts(head: T, tail: VecDeque<T>) -> Result<Self, AllocError>
    where
        T: Drop,
        ensures { IfOk result (λ q. q ≡ head ∷ tail.items) }
    {
        let mut inner = tail;
        inner.push_front(head)?;
        Ok(NEVecDeque { inner })
    }

    /// Returns a queue of the items of `queue` in the same memory, or `None` if `queue` is empty.
    /// It does not allocate.
    ///
    /// ```
    /// let mut inner = VecDeque::new(alloc);
    /// inner.push_back(4)?;
    /// let some = NEVecDeque::try_from_deque(inner); // Some([4])
    /// let none = NEVecDeque::try_from_deque(VecDeque::<u32>::new(alloc)); // None
    /// ```
    pub fn try_from_deque(queue: VecDeque<T>) -> Option<NEVecDeque<T>>
        ensures empty { (result ≡ None) ↔ (queue.items ≡ []) }
        ensures same { IfSome result (λ q. q ≡ queue.items) }
    {
        if queue.is_empty() {
            queue.destroy_empty();
            None
        } else {
            Some(NEVecDeque { inner: queue })
        }
    }

    /// Returns the items as a `VecDeque`, in the same memory. It does not allocate.
    ///
    /// ```
    /// let inner = nevd![alloc; 4, 6, 8]?.into_deque(); // [4, 6, 8]
    /// ```
    pub fn into_deque(self) -> VecDeque<T>
        ensures { result.items ≡ self }
    {
        self.inner
    }

    /// Returns the item at `index`, or `None` if `index` is not less than the length. The item at
    /// index 0 is at the front.
    ///
    /// ```
    /// let queue = nevd![alloc; 10, 20, 30]?;
    /// let (last, none) = (queue.get(2), queue.get(3)); // Some(&30) and None
    /// ```
    pub fn get(&self, index: usize) -> Option<&T>
        ensures there { IsSome result ↔ (index < length self.now) }
        ensures nonempty { 0 < length self.now }
        ensures value { IfSome result (λ x. slice_get self.now index ≡ Some x.now) }
    {
        self.inner.get(index)
    }

    /// Returns a mutable reference to the item at `index`, or `None` if `index` is not less than
    /// the length. The other items stay unchanged.
    ///
    /// ```
    /// let mut queue = nevd![alloc; 11, 21, 31]?;
    /// if let Some(item) = queue.get_mut(1) {
    ///     *item = 22; // [11, 22, 31]
    /// }
    /// ```
    pub fn get_mut(&mut self, index: usize) -> Option<&mut T>
        ensures* writes_back { sem 𝓛 (LendsItemIf T.row self.entry index result) }
        ensures there { IsSome result ↔ (index < length self.old) }
        ensures nonempty { 0 < length self.old }
        ensures value { IfSome result (λ x. slice_get self.old index ≡ Some x.now) }
    {
        self.inner.get_mut(index)
    }

    /// Swaps the items at the indices `a` and `b`. All other items stay where they are.
    ///
    /// Both indices must be less than the length; `VecDeque` of Rust panics otherwise.
    ///
    /// ```
    /// let mut queue = nevd![alloc; 4, 6, 8]?;
    /// queue.swap(0, 2); // [8, 6, 4]
    /// ```
    pub fn swap(&mut self, a: usize, b: usize)
        requires a_within { a < length self.old }
        requires b_within { b < length self.old }
        ensures { self.new ≡ swap self.old a b }
    {
        self.inner.swap(a, b);
    }

    /// Returns how many items the queue can hold before it has to grow, which is at least the
    /// length.
    ///
    /// ```
    /// let queue = nevd![alloc; 3, 1, 4]?;
    /// let has_room = queue.capacity().get() >= 3; // true
    /// ```
    pub fn capacity(&self) -> NonZeroUsize
        ensures { length self.now ≤ non_zero_usize_get result }
    {
        NonZeroUsize::new(self.inner.capacity().max(self.inner.len())).unwrap()
    }

    /// Makes room for at least `additional` more items. The items stay as they are.
    ///
    /// Returns `AllocError` if the allocation fails.
    ///
    /// ```
    /// let mut queue = nevd![alloc; 4, 6]?;
    /// queue.reserve(8)?; // [4, 6]
    /// ```
    pub fn reserve(&mut self, additional: usize) -> Result<(), AllocError>
        ensures { self.new ≡ self.old }
    {
        self.inner.reserve(additional)
    }

    /// Gives back memory that the items do not need, if that is possible. The items stay as they
    /// are. If the smaller memory cannot be allocated, the queue keeps what it has.
    ///
    /// ```
    /// let mut queue = nevd![alloc; 4, 6]?;
    /// queue.shrink_to_fit(); // [4, 6]
    /// ```
    pub fn shrink_to_fit(&mut self)
        ensures { self.new ≡ self.old }
    {
        self.inner.shrink_to_fit();
    }

    /// Keeps the first `len` items and drops the others, or keeps all if there are fewer.
    ///
    /// ```
    /// let mut queue = nevd![alloc; 1, 2, 3, 4, 5, 6]?;
    /// queue.truncate(NonZeroUsize::new(2).unwrap()); // [1, 2]
    /// ```
    pub fn truncate(&mut self, len: NonZeroUsize)
    where
        T: Drop,
        ensures { self.new ≡ take (non_zero_usize_get len) self.old }
    {
        self.inner.truncate(len.get());
    }

    /// Keeps the first `len` items, or adds clones of `value` at the end until there are so many.
    ///
    /// Returns `AllocError` if the queue has to grow and an allocation fails, also one of a clone;
    /// the queue is then unchanged.
    ///
    /// ```
    /// let mut queue = nevd![alloc; 4, 6]?;
    /// queue.resize(NonZeroUsize::new(3).unwrap(), 7)?; // [4, 6, 7]
    /// ```
    pub fn resize(&mut self, len: NonZeroUsize, value: T) -> Result<(), AllocError>
    where
        T: Clone,
        ensures clones { OnOk result (AppendsClonesOf T.is_clone
            (take (non_zero_usize_get len) self.old) self.new value) }
        ensures equal { OnOk result (((y : T) → T.is_clone value y → y ≡ value) → self.new
            ≡ take (non_zero_usize_get len) self.old
            ++ replicate (non_zero_usize_get len - length self.old) value) }
        ensures len { OnOk result (length self.new ≡ non_zero_usize_get len) }
        ensures unchanged { OnErr result (self.new ≡ self.old) }
    {
        self.inner.resize(len.get(), value)
    }

    /// Returns the items as two slices: all items are those of the first slice, followed by those
    /// of the second. The first slice is never empty.
    ///
    /// ```
    /// let queue = nevd![alloc; 4, 6, 8]?;
    /// let (front, back) = queue.as_slices();
    /// let len = front.len() + back.len(); // 3
    /// ```
    pub fn as_slices(&self) -> (&[T], &[T])
        ensures items { result.0.now ++ result.1.now ≡ self.now }
        ensures first_filled { 0 < length result.0.now }
    {
        self.inner.as_slices()
    }

    /// Returns std's iterator over the items, from front to back.
    ///
    /// ```
    /// let queue = nevd![alloc; 3, 4, 5, 6]?;
    /// let halves: Vec<u32> = queue.iter().map(|x| *x / 2).collect(alloc)?; // [1, 2, 2, 3]
    /// ```
    pub fn iter(&self) -> vec_deque::Iter<'_, T>
        ensures rest { IteratesQueue self.now result }
        ensures from_the_back { YieldsRefsInReverse (deque_iter_steps_back {X = T})
            deque_iter_rest }
    {
        self.inner.iter()
    }

    /// Returns std's mutable iterator over the items, from front to back. Like std's method, it
    /// first moves the items so that they are in one slice.
    ///
    /// ```
    /// let mut queue = nevd![alloc; 0u32, 1, 2, 3]?;
    /// for x in queue.iter_mut() {
    ///     *x = x.wrapping_add(1);
    /// } // [1, 2, 3, 4]
    /// ```
    pub fn iter_mut(&mut self) -> slice::IterMut<'_, T>
        ensures* writes_back { sem 𝓛 (LendsIterator T.row self.entry result) }
        ensures rest { IteratesOverMut self.old result }
    {
        self.inner.iter_mut()
    }

    /// Returns a non-empty iterator over the items, from front to back.
    ///
    /// ```
    /// let queue = nevd![alloc; 6, 8, 4]?;
    /// let greatest = queue.nonempty_iter().copied().max(); // 8
    /// ```
    pub fn nonempty_iter(&self) -> Iter<'_, T>
        ensures items { result ≡ self.now }
        ensures lists { ListsQueue result self.now }
    {
        Iter { inner: &self.inner }
    }

    /// Returns a non-empty mutable iterator over the items, from front to back. It first moves the
    /// items so that they are in one slice.
    ///
    /// ```
    /// let mut queue = nevd![alloc; 1u32, 2, 3, 4]?;
    /// for x in queue.nonempty_iter_mut() {
    ///     *x = x.wrapping_add(1);
    /// } // [2, 3, 4, 5]
    /// ```
    pub fn nonempty_iter_mut(&mut self) -> IterMut<'_, T>
        ensures* writes_back { sem 𝓛 (LendsIterator T.row self.entry (std_iterator result)) }
        ensures rest { IteratesOverMut self.old (std_iterator result) }
    {
        IterMut {
            inner: self.inner.iter_mut(),
        }
    }

    /// Returns the number of items.
    ///
    /// ```
    /// let len = nevd![alloc; 3, 1, 4, 1, 5, 9, 2, 6]?.len().get(); // 8
    /// ```
    pub fn len(&self) -> NonZeroUsize
        ensures { non_zero_usize_get result ≡ length self.now }
    {
        NonZeroUsize::new(self.inner.len()).unwrap()
    }

    /// Returns `false`, as there is always an item. It exists for code that is written for
    /// `VecDeque` too.
    ///
    /// ```
    /// let is_empty = nevd![alloc; 5]?.is_empty(); // false
    /// ```
    pub fn is_empty(&self) -> bool
        ensures never { result ≡ false }
        ensures nonempty { 0 < length self.now }
    {
        let _ = &self.inner; // the invariant is known once a field is used
        false
    }

    /// Returns whether an item equals `x`.
    ///
    /// ```
    /// let queue = nevd![alloc; 4, 6, 8]?;
    /// let (there, absent) = (queue.contains(&6), queue.contains(&7)); // true and false
    /// ```
    pub fn contains(&self, x: &T) -> bool
    where
        T: PartialEq,
        ensures { result ≡ list_any (λ y. T.eq y x.now) self.now }
    {
        self.inner.contains(x)
    }

    /// Returns the first item. `VecDeque` returns an `Option`.
    ///
    /// ```
    /// let names = nevd![alloc; "Österreich", "Schweiz", "Italia"]?;
    /// let front = *names.front(); // "Österreich"
    /// ```
    pub fn front(&self) -> &T
        ensures { slice_get self.now 0 ≡ Some result.now }
    {
        &self.inner[0]
    }

    /// Returns a mutable reference to the first item. The other items stay unchanged.
    ///
    /// ```
    /// let mut queue = nevd![alloc; 4, 6, 8]?;
    /// *queue.front_mut() *= 10; // [40, 6, 8]
    /// ```
    pub fn front_mut(&mut self) -> &mut T
        ensures* writes_back { sem 𝓛 (LendsItem T.row self.entry 0 result) }
        ensures value { slice_get self.old 0 ≡ Some result.now }
    {
        &mut self.inner[0]
    }

    /// Returns the last item, which is also the first one if it is the only one. `VecDeque` returns
    /// an `Option`.
    ///
    /// ```
    /// let names = nevd![alloc; "Österreich", "Schweiz", "Italia"]?;
    /// let back = *names.back(); // "Italia"
    /// ```
    pub fn back(&self) -> &T
        ensures { slice_get self.now (length self.now - 1) ≡ Some result.now }
    {
        &self.inner[self.inner.len() - 1]
    }

    /// Returns a mutable reference to the last item. The other items stay unchanged.
    ///
    /// ```
    /// let mut queue = nevd![alloc; 11, 20, 30]?;
    /// *queue.back_mut() = 31; // [11, 20, 31]
    /// ```
    pub fn back_mut(&mut self) -> &mut T
        ensures* writes_back { sem 𝓛 (LendsItem T.row self.entry (length self.old - 1) result) }
        ensures value { slice_get self.old (length self.old - 1) ≡ Some result.now }
    {
        let last = self.inner.len() - 1;
        &mut self.inner[last]
    }

    /// Returns the first item, as [`NEVecDeque::front`] does.
    ///
    /// ```
    /// let first = *nevd![alloc; 4, 6, 8]?.first(); // 4
    /// ```
    pub fn first(&self) -> &T
        ensures { slice_get self.now 0 ≡ Some result.now }
    {
        self.front()
    }

    /// Returns the last item, as [`NEVecDeque::back`] does.
    ///
    /// ```
    /// let last = *nevd![alloc; 4, 6, 8]?.last(); // 8
    /// ```
    pub fn last(&self) -> &T
        ensures { slice_get self.now (length self.now - 1) ≡ Some result.now }
    {
        self.back()
    }

    /// Removes the first item and returns it, or returns `None` if it is the only one, which then
    /// stays.
    ///
    /// ```
    /// let mut queue = nevd![alloc; 4, 6]?;
    /// let popped = queue.pop_front(); // Some(4)
    /// let none = queue.pop_front(); // None: the only item stays
    /// ```
    pub fn pop_front(&mut self) -> Option<T>
        ensures { TakesUnlessLast self.old self.new result (λ x. self.old ≡ x ∷ self.new) }
    {
        if self.inner.len() > 1 {
            self.inner.pop_front()
        } else {
            None
        }
    }

    /// Removes the last item and returns it, or returns `None` if it is the only one, which then
    /// stays.
    ///
    /// ```
    /// let mut queue = nevd![alloc; 4, 6]?;
    /// let popped = queue.pop_back(); // Some(6)
    /// let none = queue.pop_back(); // None: the only item stays
    /// ```
    pub fn pop_back(&mut self) -> Option<T>
        ensures { TakesUnlessLast self.old self.new result (λ x. self.old ≡ self.new ++ x ∷ []) }
    {
        if self.inner.len() > 1 {
            self.inner.pop_back()
        } else {
            None
        }
    }

    /// Adds `e` at the front.
    ///
    /// Returns `AllocError` if the queue has to grow and the allocation fails; the queue is then
    /// unchanged, and `e` is dropped.
    ///
    /// ```
    /// let mut queue = NEVecDeque::new(alloc, 7)?;
    /// queue.push_front(6)?; // [6, 7]
    /// ```
    pub fn push_front(&mut self, e: T) -> Result<(), AllocError>
    where
        T: Drop,
        ensures added { OnOk result (self.new ≡ e ∷ self.old) }
        ensures unchanged { OnErr result (self.new ≡ self.old) }
    {
        self.inner.push_front(e)?;
        Ok(())
    }

    /// Adds `e` at the back.
    ///
    /// Returns `AllocError` if the queue has to grow and the allocation fails; the queue is then
    /// unchanged, and `e` is dropped.
    ///
    /// ```
    /// let mut queue = NEVecDeque::new(alloc, 7)?;
    /// queue.push_back(8)?; // [7, 8]
    /// ```
    pub fn push_back(&mut self, e: T) -> Result<(), AllocError>
    where
        T: Drop,
        ensures added { OnOk result (self.new ≡ self.old ++ e ∷ []) }
        ensures unchanged { OnErr result (self.new ≡ self.old) }
    {
        self.inner.push_back(e)?;
        Ok(())
    }

    /// Removes the item at `index` and returns it, or returns `None` if `index` is not less than
    /// the length, or if there is only one item, which then stays. The first item takes its place,
    /// at the index `index - 1` of what is left. At index 0 the first item itself is removed, as by
    /// `pop_front`.
    ///
    /// ```
    /// let mut queue = nevd![alloc; 4, 6, 8]?;
    /// let removed = queue.swap_remove_front(2); // Some(8), and queue is [6, 4]
    /// ```
    pub fn swap_remove_front(&mut self, index: usize) -> Option<T>
        ensures { TakesFoundUnlessLast (length self.old ≤ index) self.old self.new result (λ x.
            (slice_get self.old index ≡ Some x) × (self.new ≡ drop 1 (swap self.old index 0))) }
    {
        if self.inner.len() > 1 {
            self.inner.swap_remove_front(index)
        } else {
            None
        }
    }

    /// Removes the item at `index` and returns it, or returns `None` if `index` is not less than
    /// the length, or if there is only one item, which then stays. The last item moves to `index`.
    /// At the last index the last item itself is removed, as by `pop_back`.
    ///
    /// ```
    /// let mut queue = nevd![alloc; 4, 6, 8]?;
    /// let removed = queue.swap_remove_back(0); // Some(4), and queue is [8, 6]
    /// ```
    pub fn swap_remove_back(&mut self, index: usize) -> Option<T>
        ensures { TakesFoundUnlessLast (length self.old ≤ index) self.old self.new result (λ x.
            (slice_get self.old index ≡ Some x) × (self.new ≡ swap_remove self.old index x)) }
    {
        if self.inner.len() > 1 {
            self.inner.swap_remove_back(index)
        } else {
            None
        }
    }

    /// Inserts `element` at `index`, and moves the items from there on one place towards the back.
    ///
    /// `index` must be at most the length; `VecDeque` of Rust panics otherwise. Returns
    /// `AllocError` if the queue has to grow and the allocation fails; the queue is then unchanged,
    /// and `element` is dropped.
    ///
    /// ```
    /// let mut queue = nevd![alloc; 4, 6]?;
    /// queue.insert(1, 5)?;
    /// queue.insert(3, 7)?; // [4, 5, 6, 7]
    /// ```
    pub fn insert(&mut self, index: usize, element: T) -> Result<(), AllocError>
    where
        T: Drop,
        requires { index ≤ length self.old }
        ensures added { OnOk result (self.new ≡ insert self.old index element) }
        ensures unchanged { OnErr result (self.new ≡ self.old) }
    {
        self.inner.insert(index, element)?;
        Ok(())
    }

    /// Removes the item at `index` and returns it, or returns `None` if `index` is not less than
    /// the length, or if there is only one item, which then stays. The items after `index` move one
    /// place towards the front.
    ///
    /// ```
    /// let mut queue = nevd![alloc; 4, 6, 8]?;
    /// let removed = queue.remove(1); // Some(6), and queue is [4, 8]
    /// let none = queue.remove(2); // None: there is no such item
    /// ```
    pub fn remove(&mut self, index: usize) -> Option<T>
        ensures { TakesFoundUnlessLast (length self.old ≤ index) self.old self.new result (λ x.
            (slice_get self.old index ≡ Some x) × (self.new ≡ remove self.old index)) }
    {
        if self.inner.len() > 1 {
            self.inner.remove(index)
        } else {
            None
        }
    }

    /// Keeps the first `at` items, and returns the others, in order, in a `VecDeque` with the same
    /// allocator. At least one item stays, and what is returned may be empty.
    ///
    /// `at` must be at most the length; `VecDeque` of Rust panics otherwise. Returns `AllocError`
    /// if the allocation fails; the queue is then unchanged.
    ///
    /// ```
    /// let mut queue = nevd![alloc; 4, 6, 8, 9]?;
    /// let rest = queue.split_off(NonZeroUsize::new(1).unwrap())?; // [6, 8, 9], and queue is [4]
    /// ```
    pub fn split_off(&mut self, at: NonZeroUsize) -> Result<VecDeque<T>, AllocError>
        requires { non_zero_usize_get at ≤ length self.old }
        ensures kept { OnOk result (self.new ≡ take (non_zero_usize_get at) self.old) }
        ensures rest { IfOk result (λ rest.
            rest.items ≡ drop (non_zero_usize_get at) self.old) }
        ensures unchanged { OnErr result (self.new ≡ self.old) }
    {
        self.inner.split_off(at.get())
    }

    /// Moves the items of `other` to the back, in order, and leaves `other` empty.
    ///
    /// Returns `AllocError` if the queue has to grow and the allocation fails; both queues are then
    /// unchanged.
    ///
    /// ```
    /// let mut queue = nevd![alloc; 4]?;
    /// let mut others = nevd![alloc; 6, 8]?.into_deque();
    /// queue.append(&mut others)?; // [4, 6, 8]
    /// ```
    pub fn append(&mut self, other: &mut VecDeque<T>) -> Result<(), AllocError>
        ensures added { OnOk result ((self.new ≡ self.old ++ other.old.items)
            × (other.new.items ≡ [])) }
        ensures unchanged { OnErr result ((self.new ≡ self.old)
            × (other.new.items ≡ other.old.items)) }
    {
        self.inner.append(other)
    }

    /// Adds the items of `iter` at the back, in order.
    ///
    /// `iter` must be finite. Returns `AllocError` if the queue has to grow and the allocation
    /// fails; the items taken from `iter` before that are then added, and the item that had no room
    /// is dropped. `Extend` calls this method.
    ///
    /// ```
    /// let mut queue = nevd![alloc; 1, 2, 3]?;
    /// queue.extend([4, 5, 6])?; // [1, 2, 3, 4, 5, 6]
    /// ```
    pub fn extend<I: IntoIterator<Item = T>>(&mut self, iter: I) -> Result<(), AllocError>
    where
        T: Drop,
        requires { IsFiniteIterable I.into_iter_gives I.IntoIter.can_next I.IntoIter.remaining
            iter }
        // The old items, followed by those that were added: at `Ok`, all of the source.
        ensures ran { ExtendsWithItems I.into_iter_gives I.IntoIter.next_gives
            (λ old xs new. new ≡ old ++ xs) iter self.old self.new result }
        // The same at `Ok`, by the list of the source.
        ensures lists { OnOk result (ExtendsByList (⟦<I as ItemSource>⟧.lists itself)
            (MeetsList I.into_iter_gives I.IntoIter.next_gives itself) iter self.old
            (λ all. self.new ≡ all)) }
    {
        self.inner.extend(iter)
    }

    /// Moves the items so that they are in one slice, and returns it. They can be changed, swapped
    /// and sorted through it, but their number stays the same.
    ///
    /// ```
    /// let mut queue = nevd![alloc; 11, 22, 31]?;
    /// queue.make_contiguous().reverse(); // [31, 22, 11]
    /// ```
    pub fn make_contiguous(&mut self) -> &mut [T]
        ensures* writes_back { sem 𝓛 (LendsItems T.row self.entry result) }
        ensures value { result.now ≡ self.old }
        ensures nonempty { 0 < length self.old }
    {
        self.inner.make_contiguous()
    }

    /// Moves the first `n` items to the back, in order: the item at the index `n` is then the first
    /// one.
    ///
    /// `n` must be at most the length; `VecDeque` of Rust panics otherwise.
    ///
    /// ```
    /// let mut queue = nevd![alloc; 1, 2, 3, 4]?;
    /// queue.rotate_left(1); // [2, 3, 4, 1]
    /// ```
    pub fn rotate_left(&mut self, n: usize)
        requires { n ≤ length self.old }
        ensures { self.new ≡ drop n self.old ++ take n self.old }
    {
        self.inner.rotate_left(n);
    }

    /// Moves the last `n` items to the front, in order: the first item then has the index `n`,
    /// unless `n` is the length.
    ///
    /// `n` must be at most the length; `VecDeque` of Rust panics otherwise.
    ///
    /// ```
    /// let mut queue = nevd![alloc; 1, 2, 3, 4]?;
    /// queue.rotate_right(1); // [4, 1, 2, 3]
    /// ```
    pub fn rotate_right(&mut self, n: usize)
        requires { n ≤ length self.old }
        ensures { self.new ≡ drop (length self.old - n) self.old
            ++ take (length self.old - n) self.old }
    {
        self.inner.rotate_right(n);
    }

    /// Returns a new queue of clones of the items, in order, with the same allocator.
    ///
    /// Returns `AllocError` if the allocation fails, or if cloning an item fails. The items are the
    /// same if a clone equals its original. `Clone` calls this method.
    ///
    /// ```
    /// let queue = nevd![alloc; 3, 1, 4, 1, 5, 9, 2, 6]?;
    /// let same = queue.clone()?; // [3, 1, 4, 1, 5, 9, 2, 6]
    /// ```
    pub fn clone(&self) -> Result<Self, AllocError>
    where
        T: Clone,
        ensures clones { IfOk result (AllZip T.is_clone self.now) }
        ensures len { IfOk result (λ q. length q ≡ length self.now) }
        ensures same { IfOk result (λ q. ((x y : T) → T.is_clone x y → y ≡ x) → q ≡ self.now) }
    {
        let inner = self.inner.clone()?;
        Ok(NEVecDeque { inner })
    }
}
