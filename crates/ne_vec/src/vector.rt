//! [`NEVec`], a vector that is never empty, and its iterators.
//!
//! The methods are in the Rust crate's order, with those that it lacks beside what they are like.
//! This module has those that read and edit, `search` those that search, `sort` those that sort,
//! `random` those that draw from a random number generator, `retain` those that keep what meets a
//! test, `dedup` those that drop repeated neighbours, `map` the one that replaces each item, and
//! `split` those that part the first or the last item from the others. `iter` has the non-empty
//! iterators and `IntoIterator`, `serialized` the traits of `serde`, and `traits` the other trait
//! implementations.
//!
//! If an allocation fails, the Rust crate's methods abort the process. Here a method that allocates
//! returns `AllocError`, and its comment says what holds after that. Constructors take an
//! allocator, or a `Vec` with its own, and each vector keeps it. The comment of each method says
//! what else differs from the Rust crate.
ghost use Rattle.std.specs.Prelude.{◌≡◌, ◌-◌, ◌<◌, ◌≤◌, ◌↔◌, false, [], ◌∷◌, ◌++◌};
ghost use Rattle.std.specs.Prelude.{length, take, drop, reverse, replicate, Some, None, IsSome};
ghost use Rattle.std.specs.Prelude.{IfSome, IfOk, OnOk, OnErr, slice_get};
ghost use Rattle.std.specs.NonZero.{non_zero_usize_get};
ghost use Rattle.std.specs.List.{AllZip, AllClonesOf, AppendsClones, insert, list_any};
ghost use Rattle.std.specs.List.{remove, swap, swap_remove};
ghost use Rattle.std.specs.Iterator.{IsFiniteIterable, ExtendsWithItems};

mod dedup;
mod iter;
mod map;
mod random;
mod retain;
mod search;
mod serialized;
mod sort;
mod split;
mod traits;

use crate::slice::{AdjacentRuns, AdjacentRunsIter, NEChunks, NESlice, SliceRuns, SliceRunsIter};
pub use iter::{IntoIter, Iter, IterMut};
use std::alloc::{AllocError, Global};
use std::marker::Model;
use std::num::NonZeroUsize;
use std::slice;

/// A vector that holds at least one item.
///
/// It takes the place of std's `Vec`, and grows at the end like it. Its first and last items always
/// exist. In contracts its value is the list of its items. Methods that do not mention allocation
/// do not allocate.
///
/// ```
/// let mut items = nev![alloc; 4, 6, 8]?;
/// items.push(9)?;
/// let (first, last) = (*items.first(), *items.last()); // 4 and 9
/// ```
#[derive(Drop)]
pub struct NEVec<T> {
    inner: Vec<T>,
}

impl<T> Model for NEVec<T> {
    ghost use Rattle.std.specs.Prelude.{◌<◌, List, length};

    ghost Value = { List T };

    ghost view = { λ v. v.inner.items };

    ghost invariant = { λ v. 0 < length v.inner.items };
}

impl<T> NEVec<T> {
    ghost use Rattle.std.specs.Borrow.{sem};
    ghost use Rattle.ne_vec.specs.VectorLends.{LendsItem, LendsItemIf, LendsItems, LendsIterator};
    ghost use Rattle.ne_vec.specs.VectorLends.{std_iterator};
    ghost use Rattle.ne_vec.specs.Iterators.{IteratesOver, IteratesOverMut, ListsItems};
    ghost use Rattle.ne_vec.specs.Chunks.{chunks, ChunksGive};
    ghost use Rattle.ne_vec.specs.Divisions.{by_first, by_previous};
    ghost use Rattle.ne_vec.specs.SliceRuns.{CallableAtPairs, GivesRunsOf, TakesHeads};
    ghost use Rattle.ne_vec.specs.Taken.{TakesUnlessLast};

    /// Returns a vector of one item, `head`.
    ///
    /// Returns `AllocError` if the allocation fails; `head` is then dropped.
    ///
    /// ```
    /// let items = NEVec::new(alloc, 7)?; // [7]
    /// ```
    pub fn new(alloc: Global, head: T) -> Result<Self, AllocError>
    where
        T: Drop,
        ensures { IfOk result (λ v. v ≡ head ∷ []) }
    {
        let mut inner = Vec::new(alloc);
        inner.push(head)?;
        Ok(NEVec { inner })
    }

    /// Returns a vector of `n` items: `elem` itself, and clones of it.
    ///
    /// Returns `AllocError` if the allocation fails, or if cloning `elem` fails; `elem` is then
    /// dropped. The items are all the same if a clone equals its original.
    ///
    /// ```
    /// let n = NonZeroUsize::new(2).unwrap();
    /// let items = NEVec::from_elem(alloc, 7, n)?; // [7, 7]
    /// ```
    pub fn from_elem(alloc: Global, elem: T, n: NonZeroUsize) -> Result<Self, AllocError>
    where
        T: Clone + Drop,
        ensures clones { IfOk result (λ v. AllClonesOf T.is_clone elem v) }
        ensures len { IfOk result (λ v. length v ≡ non_zero_usize_get n) }
        ensures same { IfOk result (λ v. ((y : T) → T.is_clone elem y → y ≡ elem)
            → v ≡ replicate (non_zero_usize_get n) elem) }
    {
        let inner = Vec::from_elem(alloc, elem, n.get())?;
        Ok(NEVec { inner })
    }

    /// Returns a vector of one item, `head`, with room for `capacity` items from the start.
    ///
    /// Returns `AllocError` if the allocation fails; `head` is then dropped. The capacity of the
    /// result is not specified.
    ///
    /// ```
    /// let capacity = NonZeroUsize::new(5).unwrap();
    /// let items = NEVec::with_capacity(alloc, capacity, 1)?; // [1]
    /// ```
    pub fn with_capacity(alloc: Global, capacity: NonZeroUsize, head: T) -> Result<Self, AllocError>
    where
        T: Drop,
        ensures { IfOk result (λ v. v ≡ head ∷ []) }
    {
        let mut inner = Vec::with_capacity(alloc, capacity.get())?;
        inner.push(head)?;
        Ok(NEVec { inner })
    }

    /// Returns a vector of `head`, followed by the items of `tail`. It takes over the memory and
    /// the allocator of `tail`.
    ///
    /// Returns `AllocError` if `tail` has to grow and the allocation fails; all items are then
    /// dropped. The Rust crate has `From<(T, Vec<T>)>` instead.
    ///
    /// ```
    /// let items = NEVec::from_parts(1, vec![in alloc; 2, 3, 4, 5]?)?; // [1, 2, 3, 4, 5]
    /// ```
    pub fn from_parts(head: T, tail: Vec<T>) -> Result<Self, AllocError>
    where
        T: Drop,
        ensures { IfOk result (λ v. v ≡ head ∷ tail.items) }
    {
        let mut inner = tail;
        inner.insert(0, head)?;
        Ok(NEVec { inner })
    }

    /// Returns the first item.
    ///
    /// ```
    /// let names = nev![alloc; "Österreich", "Schweiz", "Italia"]?;
    /// let first = *names.first(); // "Österreich"
    /// ```
    pub fn first(&self) -> &T
        ensures { slice_get self.now 0 ≡ Some result.now }
    {
        &self.inner[0]
    }

    /// Returns a mutable reference to the first item. The other items stay unchanged.
    ///
    /// ```
    /// let mut items = nev![alloc; 4, 6, 8]?;
    /// *items.first_mut() *= 10; // [40, 6, 8]
    /// ```
    pub fn first_mut(&mut self) -> &mut T
        ensures* writes_back { sem 𝓛 (LendsItem T.row self.entry 0 result) }
        ensures value { slice_get self.old 0 ≡ Some result.now }
    {
        &mut self.inner[0]
    }

    /// Appends `e` to the end of the vector.
    ///
    /// Returns `AllocError` if the vector has to grow and the allocation fails; the vector is then
    /// unchanged, and `e` is dropped.
    ///
    /// ```
    /// let mut items = NEVec::new(alloc, 7)?;
    /// items.push(8)?; // [7, 8]
    /// ```
    pub fn push(&mut self, e: T) -> Result<(), AllocError>
    where
        T: Drop,
        ensures added { OnOk result (self.new ≡ self.old ++ e ∷ []) }
        ensures unchanged { OnErr result (self.new ≡ self.old) }
    {
        self.inner.push(e)?;
        Ok(())
    }

    /// Removes the last item and returns it, or returns `None` if it is the only one, which then
    /// stays.
    ///
    /// ```
    /// let mut items = nev![alloc; 4, 6]?;
    /// let popped = items.pop(); // Some(6)
    /// let none = items.pop(); // None: the only item stays
    /// ```
    pub fn pop(&mut self) -> Option<T>
        ensures { TakesUnlessLast self.old self.new result (λ x. self.old ≡ self.new ++ x ∷ []) }
    {
        if self.inner.len() > 1 {
            self.inner.pop()
        } else {
            None
        }
    }

    /// Removes the item at `index` and returns it, or returns `None` if there is only one item,
    /// which then stays, whatever `index` is. The items after `index` move one place to the left.
    ///
    /// If there is more than one item, `index` must be less than the length; the Rust crate panics
    /// otherwise.
    ///
    /// ```
    /// let mut items = nev![alloc; 4, 6, 8]?;
    /// let removed = items.remove(0); // Some(4), and items is [6, 8]
    /// ```
    pub fn remove(&mut self, index: usize) -> Option<T>
        requires { 1 < length self.old → index < length self.old }
        ensures { TakesUnlessLast self.old self.new result (λ x.
            (slice_get self.old index ≡ Some x) × (self.new ≡ remove self.old index)) }
    {
        if self.inner.len() > 1 {
            Some(self.inner.remove(index))
        } else {
            None
        }
    }

    /// Removes the item at `index` and returns it, or returns `None` if there is only one item,
    /// which then stays, whatever `index` is. The last item moves to `index`.
    ///
    /// If there is more than one item, `index` must be less than the length; the Rust crate panics
    /// otherwise.
    ///
    /// ```
    /// let mut items = nev![alloc; 4, 6, 8, 9]?;
    /// let removed = items.swap_remove(0); // Some(4), and items is [9, 6, 8]
    /// ```
    pub fn swap_remove(&mut self, index: usize) -> Option<T>
        requires { 1 < length self.old → index < length self.old }
        ensures { TakesUnlessLast self.old self.new result (λ x.
            (slice_get self.old index ≡ Some x) × (self.new ≡ swap_remove self.old index x)) }
    {
        if self.inner.len() > 1 {
            Some(self.inner.swap_remove(index))
        } else {
            None
        }
    }

    /// Inserts `element` at `index`, and moves the items from there on one place to the right.
    ///
    /// `index` must be at most the length; the Rust crate panics otherwise. Returns `AllocError` if
    /// the vector has to grow and the allocation fails; the vector is then unchanged, and `element`
    /// is dropped.
    ///
    /// ```
    /// let mut items = nev![alloc; 4, 6]?;
    /// items.insert(2, 3)?;
    /// items.insert(1, 2)?;
    /// items.insert(0, 1)?; // [1, 4, 2, 6, 3]
    /// ```
    pub fn insert(&mut self, index: usize, element: T) -> Result<(), AllocError>
    where
        T: Drop,
        requires { index ≤ length self.old }
        ensures added { OnOk result (self.new ≡ insert self.old index element) }
        ensures unchanged { OnErr result (self.new ≡ self.old) }
    {
        self.inner.insert(index, element)?;
        Ok(())
    }

    /// Returns the number of items.
    ///
    /// ```
    /// let len = nev![alloc; 3, 1, 4, 1, 5, 9, 2, 6]?.len().get(); // 8
    /// ```
    pub fn len(&self) -> NonZeroUsize
        ensures { non_zero_usize_get result ≡ length self.now }
    {
        NonZeroUsize::new(self.inner.len()).unwrap()
    }

    /// Returns `false`, as there is always an item.
    ///
    /// It exists for code that is written for `Vec` too. In the Rust crate it is deprecated.
    ///
    /// ```
    /// let is_empty = nev![alloc; 5]?.is_empty(); // false
    /// ```
    pub fn is_empty(&self) -> bool
        ensures never { result ≡ false }
        ensures nonempty { 0 < length self.now }
    {
        let _ = &self.inner; // the invariant is known once a field is used
        false
    }

    /// Returns how many items the vector can hold before it has to grow, which is at least the
    /// length.
    ///
    /// The Rust crate relies on std's capacity not being 0; this returns the greater of std's
    /// capacity and the length. For items of size 0 it need not be `usize::MAX`.
    ///
    /// ```
    /// let items = nev![alloc; 3, 1, 4]?;
    /// let has_room = items.capacity().get() >= 3; // true
    /// ```
    pub fn capacity(&self) -> NonZeroUsize
        ensures { length self.now ≤ non_zero_usize_get result }
    {
        NonZeroUsize::new(self.inner.capacity().max(self.inner.len())).unwrap()
    }

    /// Returns the last item, which is also the first one if it is the only one.
    ///
    /// ```
    /// let names = nev![alloc; "Österreich", "Schweiz", "Italia"]?;
    /// let last = *names.last(); // "Italia"
    /// ```
    pub fn last(&self) -> &T
        ensures { slice_get self.now (length self.now - 1) ≡ Some result.now }
    {
        &self.inner[self.inner.len() - 1]
    }

    /// Returns a mutable reference to the last item. The other items stay unchanged.
    ///
    /// ```
    /// let mut items = nev![alloc; 11, 20, 30]?;
    /// *items.last_mut() = 31; // [11, 20, 31]
    /// ```
    pub fn last_mut(&mut self) -> &mut T
        ensures* writes_back { sem 𝓛 (LendsItem T.row self.entry (length self.old - 1) result) }
        ensures value { slice_get self.old (length self.old - 1) ≡ Some result.now }
    {
        let last = self.inner.len() - 1;
        &mut self.inner[last]
    }

    /// Returns whether an item equals `x`.
    ///
    /// ```
    /// let items = nev![alloc; 4, 6, 8]?;
    /// let (there, absent) = (items.contains(&6), items.contains(&7)); // true and false
    /// ```
    pub fn contains(&self, x: &T) -> bool
    where
        T: PartialEq,
        ensures { result ≡ list_any (λ y. T.eq y x.now) self.now }
    {
        self.inner.contains(x)
    }

    /// Returns the item at `index`, or `None` if `index` is not less than the length.
    ///
    /// ```
    /// let items = nev![alloc; 10, 20, 30]?;
    /// let (last, none) = (items.get(2), items.get(3)); // Some(&30) and None
    /// ```
    pub fn get(&self, index: usize) -> Option<&T>
        ensures there { IsSome result ↔ (index < length self.now) }
        ensures nonempty { 0 < length self.now }
        ensures value { IfSome result (λ x. slice_get self.now index ≡ Some x.now) }
    {
        self.inner.get(index)
    }

    /// Returns a mutable reference to the item at `index`, or `None` if `index` is not less than
    /// the length. The other items stay unchanged.
    ///
    /// ```
    /// let mut items = nev![alloc; 11, 21, 31]?;
    /// if let Some(item) = items.get_mut(1) {
    ///     *item = 22; // [11, 22, 31]
    /// }
    /// ```
    pub fn get_mut(&mut self, index: usize) -> Option<&mut T>
        ensures* writes_back { sem 𝓛 (LendsItemIf T.row self.entry index result) }
        ensures there { IsSome result ↔ (index < length self.old) }
        ensures nonempty { 0 < length self.old }
        ensures value { IfSome result (λ x. slice_get self.old index ≡ Some x.now) }
    {
        self.inner.get_mut(index)
    }

    /// Returns all items as a mutable slice. They can be changed and swapped, but their number
    /// stays the same.
    ///
    /// It replaces the Rust crate's `AsMut<Vec<T>>`, through which a caller could remove the only
    /// item.
    ///
    /// ```
    /// let mut items = nev![alloc; 11, 22, 31]?;
    /// items.as_mut_slice().reverse(); // [31, 22, 11]
    /// ```
    pub fn as_mut_slice(&mut self) -> &mut [T]
        ensures* writes_back { sem 𝓛 (LendsItems T.row self.entry result) }
        ensures value { result.now ≡ self.old }
        ensures nonempty { 0 < length self.old }
    {
        self.inner.as_mut_slice()
    }

    /// Returns std's iterator over the items, in order.
    ///
    /// ```
    /// let items = nev![alloc; 3, 4, 5, 6]?;
    /// let halves: Vec<u32> = items.iter().map(|x| *x / 2).collect(alloc)?; // [1, 2, 2, 3]
    /// ```
    pub fn iter(&self) -> slice::Iter<'_, T>
        ensures { IteratesOver self.now result }
    {
        self.inner.iter()
    }

    /// Returns std's mutable iterator over the items, in order.
    ///
    /// ```
    /// let mut items = nev![alloc; 0u32, 1, 2, 3]?;
    /// for x in items.iter_mut() {
    ///     *x = x.wrapping_add(1);
    /// } // [1, 2, 3, 4]
    /// ```
    pub fn iter_mut(&mut self) -> slice::IterMut<'_, T>
        ensures* writes_back { sem 𝓛 (LendsIterator T.row self.entry result) }
        ensures rest { IteratesOverMut self.old result }
    {
        self.inner.iter_mut()
    }

    /// Returns a non-empty iterator over the items, in order.
    ///
    /// ```
    /// let items = nev![alloc; 6, 8, 4]?;
    /// let greatest = items.nonempty_iter().copied().max(); // 8
    /// ```
    pub fn nonempty_iter(&self) -> Iter<'_, T>
        ensures items { result ≡ self.now }
        ensures lists { ListsItems result self.now }
    {
        Iter {
            inner: self.inner.as_slice(),
        }
    }

    /// Returns a non-empty mutable iterator over the items, in order.
    ///
    /// ```
    /// let mut items = nev![alloc; 1u32, 2, 3, 4]?;
    /// for x in items.nonempty_iter_mut() {
    ///     *x = x.wrapping_add(1);
    /// } // [2, 3, 4, 5]
    /// ```
    pub fn nonempty_iter_mut(&mut self) -> IterMut<'_, T>
        ensures* writes_back { sem 𝓛 (LendsIterator T.row self.entry (std_iterator result)) }
        ensures rest { IteratesOverMut self.old (std_iterator result) }
    {
        IterMut {
            inner: self.inner.iter_mut(),
        }
    }

    /// Swaps the items at the indices `a` and `b`. All other items stay where they are.
    ///
    /// Both indices must be less than the length; Rust's `Vec` panics otherwise. The Rust crate
    /// lacks this method.
    ///
    /// ```
    /// let mut items = nev![alloc; 4, 6, 8]?;
    /// items.swap(0, 2); // [8, 6, 4]
    /// ```
    pub fn swap(&mut self, a: usize, b: usize)
        requires a_within { a < length self.old }
        requires b_within { b < length self.old }
        ensures { self.new ≡ swap self.old a b }
    {
        self.inner.swap(a, b);
    }

    /// Reverses the items in place.
    ///
    /// ```
    /// let mut items = nev![alloc; 4, 6, 8]?;
    /// items.reverse(); // [8, 6, 4]
    /// ```
    pub fn reverse(&mut self)
        ensures { self.new ≡ reverse self.old }
    {
        self.inner.reverse();
    }

    /// Keeps the first `len` items and drops the others, or keeps all if there are fewer.
    ///
    /// ```
    /// let mut items = nev![alloc; 1, 2, 3, 4, 5, 6]?;
    /// items.truncate(NonZeroUsize::new(2).unwrap()); // [1, 2]
    /// ```
    pub fn truncate(&mut self, len: NonZeroUsize)
    where
        T: Drop,
        ensures { self.new ≡ take (non_zero_usize_get len) self.old }
    {
        self.inner.truncate(len.get());
    }

    /// Keeps the first `at` items, and returns the others, in order, in a `Vec` with the same
    /// allocator. At least one item stays, and what is returned may be empty.
    ///
    /// `at` must be at most the length; Rust's `Vec` panics otherwise. Returns `AllocError` if the
    /// allocation fails; the vector is then unchanged. The Rust crate lacks this method.
    ///
    /// ```
    /// let mut items = nev![alloc; 4, 6, 8, 9]?;
    /// let rest = items.split_off(NonZeroUsize::new(1).unwrap())?; // [6, 8, 9], and items is [4]
    /// ```
    pub fn split_off(&mut self, at: NonZeroUsize) -> Result<Vec<T>, AllocError>
        requires { non_zero_usize_get at ≤ length self.old }
        ensures kept { OnOk result (self.new ≡ take (non_zero_usize_get at) self.old) }
        ensures rest { IfOk result (λ rest.
            rest.items ≡ drop (non_zero_usize_get at) self.old) }
        ensures unchanged { OnErr result (self.new ≡ self.old) }
    {
        self.inner.split_off(at.get())
    }

    /// Returns a vector of clones of the items of `slice`, in order, or `Ok(None)` if `slice` is
    /// empty.
    ///
    /// Returns `AllocError` if the allocation fails, or if cloning an item fails. The items are the
    /// same if a clone equals its original.
    ///
    /// ```
    /// let some = NEVec::try_from_slice(alloc, &[4, 6, 8])?; // Some([4, 6, 8])
    /// let none: Option<NEVec<u32>> = NEVec::try_from_slice(alloc, &[])?; // None
    /// ```
    pub fn try_from_slice(alloc: Global, slice: &[T]) -> Result<Option<NEVec<T>>, AllocError>
    where
        T: Clone + Drop,
        ensures empty { IfOk result (λ made. (made ≡ None) ↔ (slice.now ≡ [])) }
        ensures clones { IfOk result (λ made. IfSome made (AllZip T.is_clone slice.now)) }
        ensures same { IfOk result (λ made. ((x y : T) → T.is_clone x y → y ≡ x)
            → IfSome made (λ v. v ≡ slice.now)) }
    {
        if slice.is_empty() {
            return Ok(None);
        }
        let inner = Vec::from_clones(alloc, slice)?;
        Ok(Some(NEVec { inner }))
    }

    /// Returns a vector of the items of `vec` in the same memory, or `None` if `vec` is empty. It
    /// does not allocate.
    ///
    /// ```
    /// let some = NEVec::try_from_vec(vec![in alloc; 4, 6, 8]?); // Some([4, 6, 8])
    /// let none = NEVec::try_from_vec(Vec::<u32>::new(alloc)); // None
    /// ```
    pub fn try_from_vec(vec: Vec<T>) -> Option<NEVec<T>>
        ensures empty { (result ≡ None) ↔ (vec.items ≡ []) }
        ensures same { IfSome result (λ v. v ≡ vec.items) }
    {
        if vec.is_empty() {
            vec.destroy_empty();
            None
        } else {
            Some(NEVec { inner: vec })
        }
    }

    /// Returns the items as a `Vec`, in the same memory. It does not allocate. The Rust crate has
    /// only `From`, which is here too.
    ///
    /// ```
    /// let vec = nev![alloc; 4, 6, 8]?.into_vec(); // [4, 6, 8]
    /// ```
    pub fn into_vec(self) -> Vec<T>
        ensures { result.items ≡ self }
    {
        self.inner
    }

    /// Returns a new vector of clones of the items, in order, with the same allocator.
    ///
    /// Returns `AllocError` if the allocation fails, or if cloning an item fails. The items are the
    /// same if a clone equals its original. `Clone` calls this method.
    ///
    /// ```
    /// let items = nev![alloc; 3, 1, 4, 1, 5, 9, 2, 6]?;
    /// let same = items.clone()?; // [3, 1, 4, 1, 5, 9, 2, 6]
    /// ```
    pub fn clone(&self) -> Result<Self, AllocError>
    where
        T: Clone,
        ensures clones { IfOk result (AllZip T.is_clone self.now) }
        ensures len { IfOk result (λ v. length v ≡ length self.now) }
        ensures same { IfOk result (λ v. ((x y : T) → T.is_clone x y → y ≡ x) → v ≡ self.now) }
    {
        let inner = self.inner.clone()?;
        Ok(NEVec { inner })
    }

    /// Moves the items of `other` to the end, in order, and leaves `other` empty.
    ///
    /// Returns `AllocError` if the vector has to grow and the allocation fails; both vectors are
    /// then unchanged.
    ///
    /// ```
    /// let mut items = nev![alloc; 4]?;
    /// let mut others = vec![in alloc; 6, 8]?;
    /// items.append(&mut others)?; // [4, 6, 8]
    /// ```
    pub fn append(&mut self, other: &mut Vec<T>) -> Result<(), AllocError>
        ensures added { OnOk result ((self.new ≡ self.old ++ other.old.items)
            × (other.new.items ≡ [])) }
        ensures unchanged { OnErr result ((self.new ≡ self.old)
            × (other.new.items ≡ other.old.items)) }
    {
        self.inner.append(other)
    }

    /// Appends the items of `iter` to the end, in order.
    ///
    /// `iter` must be finite. Returns `AllocError` if the vector has to grow and the allocation
    /// fails; the items taken from `iter` before that are then appended, and the item that had no
    /// room is dropped. `Extend` calls this method.
    ///
    /// ```
    /// let mut items = nev![alloc; 1, 2, 3]?;
    /// items.extend([4, 5, 6])?; // [1, 2, 3, 4, 5, 6]
    /// ```
    pub fn extend<I: IntoIterator<Item = T>>(&mut self, iter: I) -> Result<(), AllocError>
    where
        T: Drop,
        requires { IsFiniteIterable I.into_iter_gives I.IntoIter.can_next I.IntoIter.remaining
            iter }
        ensures { ExtendsWithItems I.into_iter_gives I.IntoIter.next_gives
            (λ old xs new. new ≡ old ++ xs) iter self.old self.new result }
    {
        self.inner.extend(iter)
    }

    /// Appends clones of the items of `other` to the end, in order.
    ///
    /// Returns `AllocError` if the vector has to grow and the allocation fails, or if cloning an
    /// item fails; the vector is then unchanged. The items are the same if a clone equals its
    /// original. The Rust crate lacks this method.
    ///
    /// ```
    /// let mut items = nev![alloc; 4, 6]?;
    /// items.extend_from_slice(&[8, 9])?; // [4, 6, 8, 9]
    /// ```
    pub fn extend_from_slice(&mut self, other: &[T]) -> Result<(), AllocError>
    where
        T: Clone + Drop,
        ensures clones { OnOk result (AppendsClones T.is_clone self.old self.new other.now) }
        ensures same { OnOk result (((x y : T) → T.is_clone x y → y ≡ x)
            → self.new ≡ self.old ++ other.now) }
        ensures unchanged { OnErr result (self.new ≡ self.old) }
    {
        self.inner.extend_from_slice(other)
    }

    /// Returns all items as a non-empty slice.
    ///
    /// ```
    /// let items = nev![alloc; 4, 6, 8]?;
    /// let slice = items.as_nonempty_slice();
    /// let (first, last) = (*slice.first(), *slice.last()); // 4 and 8
    /// ```
    pub fn as_nonempty_slice(&self) -> NESlice<'_, T>
        ensures { result ≡ self.now }
    {
        NESlice {
            inner: self.inner.as_slice(),
        }
    }

    /// Returns the chunks of `chunk_size` items, in order; the last chunk may be shorter. They are
    /// parts of the vector, so nothing is copied.
    ///
    /// ```
    /// let items = nev![alloc; 3, 1, 4]?;
    /// let size = NonZeroUsize::new(2).unwrap();
    /// let chunks = items.nonempty_chunks(size); // [3, 1] and [4]
    /// ```
    pub fn nonempty_chunks(&self, chunk_size: NonZeroUsize) -> NEChunks<'_, T>
        ensures items { result ≡ chunks (non_zero_usize_get chunk_size) self.now }
        ensures lists { ChunksGive result (chunks (non_zero_usize_get chunk_size) self.now) }
    {
        NEChunks {
            inner: self.inner.as_slice().chunks(chunk_size.get()),
        }
    }

    /// Returns the runs of the items, in order. An item continues the run if
    /// `same(first item of the run, item)` returns `true`; otherwise it begins the next run. They
    /// are those of [`NESlice::runs_by`], parts of the vector, so nothing is copied. The Rust crate
    /// has no such method.
    ///
    /// ```
    /// let items = nev![alloc; 1u32, 2, 3]?;
    /// let runs = items.runs_by(|a, b| a.abs_diff(*b) < 2); // [1, 2] and [3]
    /// ```
    pub fn runs_by<'a, F: Fn(&T, &T) -> bool>(&'a self, same: F) -> SliceRuns<'a, T, F>
        ensures holds { result ≡ record { left = self.now; closure = same } }
        ensures ends { CallableAtPairs F.Fn same self.now
            → IsFiniteIterable (⟦<SliceRuns<'a, T, F> as IntoIterator>⟧.into_iter_gives)
            (⟦<SliceRunsIter<'a, T, F> as Iterator>⟧.can_next)
            (⟦<SliceRunsIter<'a, T, F> as Iterator>⟧.remaining) result }
        ensures lists { GivesRunsOf F.Fn by_first same result self.now }
        ensures heads { TakesHeads {A = T} by_first }
    {
        self.as_nonempty_slice().runs_by(same)
    }

    /// Returns the runs of the items, in order. An item continues the run if
    /// `same(item before it, item)` returns `true`; otherwise it begins the next run. They are
    /// those of [`NESlice::adjacent_runs`], parts of the vector, so nothing is copied. The Rust
    /// crate has no such method.
    ///
    /// ```
    /// let items = nev![alloc; 1u32, 2, 3]?;
    /// let runs = items.adjacent_runs(|a, b| a.abs_diff(*b) < 2); // [1, 2, 3]
    /// ```
    pub fn adjacent_runs<'a, F: Fn(&T, &T) -> bool>(&'a self, same: F) -> AdjacentRuns<'a, T, F>
        ensures holds { result ≡ record { left = self.now; closure = same } }
        ensures ends { CallableAtPairs F.Fn same self.now
            → IsFiniteIterable (⟦<AdjacentRuns<'a, T, F> as IntoIterator>⟧.into_iter_gives)
            (⟦<AdjacentRunsIter<'a, T, F> as Iterator>⟧.can_next)
            (⟦<AdjacentRunsIter<'a, T, F> as Iterator>⟧.remaining) result }
        ensures lists { GivesRunsOf F.Fn by_previous same result self.now }
    {
        self.as_nonempty_slice().adjacent_runs(same)
    }
}
