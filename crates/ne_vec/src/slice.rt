//! [`NESlice`], a slice that is never empty, with its chunks, its runs, and its iterator.
ghost use Rattle.std.specs.Prelude.{◌≡◌, ◌-◌, ◌<◌, ◌≤◌, ◌↔◌, [], length, false, Some, None, IfSome};
ghost use Rattle.std.specs.Prelude.{slice_get, ⊤};
ghost use Rattle.std.specs.NonZero.{non_zero_usize_get};
ghost use Rattle.std.specs.Iterator.{YieldsFirst, item_count, IsFiniteIterable};
ghost use Rattle.std.specs.Cmp.Lexicographic.{pointwise, slice_cmp, slice_partial_cmp, lists_equiv};
ghost use Rattle.std.specs.Cmp.Lexicographic.{lists_agrees, lists_total, lists_ties, lists_po};
ghost use Rattle.std.specs.Cmp.Lexicographic.{lists_per};
ghost use Rattle.std.specs.Hash.{items_Alike};
ghost use Rattle.std.specs.Hash as fed;

mod runs;

use runs::Runs;
pub use runs::{AdjacentRuns, AdjacentRunsIter, SliceRuns, SliceRunsIter};
use std::alloc::AllocError;
use std::cmp::Ordering;
use std::convert::AsSlice;
use std::fmt::Debug;
use std::hash::{Hash, Hasher};
use std::marker::{Model, PhantomData};
use std::num::NonZeroUsize;
use std::ops::Index;
use std::{fmt, slice};

/// A borrowed slice that holds at least one item.
///
/// In contracts its value is the list of its items. None of its methods allocates. What they return
/// may outlive the `NESlice`, except by `as_slice`, indexing, and `into_iter` of a reference to it.
///
/// ```
/// let items = nev![alloc; 4, 6, 8]?;
/// let slice = items.as_nonempty_slice();
/// let (first, last) = (*slice.first(), *slice.last()); // 4 and 8
/// ```
#[derive(Drop)]
pub struct NESlice<'a, T> {
    pub(crate) inner: &'a [T],
}

impl<'a, T> Model for NESlice<'a, T> {
    ghost use Rattle.std.specs.Prelude.{◌<◌, List, length};

    ghost Value = { List T };

    ghost view = { λ s. s.inner.now };

    ghost invariant = { λ s. 0 < length s.inner.now };
}

impl<'a, T> NESlice<'a, T> {
    ghost use Rattle.ne_vec.specs.Iterators.{IteratesOver, ListsItems};
    ghost use Rattle.ne_vec.specs.Chunks.{chunks, ChunksGive};
    ghost use Rattle.ne_vec.specs.Divisions.{by_first, by_previous};
    ghost use Rattle.ne_vec.specs.SliceRuns.{CallableAtPairs, GivesRunsOf, TakesHeads};

    /// Returns the first item.
    ///
    /// ```
    /// let items = nev![alloc; 4, 6, 8]?;
    /// let first = *items.as_nonempty_slice().first(); // 4
    /// ```
    pub fn first(&self) -> &'a T
        ensures { slice_get self.now 0 ≡ Some result.now }
    {
        &self.inner[0]
    }

    /// Returns the last item, which is also the first one if it is the only one.
    ///
    /// ```
    /// let items = nev![alloc; 4, 6, 8]?;
    /// let last = *items.as_nonempty_slice().last(); // 8
    /// ```
    pub fn last(&self) -> &'a T
        ensures { slice_get self.now (length self.now - 1) ≡ Some result.now }
    {
        &self.inner[self.inner.len() - 1]
    }

    /// Returns `slice` as a non-empty slice, or `None` if it is empty.
    ///
    /// ```
    /// let numbers = [5, 9, 2];
    /// let some = NESlice::try_from_slice(&numbers); // Some([5, 9, 2])
    /// let nothing: [u8; 0] = [];
    /// let none = NESlice::try_from_slice(&nothing); // None
    /// ```
    pub fn try_from_slice(slice: &'a [T]) -> Option<Self>
        ensures empty { (result ≡ None) ↔ (slice.now ≡ []) }
        ensures same { IfSome result (λ s. s ≡ slice.now) }
    {
        if slice.is_empty() {
            None
        } else {
            Some(NESlice { inner: slice })
        }
    }

    /// Returns the number of items.
    ///
    /// ```
    /// let items = nev![alloc; 3, 1, 4, 1, 5, 9, 2, 6]?;
    /// let len = items.as_nonempty_slice().len().get(); // 8
    /// ```
    pub fn len(&self) -> NonZeroUsize
        ensures { non_zero_usize_get result ≡ length self.now }
    {
        NonZeroUsize::new(self.inner.len()).unwrap()
    }

    /// Returns `false`, as there is always an item.
    ///
    /// It exists for code that is written for slices too. In the Rust crate it is deprecated.
    ///
    /// ```
    /// let items = nev![alloc; 5]?;
    /// let is_empty = items.as_nonempty_slice().is_empty(); // false
    /// ```
    pub fn is_empty(&self) -> bool
        ensures never { result ≡ false }
        ensures nonempty { 0 < length self.now }
    {
        let _ = &self.inner; // the invariant is known once a field is used
        false
    }

    /// Returns std's iterator over the items, in order.
    ///
    /// ```
    /// let items = nev![alloc; 4, 6]?;
    /// let slice = items.as_nonempty_slice();
    /// let halves: Vec<u32> = slice.iter().map(|x| *x / 2).collect(alloc)?; // [2, 3]
    /// ```
    pub fn iter(&self) -> slice::Iter<'a, T>
        ensures { IteratesOver self.now result }
    {
        self.inner.iter()
    }

    /// Returns a non-empty iterator over the items, in order.
    ///
    /// ```
    /// let items = nev![alloc; 3, 1, 4, 1, 5, 9, 2, 6]?;
    /// let slice = items.as_nonempty_slice();
    /// let same: Vec<u32> = slice.nonempty_iter().copied().collect(alloc)?; // the same items
    /// ```
    pub fn nonempty_iter(&self) -> Iter<'a, T>
        ensures items { result ≡ self.now }
        ensures lists { ListsItems result self.now }
    {
        Iter { inner: self.inner }
    }

    /// Returns the chunks of `chunk_size` items, in order; the last chunk may be shorter. They are
    /// parts of the slice, so nothing is copied.
    ///
    /// ```
    /// let items = nev![alloc; 3, 1, 4]?;
    /// let (slice, size) = (items.as_nonempty_slice(), NonZeroUsize::new(2).unwrap());
    /// let chunks = slice.nonempty_chunks(size); // [3, 1] and [4]
    /// ```
    pub fn nonempty_chunks(&self, chunk_size: NonZeroUsize) -> NEChunks<'a, T>
        ensures items { result ≡ chunks (non_zero_usize_get chunk_size) self.now }
        ensures lists { ChunksGive result (chunks (non_zero_usize_get chunk_size) self.now) }
    {
        NEChunks {
            inner: self.inner.chunks(chunk_size.get()),
        }
    }

    /// Returns the runs of the items, in order. An item continues the run if `same(first item of
    /// the run, item)` returns `true`; otherwise it begins the next run.
    /// [`adjacent_runs`](Self::adjacent_runs) compares each item with the one before it instead.
    ///
    /// Each run is a part of the slice, so nothing is copied and nothing is allocated. If what
    /// `same` returns depends only on the two items, the runs are the one division of the items;
    /// `same` need not be reflexive or transitive. With any other `same` the runs are still
    /// non-empty, and one after another they are the slice.
    ///
    /// The Rust crate has no such method. Std's `chunk_by` compares neighbours.
    ///
    /// ```
    /// let items = nev![alloc; 1u32, 2, 3]?;
    /// let slice = items.as_nonempty_slice();
    /// let runs = slice.runs_by(|a, b| a.abs_diff(*b) < 2); // [1, 2] and [3]
    /// ```
    pub fn runs_by<F: Fn(&T, &T) -> bool>(&self, same: F) -> SliceRuns<'a, T, F>
        ensures holds { result ≡ record { left = self.now; closure = same } }
        ensures ends { CallableAtPairs F.Fn same self.now
            → IsFiniteIterable (⟦<SliceRuns<'a, T, F> as IntoIterator>⟧.into_iter_gives)
            (⟦<SliceRunsIter<'a, T, F> as Iterator>⟧.can_next)
            (⟦<SliceRunsIter<'a, T, F> as Iterator>⟧.remaining) result }
        ensures lists { GivesRunsOf F.Fn by_first same result self.now }
        ensures heads { TakesHeads {A = T} by_first }
    {
        Runs {
            items: self.inner,
            same,
            by: PhantomData,
        }
    }

    /// Returns the runs of the items, in order. An item continues the run if
    /// `same(item before it, item)` returns `true`; otherwise it begins the next run.
    ///
    /// Each run is a part of the slice, so nothing is copied and nothing is allocated. If what
    /// `same` returns depends only on the two items, the runs are the one division of the items.
    /// If `same` is symmetric and transitive too, [`runs_by`](Self::runs_by) gives the same runs.
    ///
    /// The Rust crate has no such method. It does what `chunk_by` of std's slices does, and its
    /// runs are non-empty slices.
    ///
    /// ```
    /// let items = nev![alloc; 1u32, 2, 3]?;
    /// let slice = items.as_nonempty_slice();
    /// let runs = slice.adjacent_runs(|a, b| a.abs_diff(*b) < 2); // [1, 2, 3]
    /// ```
    pub fn adjacent_runs<F: Fn(&T, &T) -> bool>(&self, same: F) -> AdjacentRuns<'a, T, F>
        ensures holds { result ≡ record { left = self.now; closure = same } }
        ensures ends { CallableAtPairs F.Fn same self.now
            → IsFiniteIterable (⟦<AdjacentRuns<'a, T, F> as IntoIterator>⟧.into_iter_gives)
            (⟦<AdjacentRunsIter<'a, T, F> as Iterator>⟧.can_next)
            (⟦<AdjacentRunsIter<'a, T, F> as Iterator>⟧.remaining) result }
        ensures lists { GivesRunsOf F.Fn by_previous same result self.now }
    {
        Runs {
            items: self.inner,
            same,
            by: PhantomData,
        }
    }
}

/// Returns the items as a slice. This replaces the Rust crate's `AsRef<[T]>`.
impl<'a, T> AsSlice<T> for NESlice<'a, T> {
    ghost items = { λ s. s };

    fn as_slice(&self) -> &[T]
        ensures same { result.now ≡ self.now }
        ensures nonempty { 0 < length self.now }
    {
        self.inner
    }
}

impl<'a, T> IntoIterator for NESlice<'a, T> {
    ghost use Rattle.ne_vec.specs.Iterators.{IteratesOver};

    type Item = &'a T;

    type IntoIter = slice::Iter<'a, T>;

    ghost into_iter_gives = { λ s it. IteratesOver s it };

    fn into_iter(self) -> slice::Iter<'a, T> {
        self.inner.iter()
    }
}

impl<'a, T> IntoIterator for &'a NESlice<'a, T> {
    ghost use Rattle.ne_vec.specs.Iterators.{IteratesOver};

    type Item = &'a T;

    type IntoIter = slice::Iter<'a, T>;

    ghost into_iter_gives = { λ s it. IteratesOver s.now it };

    fn into_iter(self) -> slice::Iter<'a, T> {
        self.inner.iter()
    }
}

/// Returns the item at `index`, which must be at most the last index; 0 is always allowed. The Rust
/// crate panics otherwise.
///
/// ```
/// let items = nev![alloc; 3, 1, 4, 1, 5, 9, 2, 6]?;
/// let third = items.as_nonempty_slice()[2]; // 4
/// ```
impl<'a, T> Index<usize> for NESlice<'a, T> {
    type Output = T;

    ghost can_index = { λ s i. i ≤ length s - 1 };

    ghost index_gives = { λ s i x. slice_get s i ≡ Some x };

    fn index(&self, index: usize) -> &T
        requires { index ≤ length self.now - 1 }
        ensures { slice_get self.now index ≡ Some result.now }
    {
        let items = self.inner;
        &items[index]
    }
}

/// Returns the same slice. It does not allocate and never fails.
impl<'a, T> Clone for NESlice<'a, T> {
    ghost is_clone = { λ s t. t ≡ s };

    ghost is_infallible = { λ _. ⊤ };

    fn clone(&self) -> Result<NESlice<'a, T>, AllocError> {
        Ok(NESlice { inner: self.inner })
    }
}

/// Prints the slice with its type's name, as in the Rust crate: `NESlice { inner: [1, 2, 3] }`.
impl<'a, T: Debug> Debug for NESlice<'a, T> {
    fn fmt<W: fmt::Write>(&self, f: &mut fmt::Formatter<W>) -> fmt::Result {
        f.debug_struct("NESlice")
            .field("inner", &self.inner)
            .finish()
    }
}

impl<'a, T: PartialEq> PartialEq for NESlice<'a, T> {
    ghost eq = { pointwise T.eq };

    ghost laws = { lists_per T.laws };

    fn eq(&self, other: &NESlice<'a, T>) -> bool {
        self.inner == other.inner
    }
}

impl<'a, T: Eq> Eq for NESlice<'a, T> {
    ghost laws = { lists_equiv T.Eq.laws };
}

impl<'a, T: Hash> Hash for NESlice<'a, T> {
    ghost hash_input = { fed.slice T.hash_input };

    ghost respects_eq = { (items_Alike (record { fed = T.respects_eq })).fed };

    fn hash<H: Hasher>(&self, state: &mut H) {
        self.inner.hash(state);
    }
}

impl<'a, T: PartialOrd> PartialOrd for NESlice<'a, T> {
    ghost partial_cmp = { slice_partial_cmp T.partial_cmp };

    ghost laws = { lists_po T.PartialOrd.laws };

    fn partial_cmp(&self, other: &NESlice<'a, T>) -> Option<Ordering> {
        self.inner.partial_cmp(&other.inner)
    }
}

impl<'a, T: Ord> Ord for NESlice<'a, T> {
    ghost cmp = { slice_cmp T.cmp };

    ghost total = { lists_total T.total };

    ghost matches_partial_cmp = { lists_agrees T.matches_partial_cmp };

    ghost matches_eq = { lists_ties T.cmp T.matches_eq };

    fn cmp(&self, other: &NESlice<'a, T>) -> Ordering {
        self.inner.cmp(&other.inner)
    }
}

/// An iterator over the items of an [`NESlice`], of which there is at least one. In contracts its
/// value is the list of them.
#[derive(Drop)]
pub struct Iter<'a, T> {
    inner: &'a [T],
}

impl<'a, T> Model for Iter<'a, T> {
    ghost use Rattle.std.specs.Prelude.{◌<◌, List, length};

    ghost Value = { List T };

    ghost view = { λ w. w.inner.now };

    ghost invariant = { λ w. 0 < length w.inner.now };
}

impl<'a, T> From<NESlice<'a, T>> for Iter<'a, T> {
    ghost from_gives = { λ s w. w ≡ s };

    fn from(value: NESlice<'a, T>) -> Iter<'a, T> {
        Iter { inner: value.inner }
    }
}

impl<'a, T> IntoIterator for Iter<'a, T> {
    ghost use Rattle.ne_vec.specs.Iterators.{IteratesOver};

    type Item = &'a T;

    type IntoIter = slice::Iter<'a, T>;

    ghost into_iter_gives = { λ v it. IteratesOver v it };

    fn into_iter(self) -> slice::Iter<'a, T> {
        self.inner.iter()
    }
}

/// The chunks of a list, of which there is at least one. In contracts its value is the list of the
/// chunks.
#[derive(Drop)]
pub struct NEChunks<'a, T> {
    pub(crate) inner: slice::Chunks<'a, T>,
}

impl<'a, T> Model for NEChunks<'a, T> {
    ghost use Rattle.std.specs.Prelude.{◌<◌, List, length};
    ghost use Rattle.std.specs.Slice.Iter.{chunks_rest, chunks_size};
    ghost use Rattle.ne_vec.specs.Chunks.{chunks_left};

    ghost Value = { List (List T) };

    ghost view = { λ c. chunks_left c.inner };

    ghost invariant = { λ c. (0 < chunks_size c.inner) × (0 < length (chunks_rest c.inner)) };
}

impl<'a, T> IntoIterator for NEChunks<'a, T> {
    type Item = NESlice<'a, T>;

    type IntoIter = ChunksIter<'a, T>;

    ghost into_iter_gives = { λ c it. (0 < length c) × (it ≡ c) };

    fn into_iter(self) -> ChunksIter<'a, T> {
        ChunksIter { inner: self.inner }
    }
}

/// An iterator over the chunks of a list. In contracts its value is the list of the chunks that are
/// left.
///
/// It replaces std's `FilterMap`, which the Rust crate's `into_iter` returns.
#[derive(Drop)]
pub struct ChunksIter<'a, T> {
    inner: slice::Chunks<'a, T>,
}

impl<'a, T> Model for ChunksIter<'a, T> {
    ghost use Rattle.std.specs.Prelude.{◌<◌, List};
    ghost use Rattle.std.specs.Slice.Iter.{chunks_size};
    ghost use Rattle.ne_vec.specs.Chunks.{chunks_left};

    ghost Value = { List (List T) };

    ghost view = { λ c. chunks_left c.inner };

    ghost invariant = { λ c. 0 < chunks_size c.inner };
}

impl<'a, T> Iterator for ChunksIter<'a, T> {
    type Item = NESlice<'a, T>;

    ghost next_gives = { YieldsFirst (λ left. left) };

    ghost remaining = { item_count (λ left. left) };

    fn next(&mut self) -> Option<NESlice<'a, T>> {
        let part = self.inner.next()?;
        Some(NESlice { inner: part })
    }

    fn size_hint(&self) -> (usize, Option<usize>) {
        self.inner.size_hint()
    }
}
