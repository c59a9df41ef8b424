//! The runs of a slice: consecutive parts of it, divided by a closure that compares items.
ghost use Rattle.std.specs.Prelude.{◌≡◌, ◌<◌, ◌≤◌, Bool, List, Some, length, slice_get};
ghost use Rattle.std.specs.Iterator.{item_count};
ghost use Rattle.ne_vec.specs.Divisions.{by_first, by_previous};
ghost use Rattle.ne_vec.specs.SliceRuns.{ActsAsAtPair, BecomesCutter, CallableAtPairs, CutsRun};
ghost use Rattle.ne_vec.specs.SliceRuns.{IsFirstRun};

use super::NESlice;
use std::marker::{Model, PhantomData};

/// Says with which item of a run the next item is compared: [`ByFirst`] or [`ByPrevious`].
///
/// `place` makes of a test of two items the test of whether an item continues a run.
pub trait Comparison<T> {
    ghost place: { (T → T → Bool) → List T → T → Bool };

    /// Returns the index of that item in a run of `len` items.
    fn index(len: usize) -> usize
        requires { 0 < len }
        ensures within { result < len }
        ensures compares { (test : T → T → Bool) (run : List T) (x next : T) → length run ≡ len
            → slice_get run result ≡ Some x → place test run next ≡ test x next };
}

/// Each item is compared with the first one of the run.
#[derive(Drop)]
pub struct ByFirst;

impl<T> Comparison<T> for ByFirst {
    ghost place = { by_first };

    fn index(_len: usize) -> usize {
        0
    }
}

/// Each item is compared with the one before it.
#[derive(Drop)]
pub struct ByPrevious;

impl<T> Comparison<T> for ByPrevious {
    ghost place = { by_previous };

    fn index(len: usize) -> usize {
        len - 1
    }
}

/// The runs of a slice, where each item is compared with the first one of its run: see
/// [`NESlice::runs_by`].
pub type SliceRuns<'a, T, F> = Runs<'a, T, F, ByFirst>;

/// The iterator over a [`SliceRuns`]: see [`RunsIter`].
pub type SliceRunsIter<'a, T, F> = RunsIter<'a, T, F, ByFirst>;

/// The runs of a slice, where each item is compared with the one before it: see
/// [`NESlice::adjacent_runs`].
pub type AdjacentRuns<'a, T, F> = Runs<'a, T, F, ByPrevious>;

/// The iterator over an [`AdjacentRuns`]: see [`RunsIter`].
pub type AdjacentRunsIter<'a, T, F> = RunsIter<'a, T, F, ByPrevious>;

/// The runs of a slice, where `C` says which items are compared.
///
/// In contracts its value is the items, at least one, and the closure.
#[derive(Drop)]
pub struct Runs<'a, T, F, C> {
    pub(super) items: &'a [T],
    pub(super) same: F,
    pub(super) by: PhantomData<C>,
}

impl<'a, T, F, C> Model for Runs<'a, T, F, C> {
    ghost use Rattle.std.specs.Prelude.{◌<◌, length};
    ghost use Rattle.ne_vec.specs.SliceRuns.{Cutting};

    ghost Value = { Cutting T F };

    ghost view = { λ s. record { left = s.items.now; closure = s.same } };

    ghost invariant = { λ s. 0 < length s.items.now };
}

impl<'a, T, F: Fn(&T, &T) -> bool, C: Comparison<T>> IntoIterator for Runs<'a, T, F, C> {
    type Item = NESlice<'a, T>;

    type IntoIter = RunsIter<'a, T, F, C>;

    ghost into_iter_gives = { BecomesCutter };

    fn into_iter(self) -> RunsIter<'a, T, F, C> {
        RunsIter {
            items: self.items,
            same: self.same,
            by: PhantomData,
        }
    }
}

/// The iterator over a [`Runs`]. It returns the runs one after another, each as an [`NESlice`].
///
/// Each call of `next` compares the items of the run that it returns, and the one after it. In
/// contracts its value is the items that are left, and the closure.
#[derive(Drop)]
pub struct RunsIter<'a, T, F, C> {
    items: &'a [T],
    same: F,
    by: PhantomData<C>,
}

impl<'a, T, F, C> Model for RunsIter<'a, T, F, C> {
    ghost use Rattle.ne_vec.specs.SliceRuns.{Cutting};

    ghost Value = { Cutting T F };

    ghost view = { λ s. record { left = s.items.now; closure = s.same } };
}

impl<'a, T, F: Fn(&T, &T) -> bool, C: Comparison<T>> Iterator for RunsIter<'a, T, F, C> {
    type Item = NESlice<'a, T>;

    ghost can_next = { λ s. CallableAtPairs F.Fn s.closure s.left };

    ghost next_gives = { CutsRun F.Fn C.place };

    ghost remaining = { item_count (λ s. s.left) };

    fn next(&mut self) -> Option<NESlice<'a, T>> {
        let items = self.items;
        if items.is_empty() {
            return None;
        }
        let (run, rest) = items.split_at(first_run::<T, F, C>(items, &self.same));
        self.items = rest;
        Some(NESlice { inner: run })
    }

    fn size_hint(&self) -> (usize, Option<usize>) {
        let len = self.items.len();
        (len.min(1), Some(len))
    }
}

// Returns the length of the first run.
fn first_run<T, F: Fn(&T, &T) -> bool, C: Comparison<T>>(items: &[T], same: &F) -> usize
    requires not_empty { 0 < length items.now }
    requires callable { CallableAtPairs F.Fn same.now items.now }
    ensures some { 0 < result }
    ensures within { result ≤ length items.now }
    ensures run { (test : T → T → Bool) → ActsAsAtPair F.Fn same.now test
        → IsFirstRun (C.place test) items.now result }
{
    let mut end = 1;
    while end < items.len() {
        if !same(&items[C::index(end)], &items[end]) {
            return end;
        }
        end += 1;
    }
    end
}
