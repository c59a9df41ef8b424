//! Chains with `group_by`, after another adapter and before others; and chains over borrowed runs.
ghost use Rattle.std.specs.Prelude.{◌≡◌, ◌≤◌, Bool, List, ltb, length, map, IfOk};
ghost use Rattle.std.specs.Iterator.{IsFiniteIterable, CallableOnAll};
ghost use Rattle.std.specs.Int.NonZero.{non_zero_usize_get};
ghost use Rattle.ne_vec.specs.Divisions.{IsDivision, by_previous};
ghost use Rattle.ne_vec.specs.SliceRuns.{ActsAsAtPair, CallableAtPairs};
ghost use Rattle.ne_iter.specs.GroupBy.{HasRuns};
ghost use Rattle.user_generic.specs.RunsOfResults.{AreRunsOfResults};

use ne_iter::iter::{ItemSource, Map, NEGroupBy, NonEmptyIterator, Take};
use ne_iter::laws::{
    always_callable_is_callable_on_all_items, calls_of_a_function, first_items_stay_first,
    results_are_read_whole, slice_runs_are_the_division,
};
use ne_vec::{NESlice, NEVec};
use std::alloc::{AllocError, Global};
use std::iter;
use std::num::NonZeroUsize;

/// Returns the runs of what `f` returns for the items of `source`, by the keys that `key` returns
/// for these.
pub fn runs_of_results<
    T: Drop,
    K: PartialEq + Drop,
    S: NonEmptyIterator,
    F: FnMut(S::Item) -> T + Drop,
    G: FnMut(&T) -> K + Drop,
>(alloc: Global, source: S, f: F, key: G) -> Result<NEVec<NEVec<T>>, AllocError>
where
    S::Item: Drop,
    requires ends { IsFiniteIterable S.into_iter_gives S.IntoIter.can_next S.IntoIter.remaining
        source }
    requires callable { (it : S.IntoIter) → S.into_iter_gives source it
        → CallableOnAll S.IntoIter.next_gives F.FnMut it f }
    requires key_callable { G.IsAlwaysCallable key }
    ensures { IfOk result (AreRunsOfResults (⟦<S as ItemSource>⟧.reads) F.FnMut G.FnMut K.eq source
        f key) }
{
    results_are_read_whole::<NEVec<T>, AllocError, NEGroupBy<Map<S, F>, G>>();
    always_callable_is_callable_on_all_items::<iter::Map<S::IntoIter, F>, K, G>();
    source.map(f).group_by(alloc, key).collect(alloc)?
}

/// Returns the first `n` runs of the items of `source`, by the keys that `key` returns. At most one
/// item after these runs is taken.
pub fn first_runs<K: PartialEq + Drop, S: NonEmptyIterator, G: FnMut(&S::Item) -> K + Drop>(
    alloc: Global,
    source: S,
    key: G,
    n: NonZeroUsize,
) -> Result<NEVec<NEVec<S::Item>>, AllocError>
where
    S::Item: Drop,
    requires ends { IsFiniteIterable S.into_iter_gives S.IntoIter.can_next S.IntoIter.remaining
        source }
    requires key_callable { G.IsAlwaysCallable key }
    ensures runs { IfOk result (λ rs. HasRuns (⟦<S as ItemSource>⟧.reads) G.FnMut K.eq
        (ltb (length rs) (non_zero_usize_get n)) source key rs) }
    ensures count { IfOk result (λ rs. length rs ≤ non_zero_usize_get n) }
{
    results_are_read_whole::<NEVec<S::Item>, AllocError, Take<NEGroupBy<S, G>>>();
    always_callable_is_callable_on_all_items::<S::IntoIter, K, G>();
    source.group_by(alloc, key).take(n).collect(alloc)?
}

/// Returns the lengths of the runs of `items`, where each item is compared with the one before it.
pub fn run_lengths<T, F: Fn(&T, &T) -> bool + Drop>(
    alloc: Global,
    items: &NESlice<'_, T>,
    same: F,
) -> Result<NEVec<usize>, AllocError>
    requires { CallableAtPairs F.Fn same items.now }
    ensures { IfOk result (λ v. (test : T → T → Bool) → ActsAsAtPair F.Fn same test
        → (rs : List (List T)) × IsDivision (by_previous test) items.now rs
        × (v ≡ map length rs)) }
{
    let length = |run: NESlice<'_, T>| run.len().get();
    slice_runs_are_the_division::<T, F>();
    calls_of_a_function(&length);
    first_items_stay_first::<NESlice<'_, T>, usize>();
    items.adjacent_runs(same).map(length).collect(alloc)
}
