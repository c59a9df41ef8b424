//! The adapter that divides the items of a source into runs of equal keys.
ghost use Rattle.std.specs.Iterator.{ActsAsAt, CallableOnAllAt};
ghost use Rattle.ne_iter.specs.GroupBy.{by_key};
ghost use Rattle.ne_iter.specs.GroupingRuns.{divided_source, divided_callee};
ghost use Rattle.ne_iter.specs.Keys.{IsDividedBy};
ghost use Rattle.ne_iter.specs.RunTestLaws.{callable_on, runs_by_key};

use super::ItemSource;
use super::divided::{Divided, DividedIter, Division};
use std::alloc::AllocError;

/// A source of the runs of items with equal keys: see [`NonEmptyIterator::group_by`].
///
/// [`NonEmptyIterator::group_by`]: super::NonEmptyIterator::group_by
pub type NEGroupBy<I, F> = Divided<I, F, ByKey>;

/// The iterator of an [`NEGroupBy`]: see [`DividedIter`].
pub type GroupBy<I, K, V, F> = DividedIter<I, K, V, F, ByKey>;

/// The closure returns the keys, and items with equal keys make a run. It may have state.
#[derive(Drop)]
pub struct ByKey;

impl<I: Iterator, K: PartialEq + Drop, F: FnMut(&I::Item) -> K> Division<F, I> for ByKey {
    type Key = K;

    ghost how = { by_key F.FnMut K.eq };

    ghost callable = { λ _ s f. CallableOnAllAt I.next_gives F.FnMut s f };

    ghost whole = { λ f xs rs. (h : I.Item → K) → ActsAsAt F.FnMut f h → IsDividedBy h K.eq xs rs };

    ghost more = { λ _. callable_on I.next_gives F.FnMut };

    ghost alone = { λ _ _ _ _ can. can };

    ghost steady = { λ _ _ _ _ _ _ is. is };

    ghost divided = { runs_by_key F.FnMut K.eq };

    fn key(f: &mut F, item: &I::Item) -> Result<K, AllocError> {
        Ok(f(item))
    }

    fn goes_on(_f: &F, _first: &I::Item, first_key: &K, _item: &I::Item, item_key: &K) -> bool {
        *first_key == *item_key
    }
}

/// `group_by` ends if its source does and its closure can be called with each item that comes.
pub fn group_by_ends<K: PartialEq + Drop, S: IntoIterator, F: FnMut(&S::Item) -> K + Drop>()
where
    S::Item: Drop,
    ensures { (grouped : _) → ⟦<S as ItemSource>⟧.ends (divided_source grouped)
        → ((it : S.IntoIter) → S.into_iter_gives (divided_source grouped) it
        → CallableOnAllAt S.IntoIter.next_gives F.FnMut it (divided_callee grouped))
        → ⟦<NEGroupBy<S, F> as ItemSource>⟧.ends grouped }
{}
