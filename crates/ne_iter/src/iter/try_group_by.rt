//! The adapter that divides the items of a source into runs of equal keys, which may fail.
ghost use Rattle.std.specs.Prelude.{[], ◌∷◌, ◌++◌};
ghost use Rattle.std.proofs.Common.{subst, sym};
ghost use Rattle.ne_iter.specs.Consumers.{CallableOnTwo};
ghost use Rattle.ne_iter.specs.GroupingRuns.{divided_source, divided_callee};
ghost use Rattle.ne_iter.specs.RunsBy.{CallableAfter, Cuts};
ghost use Rattle.ne_iter.specs.RunTestLaws.{callable_alone, callable_more, cuts_by_tried_key};
ghost use Rattle.ne_iter.specs.TryGroupBy.{by_keys, by_tried_key};

use super::ItemSource;
use super::divided::{Divided, DividedIter, Division};
use std::alloc::AllocError;

/// A source of the runs of items with equal keys: see [`NonEmptyIterator::try_group_by`].
///
/// [`NonEmptyIterator::try_group_by`]: super::NonEmptyIterator::try_group_by
pub type TryGroupBy<I, F> = Divided<I, F, ByTriedKey>;

/// The iterator of a [`TryGroupBy`]: see [`DividedIter`].
pub type TryGroupByIter<I, K, V, F> = DividedIter<I, K, V, F, ByTriedKey>;

/// The closure returns the keys, or an `Err`, and items with equal keys make a run.
#[derive(Drop)]
pub struct ByTriedKey;

impl<I: Iterator, K: PartialEq + Drop, F: Fn(&I::Item) -> Result<K, AllocError>> Division<F, I>
    for ByTriedKey {
    type Key = K;

    ghost how = { by_tried_key F.Fn K.eq };

    ghost callable = { CallableAfter (by_keys F.Fn K.eq) I.next_gives };

    ghost whole = { Cuts (by_keys F.Fn K.eq) };

    ghost more = { λ back s t x _ f g can step key. subst (λ q.
        CallableAfter (by_keys F.Fn K.eq) I.next_gives (back ++ x ∷ []) t q) (sym key.1)
        (callable_more (by_keys F.Fn K.eq) I.next_gives back s t x f can step) };

    ghost alone = { λ back s x f can.
        callable_alone (by_keys F.Fn K.eq) I.next_gives back x s f can };

    ghost steady = { λ _ _ _ _ _ _ is. is };

    ghost divided = { cuts_by_tried_key F.Fn K.eq };

    fn key(f: &mut F, item: &I::Item) -> Result<K, AllocError> {
        f(item)
    }

    fn goes_on(_f: &F, _first: &I::Item, first_key: &K, _item: &I::Item, item_key: &K) -> bool {
        *first_key == *item_key
    }
}

/// `try_group_by` ends if its source does and its closure can be called with each item that comes.
pub fn try_group_by_ends<
    K: PartialEq + Drop,
    S: IntoIterator,
    F: Fn(&S::Item) -> Result<K, AllocError> + Drop,
>()
where
    S::Item: Drop,
    ensures { (grouped : _) → ⟦<S as ItemSource>⟧.ends (divided_source grouped)
        → ((it : S.IntoIter) → S.into_iter_gives (divided_source grouped) it
        → CallableOnTwo S.IntoIter.next_gives (by_keys F.Fn K.eq) it (divided_callee grouped))
        → ⟦<TryGroupBy<S, F> as ItemSource>⟧.ends grouped }
{}
