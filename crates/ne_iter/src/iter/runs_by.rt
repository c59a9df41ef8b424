//! The adapter that divides the items of a source into runs by a test of two items.
ghost use Rattle.std.specs.Prelude.{[], ◌∷◌, ◌++◌};
ghost use Rattle.std.proofs.Common.{subst, sym};
ghost use Rattle.ne_iter.specs.Consumers.{CallableOnTwo};
ghost use Rattle.ne_iter.specs.GroupingRuns.{divided_source, divided_callee};
ghost use Rattle.ne_iter.specs.RunsBy.{CallableAfter, Cuts, by_test};
ghost use Rattle.ne_iter.specs.RunTestLaws.{callable_alone, callable_more, cuts_by_test};

use super::ItemSource;
use super::divided::{Divided, DividedIter, Division};
use std::alloc::AllocError;

/// A source of the runs of items that a test puts together: see [`NonEmptyIterator::runs_by`].
///
/// [`NonEmptyIterator::runs_by`]: super::NonEmptyIterator::runs_by
pub type RunsBy<I, F> = Divided<I, F, ByTest>;

/// The iterator of a [`RunsBy`], whose items have no keys: see [`DividedIter`].
pub type RunsByIter<I, V, F> = DividedIter<I, (), V, F, ByTest>;

/// The closure compares the first item of a run and a later one. There are no keys.
#[derive(Drop)]
pub struct ByTest;

impl<I: Iterator, F: Fn(&I::Item, &I::Item) -> bool> Division<F, I> for ByTest {
    type Key = ();

    ghost how = { by_test F.Fn };

    ghost callable = { CallableAfter F.Fn I.next_gives };

    ghost whole = { Cuts F.Fn };

    ghost more = { λ back s t x _ f g can step key. subst (λ q.
        CallableAfter F.Fn I.next_gives (back ++ x ∷ []) t q) (sym key)
        (callable_more F.Fn I.next_gives back s t x f can step) };

    ghost alone = { λ back s x f can. callable_alone F.Fn I.next_gives back x s f can };

    ghost steady = { λ _ _ f g test key is. subst (λ q. (by_test F.Fn).tests q test) (sym key) is };

    ghost divided = { λ f _ ps runs _ d. cuts_by_test F.Fn f ps runs d };

    fn key(_f: &mut F, _item: &I::Item) -> Result<(), AllocError> {
        Ok(())
    }

    fn goes_on(f: &F, first: &I::Item, _first_key: &(), item: &I::Item, _item_key: &()) -> bool {
        f(first, item)
    }
}

/// `runs_by` ends if its source does and its closure can be called with any two items that come.
pub fn runs_by_ends<S: IntoIterator, F: Fn(&S::Item, &S::Item) -> bool + Drop>()
where
    S::Item: Drop,
    ensures { (divided : _) → ⟦<S as ItemSource>⟧.ends (divided_source divided)
        → ((it : S.IntoIter) → S.into_iter_gives (divided_source divided) it
        → CallableOnTwo S.IntoIter.next_gives F.Fn it (divided_callee divided))
        → ⟦<RunsBy<S, F> as ItemSource>⟧.ends divided }
{}
