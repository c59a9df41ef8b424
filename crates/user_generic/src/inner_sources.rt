//! Chains over inner sources, of one source and of two.
ghost use Rattle.std.specs.Prelude.{◌≡◌, ◌^◌, ◌<◌, ◌∷◌, [], IfOk, flat_map, take};
ghost use Rattle.std.specs.Iterator.{IsFinite, IsFiniteIterable, CallableOnAll, size};
ghost use Rattle.std.specs.Int.NonZero.{non_zero_usize_get};
ghost use Rattle.std.specs.List.{enumerate_from};
ghost use Rattle.user_generic.specs.OwnSources.{counted_down, start_of};
ghost use Rattle.user_generic.specs.InnerSources.{IsSpread, IsSpreadOfPairs};

use crate::Countdown;
use ne_iter::IntoNonEmptyIterator;
use ne_iter::iter::{FromNonEmptyIterator, ItemSource, NonEmptyIterator};
use ne_iter::laws::{
    arrays_give_their_items, calls_of_a_function, first_items_stay_first, lists_follow_one_another,
    sources_give_what_is_left,
};
use ne_vec::NEVec;
use std::alloc::{AllocError, Global};
use std::num::NonZeroUsize;

/// Collects the first `n` items, with their indices, of the sources that `f` returns for the items
/// of `source`. The first item is peeked on the way.
pub fn spread<
    U: Drop,
    W: IntoNonEmptyIterator<Item = U>,
    S: NonEmptyIterator,
    F: FnMut(S::Item) -> W,
    B: FromNonEmptyIterator<(usize, U)>,
>(alloc: Global, source: S, f: F, n: NonZeroUsize) -> Result<B, AllocError>
    requires ends { IsFiniteIterable S.into_iter_gives S.IntoIter.can_next S.IntoIter.remaining
        source }
    requires callable { (it : S.IntoIter) → S.into_iter_gives source it
        → CallableOnAll S.IntoIter.next_gives F.FnMut it f }
    requires inner_ends { (inner : W) (it : W.IntoIter) → W.into_iter_gives inner it
        → W.IntoIter.can_next it × IsFinite (W.IntoIter.remaining it)
        × (size (W.IntoIter.remaining it) < 2 ^ 64) }
    ensures { IfOk result (IsSpread (⟦<S as ItemSource>⟧.reads) F.FnMut
        (⟦<W as ItemSource>⟧.reads) B.is_complete B.collected source f (non_zero_usize_get n)) }
{
    source
        .flat_map(f)
        .peekable()
        .take(n)
        .enumerate()
        .collect(alloc)
}

/// Collects the first `n` items, with their indices, of the sources that `f` returns for the pairs
/// of items of two sources.
pub fn spread_pairs<
    U: Drop,
    W: IntoNonEmptyIterator<Item = U>,
    S: NonEmptyIterator,
    O: IntoNonEmptyIterator,
    F: FnMut((S::Item, O::Item)) -> W,
    B: FromNonEmptyIterator<(usize, U)>,
>(alloc: Global, source: S, other: O, f: F, n: NonZeroUsize) -> Result<B, AllocError>
where
    S::Item: Drop,
    requires ends { IsFiniteIterable S.into_iter_gives S.IntoIter.can_next S.IntoIter.remaining
        source }
    requires other_ends { (others : O.IntoNEIter) → O.into_nonempty_iter_gives other others
        → IsFiniteIterable O.IntoNEIter.into_iter_gives O.IntoNEIter.IntoIter.can_next
        O.IntoNEIter.IntoIter.remaining others }
    requires callable { F.IsAlwaysCallable f }
    requires inner_ends { (inner : W) (it : W.IntoIter) → W.into_iter_gives inner it
        → W.IntoIter.can_next it × IsFinite (W.IntoIter.remaining it)
        × (size (W.IntoIter.remaining it) < 2 ^ 64) }
    ensures { IfOk result (IsSpreadOfPairs (⟦<S as ItemSource>⟧.reads) (⟦<O as ItemSource>⟧.reads)
        F.FnMut (⟦<W as ItemSource>⟧.reads) B.is_complete B.collected source other f
        (non_zero_usize_get n)) }
{
    spread(alloc, source.zip(other), f, n)
}

/// Returns the first `n` numbers, with their indices, of a countdown in which each number comes
/// twice, as an explicit list.
pub fn spread_countdown(
    alloc: Global,
    source: Countdown,
    n: NonZeroUsize,
) -> Result<NEVec<(usize, u32)>, AllocError>
    ensures { IfOk result (λ v. v ≡ take (non_zero_usize_get n)
        (enumerate_from 0 (flat_map (λ x. x ∷ x ∷ []) (counted_down (start_of source))))) }
{
    let twice = |x: u32| -> [u32; 2]
        ensures { result ≡ x ∷ x ∷ [] }
    { [x, x] };
    arrays_give_their_items::<u32, 2>();
    sources_give_what_is_left::<Countdown>();
    calls_of_a_function(&twice);
    lists_follow_one_another::<[u32; 2]>();
    first_items_stay_first::<u32, [u32; 2]>();
    first_items_stay_first::<(usize, u32), u32>();
    spread(alloc, source, twice, n)
}
