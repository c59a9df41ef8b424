//! A chain of four simple adapters.
ghost use Rattle.std.specs.Prelude.{◌≡◌, ◌+◌, ◌^◌, ◌<◌, ◌/◌, ◌++◌, IfOk, length, map, take};
ghost use Rattle.std.specs.Iterator.{IsFiniteIterable, CallableOnAll, size};
ghost use Rattle.std.specs.Int.NonZero.{non_zero_usize_get};
ghost use Rattle.std.specs.List.{enumerate_from};
ghost use Rattle.user_generic.specs.Numbering.{IsNumbered};

use ne_iter::IntoNonEmptyIterator;
use ne_iter::iter::{FromNonEmptyIterator, ItemSource, NonEmptyIterator};
use ne_iter::laws::{
    calls_of_a_function, first_items_stay_first, std_vectors_give_their_items,
    vectors_give_their_items,
};
use ne_vec::NEVec;
use std::alloc::{AllocError, Global};
use std::num::NonZeroUsize;

/// Collects the first `n` of these items, with their indices: what `f` returns for the items of
/// `source`, followed by the items of `other`.
///
/// The indices must fit in a `usize`.
pub fn numbered<
    U,
    S: NonEmptyIterator,
    F: FnMut(S::Item) -> U,
    O: IntoIterator<Item = U>,
    B: FromNonEmptyIterator<(usize, U)>,
>(alloc: Global, source: S, f: F, other: O, n: NonZeroUsize) -> Result<B, AllocError>
    requires ends { IsFiniteIterable S.into_iter_gives S.IntoIter.can_next S.IntoIter.remaining
        source }
    requires other_ends { IsFiniteIterable O.into_iter_gives O.IntoIter.can_next
        O.IntoIter.remaining other }
    requires fits { (it : S.IntoIter) (rest : O.IntoIter) → S.into_iter_gives source it
        → O.into_iter_gives other rest → size (S.IntoIter.remaining it) + size
        (O.IntoIter.remaining rest) < 2 ^ 64 }
    requires callable { (it : S.IntoIter) → S.into_iter_gives source it
        → CallableOnAll S.IntoIter.next_gives F.FnMut it f }
    ensures { IfOk result (IsNumbered (⟦<S as ItemSource>⟧.reads) F.FnMut
        (⟦<O as ItemSource>⟧.reads) B.is_complete B.collected source f other
        (non_zero_usize_get n)) }
{
    source
        .map(f)
        .chain(other)
        .enumerate()
        .take(n)
        .collect(alloc)
}

/// Does the same for a vector whose items are halved, and states the list that comes out.
pub fn numbered_halves(
    alloc: Global,
    items: NEVec<u32>,
    other: Vec<u32>,
    n: NonZeroUsize,
) -> Result<NEVec<(usize, u32)>, AllocError>
    requires { length items + length other.items < 2 ^ 64 }
    ensures { IfOk result (λ v. v ≡ take (non_zero_usize_get n)
        (enumerate_from 0 (map (λ x. x / 2) items ++ other.items))) }
{
    let half = |x| x / 2;
    vectors_give_their_items::<u32>();
    std_vectors_give_their_items::<u32>();
    calls_of_a_function(&half);
    first_items_stay_first::<u32, u32>();
    first_items_stay_first::<(usize, u32), u32>();
    numbered(alloc, items.into_nonempty_iter(), half, other, n)
}
