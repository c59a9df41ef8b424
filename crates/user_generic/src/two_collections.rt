//! A chain over two sources, into two collections.
ghost use Rattle.std.specs.Prelude.{IfOk};
ghost use Rattle.std.specs.Iterator.{IsFiniteIterable, CallableOnAll};
ghost use Rattle.std.specs.Int.NonZero.{non_zero_usize_get};
ghost use Rattle.user_generic.specs.TwoCollections.{IsParted};

use ne_iter::iter::{ItemSource, NonEmptyIterator};
use ne_iter::{IntoNonEmptyIterator, Singleton};
use std::alloc::{AllocError, Global};
use std::num::NonZeroUsize;

/// Pairs what `f` returns for the items of `source` with the items of `other`, and collects the
/// first `n` pairs into two collections.
pub fn parted<
    U: Drop,
    D: Drop,
    S: NonEmptyIterator,
    F: FnMut(S::Item) -> U,
    O: IntoNonEmptyIterator<Item = D>,
    R: Singleton<Item = U> + Drop,
    Q: Singleton<Item = D> + Drop,
>(alloc: Global, source: S, f: F, other: O, n: NonZeroUsize) -> Result<(R, Q), AllocError>
    requires ends { IsFiniteIterable S.into_iter_gives S.IntoIter.can_next S.IntoIter.remaining
        source }
    requires other_ends { (others : O.IntoNEIter) → O.into_nonempty_iter_gives other others
        → IsFiniteIterable O.IntoNEIter.into_iter_gives O.IntoNEIter.IntoIter.can_next
        O.IntoNEIter.IntoIter.remaining others }
    requires callable { (it : S.IntoIter) → S.into_iter_gives source it
        → CallableOnAll S.IntoIter.next_gives F.FnMut it f }
    ensures { IfOk result (IsParted (⟦<S as ItemSource>⟧.reads) F.FnMut
        (⟦<O as ItemSource>⟧.reads) R.collected Q.collected source f other
        (non_zero_usize_get n)) }
{
    source.map(f).zip(other).take(n).unzip(alloc)
}
