//! A chain over a source that is one of two, whose closure may have state.
ghost use Rattle.std.specs.Prelude.{true, IfOk, List};
ghost use Rattle.std.specs.Iterator.{CallableOnAll};
ghost use Rattle.ne_iter.specs.Calls.{Calls};
ghost use Rattle.ne_products.specs.Sides.{MatchSide};

use ne_iter::NonEmptyIterator;
use ne_iter::iter::ItemSource;
use ne_products::NEEither;
use ne_products::laws::either_gives_its_side;
use ne_vec::NEVec;
use std::alloc::{AllocError, Global};

/// Collects what `f` returns for the items of the side that is there.
pub fn mapped_side<
    L: NonEmptyIterator,
    R: NonEmptyIterator<Item = L::Item>,
    T: Drop,
    F: FnMut(L::Item) -> T,
>(alloc: Global, source: NEEither<L, R>, f: F) -> Result<NEVec<T>, AllocError>
    requires ends { ⟦<NEEither<L, R> as ItemSource>⟧.ends source }
    requires callable { (it : _) → ⟦<NEEither<L, R> as IntoIterator>⟧.into_iter_gives source it
        → CallableOnAll (⟦<<NEEither<L, R> as IntoIterator>::IntoIter as Iterator>⟧.next_gives)
        F.FnMut it f }
    ensures { IfOk result (λ ys. (xs : List L.Item) × (g : F) × Calls F.FnMut f xs ys g
        × MatchSide source
        (λ s. ⟦<L as ItemSource>⟧.reads true s xs)
        (λ t. ⟦<R as ItemSource>⟧.reads true t xs)) }
{
    either_gives_its_side(&source);
    source.map(f).collect(alloc)
}
