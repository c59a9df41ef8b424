//! A value of one of two types, and a source that is one of two sources.
ghost use Rattle.std.specs.Prelude.{◌≡◌};
ghost use Rattle.ne_vec.specs.Lists.{list_trigger, EachList, itself};
ghost use Rattle.ne_iter.specs.SourceLists.{BecomesList};
ghost use Rattle.ne_iter.specs.Sources.{EachReading};
ghost use Rattle.ne_products.specs.Sides.{MakesSide, MatchSide, SideLists};

use either::Either;
use ne_iter::iter::ItemSource;
use ne_iter::{IntoNonEmptyIterator, NonEmptyIterator};

/// One of two values.
///
/// If both sides are non-empty iterators with items of one type, it is a non-empty iterator too,
/// and yields the items of the side that is there.
///
/// ```
/// let right: NEEither<[u32; 1], [u32; 3]> = NEEither::Right([2, 1, 4]);
/// let items: NEVec<u32> = right.into_nonempty_iter().collect(alloc)?; // [2, 1, 4]
/// ```
#[derive(Copy, Clone, PartialEq, Eq, PartialOrd, Ord, Hash, Debug, Drop)]
pub enum NEEither<L, R> {
    /// A value of the first type.
    Left(L),
    /// A value of the second type.
    Right(R),
}

impl<L: IntoNonEmptyIterator, R: IntoNonEmptyIterator<Item = L::Item>> NEEither<L, R> {
    /// Returns the non-empty iterator of the side that is there. It does not allocate.
    ///
    /// ```
    /// let left: NEEither<[u32; 1], [u32; 3]> = NEEither::Left([0]);
    /// let items: NEVec<u32> = left.into_nonempty_iter().collect(alloc)?; // [0]
    /// ```
    pub fn into_nonempty_iter(self) -> NEEither<L::IntoNEIter, R::IntoNEIter>
        ensures makes { MakesSide L.into_nonempty_iter_gives R.into_nonempty_iter_gives
            self result }
        ensures gives { EachReading (⟦<NEEither<L::IntoNEIter, R::IntoNEIter> as ItemSource>⟧.reads)
            result (λ whole xs. MatchSide result
            (λ s. ⟦<L::IntoNEIter as ItemSource>⟧.reads whole s xs)
            (λ t. ⟦<R::IntoNEIter as ItemSource>⟧.reads whole t xs)) }
        ensures ends { MatchSide result
            (λ s. ⟦<L::IntoNEIter as ItemSource>⟧.ends s
            → ⟦<NEEither<L::IntoNEIter, R::IntoNEIter> as ItemSource>⟧.ends result)
            (λ t. ⟦<R::IntoNEIter as ItemSource>⟧.ends t
            → ⟦<NEEither<L::IntoNEIter, R::IntoNEIter> as ItemSource>⟧.ends result) }
        ensures lists { MatchSide result
            (λ s. EachList (⟦<L::IntoNEIter as ItemSource>⟧.lists itself) s
            (⟦<NEEither<L::IntoNEIter, R::IntoNEIter> as ItemSource>⟧.lists itself result))
            (λ t. EachList (⟦<R::IntoNEIter as ItemSource>⟧.lists itself) t
            (⟦<NEEither<L::IntoNEIter, R::IntoNEIter> as ItemSource>⟧.lists itself result)) }
        ensures side { SideLists
            (BecomesList L.into_nonempty_iter_gives L.IntoNEIter.into_iter_gives
            L.IntoNEIter.IntoIter.next_gives itself)
            (BecomesList R.into_nonempty_iter_gives R.IntoNEIter.into_iter_gives
            R.IntoNEIter.IntoIter.next_gives itself)
            (λ xs. (list_trigger result xs ≡ 0)
            × ⟦<NEEither<L::IntoNEIter, R::IntoNEIter> as ItemSource>⟧.lists itself result xs)
            self }
    {
        match self {
            NEEither::Left(left) => NEEither::Left(left.into_nonempty_iter()),
            NEEither::Right(right) => NEEither::Right(right.into_nonempty_iter()),
        }
    }
}

impl<L: IntoIterator, R: IntoIterator<Item = L::Item>> IntoIterator for NEEither<L, R> {
    ghost use Rattle.ne_products.specs.Sides.{BecomesSide};

    type Item = L::Item;

    type IntoIter = Either<L::IntoIter, R::IntoIter>;

    ghost into_iter_gives = { BecomesSide L.into_iter_gives R.into_iter_gives };

    fn into_iter(self) -> Either<L::IntoIter, R::IntoIter> {
        match self {
            NEEither::Left(left) => Either::Left(left.into_iter()),
            NEEither::Right(right) => Either::Right(right.into_iter()),
        }
    }
}

impl<L: NonEmptyIterator, R: NonEmptyIterator<Item = L::Item>> NonEmptyIterator for NEEither<L, R> {
    ghost use Rattle.ne_products.specs.SideLaws.{HasFirst-side};

    ghost not_empty = { HasFirst-side L.into_iter_gives L.IntoIter.next_gives R.into_iter_gives
        R.IntoIter.next_gives L.not_empty R.not_empty };
}
