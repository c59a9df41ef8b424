//! Laws of products and of sources that are one of two. Each law is the contract of a function that
//! does nothing. A caller calls the function to use what it ensures.
ghost use Rattle.std.specs.Prelude.{◌≡◌, ℕ, ◌+◌, ◌*◌, List, Ok, Some, length, map, slice_get};
ghost use Rattle.ne_vec.specs.Lists.{EachList, itself};
ghost use Rattle.ne_iter.specs.Sources.{EachReading, ReadsList};
ghost use Rattle.ne_products.specs.Pairs.{cartesian_product, CanRefuse};
ghost use Rattle.ne_products.specs.Product.{product_first, product_second};
ghost use Rattle.ne_products.specs.Restarts.{ClonesAgain, HasExactClones};
ghost use Rattle.ne_products.specs.Restarts.{NeverRefuses, YieldsPairs};
ghost use Rattle.ne_products.specs.Sides.{MatchSide};

use crate::products::Product;
use crate::sides::NEEither;
use ne_iter::iter::ItemSource;
use ne_iter::{IntoNonEmptyIterator, NonEmptyIterator};

/// `cartesian_product` yields each item of its source with each item of the other, each pair in
/// `Ok`, one row of pairs for each item of its source.
///
/// This holds if clones of the source's items never fail and equal their originals, and if clones
/// of the iterator that the other becomes never fail and yield what it yields.
pub fn list_of_cartesian_product<S: NonEmptyIterator, U: IntoNonEmptyIterator>(
    source: &S,
    other: &U,
)
where
    S::Item: Clone + Drop,
    U::Item: Drop,
    <U::IntoNEIter as IntoIterator>::IntoIter: Clone,
    ensures { (product : _) (xs : List S.Item) (ys : List U.Item)
        → YieldsPairs (⟦<S as ItemSource>⟧.reads)
        (ClonesAgain U.IntoNEIter.into_iter_gives U.IntoNEIter.IntoIter.remaining
        U.IntoNEIter.IntoIter.is_clone (product_second product))
        (U.IntoNEIter.into_iter_gives (product_second product))
        (⟦<<U::IntoNEIter as IntoIterator>::IntoIter as ItemSource>⟧.reads)
        U.IntoNEIter.IntoIter.is_clone S.Item.is_clone S.Item.is_infallible
        (CanRefuse U.IntoNEIter.into_iter_gives U.IntoNEIter.IntoIter.is_infallible
        (product_second product))
        (⟦<Product<S, U::IntoNEIter> as ItemSource>⟧.reads) source.now product
        → U.into_nonempty_iter_gives other.now (product_second product)
        → ClonesAgain U.IntoNEIter.into_iter_gives U.IntoNEIter.IntoIter.remaining
        U.IntoNEIter.IntoIter.is_clone (product_second product)
        → NeverRefuses U.IntoNEIter.into_iter_gives U.IntoNEIter.IntoIter.is_infallible
        (product_second product)
        → HasExactClones S.Item.is_clone S.Item.is_infallible xs
        → ReadsList (⟦<S as ItemSource>⟧.reads) source.now xs
        → ReadsList (⟦<U as ItemSource>⟧.reads) other.now ys
        → ReadsList (⟦<Product<S, U::IntoNEIter> as ItemSource>⟧.reads) product
        (map Ok (cartesian_product xs ys)) }
{}

/// In the product of two lists, the pair of item i of the first and item j of the second is at
/// index i * m + j, if the second has m items. The product has no other pairs.
///
/// With this law, a caller that knows the product as a list knows where each pair is. In a table of
/// 12 columns, the cell of row 2 and column 5 is at index 29.
pub fn products_have_their_places<A, B>()
    ensures places { (xs : List A) (ys : List B) (i j : ℕ) (x : A) (y : B)
        → slice_get xs i ≡ Some x → slice_get ys j ≡ Some y
        → slice_get (cartesian_product xs ys) (i * length ys + j) ≡ Some (x, y) }
    ensures count { (xs : List A) (ys : List B)
        → length (cartesian_product xs ys) ≡ length xs * length ys }
{}

/// `cartesian_product` ends if both its sources end, and if clones of the other side's iterator
/// yield what it yields.
pub fn cartesian_product_ends<S: NonEmptyIterator, U: NonEmptyIterator>()
where
    S::Item: Clone + Drop,
    U::Item: Drop,
    U::IntoIter: Clone,
    ensures { (product : _) → ⟦<S as ItemSource>⟧.ends (product_first product)
        → ⟦<U as ItemSource>⟧.ends (product_second product)
        → ClonesAgain U.into_iter_gives U.IntoIter.remaining U.IntoIter.is_clone
        (product_second product)
        → ⟦<Product<S, U> as ItemSource>⟧.ends product }
{}

/// A source that is one of two yields what the source of its side yields, also if a closure with
/// state is below it. A value built by its variant is such a source.
pub fn either_gives_its_side<L: NonEmptyIterator, R: NonEmptyIterator<Item = L::Item>>(
    source: &NEEither<L, R>,
)
    ensures reads { EachReading (⟦<NEEither<L, R> as ItemSource>⟧.reads) source.now
        (λ whole xs. MatchSide source.now
        (λ s. ⟦<L as ItemSource>⟧.reads whole s xs)
        (λ t. ⟦<R as ItemSource>⟧.reads whole t xs)) }
    ensures lists { MatchSide source.now
        (λ s. EachList (⟦<L as ItemSource>⟧.lists itself) s
        (⟦<NEEither<L, R> as ItemSource>⟧.lists itself source.now))
        (λ t. EachList (⟦<R as ItemSource>⟧.lists itself) t
        (⟦<NEEither<L, R> as ItemSource>⟧.lists itself source.now)) }
{}

/// A source that is one of two ends if the side that is there ends.
pub fn either_ends<L: NonEmptyIterator, R: NonEmptyIterator<Item = L::Item>>()
    ensures left { (s : _) → ⟦<L as ItemSource>⟧.ends s
        → ⟦<NEEither<L, R> as ItemSource>⟧.ends (NEEither.Left s) }
    ensures right { (t : _) → ⟦<R as ItemSource>⟧.ends t
        → ⟦<NEEither<L, R> as ItemSource>⟧.ends (NEEither.Right t) }
{}
