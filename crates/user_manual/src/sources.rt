//! Kinds of source, collected. Only `pairs_of_any_sources`, which is generic in its sources, calls
//! laws and has a stored proof.
ghost use Rattle.std.specs.Prelude.{◌≡◌, ◌/◌, ℕ, List, IfOk, Ok, map, slice_get, take};
ghost use Rattle.std.specs.Int.NonZero.{non_zero_usize_get};
ghost use Rattle.ne_iter.specs.Sources.{ReadsList};
ghost use Rattle.ne_products.specs.Pairs.{cartesian_product};
ghost use Rattle.ne_products.specs.Restarts.{ClonesAgain, NeverRefuses};
ghost use Rattle.ne_products.specs.Sides.{by_side};

use ne_iter::iter::ItemSource;
use ne_iter::laws::lists_are_read_whole;
use ne_iter::{IntoNonEmptyIterator, NonEmptyIterator};
use ne_products::laws::list_of_cartesian_product;
use ne_products::{NEEither, NonEmptyItertools};
use ne_vec::{NESlice, NEVec};
use std::alloc::{AllocError, Global};
use std::num::NonZeroUsize;

/// Returns the items of an array, by reference.
pub fn of_an_array_reference(alloc: Global, items: &[u32; 3]) -> Result<NEVec<u32>, AllocError>
    ensures { IfOk result (λ v. v ≡ items.now) }
{
    items.into_nonempty_iter().copied().collect(alloc)
}

/// Returns half of the item at an index. The chain is made into a source although it is one.
pub fn half_at(items: NEVec<u32>, index: usize) -> Option<u32>
    ensures { result ≡ slice_get (map (λ x. x / 2) items) index }
{
    items
        .into_nonempty_iter()
        .map(|x| x / 2)
        .into_nonempty_iter()
        .nth(index)
}

/// Returns half of each of the first `most` items. The chain is made into a source, as above.
pub fn first_halved(
    alloc: Global,
    items: &NEVec<u32>,
    most: NonZeroUsize,
) -> Result<NEVec<u32>, AllocError>
    ensures { IfOk result (λ v. v ≡ map (λ x. x / 2) (take (non_zero_usize_get most) items.now)) }
{
    items
        .nonempty_iter()
        .take(most)
        .into_nonempty_iter()
        .map(|x| *x / 2)
        .collect(alloc)
}

/// Returns the items of a slice that is passed by value.
pub fn of_a_part(alloc: Global, items: NESlice<'_, u32>) -> Result<NEVec<u32>, AllocError>
    ensures { IfOk result (λ v. v ≡ items.entry) }
{
    items.into_nonempty_iter().copied().collect(alloc)
}

/// Returns half of each item of the vector that is there.
pub fn halves_of_either(
    alloc: Global,
    source: NEEither<NEVec<u32>, NEVec<u32>>,
) -> Result<NEVec<u32>, AllocError>
    ensures { IfOk result (λ v. v ≡ map (λ x. x / 2) (by_side (λ l. l) (λ r. r) source)) }
{
    source.into_nonempty_iter().map(|x| x / 2).collect(alloc)
}

/// Returns each item of one source paired with each item of another, for any types of source.
///
/// A generic function knows nothing of its sources but their bounds, so it calls two laws, which
/// its proof applies to the two lists.
pub fn pairs_of_any_sources<S, U>(
    alloc: Global,
    rows: S,
    columns: U,
) -> Result<NEVec<Result<(u32, u32), AllocError>>, AllocError>
where
    S: NonEmptyIterator<Item = u32>,
    U: NonEmptyIterator<Item = u32>,
    U::IntoIter: Clone,
    requires rows_end { ⟦<S as ItemSource>⟧.ends rows }
    requires columns_end { ⟦<U as ItemSource>⟧.ends columns }
    requires again { ClonesAgain U.into_iter_gives U.IntoIter.remaining U.IntoIter.is_clone
        columns }
    requires certain { NeverRefuses U.into_iter_gives U.IntoIter.is_infallible columns }
    ensures { IfOk result (λ v. (xs ys : List ℕ)
        → ReadsList (⟦<S as ItemSource>⟧.reads) rows xs
        → ReadsList (⟦<U as ItemSource>⟧.reads) columns ys
        → v ≡ map Ok (cartesian_product xs ys)) }
{
    list_of_cartesian_product(&rows, &columns);
    let product = rows.cartesian_product(columns);
    lists_are_read_whole(&product);
    product.collect(alloc)
}
