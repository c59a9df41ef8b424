//! The first item of a source: whether there is one, and what comes after it.
ghost use Rattle.std.specs.Prelude.{◌≡◌, ◌+◌, ◌/◌, ◌%◌, ◌^◌, ◌<◌, ◌≤◌, ◌∷◌, [], filter, map};
ghost use Rattle.std.specs.Prelude.{slice_get, take, true, IfOk, MatchOption, Some, eqb, ltb};
ghost use Rattle.std.specs.List.{All, Contains, fold, list_all};
ghost use Rattle.std.specs.Int.NonZero.{non_zero_usize_get};

use ne_iter::{IntoIteratorExt, IntoNonEmptyIterator, NonEmptyIterator};
use ne_vec::NEVec;
use std::alloc::{AllocError, Global};
use std::num::NonZeroUsize;

/// Returns half of each item, or `None` if there is none.
pub fn halves(alloc: Global, items: Vec<u32>) -> Result<Option<NEVec<u32>>, AllocError>
    ensures { IfOk result (λ o.
        MatchOption o (items.items ≡ []) (λ v. v ≡ map (λ x. x / 2) items.items)) }
{
    match items.try_into_nonempty_iter() {
        Some(source) => Ok(Some(source.map(|x| x / 2).collect(alloc)?)),
        None => Ok(None),
    }
}

/// Returns the items below 10, or `None` if there is none.
pub fn small(alloc: Global, items: NEVec<u32>) -> Result<Option<NEVec<u32>>, AllocError>
    ensures { IfOk result (λ o. MatchOption o (filter (λ x. ltb x 10) items ≡ [])
        (λ v. v ≡ filter (λ x. ltb x 10) items)) }
{
    match items
        .into_nonempty_iter()
        .filter(|x| *x < 10)
        .try_into_nonempty_iter()
    {
        Some(source) => Ok(Some(source.collect(alloc)?)),
        None => Ok(None),
    }
}

/// Returns half of each item below 10, or `None` if there is none.
pub fn halves_of_small(alloc: Global, items: NEVec<u32>) -> Result<Option<NEVec<u32>>, AllocError>
    ensures { IfOk result (λ o. MatchOption o (filter (λ x. ltb x 10) items ≡ [])
        (λ v. v ≡ map (λ x. x / 2) (filter (λ x. ltb x 10) items))) }
{
    match items
        .into_nonempty_iter()
        .filter(|x| *x < 10)
        .try_into_nonempty_iter()
    {
        Some(source) => Ok(Some(source.map(|x| x / 2).collect(alloc)?)),
        None => Ok(None),
    }
}

/// Returns the greatest item of a vector that may be empty, or `None` if it is.
pub fn greatest_if_any(items: Vec<u32>) -> Option<u32>
    ensures among { MatchOption result (items.items ≡ []) (λ m. Contains items.items m) }
    ensures bound { MatchOption result (items.items ≡ []) (λ m. All (λ x. x ≤ m) items.items) }
{
    Some(items.try_into_nonempty_iter()?.max())
}

/// The same by `Option::map`.
pub fn greatest_in_map(items: Vec<u32>) -> Option<u32>
    ensures among { MatchOption result (items.items ≡ []) (λ m. Contains items.items m) }
    ensures bound { MatchOption result (items.items ≡ []) (λ m. All (λ x. x ≤ m) items.items) }
{
    items.try_into_nonempty_iter().map(|source| source.max())
}

/// Returns the wrapping sum of a vector that may be empty.
pub fn wrapping_sum(items: Vec<u32>) -> u32
    ensures { result ≡ fold (λ total x. (total + x) % 2 ^ 32) 0 items.items }
{
    match items.try_into_nonempty_iter() {
        Some(items) => items.fold(0, |total: u32, x| total.wrapping_add(x)),
        None => 0,
    }
}

/// Returns the wrapping sum of the bytes of a text.
pub fn checksum(text: &str) -> u32
    ensures { result ≡ fold (λ total x. (total + x) % 2 ^ 32) 0 text.now }
{
    match text.bytes().try_into_nonempty_iter() {
        Some(bytes) => bytes.fold(0, |total: u32, x| total.wrapping_add(u32::from(x))),
        None => 0,
    }
}

/// Returns the even items of a vector that may be empty, or `None` if there is none.
pub fn even(alloc: Global, items: Vec<u32>) -> Result<Option<NEVec<u32>>, AllocError>
    ensures { IfOk result (λ o. MatchOption o (filter (λ x. eqb (x % 2) 0) items.items ≡ [])
        (λ v. v ≡ filter (λ x. eqb (x % 2) 0) items.items)) }
{
    match items
        .into_iter()
        .filter(|x| *x % 2 == 0)
        .try_into_nonempty_iter()
    {
        Some(even) => Ok(Some(even.collect(alloc)?)),
        None => Ok(None),
    }
}

/// Returns the item at index 2, or `None` if there are fewer than three.
pub fn third_if_any(items: Vec<u32>) -> Option<u32>
    ensures { result ≡ slice_get items.items 2 }
{
    match items.try_into_nonempty_iter() {
        Some(source) => source.nth(2),
        None => None,
    }
}

/// Returns whether every item of a vector that may be empty is below 10.
pub fn all_small(items: Vec<u32>) -> bool
    ensures { result ≡ list_all (λ x. ltb x 10) items.items }
{
    match NEVec::try_from_vec(items) {
        Some(items) => items.into_nonempty_iter().all(|x| x < 10),
        None => true,
    }
}

/// Returns the first `n` items of a vector that may be empty, or `None` if it is.
pub fn first_items_if_any(
    alloc: Global,
    items: Vec<u32>,
    n: NonZeroUsize,
) -> Result<Option<NEVec<u32>>, AllocError>
    ensures { IfOk result (λ o. MatchOption o (items.items ≡ [])
        (λ v. v ≡ take (non_zero_usize_get n) items.items)) }
{
    match NEVec::try_from_vec(items) {
        Some(items) => Ok(Some(items.into_nonempty_iter().take(n).collect(alloc)?)),
        None => Ok(None),
    }
}

/// Returns the first half, and the others.
pub fn first_half_and_rest(alloc: Global, items: NEVec<u32>) -> Result<(u32, Vec<u32>), AllocError>
    ensures { IfOk result (λ r. map (λ x. x / 2) items ≡ r.0 ∷ r.1.items) }
{
    let (first, rest) = items.into_nonempty_iter().map(|x| x / 2).next();
    Ok((first, rest.collect(alloc)?))
}
