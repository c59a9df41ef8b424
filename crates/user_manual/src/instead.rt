//! What is proved in place of chains that are not proved automatically.
ghost use Rattle.std.specs.Prelude.{◌≡◌, ◌/◌, ◌%◌, ◌∷◌, ◌≤◌, [], ltb, map, IfOk};
ghost use Rattle.std.specs.Prelude.{MatchOption, None, Some};
ghost use Rattle.std.specs.List.{All, Contains, enumerate_from, flat_map};
ghost use Rattle.ne_iter.specs.Consumers.{IsFirstGreatest};

use ne_iter::{IntoNonEmptyIterator, NonEmptyIterator, iter};
use ne_vec::NEVec;
use std::alloc::{AllocError, Global};

/// Returns the first of the greatest items, with its index: `max_by` for `max_by_key` above an
/// adapter.
pub fn first_greatest(items: NEVec<u32>) -> (usize, u32)
    ensures { IsFirstGreatest (λ p q. ltb p.1 q.1) (enumerate_from 0 items) result }
{
    items
        .into_nonempty_iter()
        .enumerate()
        .max_by(|p, q| p.1.cmp(&q.1))
}

/// Returns half of `x` and of each item: `into_nonempty_iter` of what a `once` is chained with.
pub fn halves_of_all(alloc: Global, x: u32, items: NEVec<u32>) -> Result<NEVec<u32>, AllocError>
    ensures { IfOk result (λ v. v ≡ map (λ x. x / 2) (x ∷ items)) }
{
    iter::once(x)
        .chain(items.into_nonempty_iter())
        .map(|x| x / 2)
        .collect(alloc)
}

/// Returns the greatest of `x` and the items, likewise.
pub fn greatest_of_all(x: u32, items: NEVec<u32>) -> u32
    ensures among { Contains (x ∷ items) result }
    ensures bound { All (λ y. y ≤ result) (x ∷ items) }
{
    iter::once(x).chain(items.into_nonempty_iter()).max()
}

/// Returns the items with their indices.
fn numbered(alloc: Global, items: NEVec<u32>) -> Result<NEVec<(usize, u32)>, AllocError>
    ensures { IfOk result (λ v. v ≡ enumerate_from 0 items) }
{
    items.into_nonempty_iter().enumerate().collect(alloc)
}

/// Returns the items of a vector that may be empty with their indices, or `None` if it is: the
/// chain in a function with a contract of its own.
pub fn numbered_if_any(
    alloc: Global,
    items: Vec<u32>,
) -> Result<Option<NEVec<(usize, u32)>>, AllocError>
    ensures { IfOk result (λ o. MatchOption o (items.items ≡ [])
        (λ v. v ≡ enumerate_from 0 items.items)) }
{
    match NEVec::try_from_vec(items) {
        Some(items) => Ok(Some(numbered(alloc, items)?)),
        None => Ok(None),
    }
}

/// Returns the hours and the minutes in `minutes`.
fn parts(minutes: u32) -> [u32; 2]
    ensures { result ≡ (minutes / 60) ∷ (minutes % 60) ∷ [] }
{
    [minutes / 60, minutes % 60]
}

/// Returns the hours and the minutes of each time: a function with a contract for a closure that
/// returns an array.
pub fn hours_and_minutes(alloc: Global, times: NEVec<u32>) -> Result<NEVec<u32>, AllocError>
    ensures { IfOk result (λ v. v ≡ flat_map (λ t. (t / 60) ∷ (t % 60) ∷ []) times) }
{
    times.into_nonempty_iter().flat_map(parts).collect(alloc)
}

/// Returns the halves of the items or of an array: a chain in each arm for an `NEEither`.
pub fn halves_of_chosen(alloc: Global, items: Option<NEVec<u32>>) -> Result<NEVec<u32>, AllocError>
    ensures { IfOk result (λ v.
        MatchOption items (v ≡ 2 ∷ 3 ∷ []) (λ items. v ≡ map (λ x. x / 2) items)) }
{
    match items {
        Some(items) => items.into_nonempty_iter().map(|x| x / 2).collect(alloc),
        None => [4u32, 6].into_nonempty_iter().map(|x| x / 2).collect(alloc),
    }
}
