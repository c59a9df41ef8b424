//! Chains of several adapters, one after another.
ghost use Rattle.std.specs.Prelude.{◌≡◌, ◌/◌, ◌%◌, ◌+◌, ◌<◌, ◌^◌, ◌++◌, map, filter};
ghost use Rattle.std.specs.Prelude.{drop, take, IfOk, OnOk, eqb, ltb};
ghost use Rattle.std.specs.List.{enumerate_from, scan, zip};
ghost use Rattle.std.specs.Int.NonZero.{non_zero_usize_get};

use ne_iter::{IntoNonEmptyIterator, NonEmptyIterator};
use ne_vec::NEVec;
use std::alloc::{AllocError, Global};
use std::num::NonZeroUsize;

/// Returns the halves, followed by other items, all with their indices, with `map`, `chain` and
/// `enumerate`.
pub fn numbered_halves(
    alloc: Global,
    items: NEVec<u32>,
    others: Vec<u32>,
) -> Result<NEVec<(usize, u32)>, AllocError>
    ensures { IfOk result (λ v.
        v ≡ enumerate_from 0 (map (λ x. x / 2) items ++ others.items)) }
{
    items
        .into_nonempty_iter()
        .map(|x| x / 2)
        .chain(others)
        .enumerate()
        .collect(alloc)
}

/// Returns half of each of the first `n` items, followed by other items, with `take`, `map` and
/// `chain`, from references.
pub fn first_halves_and_others(
    alloc: Global,
    items: &NEVec<u32>,
    others: Vec<u32>,
    n: NonZeroUsize,
) -> Result<NEVec<u32>, AllocError>
    ensures { IfOk result (λ v.
        v ≡ map (λ x. x / 2) (take (non_zero_usize_get n) items.now) ++ others.items) }
{
    items
        .nonempty_iter()
        .take(n)
        .map(|x| *x / 2)
        .chain(others)
        .collect(alloc)
}

/// Returns the items of three vectors, with `chain` and `chain` again.
pub fn three_joined(
    alloc: Global,
    items: NEVec<u32>,
    others: NEVec<u32>,
    more: Vec<u32>,
) -> Result<NEVec<u32>, AllocError>
    ensures { IfOk result (λ v. v ≡ items ++ others ++ more.items) }
{
    items
        .into_nonempty_iter()
        .chain(others)
        .chain(more)
        .collect(alloc)
}

/// Returns half of each of the first `n` items, if it is below 10, with `take`, `map` and `filter`.
pub fn small_first_halves(
    alloc: Global,
    items: NEVec<u32>,
    n: NonZeroUsize,
) -> Result<Vec<u32>, AllocError>
    ensures { IfOk result (λ v.
        v.items ≡ filter (λ x. ltb x 10) (map (λ x. x / 2) (take (non_zero_usize_get n) items))) }
{
    items
        .into_nonempty_iter()
        .take(n)
        .map(|x| x / 2)
        .filter(|x| *x < 10)
        .collect(alloc)
}

/// Returns at most `n` items, from place `from` on, with `skip` and std's `take`.
pub fn items_from(
    alloc: Global,
    items: NEVec<u32>,
    from: usize,
    n: usize,
) -> Result<Vec<u32>, AllocError>
    ensures { IfOk result (λ v. v.items ≡ take n (drop from items)) }
{
    items.into_nonempty_iter().skip(from).take(n).collect(alloc)
}

/// Returns the items at even indices, with `enumerate`, `filter` and `map`.
pub fn at_even_indices(alloc: Global, items: NEVec<u32>) -> Result<Vec<u32>, AllocError>
    ensures { IfOk result (λ v. v.items
        ≡ map (λ p. p.1) (filter (λ p. eqb (p.0 % 2) 0) (enumerate_from 0 items))) }
{
    items
        .into_nonempty_iter()
        .enumerate()
        .filter(|p| p.0 % 2 == 0)
        .map(|p| p.1)
        .collect(alloc)
}

/// Returns pairs of an item and a half, with `zip` of a vector and a `map`.
pub fn items_and_halves(
    alloc: Global,
    items: NEVec<u32>,
    others: NEVec<u32>,
) -> Result<NEVec<(u32, u32)>, AllocError>
    ensures { IfOk result (λ v. v ≡ zip items (map (λ x. x / 2) others)) }
{
    items
        .into_nonempty_iter()
        .zip(others.into_nonempty_iter().map(|x| x / 2))
        .collect(alloc)
}

/// Returns the first `n` running sums, with `scan` and `take`.
pub fn first_running_sums(
    alloc: Global,
    items: NEVec<u32>,
    n: NonZeroUsize,
) -> Result<NEVec<u32>, AllocError>
    ensures { IfOk result (λ v. v ≡ take (non_zero_usize_get n)
        (scan (λ a x. (a + x) % 2 ^ 32) (λ a x. (a + x) % 2 ^ 32) 0 items)) }
{
    items
        .into_nonempty_iter()
        .scan(0u32, |a, x| {
            *a = a.wrapping_add(x);
            *a
        })
        .take(n)
        .collect(alloc)
}

/// Appends the halves of the items, followed by other items, to a list.
pub fn append_halves(
    alloc: Global,
    list: &mut Vec<u32>,
    items: &NEVec<u32>,
    others: Vec<u32>,
) -> Result<(), AllocError>
    ensures { OnOk result (list.new.items
        ≡ list.old.items ++ (map (λ x. x / 2) items.now ++ others.items)) }
{
    let halves = items.nonempty_iter().map(|x| *x / 2);
    let _appended = halves.chain(others).append_to(alloc, list)?;
    Ok(())
}
