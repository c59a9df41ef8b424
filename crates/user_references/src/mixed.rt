//! Chains of adapters over arrays, references, texts and structs.
ghost use Rattle.std.specs.Prelude.{◌≡◌, ◌+◌, ◌-◌, ◌%◌, ◌^◌, ◌∷◌, map, take, drop};
ghost use Rattle.std.specs.Prelude.{IfOk, IfSome, ltb, nat_eq, slice_get};
ghost use Rattle.std.specs.List.{zip};
ghost use Rattle.std.specs.Int.NonZero.{non_zero_usize_get};
ghost use Rattle.ne_iter.specs.Collected.{IsMapOfPairs};

use crate::nested::Order;
use ne_iter::{IntoNonEmptyIterator, NonEmptyIterator};
use ne_vec::NEVec;
use std::alloc::{AllocError, Global};
use std::collections::BTreeMap;
use std::num::NonZeroUsize;

/// A job that takes some minutes.
#[derive(Clone, Copy, Debug, PartialEq, Eq)]
pub struct Job {
    pub name: u32,
    pub minutes: u32,
}

/// Returns the names of the first `n` jobs, from references.
pub fn first_names(
    alloc: Global,
    jobs: &NEVec<Job>,
    n: NonZeroUsize,
) -> Result<NEVec<u32>, AllocError>
    ensures { IfOk result (λ v. v ≡ map (λ job. job.name) (take (non_zero_usize_get n) jobs.now)) }
{
    jobs.nonempty_iter()
        .take(n)
        .map(|job| job.name)
        .collect(alloc)
}

/// Returns the first item, and which items are greater, with `peekable` and `map`.
pub fn greater_than_first(
    alloc: Global,
    items: NEVec<u32>,
) -> Result<(u32, NEVec<bool>), AllocError>
    ensures { IfOk result (λ r. (items ≡ r.0 ∷ drop 1 items)
        × (r.1 ≡ map (λ x. ltb r.0 x) items)) }
{
    let source = items.into_nonempty_iter().peekable();
    let first = *source.peek();
    let greater = source.map(|x| first < x).collect(alloc)?;
    Ok((first, greater))
}

/// Returns the days from the first order on, with `peekable` over references.
pub fn days_since_first(alloc: Global, orders: &NEVec<Order>) -> Result<NEVec<u32>, AllocError>
    ensures { IfOk result (λ v. IfSome (slice_get orders.now 0) (λ first.
        v ≡ map (λ o. (o.day + (2 ^ 32 - first.day)) % 2 ^ 32) orders.now)) }
{
    let source = orders.nonempty_iter().peekable();
    let first = source.peek().day;
    source.map(|o| o.day.wrapping_sub(first)).collect(alloc)
}

/// Returns the items, with `x` in place of the first one, with `peek_mut`.
pub fn with_first(alloc: Global, items: NEVec<u32>, x: u32) -> Result<NEVec<u32>, AllocError>
    ensures { IfOk result (λ v. v ≡ x ∷ drop 1 items) }
{
    let mut source = items.into_nonempty_iter().peekable();
    *source.peek_mut() = x;
    source.collect(alloc)
}

/// Returns a map made from an array by reference and a vector, with `copied`, `zip` and `take`.
pub fn table_of_first(
    alloc: Global,
    keys: &[u32; 4],
    values: NEVec<u32>,
    n: NonZeroUsize,
) -> Result<BTreeMap<u32, u32>, AllocError>
    ensures { IfOk result (λ m. IsMapOfPairs nat_eq
        (take (non_zero_usize_get n) (zip keys.now values)) m.entries) }
{
    keys.into_nonempty_iter()
        .copied()
        .zip(values)
        .take(n)
        .collect(alloc)
}
