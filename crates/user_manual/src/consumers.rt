//! Consumers, and a search in a sorted vector.
ghost use Rattle.std.specs.Prelude.{◌≡◌, ◌/◌, ◌%◌, ◌+◌, ◌++◌, ◌<◌, ◌≤◌, ◌^◌, map, sum, length, ℕ};
ghost use Rattle.std.specs.Prelude.{Ok, Err, IfOk, IsPermutation, Some};
ghost use Rattle.std.specs.Prelude.{from_bits, slice_get, take, MatchResult, nat_eq, ltb, cond};
ghost use Rattle.std.specs.Prelude.{[], ◌∷◌, MatchOption, filter, not};
ghost use Rattle.std.specs.List.{All, Contains, filter_map, fold, list_all};
ghost use Rattle.std.specs.Result.{result_err};
ghost use lib.Ieee as Ieee;
ghost use lib.Ieee.{binary64};
ghost use Rattle.std.specs.Int.NonZero.{non_zero_usize_get};
ghost use Rattle.std.specs.Ordering.{nat_cmp};
ghost use Rattle.ne_iter.specs.Collected.{IsAllOrErrors, IsSetOf};
ghost use Rattle.ne_iter.specs.Collected.{values_or_first_err};
ghost use Rattle.ne_vec.specs.KeyOrder.{KeepsTies, KeysAscend};
ghost use Rattle.user_manual.specs.declared.consumers.Fault.TheVariants.{TooGreat, TooLong};

use ne_iter::{IntoIteratorExt, IntoNonEmptyIterator, NonEmptyIterator};
use ne_vec::NEVec;
use std::alloc::{AllocError, Global};
use std::collections::HashSet;
use std::num::NonZeroUsize;

/// Returns the sum of the halves.
pub fn sum_of_halves(items: NEVec<u32>) -> u32
    requires { sum (map (λ x. x / 2) items) < 2 ^ 32 }
    ensures { result ≡ sum (map (λ x. x / 2) items) }
{
    items.into_nonempty_iter().map(|x| x / 2).sum()
}

/// Returns the greatest half.
pub fn greatest_half(items: &NEVec<u32>) -> u32
    ensures among { Contains (map (λ x. x / 2) items.now) result }
    ensures bound { All (λ x. x ≤ result) (map (λ x. x / 2) items.now) }
{
    items.nonempty_iter().map(|x| *x / 2).max()
}

/// Returns the first of the greatest items: each item before it is less.
pub fn greatest(items: NEVec<u32>) -> u32
    ensures bound { All (λ x. x ≤ result) items }
    ensures first { (place : ℕ) × (slice_get items place ≡ Some result)
        × All (λ x. x < result) (take place items) }
{
    items.into_nonempty_iter().max()
}

/// Returns the first of the least items, from references.
pub fn least(items: &NEVec<u32>) -> u32
    ensures bound { All (λ x. result ≤ x) items.now }
    ensures first { (place : ℕ) × (slice_get items.now place ≡ Some result)
        × All (λ x. result < x) (take place items.now) }
{
    items.nonempty_iter().copied().min()
}

/// Returns whether all items are below 10.
pub fn all_small(items: NEVec<u32>) -> bool
    ensures { result ≡ list_all (λ x. ltb x 10) items }
{
    items.into_nonempty_iter().all(|x| x < 10)
}

/// Returns the items, and their halves.
pub fn parted(alloc: Global, items: NEVec<u32>) -> Result<(NEVec<u32>, NEVec<u32>), AllocError>
    ensures { IfOk result (λ r. (r.0 ≡ items) × (r.1 ≡ map (λ x. x / 2) items)) }
{
    items.into_nonempty_iter().map(|x| (x, x / 2)).unzip(alloc)
}

/// Returns how many items two vectors have together.
pub fn how_many_of_both(items: NEVec<u32>, others: NEVec<u32>) -> NonZeroUsize
    ensures { non_zero_usize_get result ≡ length items + length others }
{
    items.into_nonempty_iter().chain(others).count()
}

/// Returns the items, or the first one that is 10 or more.
pub fn checked(alloc: Global, items: NEVec<u32>) -> Result<Result<NEVec<u32>, u32>, AllocError>
    ensures { IfOk result (λ r. r ≡ values_or_first_err
        (map (λ x. cond (ltb x 10) (Ok x) (Err x)) items)) }
{
    items
        .into_nonempty_iter()
        .map(|x| if x < 10 { Ok(x) } else { Err(x) })
        .collect(alloc)
}

/// Returns the items in a vector that may be empty, or the first one that is 10 or more.
pub fn checked_as_vec(alloc: Global, items: NEVec<u32>) -> Result<Result<Vec<u32>, u32>, AllocError>
    ensures { IfOk result (λ r. MatchResult r
        (λ v. values_or_first_err (map (λ x. cond (ltb x 10) (Ok x) (Err x)) items) ≡ Ok v.items)
        (λ e. values_or_first_err (map (λ x. cond (ltb x 10) (Ok x) (Err x)) items) ≡ Err e)) }
{
    items
        .into_nonempty_iter()
        .map(|x| if x < 10 { Ok(x) } else { Err(x) })
        .collect(alloc)
}

/// What is wrong with a list.
#[derive(Drop)]
pub enum Fault {
    TooLong,
    TooGreat(u32),
}

/// Returns the items that are less than 10, and the others.
pub fn parted_at_ten(alloc: Global, items: NEVec<u32>) -> Result<(Vec<u32>, Vec<u32>), AllocError>
    ensures { IfOk result (λ r. (r.0.items ≡ filter (λ x. ltb x 10) items)
        × (r.1.items ≡ filter (λ x. not (ltb x 10)) items)) }
{
    items.into_nonempty_iter().partition(alloc, |x| *x < 10)
}

/// Returns the items if each is less than 10, and otherwise a fault for each that is not.
pub fn all_checked(
    alloc: Global,
    items: &NEVec<u32>,
) -> Result<Result<NEVec<u32>, NEVec<Fault>>, AllocError>
    ensures { IfOk result (IsAllOrErrors
        (map (λ x. cond (ltb x 10) (Ok x) (Err (TooGreat x))) items.now)) }
{
    items
        .nonempty_iter()
        .map(|x| if *x < 10 {
            Ok(*x)
        } else {
            Err(Fault::TooGreat(*x))
        })
        .all_or_errors(alloc)
}

/// Returns the items if there are at most `limit` and each is less than 10, and otherwise all
/// faults: that of the list, and then those of the items.
pub fn list_checked(
    alloc: Global,
    items: &NEVec<u32>,
    limit: usize,
) -> Result<Result<NEVec<u32>, NEVec<Fault>>, AllocError>
    ensures { IfOk result (λ valid. MatchResult valid
        (λ v. (map (λ x. cond (ltb x 10) (Ok x) (Err (TooGreat x))) items.now ≡ map Ok v)
        × (length items.now ≤ limit))
        (λ faults. faults ≡ cond (ltb limit (length items.now)) (TooLong ∷ []) []
        ++ filter_map result_err
        (map (λ x. cond (ltb x 10) (Ok x) (Err (TooGreat x))) items.now))) }
{
    let fits = items.len().get() <= limit;
    match all_checked(alloc, items)? {
        Ok(values) => {
            if fits {
                Ok(Ok(values))
            } else {
                Ok(Err(NEVec::new(alloc, Fault::TooLong)?))
            }
        }
        Err(mut faults) => {
            if !fits {
                faults.insert(0, Fault::TooLong)?;
            }
            Ok(Err(faults))
        }
    }
}

/// Returns all values or all errors of a list that may be empty.
pub fn all_or_errors_if_any(
    alloc: Global,
    items: Vec<Result<u32, bool>>,
) -> Result<Option<Result<NEVec<u32>, NEVec<bool>>>, AllocError>
    ensures { IfOk result (λ some. MatchOption some (items.items ≡ [])
        (λ valid. MatchResult valid (λ values. items.items ≡ map Ok values)
        (λ errors. errors ≡ filter_map result_err items.items))) }
{
    match items.try_into_nonempty_iter() {
        Some(source) => Ok(Some(source.all_or_errors(alloc)?)),
        None => Ok(None),
    }
}

/// Returns the items in the order of their last digits. Items with the same last digit keep their
/// order.
pub fn by_digit(alloc: Global, items: NEVec<u32>) -> Result<NEVec<u32>, AllocError>
    ensures permutation { IfOk result (λ v. IsPermutation items v) }
    ensures ascend { IfOk result (λ v. KeysAscend (λ x. x % 10) nat_cmp v) }
    ensures ties { IfOk result (λ v. KeepsTies (λ x. x % 10) nat_eq items v) }
{
    items
        .into_nonempty_iter()
        .sorted_by_key(alloc, |x| *x % 10)?
        .collect(alloc)
}

/// Returns a hash set of the items.
pub fn hash_set(alloc: Global, items: NEVec<u32>) -> Result<HashSet<u32>, AllocError>
    ensures { IfOk result (λ s. IsSetOf nat_eq items s.keys) }
{
    items.into_nonempty_iter().collect(alloc)
}

/// Returns the product of floats, where each partial product is rounded.
pub fn product_of_floats(numbers: NEVec<f64>) -> f64
    ensures { result ≡ fold (λ a x. Ieee.mul binary64 a x)
        (from_bits binary64 0x3ff0_0000_0000_0000) numbers }
{
    numbers.into_nonempty_iter().product()
}
