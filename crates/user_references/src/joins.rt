//! Items with a separator between each two of them: texts joined into one, and numbers.
//!
//! `join_by` is std's function for what `join` of a slice returns.
ghost use Rattle.std.specs.Prelude.{◌≡◌, ◌+◌, ◌*◌, ◌++◌, take, map, nat_eq, cond, IfOk};
ghost use Rattle.std.specs.Prelude.{codes, length, string_bytes};
ghost use Rattle.std.specs.Fmt.{decimal};
ghost use Rattle.std.specs.Int.NonZero.{non_zero_usize_get};
ghost use Rattle.std.specs.List.{flat_map, join_by};
ghost use Rattle.std.specs.String.{string_eq};
ghost use Rattle.ne_vec.specs.Divisions.{by_first, heads, runs_of};
ghost use Rattle.ne_iter.specs.Intersperse.{interspersed};

use crate::nested::Order;
use ne_iter::{IntoNonEmptyIterator, NonEmptyIterator};
use ne_products::NonEmptyItertools;
use ne_vec::NEVec;
use std::alloc::{AllocError, Global};
use std::num::NonZeroUsize;

/// Returns the names of a borrowed vector as one text.
pub fn joined<'a>(
    alloc: Global,
    names: &NEVec<&'a str>,
    separator: &'a str,
) -> Result<String, AllocError>
    ensures { IfOk result (λ text.
        string_bytes text ≡ join_by (λ t. t.now) separator.now names.now) }
{
    names
        .nonempty_iter()
        .copied()
        .intersperse(separator)
        .collect::<Result<String, AllocError>>(alloc)?
}

/// Returns the names of the customers as one text, with a comma between each two.
pub fn customers(alloc: Global, orders: &NEVec<Order>) -> Result<String, AllocError>
    ensures { IfOk result (λ text.
        string_bytes text ≡ join_by (λ o. string_bytes o.customer) (codes ", ") orders.now) }
{
    orders
        .nonempty_iter()
        .map(|o| o.customer.as_str())
        .intersperse(", ")
        .collect::<Result<String, AllocError>>(alloc)?
}

/// Returns the names of the customers, one after another, as one text.
pub fn customers_together(alloc: Global, orders: &NEVec<Order>) -> Result<String, AllocError>
    ensures { IfOk result (λ text.
        string_bytes text ≡ flat_map (λ o. string_bytes o.customer) orders.now) }
{
    orders
        .nonempty_iter()
        .map(|o| o.customer.as_str())
        .collect(alloc)
}

/// Returns the first `n` names as one text.
pub fn first_joined<'a>(
    alloc: Global,
    names: NEVec<&'a str>,
    n: NonZeroUsize,
    separator: &'a str,
) -> Result<String, AllocError>
    ensures { IfOk result (λ text. string_bytes text
        ≡ join_by (λ t. t.now) separator.now (take (non_zero_usize_get n) names.entry)) }
{
    names
        .into_nonempty_iter()
        .take(n)
        .intersperse(separator)
        .collect::<Result<String, AllocError>>(alloc)?
}

/// Returns the first `n` names, followed by others, with the separator between each two.
pub fn first_and_others<'a>(
    alloc: Global,
    names: NEVec<&'a str>,
    others: Vec<&'a str>,
    n: NonZeroUsize,
    separator: &'a str,
) -> Result<Result<NEVec<&'a str>, AllocError>, AllocError>
    ensures { IfOk result (λ r. IfOk r (λ v. v ≡ interspersed separator.entry
        (take (non_zero_usize_get n) names.entry ++ others.entry.items))) }
{
    names
        .into_nonempty_iter()
        .take(n)
        .chain(others)
        .intersperse(separator)
        .collect(alloc)
}

/// Returns for each number whether it is zero, in words, with the separator between each two.
pub fn which_are_zero<'a>(
    alloc: Global,
    numbers: &NEVec<u64>,
    zero: &'a str,
    other: &'a str,
    separator: &'a str,
) -> Result<Result<NEVec<&'a str>, AllocError>, AllocError>
    ensures { IfOk result (λ r. IfOk r (λ v. v ≡ interspersed separator.entry
        (map (λ n. cond (nat_eq n 0) zero.entry other.entry) numbers.now))) }
{
    numbers
        .nonempty_iter()
        .copied()
        .map(|n| if n == 0 { zero } else { other })
        .intersperse(separator)
        .collect(alloc)
}

/// Returns the numbers with a zero between each two.
pub fn with_zeros(
    alloc: Global,
    numbers: &NEVec<u64>,
) -> Result<Result<NEVec<u64>, AllocError>, AllocError>
    ensures { IfOk result (λ r. IfOk r (λ v. v ≡ interspersed 0 numbers.now)) }
{
    numbers
        .nonempty_iter()
        .copied()
        .intersperse(0)
        .collect(alloc)
}

/// Returns the same, of which the length is stated.
pub fn separated(alloc: Global, numbers: NEVec<u64>) -> Result<NEVec<u64>, AllocError>
    ensures { IfOk result (λ v. length v + 1 ≡ 2 * length numbers) }
{
    numbers
        .into_nonempty_iter()
        .intersperse(0)
        .collect::<Result<NEVec<u64>, AllocError>>(alloc)?
}

/// Returns the customer of each run of orders of one customer, with a comma between each two.
pub fn customers_of_runs(alloc: Global, orders: NEVec<Order>) -> Result<String, AllocError>
    ensures { IfOk result (λ text. string_bytes text
        ≡ join_by (λ o. string_bytes o.customer) (codes ", ")
        (heads (runs_of by_first (λ a b. string_eq a.customer b.customer) orders))) }
{
    let mut first_ones = orders;
    first_ones.dedup_by(|a, b| a.customer == b.customer);
    customers(alloc, &first_ones)
}

/// Returns the names of a vector, which is passed by value, with the separator between each two.
pub fn into_joined(
    alloc: Global,
    names: NEVec<String>,
    separator: &str,
) -> Result<String, AllocError>
    ensures { IfOk result (λ text.
        string_bytes text ≡ join_by string_bytes separator.now names) }
{
    names.into_nonempty_iter().join(alloc, separator)
}

/// Returns the names of the customers of two vectors of orders, with a comma between each two.
pub fn customers_of_both(
    alloc: Global,
    orders: &NEVec<Order>,
    others: &NEVec<Order>,
) -> Result<String, AllocError>
    ensures { IfOk result (λ text. string_bytes text
        ≡ join_by (λ o. string_bytes o.customer) (codes ", ") (orders.now ++ others.now)) }
{
    orders
        .nonempty_iter()
        .chain(others)
        .map(|o| o.customer.as_str())
        .join(alloc, ", ")
}

/// Returns for each number whether it is zero, in words, with a comma between each two.
pub fn zeros_named(alloc: Global, numbers: &NEVec<u64>) -> Result<String, AllocError>
    ensures { IfOk result (λ text. string_bytes text
        ≡ join_by (λ n. cond (nat_eq n 0) (codes "zero") (codes "more")) (codes ", ")
        numbers.now) }
{
    numbers
        .nonempty_iter()
        .map(|n| if *n == 0 { "zero" } else { "more" })
        .join(alloc, ", ")
}

/// Returns the numbers as a text, with a comma between each two.
pub fn numbers_joined(alloc: Global, numbers: &NEVec<u64>) -> Result<String, AllocError>
    ensures { IfOk result (λ text.
        string_bytes text ≡ join_by decimal (codes ", ") numbers.now) }
{
    numbers.nonempty_iter().join(alloc, ", ")
}
