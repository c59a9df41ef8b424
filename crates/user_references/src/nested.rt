//! The items of several sources, one source after another.
ghost use Rattle.std.specs.Prelude.{◌≡◌, ◌/◌, filter, ltb, take, IfOk};
ghost use Rattle.std.specs.List.{flat_map};
ghost use Rattle.std.specs.Int.NonZero.{non_zero_usize_get};

use ne_iter::{IntoNonEmptyIterator, NonEmptyIterator};
use ne_vec::NEVec;
use std::alloc::{AllocError, Global};
use std::num::NonZeroUsize;

/// An order of several amounts.
#[derive(Drop)]
pub struct Order {
    pub id: u32,
    pub customer: String,
    pub day: u32,
    pub amounts: NEVec<u32>,
}

/// Returns the amounts of all orders.
pub fn all_amounts(alloc: Global, orders: &NEVec<Order>) -> Result<NEVec<u32>, AllocError>
    ensures { IfOk result (λ v. v ≡ flat_map (λ o. o.amounts) orders.now) }
{
    orders
        .nonempty_iter()
        .flat_map(|o| &o.amounts)
        .copied()
        .collect(alloc)
}

/// Returns the amounts below 10 of all orders.
pub fn small_amounts(alloc: Global, orders: &NEVec<Order>) -> Result<Vec<u32>, AllocError>
    ensures { IfOk result (λ v.
        v.items ≡ filter (λ x. ltb x 10) (flat_map (λ o. o.amounts) orders.now)) }
{
    orders
        .nonempty_iter()
        .flat_map(|o| &o.amounts)
        .copied()
        .filter(|x| *x < 10)
        .collect(alloc)
}

/// Returns the amounts of all orders, which are passed by value, by a closure with a contract.
pub fn into_amounts(alloc: Global, orders: NEVec<Order>) -> Result<NEVec<u32>, AllocError>
    ensures { IfOk result (λ v. v ≡ flat_map (λ o. o.amounts) orders) }
{
    orders
        .into_nonempty_iter()
        .flat_map(
            |order: Order| -> NEVec<u32>
                ensures { result ≡ order.amounts }
            { order.amounts },
        )
        .collect(alloc)
}

/// Returns the first `n` items of several vectors.
pub fn first_joined(
    alloc: Global,
    vectors: NEVec<NEVec<u32>>,
    n: NonZeroUsize,
) -> Result<NEVec<u32>, AllocError>
    ensures { IfOk result (λ v.
        v ≡ take (non_zero_usize_get n) (flat_map (λ items. items) vectors)) }
{
    vectors
        .into_nonempty_iter()
        .flatten()
        .take(n)
        .collect(alloc)
}

/// Returns the amounts of all orders.
pub fn amounts(alloc: Global, orders: NEVec<(u32, NEVec<u32>)>) -> Result<NEVec<u32>, AllocError>
    ensures { IfOk result (λ v. v ≡ flat_map (λ order. order.1) orders) }
{
    orders
        .into_nonempty_iter()
        .flat_map(|order| order.1)
        .collect(alloc)
}
