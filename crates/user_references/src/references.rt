//! Chains over references, which read structs and numbers where they are, without a copy.
ghost use Rattle.std.specs.Prelude.{◌≡◌, ◌/◌, ◌++◌, ◌∷◌, ◌<◌, ◌≤◌, ◌^◌, [], map, sum, take, drop};
ghost use Rattle.std.specs.Prelude.{length, slice_get, Some, None, IfOk, OnOk, IsPermutation, ltb};
ghost use Rattle.std.specs.Prelude.{string_bytes};
ghost use Rattle.std.specs.Prelude.{List, cond, nat_eq, not, ℕ};
ghost use Rattle.std.specs.List.{All, Contains, enumerate_from, filter, filter_map, find, flat_map};
ghost use Rattle.std.specs.List.{fold, list_all, list_any, prefix_len, scan, take_while, zip};
ghost use Rattle.std.specs.Option.{option_map};
ghost use Rattle.std.specs.Int.NonZero.{non_zero_usize_get};
ghost use Rattle.std.specs.Ordering.{nat_cmp};
ghost use Rattle.ne_iter.specs.Consumers.{IsFirstLeast};
ghost use Rattle.ne_vec.specs.KeyOrder.{KeepsTies, KeysAscend};
ghost use Rattle.ne_vec.specs.Orders.{ItemsAscend, KeepsTiesOf, and_then, by_number};
ghost use Rattle.ne_vec.specs.Orders.{reversed};

use crate::nested::Order;
use ne_iter::laws::sums_are_bounded;
use ne_iter::{IntoNonEmptyIterator, NonEmptyIterator, iter};
use ne_vec::NEVec;
use std::alloc::{AllocError, Global};
use std::num::NonZeroUsize;

/// A sale to a buyer.
pub struct Sale {
    pub buyer: u32,
    pub price: u32,
}

/// Returns references to the sales whose price is below 10, and to the others.
pub fn cheap_and_others<'a>(
    alloc: Global,
    sales: &'a NEVec<Sale>,
) -> Result<(Vec<&'a Sale>, Vec<&'a Sale>), AllocError>
    ensures { IfOk result (λ r.
        (map (λ s. s.now) r.0.items ≡ filter (λ s. ltb s.price 10) sales.now)
        × (map (λ s. s.now) r.1.items ≡ filter (λ s. not (ltb s.price 10)) sales.now)) }
{
    sales.nonempty_iter().partition(alloc, |s| s.price < 10)
}

/// Returns whether any price is below 10.
pub fn any_cheap(sales: &NEVec<Sale>) -> bool
    ensures { result ≡ list_any (λ s. ltb s.price 10) sales.now }
{
    sales.nonempty_iter().any(|s| s.price < 10)
}

/// Returns the first sale whose price is below 10.
pub fn first_cheap<'a>(sales: &'a NEVec<Sale>) -> Option<&'a Sale>
    ensures { option_map (λ s. s.now) result ≡ find (λ s. ltb s.price 10) sales.now }
{
    sales.nonempty_iter().find(|s| s.price < 10)
}

/// Returns the first of the sales with the greatest price.
pub fn dearest<'a>(sales: &'a NEVec<Sale>) -> &'a Sale
    ensures bound { All (λ s. s.price ≤ result.now.price) sales.now }
    ensures first { (place : ℕ) × (slice_get sales.now place ≡ Some result.now)
        × All (λ price. price < result.now.price) (map (λ s. s.price) (take place sales.now)) }
{
    sales.nonempty_iter().max_by_key(|s| s.price)
}

/// Returns the first of the sales with the least price, of the first `n`.
pub fn cheapest<'a>(sales: &'a NEVec<Sale>, n: NonZeroUsize) -> &'a Sale
    ensures { IsFirstLeast (λ s t. ltb s.price t.price)
        (take (non_zero_usize_get n) sales.now) result.now }
{
    sales
        .nonempty_iter()
        .take(n)
        .min_by(|s, t| s.price.cmp(&t.price))
}

/// Returns the sale with the least price, and its index.
pub fn cheapest_with_index<'a>(sales: &'a NEVec<Sale>) -> (usize, &'a Sale)
    ensures among { Contains (enumerate_from 0 sales.now) (result.0, result.1.now) }
    ensures bound { All (λ price. result.1.now.price ≤ price)
        (map (λ p. p.1.price) (enumerate_from 0 sales.now)) }
{
    sales.nonempty_iter().enumerate().min_by_key(|p| p.1.price)
}

/// Returns the sales in the order of their prices.
pub fn by_price<'a>(alloc: Global, sales: &'a NEVec<Sale>) -> Result<NEVec<&'a Sale>, AllocError>
    ensures permutation { IfOk result (λ v. IsPermutation sales.now (map (λ s. s.now) v)) }
    ensures ascend { IfOk result (λ v.
        KeysAscend (λ s. s.price) nat_cmp (map (λ s. s.now) v)) }
    ensures ties { IfOk result (λ v.
        KeepsTies (λ s. s.price) nat_eq sales.now (map (λ s. s.now) v)) }
{
    sales
        .nonempty_iter()
        .sorted_by_key(alloc, |s| s.price)?
        .collect(alloc)
}

/// Returns the buyers in the order of the prices, with `map` above `sorted_by_key`.
pub fn buyers_by_price(alloc: Global, sales: &NEVec<Sale>) -> Result<NEVec<u32>, AllocError>
    ensures { IfOk result (λ v. (sorted : List Sale) × IsPermutation sales.now sorted
        × KeysAscend (λ s. s.price) nat_cmp sorted
        × KeepsTies (λ s. s.price) nat_eq sales.now sorted
        × (v ≡ map (λ s. s.buyer) sorted)) }
{
    sales
        .nonempty_iter()
        .sorted_by_key(alloc, |s| s.price)?
        .map(|s| s.buyer)
        .collect(alloc)
}

/// Returns the prices and the buyers in the order of the prices, with `sorted_by_key` above `map`.
pub fn pairs_by_price(alloc: Global, sales: &NEVec<Sale>) -> Result<NEVec<(u32, u32)>, AllocError>
    ensures permutation { IfOk result (λ v.
        IsPermutation (map (λ s. (s.price, s.buyer)) sales.now) v) }
    ensures ascend { IfOk result (λ v. KeysAscend (λ p. p.0) nat_cmp v) }
    ensures ties { IfOk result (λ v.
        KeepsTies (λ p. p.0) nat_eq (map (λ s. (s.price, s.buyer)) sales.now) v) }
{
    sales
        .nonempty_iter()
        .map(|s| (s.price, s.buyer))
        .sorted_by_key(alloc, |p| p.0)?
        .collect(alloc)
}

/// Sorts the sales by their prices.
pub fn sort_by_price(sales: &mut NEVec<Sale>) -> Result<(), AllocError>
    ensures permutation { IsPermutation sales.old sales.new }
    ensures ascend { OnOk result (KeysAscend (λ s. s.price) nat_cmp sales.new) }
    ensures ties { KeepsTies (λ s. s.price) nat_eq sales.old sales.new }
{
    sales.sort_by_key(|s| s.price)
}

/// Sorts the sales by their prices, and allocates nothing.
pub fn sort_unstable_by_price(sales: &mut NEVec<Sale>)
    ensures permutation { IsPermutation sales.old sales.new }
    ensures ascend { KeysAscend (λ s. s.price) nat_cmp sales.new }
{
    sales.sort_unstable_by_key(|s| s.price);
}

/// Sorts the sales by their buyers, and those of a buyer by the price, the dearest first.
pub fn sort_by_buyer(sales: &mut NEVec<Sale>) -> Result<(), AllocError>
    ensures permutation { IsPermutation sales.old sales.new }
    ensures ascend { OnOk result (ItemsAscend
        (and_then (by_number (λ s. s.buyer)) (reversed (by_number (λ s. s.price)))) sales.new) }
    ensures ties { KeepsTiesOf
        (and_then (by_number (λ s. s.buyer)) (reversed (by_number (λ s. s.price))))
        sales.old sales.new }
{
    sales.sort_by(|s, t| s.buyer.cmp(&t.buyer).then(t.price.cmp(&s.price)))
}

/// Returns the price of the last sale, by a fold.
pub fn last_price(sales: &NEVec<Sale>) -> u32
    ensures { result ≡ fold (λ before s. s.price) 0 sales.now }
{
    sales.nonempty_iter().fold(0, |before, s| s.price)
}

/// Returns the buyer of the sale at index `n`.
pub fn buyer_at(sales: &NEVec<Sale>, n: usize) -> Option<u32>
    ensures { result ≡ option_map (λ s. s.buyer) (slice_get sales.now n) }
{
    sales.nonempty_iter().nth(n).map(|s| s.buyer)
}

/// Returns the sum of the prices in two vectors, the second of which is passed as it is.
pub fn total_of_both(sales: &NEVec<Sale>, others: &NEVec<Sale>) -> u32
    requires { sum (map (λ s. s.price) (sales.now ++ others.now)) < 2 ^ 32 }
    ensures { result ≡ sum (map (λ s. s.price) (sales.now ++ others.now)) }
{
    sales.nonempty_iter().chain(others).map(|s| s.price).sum()
}

/// Returns the sum of few prices, of which none is above 1000. A law bounds it.
pub fn total_of_few(sales: &NEVec<Sale>) -> u32
    requires each { All (λ price. price ≤ 1000) (map (λ s. s.price) sales.now) }
    requires few { length sales.now ≤ 1000 }
    ensures { result ≡ sum (map (λ s. s.price) sales.now) }
{
    sums_are_bounded(1000);
    sales.nonempty_iter().map(|s| s.price).sum()
}

/// Returns how many prices are below 10.
pub fn how_many_cheap(sales: &NEVec<Sale>) -> usize
    ensures { result ≡ length (filter (λ s. ltb s.price 10) sales.now) }
{
    sales.nonempty_iter().filter(|s| s.price < 10).count()
}

/// Returns the buyers in two vectors.
pub fn buyers_of_both(
    alloc: Global,
    sales: &NEVec<Sale>,
    others: &NEVec<Sale>,
) -> Result<NEVec<u32>, AllocError>
    ensures { IfOk result (λ v. v ≡ map (λ s. s.buyer) (sales.now ++ others.now)) }
{
    sales
        .nonempty_iter()
        .chain(others.nonempty_iter())
        .map(|s| s.buyer)
        .collect(alloc)
}

/// Returns the buyers of what costs less than 10, with `filter` and `map`.
pub fn cheap_buyers(alloc: Global, sales: &NEVec<Sale>) -> Result<Vec<u32>, AllocError>
    ensures { IfOk result (λ v.
        v.items ≡ map (λ s. s.buyer) (filter (λ s. ltb s.price 10) sales.now)) }
{
    sales
        .nonempty_iter()
        .filter(|s| s.price < 10)
        .map(|s| s.buyer)
        .collect(alloc)
}

/// Returns the same by `filter_map`.
pub fn buyers_of_cheap(alloc: Global, sales: &NEVec<Sale>) -> Result<Vec<u32>, AllocError>
    ensures { IfOk result (λ v. v.items
        ≡ filter_map (λ s. cond (ltb s.price 10) (Some s.buyer) None) sales.now) }
{
    sales
        .nonempty_iter()
        .filter_map(|s| if s.price < 10 { Some(s.buyer) } else { None })
        .collect(alloc)
}

/// Returns the buyers after the first two.
pub fn later_buyers(alloc: Global, sales: &NEVec<Sale>) -> Result<Vec<u32>, AllocError>
    ensures { IfOk result (λ v. v.items ≡ map (λ s. s.buyer) (drop 2 sales.now)) }
{
    sales
        .nonempty_iter()
        .skip(2)
        .map(|s| s.buyer)
        .collect(alloc)
}

/// Returns references to at most `n` sales, from place `from` on.
pub fn sales_from<'a>(
    alloc: Global,
    sales: &'a NEVec<Sale>,
    from: usize,
    n: usize,
) -> Result<Vec<&'a Sale>, AllocError>
    ensures { IfOk result (λ v. map (λ s. s.now) v.items ≡ take n (drop from sales.now)) }
{
    sales.nonempty_iter().skip(from).take(n).collect(alloc)
}

/// Returns the numbers before the first that is 10 or more.
pub fn small_prefix(alloc: Global, items: &NEVec<u32>) -> Result<Vec<u32>, AllocError>
    ensures { IfOk result (λ v. v.items ≡ take_while (λ x. ltb x 10) items.now) }
{
    items
        .nonempty_iter()
        .take_while(|x| **x < 10)
        .copied()
        .collect(alloc)
}

/// Returns the numbers from the first that is 10 or more.
pub fn rest_from_great(alloc: Global, items: &NEVec<u32>) -> Result<Vec<u32>, AllocError>
    ensures { IfOk result (λ v.
        v.items ≡ drop (prefix_len (λ x. ltb x 10) items.now) items.now) }
{
    items
        .nonempty_iter()
        .skip_while(|x| **x < 10)
        .copied()
        .collect(alloc)
}

/// Returns the halves of the numbers, with their indices before them.
pub fn halves_after_places(
    alloc: Global,
    items: &NEVec<u32>,
) -> Result<NEVec<(usize, u32)>, AllocError>
    ensures { IfOk result (λ v. v ≡ map (λ p. (p.0, p.1 / 2)) (enumerate_from 0 items.now)) }
{
    items
        .nonempty_iter()
        .enumerate()
        .map(|p| (p.0, *p.1 / 2))
        .collect(alloc)
}

/// Returns the first `n` prices, with their indices before them.
pub fn first_prices_numbered(
    alloc: Global,
    sales: &NEVec<Sale>,
    n: NonZeroUsize,
) -> Result<NEVec<(usize, u32)>, AllocError>
    ensures { IfOk result (λ v. v ≡ map (λ p. (p.0, p.1.price))
        (take (non_zero_usize_get n) (enumerate_from 0 sales.now))) }
{
    sales
        .nonempty_iter()
        .enumerate()
        .take(n)
        .map(|p| (p.0, p.1.price))
        .collect(alloc)
}

/// Returns whether every price is below the limit beside it.
pub fn within(sales: &NEVec<Sale>, limits: &NEVec<u32>) -> bool
    ensures { result ≡ list_all (λ p. ltb p.0.price p.1) (zip sales.now limits.now) }
{
    sales.nonempty_iter().zip(limits).all(|p| p.0.price < *p.1)
}

/// Returns the prices that are beside one another in two vectors.
pub fn prices_beside(
    alloc: Global,
    sales: &NEVec<Sale>,
    others: &NEVec<Sale>,
) -> Result<NEVec<(u32, u32)>, AllocError>
    ensures { IfOk result (λ v.
        v ≡ map (λ p. (p.0.price, p.1.price)) (zip sales.now others.now)) }
{
    sales
        .nonempty_iter()
        .zip(others.nonempty_iter())
        .map(|p| (p.0.price, p.1.price))
        .collect(alloc)
}

/// Returns for each sale the price of the one before it, and 0 for the first.
pub fn prices_before(alloc: Global, sales: &NEVec<Sale>) -> Result<NEVec<u32>, AllocError>
    ensures { IfOk result (λ v. v ≡ scan (λ before s. s.price) (λ before s. before) 0 sales.now) }
{
    let step = |before: &mut u32, s: &Sale| {
        let price = *before;
        *before = s.price;
        price
    };
    sales.nonempty_iter().scan(0, step).collect(alloc)
}

/// Returns references to the numbers of the orders.
pub fn ids<'a>(alloc: Global, orders: &'a NEVec<Order>) -> Result<NEVec<&'a u32>, AllocError>
    ensures { IfOk result (λ v. map (λ x. x.now) v ≡ map (λ o. o.id) orders.now) }
{
    orders.nonempty_iter().map(|o| &o.id).collect(alloc)
}

/// Returns references to the amounts of the orders.
pub fn amounts<'a>(
    alloc: Global,
    orders: &'a NEVec<Order>,
) -> Result<NEVec<&'a NEVec<u32>>, AllocError>
    ensures { IfOk result (λ v. map (λ x. x.now) v ≡ map (λ o. o.amounts) orders.now) }
{
    orders.nonempty_iter().map(|o| &o.amounts).collect(alloc)
}

/// Returns the names of the customers.
pub fn customers<'a>(alloc: Global, orders: &'a NEVec<Order>) -> Result<NEVec<&'a str>, AllocError>
    ensures { IfOk result (λ v.
        map (λ x. x.now) v ≡ map (λ o. string_bytes o.customer) orders.now) }
{
    orders
        .nonempty_iter()
        .map(|o| o.customer.as_str())
        .collect(alloc)
}

/// Returns references to the orders in pairs, of which a field is compared.
pub fn second_of_each<'a>(
    alloc: Global,
    pairs: &'a NEVec<(u32, Order)>,
) -> Result<NEVec<&'a Order>, AllocError>
    ensures { IfOk result (λ v. map (λ o. o.now.id) v ≡ map (λ p. p.1.id) pairs.now) }
{
    pairs.nonempty_iter().map(|p| &p.1).collect(alloc)
}

/// Returns the greatest price, from references to the prices.
pub fn greatest_price(sales: &NEVec<Sale>) -> u32
    ensures bound { All (λ s. s.price ≤ result) sales.now }
    ensures among { Contains (map (λ s. s.price) sales.now) result }
{
    *sales.nonempty_iter().map(|s| &s.price).max()
}

/// Returns the buyers, each from a source of its own.
pub fn buyers_one_by_one(alloc: Global, sales: &NEVec<Sale>) -> Result<NEVec<u32>, AllocError>
    ensures { IfOk result (λ v. v ≡ flat_map (λ s. s.buyer ∷ []) sales.now) }
{
    sales
        .nonempty_iter()
        .flat_map(|s| iter::once(s.buyer))
        .collect(alloc)
}

/// Returns the buyers of what costs less than what is sold beside it, with `filter_map`.
pub fn buyers_of_cheaper(
    alloc: Global,
    sales: &NEVec<Sale>,
    others: &NEVec<Sale>,
) -> Result<Vec<u32>, AllocError>
    ensures { IfOk result (λ v. v.items
        ≡ filter_map (λ p. cond (ltb p.0.price p.1.price) (Some p.0.buyer) None)
        (zip sales.now others.now)) }
{
    sales
        .nonempty_iter()
        .zip(others.nonempty_iter())
        .filter_map(|p| if p.0.price < p.1.price {
            Some(p.0.buyer)
        } else {
            None
        })
        .collect(alloc)
}

/// The same with `filter` and `map`.
pub fn buyers_of_filtered(
    alloc: Global,
    sales: &NEVec<Sale>,
    others: &NEVec<Sale>,
) -> Result<Vec<u32>, AllocError>
    ensures { IfOk result (λ v. v.items ≡ map (λ p. p.0.buyer)
        (filter (λ p. ltb p.0.price p.1.price) (zip sales.now others.now))) }
{
    sales
        .nonempty_iter()
        .zip(others.nonempty_iter())
        .filter(|(sale, other)| sale.price < other.price)
        .map(|(sale, _)| sale.buyer)
        .collect(alloc)
}
