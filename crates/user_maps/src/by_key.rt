//! What is made of items by their keys: folds, sums, groups and counts, also by keys that are
//! texts.
ghost use Rattle.std.specs.Prelude.{◌≡◌, ◌<◌, ◌+◌, ◌^◌, IfOk, Some, filter, map, max, nat_eq};
ghost use Rattle.std.specs.Prelude.{string_bytes};
ghost use Rattle.std.specs.BTreeMap.{get, get_by_text};
ghost use Rattle.std.specs.HashMap as hashed;
ghost use Rattle.std.specs.List.{sum_by};
ghost use Rattle.std.specs.Ordering.{nat_cmp};
ghost use Rattle.std.specs.Str.{bytes_eq};
ghost use Rattle.indexmap.specs.IndexMap as indexed;
ghost use Rattle.nonempty_collections.specs.ByKey.{IsCounted, IsFoldedByKey, IsGroupedByKey};
ghost use Rattle.nonempty_collections.specs.ByKey.{fold_some};
ghost use Rattle.nonempty_collections.specs.Lists.{itself, referenced};
ghost use Rattle.user_maps.specs.Totals.{plus};

use crate::recipes::Sale;
use nonempty_collections::{
    IntoNonEmptyIterator, NEBTreeMap, NEIndexMap, NEMap, NEVec, NonEmptyIterator, NonEmptyItertools,
};
use std::alloc::{AllocError, Global};

/// Returns the greatest amount of each article.
pub fn greatest_amounts(
    alloc: Global,
    sales: &NEVec<Sale>,
) -> Result<NEBTreeMap<u32, u32>, AllocError>
    ensures { IfOk result (λ m. IsFoldedByKey (get nat_cmp m) nat_eq (λ s. s.article)
        (λ most s. max most s.amount) 0 sales.now) }
{
    sales
        .nonempty_iter()
        .fold_by_key(alloc, |s| s.article, 0, |most: u32, s| most.max(s.amount))
}

/// Returns the greatest amount of an article, or `None` if none of it was sold.
pub fn greatest_amount(
    alloc: Global,
    sales: &NEVec<Sale>,
    article: u32,
) -> Result<Option<u32>, AllocError>
    ensures { IfOk result (λ amount. amount ≡ fold_some (λ most s. max most s.amount) 0
        (filter (λ s. nat_eq article s.article) sales.now)) }
{
    Ok(greatest_amounts(alloc, sales)?.get(&article).copied())
}

/// Returns the sum of the amounts of each article that was sold.
pub fn totals(alloc: Global, sales: &NEVec<Sale>) -> Result<NEBTreeMap<u32, u64>, AllocError>
    requires { sum_by (λ s. s.amount) sales.now < 2 ^ 64 }
    ensures { IfOk result (λ m. IsFoldedByKey (get nat_cmp m) nat_eq (λ s. s.article)
        (λ total s. total + s.amount) 0 sales.now) }
{
    sales
        .nonempty_iter()
        .sum_by_key(alloc, |s| s.article, |s| u64::from(s.amount))
}

/// Returns the sum of the amounts of each customer that bought something.
pub fn totals_by_customer(
    alloc: Global,
    sales: &NEVec<Sale>,
) -> Result<NEMap<String, u64>, AllocError>
    requires { sum_by (λ s. s.amount) sales.now < 2 ^ 64 }
    ensures { IfOk result (λ m. IsFoldedByKey (hashed.get_by_text m) bytes_eq
        (λ s. string_bytes s.customer) (λ total s. total + s.amount) 0 sales.now) }
{
    sales
        .nonempty_iter()
        .sum_by_key(alloc, |s| s.customer.as_str(), |s| u64::from(s.amount))
}

/// Returns the sum of the amounts of each customer, or `None` where it does not fit.
pub fn checked_totals(
    alloc: Global,
    sales: &NEVec<Sale>,
) -> Result<NEBTreeMap<String, Option<u64>>, AllocError>
    ensures { IfOk result (λ m. IsFoldedByKey (get_by_text m) bytes_eq
        (λ s. string_bytes s.customer) (λ total s. plus total s.amount) (Some 0) sales.now) }
{
    sales.nonempty_iter().fold_by_key(
        alloc,
        |s| s.customer.as_str(),
        Some(0),
        |total: Option<u64>, s| total?.checked_add(u64::from(s.amount)),
    )
}

/// Returns the sales of each customer, in order.
pub fn sales_of_each(
    alloc: Global,
    sales: &NEVec<Sale>,
) -> Result<NEMap<String, NEVec<&Sale>>, AllocError>
    ensures { IfOk result (λ m. IsGroupedByKey (hashed.get_by_text m) bytes_eq referenced
        (λ s. string_bytes s.customer) sales.now) }
{
    sales
        .nonempty_iter()
        .into_group_map_by(alloc, |s| s.customer.as_str())
}

/// Returns the sales of each article, in order.
pub fn into_sales_of_each(
    alloc: Global,
    sales: NEVec<Sale>,
) -> Result<NEIndexMap<u32, NEVec<Sale>>, AllocError>
    ensures { IfOk result (λ m. IsGroupedByKey (indexed.get nat_eq m) nat_eq itself
        (λ s. s.article) sales) }
{
    sales
        .into_nonempty_iter()
        .into_group_map_by(alloc, |s| s.article)
}

/// Returns how often each article was sold.
pub fn how_often(alloc: Global, sales: &NEVec<Sale>) -> Result<NEMap<u32, usize>, AllocError>
    ensures { IfOk result (λ m. IsCounted (hashed.get nat_eq m) nat_eq
        (map (λ s. s.article) sales.now)) }
{
    sales.nonempty_iter().map(|s| s.article).counts(alloc)
}

/// Returns how often each customer bought something.
pub fn how_often_each(
    alloc: Global,
    sales: &NEVec<Sale>,
) -> Result<NEBTreeMap<String, usize>, AllocError>
    ensures { IfOk result (λ m. IsCounted (get_by_text m) bytes_eq
        (map (λ s. string_bytes s.customer) sales.now)) }
{
    sales
        .nonempty_iter()
        .map(|s| s.customer.as_str())
        .counts(alloc)
}
