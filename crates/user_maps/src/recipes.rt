//! What is not in a set.
ghost use Rattle.std.specs.Prelude.{◌≡◌, IfOk, filter, map, not, string_bytes};
ghost use Rattle.std.specs.BTreeSet.{contains, contains_text};
ghost use Rattle.std.specs.Ordering.{nat_cmp};

use nonempty_collections::{NEBTreeSet, NEVec, NonEmptyIterator};
use std::alloc::{AllocError, Global};

/// A sale of an amount of an article to a customer.
#[derive(Drop)]
pub struct Sale {
    pub customer: String,
    pub article: u32,
    pub amount: u32,
}

/// Returns whether a name is in a set.
fn is_known(known: &NEBTreeSet<String>, name: &str) -> bool
    ensures { result ≡ contains_text known.now name.now }
{
    known.contains(name)
}

/// Returns the articles of the sales to customers that are not in a set.
pub fn articles_of_others(
    alloc: Global,
    sales: &NEVec<Sale>,
    known: &NEBTreeSet<String>,
) -> Result<Vec<u32>, AllocError>
    ensures { IfOk result (λ v. v.items ≡ map (λ s. s.article) (filter
        (λ s. not (contains_text known.now (string_bytes s.customer))) sales.now)) }
{
    sales
        .nonempty_iter()
        .filter(|s| !is_known(known, s.customer.as_str()))
        .map(|s| s.article)
        .collect(alloc)
}

/// Returns the items that are not in a set.
pub fn not_in_set(
    alloc: Global,
    items: &NEVec<u32>,
    known: &NEBTreeSet<u32>,
) -> Result<Vec<u32>, AllocError>
    ensures { IfOk result (λ v.
        v.items ≡ filter (λ x. not (contains nat_cmp known.now x)) items.now) }
{
    items
        .nonempty_iter()
        .filter(|x| !known.contains(*x))
        .copied()
        .collect(alloc)
}
