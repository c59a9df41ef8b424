//! Adapters, collected.
ghost use Rattle.std.specs.Prelude.{◌≡◌, ◌+◌, ◌*◌, ◌/◌, ◌%◌, ◌^◌, ◌<◌, ◌∷◌, [], map, IfOk};
ghost use Rattle.std.specs.List.{All, flat_map, scan};

use ne_iter::{IntoNonEmptyIterator, NonEmptyIterator, iter};
use ne_vec::NEVec;
use std::alloc::{AllocError, Global};

/// Returns an item, followed by others.
pub fn put_before(alloc: Global, x: u32, items: Vec<u32>) -> Result<NEVec<u32>, AllocError>
    ensures { IfOk result (λ v. v ≡ x ∷ items.items) }
{
    iter::once(x).chain(items).collect(alloc)
}

/// Returns the items of one source for each item, one after another.
pub fn spread(alloc: Global, items: NEVec<u32>) -> Result<NEVec<u32>, AllocError>
    ensures { IfOk result (λ v. v ≡ flat_map (λ x. x / 2 ∷ []) items) }
{
    items
        .into_nonempty_iter()
        .flat_map(|x| iter::once(x / 2))
        .collect(alloc)
}

/// Returns twice each item, which must fit in a `u32`.
pub fn doubled(alloc: Global, items: &NEVec<u32>) -> Result<NEVec<u32>, AllocError>
    requires { All (λ x. x < 2 ^ 31) items.now }
    ensures { IfOk result (λ v. v ≡ map (λ x. x * 2) items.now) }
{
    items.nonempty_iter().map(|x| *x * 2).collect(alloc)
}

/// Returns the totals of the first item, of the first two, and so on, each modulo 2^32, by std's
/// `collect`.
pub fn totals_by_std(alloc: Global, items: NEVec<u32>) -> Result<Vec<u32>, AllocError>
    ensures { IfOk result (λ v. v.items
        ≡ scan (λ t x. (t + x) % 2 ^ 32) (λ t x. (t + x) % 2 ^ 32) 0 items) }
{
    items
        .into_nonempty_iter()
        .scan(0, |total: &mut u32, x| {
            *total = total.wrapping_add(x);
            *total
        })
        .into_iter()
        .collect(alloc)
}
