//! Vectors in a random order.
ghost use Rattle.std.specs.List.Sorted.{IsPermutation};

use nonempty_collections::NEVec;
use rand::rngs::SmallRng;
use rand_core::SeedableRng;

/// Returns the items in an order that the seed determines.
pub fn shuffled(items: NEVec<u32>, seed: u64) -> NEVec<u32>
    ensures { IsPermutation items result }
{
    let (mut items, mut small) = (items, SmallRng::seed_from_u64(seed));
    items.shuffle(&mut small);
    items
}
