//! A loop that counts.
ghost use Rattle.std.specs.Prelude.{◌≡◌, filter, length, ltb};

use ne_vec::NEVec;
use std::convert::AsSlice;

/// Returns how many items are less than 10.
pub fn how_many_small(items: &NEVec<u32>) -> usize
    ensures { result ≡ length (filter (λ x. ltb x 10) items.now) }
{
    let all = items.as_slice();
    let mut count = 0usize;
    for x in all {
        if *x < 10 {
            count += 1;
        }
    }
    count
}
