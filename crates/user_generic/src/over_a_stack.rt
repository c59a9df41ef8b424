//! Chains over a user's own source of references. They are proved automatically, since the
//! source's contract names the list of its items.
ghost use Rattle.std.specs.Prelude.{◌≡◌, map, IfOk, ltb};
ghost use Rattle.std.specs.List.{list_all};

use super::Stack;
use ne_iter::NonEmptyIterator;
use ne_vec::NEVec;
use std::alloc::{AllocError, Global};

/// Returns whether the second part of every pair is below 10.
pub fn all_below_ten(pairs: &Stack<(u32, u32)>) -> bool
    ensures { result ≡ list_all (λ p. ltb p.1 10) pairs.now }
{
    pairs.nonempty_iter().all(|p| p.1 < 10)
}

/// Returns the second parts, that of the newest pair first.
pub fn second_parts(alloc: Global, pairs: &Stack<(u32, u32)>) -> Result<NEVec<u32>, AllocError>
    ensures { IfOk result (λ v. v ≡ map (λ p. p.1) pairs.now) }
{
    pairs.nonempty_iter().map(|p| p.1).collect(alloc)
}
