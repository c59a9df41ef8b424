//! The README's example: a queue and a chain.
ghost use Rattle.std.specs.Prelude.{◌≡◌, ◌/◌, map, IfOk};

use ne_iter::{IntoNonEmptyIterator, NonEmptyIterator};
use ne_vec::NEVec;
use std::alloc::{AllocError, Global};

/// Returns the job that was added last.
pub fn last_job(alloc: Global, first: u32, next: u32) -> Result<u32, AllocError>
    ensures { IfOk result (λ last. last ≡ next) }
{
    let mut jobs = NEVec::new(alloc, first)?;
    jobs.push(next)?;
    Ok(*jobs.last())
}

/// Returns half of each item.
pub fn halves(alloc: Global, items: NEVec<u32>) -> Result<NEVec<u32>, AllocError>
    ensures { IfOk result (λ v. v ≡ map (λ x. x / 2) items) }
{
    items.into_nonempty_iter().map(|x| x / 2).collect(alloc)
}
