//! The first runs of a source.
ghost use Rattle.std.specs.Prelude.{◌≤◌, IfOk, length};

use ne_laws::reader::take_runs;
use nonempty_collections::{IntoNonEmptyIterator, NEVec};
use std::alloc::{AllocError, Global};

/// Returns the first `n` runs of items that are in the same ten, or all if there are fewer.
pub fn first_tens(alloc: Global, items: NEVec<u32>, n: usize) -> Result<Vec<NEVec<u32>>, AllocError>
    ensures { IfOk result (λ runs. length runs.items ≤ n) }
{
    let (runs, _reader) = take_runs(alloc, items.into_nonempty_iter(), |x| *x / 10, n)?;
    Ok(runs)
}
