//! The chunks of a vector.
ghost use Rattle.std.specs.Prelude.{◌≡◌, ◌<◌, ◌^◌, length, map, slice_get, IfOk};
ghost use Rattle.std.specs.List.{enumerate_from};
ghost use Rattle.std.specs.Int.NonZero.{non_zero_usize_get};
ghost use Rattle.ne_vec.specs.Chunks.{chunks};

use crate::references::Sale;
use ne_iter::NonEmptyIterator;
use ne_vec::{NESlice, NEVec};
use std::alloc::{AllocError, Global};
use std::convert::AsSlice;
use std::num::NonZeroUsize;

/// Returns the chunks of `n` items.
pub fn chunks_of<'a>(
    alloc: Global,
    items: &'a NEVec<u32>,
    n: NonZeroUsize,
) -> Result<NEVec<NESlice<'a, u32>>, AllocError>
    ensures { IfOk result (λ v. v ≡ chunks (non_zero_usize_get n) items.now) }
{
    items.nonempty_chunks(n).collect(alloc)
}

/// Returns the chunks as vectors of their own, in a loop, since a closure of `map` that allocates
/// returns a `Result`.
pub fn chunk_vectors(
    alloc: Global,
    items: &NEVec<u32>,
    n: NonZeroUsize,
) -> Result<NEVec<NEVec<u32>>, AllocError>
    ensures { IfOk result (λ v. v ≡ chunks (non_zero_usize_get n) items.now) }
{
    let parts = chunks_of(alloc, items, n)?;
    let all = parts.as_slice();
    let mut vectors = Vec::new(alloc);
    for part in all {
        let vector: NEVec<u32> = part.nonempty_iter().copied().collect(alloc)?;
        vectors.push(vector)?;
    }
    match NEVec::try_from_vec(vectors) {
        Some(vectors) => Ok(vectors),
        None => unreachable!(),
    }
}

/// Returns how many items each chunk has.
pub fn lengths(
    alloc: Global,
    items: &NEVec<u32>,
    n: NonZeroUsize,
) -> Result<NEVec<usize>, AllocError>
    ensures { IfOk result (λ v.
        v ≡ map (λ c. length c) (chunks (non_zero_usize_get n) items.now)) }
{
    items
        .nonempty_chunks(n)
        .map(|c| c.len().get())
        .collect(alloc)
}

/// Returns how many chunks there are.
pub fn how_many(items: &NEVec<u32>, n: NonZeroUsize) -> NonZeroUsize
    requires { length (chunks (non_zero_usize_get n) items.now) < 2 ^ 64 }
    ensures { non_zero_usize_get result ≡ length (chunks (non_zero_usize_get n) items.now) }
{
    items.nonempty_chunks(n).count()
}

/// Returns the chunks with their indices.
pub fn numbered<'a>(
    alloc: Global,
    items: &'a NEVec<u32>,
    n: NonZeroUsize,
) -> Result<NEVec<(usize, NESlice<'a, u32>)>, AllocError>
    requires { length (chunks (non_zero_usize_get n) items.now) < 2 ^ 64 }
    ensures { IfOk result (λ v.
        v ≡ enumerate_from 0 (chunks (non_zero_usize_get n) items.now)) }
{
    items.nonempty_chunks(n).enumerate().collect(alloc)
}

/// Returns a page of the sales, or `None` if there is no such page. Pages have `size` sales, and
/// are numbered from 0.
pub fn page<'a>(
    sales: &'a NEVec<Sale>,
    number: usize,
    size: NonZeroUsize,
) -> Option<NESlice<'a, Sale>>
    ensures { result ≡ slice_get (chunks (non_zero_usize_get size) sales.now) number }
{
    sales.nonempty_chunks(size).nth(number)
}
