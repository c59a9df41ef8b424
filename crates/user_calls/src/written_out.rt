//! Collections that are written out.
ghost use Rattle.std.specs.Prelude.{◌≡◌, ◌∷◌, [], IfOk, Ok, Some};

use nonempty_collections::{
    IntoNonEmptyIterator, NESlice, NEVec, NonEmptyIterator, NonEmptyItertools, nev,
};
use std::alloc::{AllocError, Global};
use std::num::NonZeroUsize;

/// An item is removed by its index, and the others keep their order.
pub fn remove(alloc: Global) -> Result<(Option<u32>, NEVec<u32>), AllocError>
    ensures { IfOk result (λ r. (r.0 ≡ Some 4) × (r.1 ≡ 6 ∷ 8 ∷ [])) }
{
    let mut items = nev![alloc; 4, 6, 8]?;
    let removed = items.remove(0);
    Ok((removed, items))
}

/// Returns the places of a table, row by row.
pub fn places(alloc: Global) -> Result<Result<NEVec<(u32, u32)>, AllocError>, AllocError>
    ensures { IfOk result (λ r. r ≡ Ok ((0, 7) ∷ (0, 8) ∷ (1, 7) ∷ (1, 8) ∷ [])) }
{
    let (rows, columns) = (nev![alloc; 0, 1]?, nev![alloc; 7, 8]?);
    let columns = columns.nonempty_iter().copied();
    let places = rows.nonempty_iter().copied().cartesian_product(columns);
    places.collect(alloc)
}

/// Returns the number of chunks, and the lengths of the two that there are.
pub fn lengths_of_chunks(alloc: Global) -> Result<(usize, usize, usize), AllocError>
    ensures count { IfOk result (λ r. r.0 ≡ 2) }
    ensures first { IfOk result (λ r. r.1 ≡ 2) }
    ensures second { IfOk result (λ r. r.2 ≡ 1) }
{
    let items = nev![alloc; 3, 1, 4]?;
    let (slice, size) = (items.as_nonempty_slice(), NonZeroUsize::new(2).unwrap());
    let chunks: NEVec<NESlice<'_, u32>> = slice.nonempty_chunks(size).collect(alloc)?;
    Ok((
        chunks.len().get(),
        chunks[0].len().get(),
        chunks[1].len().get(),
    ))
}
