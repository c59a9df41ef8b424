//! Functions over sources of any type, and callers that pass vectors and chains.
ghost use Rattle.std.specs.Prelude.{◌≡◌, ◌<◌, ◌/◌, ◌^◌, ℕ, List, IfOk, length, map};
ghost use Rattle.std.specs.Borrow.{Bor};
ghost use Rattle.std.specs.Iterator.{size};
ghost use Rattle.std.specs.Prelude.{◌+◌, ◌%◌};
ghost use Rattle.std.specs.List.{enumerate_from, fold};

use ne_iter::iter::ItemSource;
use ne_iter::{IntoNonEmptyIterator, NonEmptyIterator};
use ne_vec::NEVec;
use std::alloc::{AllocError, Global};

/// Returns the items with their indices, which must fit in a `usize`.
pub fn with_indices<S: NonEmptyIterator<Item = u32>>(
    alloc: Global,
    source: S,
) -> Result<NEVec<(usize, u32)>, AllocError>
    requires ends { ⟦<S as ItemSource>⟧.ends source }
    requires fits { (it : S.IntoIter) → S.into_iter_gives source it
        → size (S.IntoIter.remaining it) < 2 ^ 64 }
    ensures { IfOk result (λ v. (xs : List ℕ) → ⟦<S as ItemSource>⟧.listed source xs
        → v ≡ enumerate_from 0 xs) }
{
    source.enumerate().collect(alloc)
}

/// Returns half of each item, with its index.
pub fn halves_with_indices(
    alloc: Global,
    items: NEVec<u32>,
) -> Result<NEVec<(usize, u32)>, AllocError>
    requires { length items < 2 ^ 64 }
    ensures { IfOk result (λ v. v ≡ enumerate_from 0 (map (λ x. x / 2) items)) }
{
    with_indices(alloc, items.into_nonempty_iter().map(|x| x / 2))
}

/// Returns the number of items, which must fit in a `usize`.
pub fn number_of<S: NonEmptyIterator<Item = u32>>(source: S) -> usize
    requires ends { ⟦<S as ItemSource>⟧.ends source }
    requires fits { (it : S.IntoIter) → S.into_iter_gives source it
        → size (S.IntoIter.remaining it) < 2 ^ 64 }
    ensures { (xs : List ℕ) → ⟦<S as ItemSource>⟧.listed source xs → result ≡ length xs }
{
    source.count().get()
}

/// Returns the lengths of texts.
pub fn lengths_of<'a, S: NonEmptyIterator<Item = &'a str>>(
    alloc: Global,
    texts: S,
) -> Result<NEVec<usize>, AllocError>
    requires { ⟦<S as ItemSource>⟧.ends texts }
    ensures { IfOk result (λ v. (ts : List (Bor (List ℕ))) → ⟦<S as ItemSource>⟧.listed texts ts
        → v ≡ map (λ t. length t.now) ts) }
{
    texts.map(|t| t.len()).collect(alloc)
}

/// Returns half of each item of a value that becomes a source.
pub fn halves_of<V: IntoNonEmptyIterator<Item = u32>>(
    alloc: Global,
    items: V,
) -> Result<NEVec<u32>, AllocError>
    requires { (s : V.IntoNEIter) → V.into_nonempty_iter_gives items s
        → ⟦<V::IntoNEIter as ItemSource>⟧.ends s }
    ensures { IfOk result (λ v. (s : V.IntoNEIter) × V.into_nonempty_iter_gives items s
        × ((xs : List ℕ) → ⟦<V::IntoNEIter as ItemSource>⟧.listed s xs
        → v ≡ map (λ x. x / 2) xs)) }
{
    items.into_nonempty_iter().map(|x| x / 2).collect(alloc)
}

/// Returns the sum of a value's items, modulo 2 ^ 32, by a fold.
pub fn wrapping_sum_of<V: IntoNonEmptyIterator<Item = u32>>(items: V) -> u32
    requires { (s : V.IntoNEIter) → V.into_nonempty_iter_gives items s
        → ⟦<V::IntoNEIter as ItemSource>⟧.ends s }
    ensures { (s : V.IntoNEIter) × V.into_nonempty_iter_gives items s
        × ((xs : List ℕ) → ⟦<V::IntoNEIter as ItemSource>⟧.listed s xs
        → result ≡ fold (λ sum x. (sum + x) % 2 ^ 32) 0 xs) }
{
    items
        .into_nonempty_iter()
        .fold(0, |sum: u32, x| sum.wrapping_add(x))
}
