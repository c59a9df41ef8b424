//! Functions over any source. Each states its result for the list that its source yields, if it
//! yields one, as a user writes them: there is no proof file, and no law is called.
ghost use Rattle.std.specs.Prelude.{◌≡◌, ◌/◌, ◌++◌, ◌≤◌, ℕ, List, IfOk, ltb, map, filter, take};
ghost use Rattle.std.specs.Int.NonZero.{non_zero_usize_get};
ghost use Rattle.std.specs.List.{All, Contains};
ghost use Rattle.ne_vec.specs.Lists.{referenced};

use ne_iter::IntoNonEmptyIterator;
use ne_iter::iter::{ItemSource, NonEmptyIterator};
use ne_vec::NEVec;
use std::alloc::{AllocError, Global};
use std::num::NonZeroUsize;

/// Returns half of each item.
pub fn halves<S: NonEmptyIterator<Item = u32>>(
    alloc: Global,
    source: S,
) -> Result<NEVec<u32>, AllocError>
    requires { ⟦<S as ItemSource>⟧.ends source }
    ensures { IfOk result (λ v. (xs : List ℕ)
        → ⟦<S as ItemSource>⟧.listed source xs
        → v ≡ map (λ x. x / 2) xs) }
{
    source.map(|x| x / 2).collect(alloc)
}

/// Returns the first `n` items, or all of them if there are fewer.
pub fn first_items<T: Drop, S: NonEmptyIterator<Item = T>>(
    alloc: Global,
    source: S,
    n: NonZeroUsize,
) -> Result<NEVec<T>, AllocError>
    requires { ⟦<S as ItemSource>⟧.starts source }
    ensures { IfOk result (λ v. (xs : List T)
        → ⟦<S as ItemSource>⟧.listed source xs
        → v ≡ take (non_zero_usize_get n) xs) }
{
    source.take(n).collect(alloc)
}

/// Returns the items, followed by those of another source.
pub fn joined<T: Drop, S: NonEmptyIterator<Item = T>, U: IntoIterator<Item = T>>(
    alloc: Global,
    source: S,
    other: U,
) -> Result<NEVec<T>, AllocError>
    requires ends { ⟦<S as ItemSource>⟧.ends source }
    requires other_ends { ⟦<U as ItemSource>⟧.ends other }
    ensures { IfOk result (λ v. (xs ys : List T)
        → ⟦<S as ItemSource>⟧.listed source xs
        → ⟦<U as ItemSource>⟧.listed other ys → v ≡ xs ++ ys) }
{
    source.chain(other).collect(alloc)
}

/// Returns the items below 10. There may be none, so the chain is std's after `filter`.
pub fn small<S: NonEmptyIterator<Item = u32>>(
    alloc: Global,
    source: S,
) -> Result<Vec<u32>, AllocError>
    requires { ⟦<S as ItemSource>⟧.ends source }
    ensures { IfOk result (λ v. (xs : List ℕ)
        → ⟦<S as ItemSource>⟧.listed source xs
        → v.items ≡ filter (λ x. ltb x 10) xs) }
{
    source.filter(|x| *x < 10).collect(alloc)
}

/// Returns the greatest of the numbers that a source references.
pub fn greatest<'a, S: NonEmptyIterator<Item = &'a u32>>(source: S) -> u32
    requires { ⟦<S as ItemSource>⟧.ends source }
    ensures among { (xs : List ℕ)
        → ⟦<S as ItemSource>⟧.listed_through referenced source xs
        → Contains xs result }
    ensures bound { (xs : List ℕ)
        → ⟦<S as ItemSource>⟧.listed_through referenced source xs
        → All (λ x. x ≤ result) xs }
{
    source.copied().max()
}
