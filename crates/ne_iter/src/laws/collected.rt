//! Laws about collecting, and about lists with separators.
ghost use Rattle.std.specs.Prelude.{◌≡◌, ◌↔◌, ◌+◌, ◌-◌, ◌*◌, ℕ, true, List, [], ◌∷◌, ◌++◌, Some};
ghost use Rattle.std.specs.Prelude.{Result, Ok, Err, is_ok, MatchResult, IsSomeAnd, IfOk, length};
ghost use Rattle.std.specs.Prelude.{map, slice_get};
ghost use Rattle.std.specs.List.{list_all};
ghost use Rattle.ne_iter.specs.Cloned.{TriesClone};
ghost use Rattle.ne_iter.specs.Intersperse.{Interspersed};

use crate::iter::{FromNonEmptyIterator, ItemSource};
use ne_vec::{NEVec, Singleton};
use std::alloc::AllocError;

/// Items that are added one by one, by `singleton` and then `extend_one`, make what they make when
/// they are collected. Two vectors made from the same items are the same list.
pub fn vectors_one_by_one_are_collected<T: Drop>()
    ensures same_word { (items v : List T)
        → ⟦<NEVec<T> as Singleton>⟧.collected items v
        ↔ ⟦<NEVec<T> as FromNonEmptyIterator<T>>⟧.collected items v }
    ensures same_list { (items v w : List T)
        → ⟦<NEVec<T> as Singleton>⟧.collected items v
        → ⟦<NEVec<T> as FromNonEmptyIterator<T>>⟧.collected items w
        → v ≡ w }
{}

/// A vector collected from results holds the values if all results are `Ok`; otherwise the first
/// `Err` is returned, and it came last.
pub fn results_make_a_vector<T: Drop, E: Drop>()
    ensures { (items : List (Result T E)) (result : Result (List T) E)
        → ⟦<Result<NEVec<T>, E> as FromNonEmptyIterator<Result<T, E>>>⟧.collected items result
        → MatchResult result (λ v. items ≡ map Ok v)
        (λ e. (values : List T) × (items ≡ map Ok values ++ Err e ∷ [])) }
{}

/// If a source of results was collected into `Ok` of a vector, it gave the items of the vector,
/// each in `Ok`, and ended. What is before the last arrow is the clause `gives` of `collect`.
pub fn results_are_read_whole<T: Drop, E: Drop, S: IntoIterator<Item = Result<T, E>>>()
    ensures { (source : S) (result : Result (List T) E)
        → (items : List (Result T E)) × ⟦<S as ItemSource>⟧.reads (is_ok result) source items
        × ⟦<Result<NEVec<T>, E> as FromNonEmptyIterator<Result<T, E>>>⟧.collected items result
        → IfOk result (λ v. ⟦<S as ItemSource>⟧.reads true source (map Ok v)) }
{
    results_make_a_vector::<T, E>();
}

/// The items xs with separators: item i is at place 2i, in `Ok`; at each odd place is the result of
/// a clone; an `Err` can only be at the last place. If no clone failed, the length is one less than
/// twice the number of items.
pub fn interspersed_lists_have_their_places<T: Clone>()
    ensures count { (separator : T) (xs : List T) (zs : List (Result T AllocError))
        → Interspersed (TriesClone T.is_clone T.is_infallible separator) xs zs
        → list_all is_ok zs ≡ true → length zs ≡ 2 * length xs - 1 }
    ensures items { (separator : T) (xs : List T) (zs : List (Result T AllocError))
        → Interspersed (TriesClone T.is_clone T.is_infallible separator) xs zs
        → (i : ℕ) (z : Result T AllocError) → slice_get zs (2 * i) ≡ Some z
        → IsSomeAnd (slice_get xs i) (λ x. z ≡ Ok x) }
    ensures separators { (separator : T) (xs : List T) (zs : List (Result T AllocError))
        → Interspersed (TriesClone T.is_clone T.is_infallible separator) xs zs
        → (i : ℕ) (z : Result T AllocError) → slice_get zs (2 * i + 1) ≡ Some z
        → TriesClone T.is_clone T.is_infallible separator z }
    ensures last { (separator : T) (xs : List T) (zs : List (Result T AllocError))
        → Interspersed (TriesClone T.is_clone T.is_infallible separator) xs zs
        → (i : ℕ) (refused : AllocError) → slice_get zs i ≡ Some (Err refused)
        → length zs ≡ i + 1 }
{}
