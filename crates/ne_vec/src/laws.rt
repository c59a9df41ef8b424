//! Laws about the definitions that the contracts use. Each law is the contract of a function that
//! does nothing.
ghost use Rattle.std.specs.Prelude.{◌≡◌, ◌≢◌, ◌<◌, ◌≤◌, ◌↔◌, ◌*◌, ℕ, Bool, true, false, List, []};
ghost use Rattle.std.specs.Prelude.{◌∷◌, ◌++◌, length, map, take, drop, slice_get, Option, Some};
ghost use Rattle.std.specs.Prelude.{MatchOption, Ok, Result};
ghost use Rattle.std.specs.List.{AllByRecursion, AllZip};
ghost use Rattle.std.specs.Cmp.{IsPartialEquivalence};
ghost use Rattle.std.specs.Cmp.Lexicographic.{pointwise, slice_cmp, slice_partial_cmp};
ghost use Rattle.std.specs.declared.cmp.Ordering.TheVariants.{Less, Equal, Greater};
ghost use Rattle.std.specs.Iterator.{Yields};
ghost use Rattle.ne_vec.specs.declared.Error.{Error};
ghost use Rattle.ne_vec.specs.Divisions.{IsDivision, by_first, by_previous, concat, heads, runs_of};
ghost use Rattle.ne_vec.specs.Kept.{ActsAsAtMut, ComparesKeysAs, KeepsFirsts};
ghost use Rattle.ne_vec.specs.Searches.{CallableAtItems, CallableAtItemsMut};
ghost use Rattle.ne_vec.specs.Chunks.{chunks};
ghost use Rattle.ne_vec.specs.SliceRuns.{Cutting, ActsAsAtPair, CutsRun};

use crate::{NESlice, NEVec};
use std::hash::Hash;

/// Each list has exactly one division into runs, for any rule that says which items continue a run.
pub fn has_one_division<T>()
    ensures exists { (goes_on : List T → T → Bool) (xs : List T) → (rs : List (List T))
        × IsDivision goes_on xs rs }
    ensures unique { (goes_on : List T → T → Bool) (xs : List T) (rs others : List (List T))
        → IsDivision goes_on xs rs → IsDivision goes_on xs others → rs ≡ others }
{}

/// `runs_of` computes the one division of a list by a test of two items: its runs are a division,
/// and every division equals them. `place` is `by_first` or `by_previous`; it says with which item
/// of a run the next item is compared.
pub fn computed_runs_are_the_division<T>()
    ensures divides { (place : (T → T → Bool) → List T → T → Bool) (same : T → T → Bool)
        (xs : List T) → IsDivision (place same) xs (runs_of place same xs) }
    ensures only { (place : (T → T → Bool) → List T → T → Bool) (same : T → T → Bool)
        (xs : List T) (rs : List (List T)) → IsDivision (place same) xs rs
        → rs ≡ runs_of place same xs }
{}

/// The runs of a list, except its last one, are the first runs of each list that begins with it.
pub fn longer_list_keeps_runs<T>()
    ensures { (goes_on : List T → T → Bool) (xs more : List T) (rs all : List (List T))
        (last : List T) → IsDivision goes_on xs (rs ++ last ∷ [])
        → IsDivision goes_on (xs ++ more) all → (rest : List (List T)) × (all ≡ rs ++ rest) }
{}

/// One more item at the end either continues the last run or begins a new one.
pub fn one_item_more<T>()
    ensures goes_on { (goes_on : List T → T → Bool) (xs : List T) (x : T) (rs : List (List T))
        (last : List T) → IsDivision goes_on xs (rs ++ last ∷ []) → goes_on last x ≡ true
        → IsDivision goes_on (xs ++ x ∷ []) (rs ++ (last ++ x ∷ []) ∷ []) }
    ensures breaks { (goes_on : List T → T → Bool) (xs : List T) (x : T) (rs : List (List T))
        (last : List T) → IsDivision goes_on xs (rs ++ last ∷ []) → goes_on last x ≡ false
        → IsDivision goes_on (xs ++ x ∷ []) ((rs ++ last ∷ []) ++ (x ∷ []) ∷ []) }
{}

/// If a relation is symmetric and transitive, comparing each item with the first item of its run
/// gives the same division as comparing it with the item before it.
pub fn first_and_previous_agree<T>()
    ensures { (same : T → T → Bool) (xs : List T) (rs : List (List T)) → IsPartialEquivalence same
        → (IsDivision (by_first same) xs rs ↔ IsDivision (by_previous same) xs rs) }
{}

/// A symmetric relation and its converse have the same division.
pub fn converse_has_the_same_division<T>()
    ensures { (same : T → T → Bool) (xs : List T) (rs : List (List T))
        → ((x y : T) → same x y ≡ same y x) → IsDivision (by_first same) xs rs
        → IsDivision (by_first (λ x y. same y x)) xs rs }
{}

/// If the key is a function of the item alone and does not change the item, [`NEVec::dedup_by_key`]
/// keeps the first item of each run of equal keys. These are the runs of `group_by` with the same
/// key.
pub fn dedup_by_key_keeps_the_first_items<T, K: PartialEq, F: FnMut(&mut T) -> K>()
    ensures compares { (f : F) (read : T → K) → ActsAsAtMut F.FnMut f read (λ x. x)
        → ComparesKeysAs F.FnMut K.eq f (λ x y. K.eq (read x) (read y)) }
    ensures firsts { (same : T → T → Bool) (xs ys : List T) (runs : List (List T))
        → KeepsFirsts same xs ys → IsDivision (by_first same) xs runs → ys ≡ heads runs }
{
    computed_runs_are_the_division::<T>();
}

/// The runs of a mapped list are the mapped runs, if a mapped item continues a mapped run exactly
/// when the item continues the run.
pub fn mapped_list_has_the_mapped_runs<T, U>()
    ensures { (f : T → U) (goes_on : List T → T → Bool) (mapped_on : List U → U → Bool)
        (xs : List T) (rs : List (List T)) → ((r : List T) (x : T)
        → mapped_on (map f r) (f x) ≡ goes_on r x) → IsDivision goes_on xs rs
        → IsDivision mapped_on (map f xs) (map (map f) rs) }
{}

/// If `size` is not 0, there is a chunk j exactly if the list has an item at index j * size. It
/// holds the items from that index on, up to `size` of them. One after another the chunks are the
/// list. Each chunk but the last has `size` items; the last has at least one item and at most
/// `size`.
pub fn chunks_make_the_whole<T>()
    ensures count { (size : ℕ) (xs : List T) (j : ℕ) → 0 < size
        → ((j < length (chunks size xs)) ↔ (j * size < length xs)) }
    ensures each { (size : ℕ) (xs : List T) (j : ℕ) → j < length (chunks size xs)
        → slice_get (chunks size xs) j ≡ Some (take size (drop (j * size) xs)) }
    ensures whole { (size : ℕ) (xs : List T) → 0 < size → concat (chunks size xs) ≡ xs }
    ensures sizes { (size : ℕ) (xs : List T) (prefix : List (List T)) (last : List T) → 0 < size
        → chunks size xs ≡ prefix ++ last ∷ [] → AllByRecursion (λ c. length c ≡ size) prefix
        × (0 < length last) × (length last ≤ size) }
{}

/// A vector that is converted into a `Vec` and back, by `try_from` or `try_from_vec`, is the same
/// vector, and the conversion back never fails.
pub fn vectors_come_back<T>()
    ensures by_try_from_vec { (v : List T) (inner : _) (r : Option (List T))
        → ⟦<Vec<T> as From<NEVec<T>>>⟧.from_gives v inner
        → MatchOption r (inner.items ≡ []) (λ w. w ≡ inner.items) → r ≡ Some v }
    ensures by_try_from { (v : List T) (inner : _) (r : Result (List T) Error)
        → ⟦<Vec<T> as From<NEVec<T>>>⟧.from_gives v inner
        → ⟦<NEVec<T> as TryFrom<Vec<T>>>⟧.try_from_gives inner r → r ≡ Ok v }
{}

/// Vectors compare as their lists do, item by item.
pub fn vectors_compare_as_lists<T: Ord>()
    ensures equal { (v w : List T) → ⟦<NEVec<T> as PartialEq>⟧.eq v w ≡ pointwise T.eq v w }
    ensures ordered { (v w : List T) → ⟦<NEVec<T> as Ord>⟧.cmp v w ≡ slice_cmp T.cmp v w }
    ensures partly_ordered { (v w : List T)
        → ⟦<NEVec<T> as PartialOrd>⟧.partial_cmp v w ≡ slice_partial_cmp T.partial_cmp v w }
{}

/// Equal vectors have equal hashes.
pub fn equal_vectors_have_equal_hashes<T: Hash>()
    ensures { (v w : List T) → ⟦<NEVec<T> as PartialEq>⟧.eq v w ≡ true
        → ⟦<NEVec<T> as Hash>⟧.hash_input v ≡ ⟦<NEVec<T> as Hash>⟧.hash_input w }
{}

/// Non-empty slices compare as their lists do, item by item.
pub fn slices_compare_as_lists<'a, T: Ord + 'a>()
    ensures equal { (v w : List T) → ⟦<NESlice<'a, T> as PartialEq>⟧.eq v w ≡ pointwise T.eq v w }
    ensures ordered { (v w : List T) → ⟦<NESlice<'a, T> as Ord>⟧.cmp v w ≡ slice_cmp T.cmp v w }
    ensures partly_ordered { (v w : List T)
        → ⟦<NESlice<'a, T> as PartialOrd>⟧.partial_cmp v w ≡ slice_partial_cmp T.partial_cmp v w }
{}

/// Equal non-empty slices have equal hashes.
pub fn equal_slices_have_equal_hashes<'a, T: Hash + 'a>()
    ensures { (v w : List T) → ⟦<NESlice<'a, T> as PartialEq>⟧.eq v w ≡ true
        → ⟦<NESlice<'a, T> as Hash>⟧.hash_input v ≡ ⟦<NESlice<'a, T> as Hash>⟧.hash_input w }
{}

/// The order of lists is the lexicographic one: the first index at which they differ decides, and
/// if one list is the beginning of the other, the shorter one is less.
pub fn lists_are_in_lexicographic_order<T: Ord>()
    ensures differs { (prefix v w : List T) (x y : T) → T.cmp x y ≢ Equal
        → slice_cmp T.cmp (prefix ++ x ∷ v) (prefix ++ y ∷ w) ≡ T.cmp x y }
    ensures shorter { (prefix w : List T) (y : T)
        → slice_cmp T.cmp prefix (prefix ++ y ∷ w) ≡ Less }
    ensures longer { (prefix v : List T) (x : T)
        → slice_cmp T.cmp (prefix ++ x ∷ v) prefix ≡ Greater }
    ensures same { (v : List T) → slice_cmp T.cmp v v ≡ Equal }
{}

/// The order of lists is also lexicographic if items can compare as equal without being the same.
/// Two items tie if they compare as equal; `prefix` and `other` have the same length and tie at
/// each index. The first index at which two lists do not tie decides. If all items of one list tie
/// with the first items of the other, the shorter list is less and the longer one greater. Lists
/// compare as equal if and only if they have the same length and tie at each index.
pub fn ties_are_passed_over<T: Ord>()
    ensures differs { (prefix other v w : List T) (x y : T)
        → AllZip (λ a b. T.cmp a b ≡ Equal) prefix other → T.cmp x y ≢ Equal
        → slice_cmp T.cmp (prefix ++ x ∷ v) (other ++ y ∷ w) ≡ T.cmp x y }
    ensures shorter { (prefix other w : List T) (y : T)
        → AllZip (λ a b. T.cmp a b ≡ Equal) prefix other
        → slice_cmp T.cmp prefix (other ++ y ∷ w) ≡ Less }
    ensures longer { (prefix other v : List T) (x : T)
        → AllZip (λ a b. T.cmp a b ≡ Equal) prefix other
        → slice_cmp T.cmp (prefix ++ x ∷ v) other ≡ Greater }
    ensures equal { (v w : List T)
        → ((slice_cmp T.cmp v w ≡ Equal) ↔ AllZip (λ a b. T.cmp a b ≡ Equal) v w) }
{}

/// Lists compare lexicographically by `partial_cmp` too. The result at the first index at which the
/// lists do not tie decides; if it is `None`, the lists have no order either.
pub fn partial_ties_are_passed_over<T: PartialOrd>()
    ensures differs { (prefix other v w : List T) (x y : T)
        → AllZip (λ a b. T.partial_cmp a b ≡ Some Equal) prefix other
        → T.partial_cmp x y ≢ Some Equal
        → slice_partial_cmp T.partial_cmp (prefix ++ x ∷ v) (other ++ y ∷ w) ≡ T.partial_cmp x y }
    ensures shorter { (prefix other w : List T) (y : T)
        → AllZip (λ a b. T.partial_cmp a b ≡ Some Equal) prefix other
        → slice_partial_cmp T.partial_cmp prefix (other ++ y ∷ w) ≡ Some Less }
    ensures longer { (prefix other v : List T) (x : T)
        → AllZip (λ a b. T.partial_cmp a b ≡ Some Equal) prefix other
        → slice_partial_cmp T.partial_cmp (prefix ++ x ∷ v) other ≡ Some Greater }
    ensures equal { (v w : List T)
        → ((slice_partial_cmp T.partial_cmp v w ≡ Some Equal)
        ↔ AllZip (λ a b. T.partial_cmp a b ≡ Some Equal) v w) }
{}

/// A closure that can be called with any item can be called with the items of each list. Generic
/// code that knows the former calls this law before a method that requires the latter, such as
/// `binary_search_by`.
pub fn always_callable_is_callable_at_items<T, R, F: FnMut(&T) -> R>()
    ensures { (f : F) (xs : List T) → F.IsAlwaysCallable f → CallableAtItems F.FnMut f xs }
{}

/// The law [`always_callable_is_callable_at_items`] of a closure that returns a `bool`, as
/// `partition_point` and `retain` call it.
pub fn always_callable_test_is_callable_at_items<T, F: FnMut(&T) -> bool>()
    ensures { (f : F) (xs : List T) → F.IsAlwaysCallable f → CallableAtItems F.FnMut f xs }
{
    always_callable_is_callable_at_items::<T, bool, F>();
}

/// The law [`always_callable_is_callable_at_items`] of a closure as `retain_mut` calls it.
pub fn always_callable_test_is_callable_at_items_mut<T, F: FnMut(&mut T) -> bool>()
    ensures { (f : F) (xs : List T) → F.IsAlwaysCallable f → CallableAtItemsMut F.FnMut f xs }
{}

/// The runs that were taken of a slice, in order, followed by the runs of the items that are left,
/// are the runs of the slice, if the closure acts as a test of two items. This holds for both
/// `by_first` and `by_previous`, and at any moment. Once no item is left, the runs that were taken
/// are all runs of the slice.
pub fn runs_taken_are_the_first_runs<T, F: Fn(&T, &T) -> bool>()
    ensures { (place : (T → T → Bool) → List T → T → Bool) (same : T → T → Bool)
        (s t : Cutting T F) (rs all : List (List T))
        → ActsAsAtPair F.Fn s.closure same → Yields (CutsRun F.Fn place) s rs t
        → IsDivision (place same) t.left all → IsDivision (place same) s.left (rs ++ all) }
{}
