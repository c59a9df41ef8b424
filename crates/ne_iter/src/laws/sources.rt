//! Laws about what sources yield: that there is an item, and the lists of some sources.
ghost use Rattle.std.specs.Prelude.{◌≡◌, ◌<◌, Bool, true, List, [], ◌∷◌, Some, None, length, Vec};
ghost use Rattle.std.specs.Global.{Global};
ghost use Rattle.std.specs.List.{flat_map};
ghost use Rattle.ne_vec.specs.Divisions.{IsDivision, by_first, by_previous, concat};
ghost use Rattle.ne_vec.specs.Lists.{IsPrefix};
ghost use Rattle.ne_vec.specs.SliceRuns.{Cutting, ActsAsAtPair};
ghost use Rattle.ne_iter.specs.Sources.{ReadsList};
ghost use Rattle.ne_iter.specs.Flatten.{ReadsEach};

use crate::array::NonEmptyArray;
use crate::iter::{ItemSource, NonEmptyIterator};
use ne_vec::{laws, slice, vector};

/// A `NonEmptyIterator` never yields the empty list.
pub fn no_list_is_empty<S: NonEmptyIterator>()
    ensures { (source : S) (xs : List S.Item) → ⟦<S as ItemSource>⟧.reads true source xs
        → 0 < length xs }
{}

/// The iterator over a vector by value yields the vector's items.
pub fn vectors_give_their_items<T: Drop>()
    ensures { (v : List T) → ReadsList (⟦<vector::IntoIter<T> as ItemSource>⟧.reads) v v }
{}

/// The runs of a slice are its one division by the test that the closure acts as: compared with the
/// first item of the run for `runs_by`, and with the previous item for `adjacent_runs`.
pub fn slice_runs_are_the_division<'a, T: 'a, F: Fn(&T, &T) -> bool>()
    ensures by_first { (s : Cutting T F) (same : T → T → Bool)
        → ActsAsAtPair F.Fn s.closure same
        → (rs : List (List T)) × IsDivision (by_first same) s.left rs
        × ReadsList (⟦<slice::SliceRuns<'a, T, F> as ItemSource>⟧.reads) s rs }
    ensures by_previous { (s : Cutting T F) (same : T → T → Bool)
        → ActsAsAtPair F.Fn s.closure same
        → (rs : List (List T)) × IsDivision (by_previous same) s.left rs
        × ReadsList (⟦<slice::AdjacentRuns<'a, T, F> as ItemSource>⟧.reads) s rs }
{
    laws::has_one_division::<T>();
    laws::runs_taken_are_the_first_runs::<T, F>();
}

/// An array yields its items, by value.
pub fn arrays_give_their_items<T: Drop, const N: usize>()
where
    [T; N]: NonEmptyArray<N>,
    ensures { (a : List T) → ReadsList (⟦<[T; N] as ItemSource>⟧.reads) a a }
{}

/// A vector of std yields its items, by value.
pub fn std_vectors_give_their_items<T: Drop>()
    ensures { (v : Vec T Global) → ReadsList (⟦<Vec<T> as ItemSource>⟧.reads) v v.items }
{}

/// If an iterator yields what it has left, its source yields that and nothing else.
///
/// `left` is the list that an iterator has left: an item that comes was its first, and if none
/// comes it is empty.
pub fn sources_give_what_is_left<S: IntoIterator>()
    ensures { (left : S.IntoIter → List S.Item)
        → ((it rest : S.IntoIter) (x : S.Item) → S.IntoIter.next_gives it (Some x) rest
        → left it ≡ x ∷ left rest)
        → ((it rest : S.IntoIter) → S.IntoIter.next_gives it None rest → left it ≡ [])
        → (source : S) (xs : List S.Item)
        → ((it : S.IntoIter) → S.into_iter_gives source it → left it ≡ xs)
        → ReadsList (⟦<S as ItemSource>⟧.reads) source xs }
{}

/// If a source yields a list, then what is read from it to the end is that list.
pub fn lists_are_read_whole<S: IntoIterator>(source: &S)
    ensures { (xs ys : List S.Item) → ReadsList (⟦<S as ItemSource>⟧.reads) source.now xs
        → ⟦<S as ItemSource>⟧.reads true source.now ys → ys ≡ xs }
{}

/// If each source of a type yields the list that `lists` names, then what was read from the first
/// of the sources `all`, one after another, are the first items of all their lists.
pub fn lists_follow_one_another<U: IntoIterator>()
    ensures { (lists : U → List U.Item)
        → ((u : U) → ReadsList (⟦<U as ItemSource>⟧.reads) u (lists u))
        → (whole : Bool) (all us : List U) (yss : List (List U.Item)) → IsPrefix whole all us
        → ReadsEach (⟦<U as ItemSource>⟧.reads) whole us yss
        → IsPrefix whole (flat_map lists all) (concat yss) }
{}
