//! Laws about what a grouping has read at any moment, and about the runs of items with keys.
ghost use Rattle.std.specs.Prelude.{◌≡◌, ◌≢◌, Bool, List, [], ◌++◌, Option, Result};
ghost use Rattle.std.specs.Iterator.{ActsAsAt, Drains};
ghost use Rattle.std.specs.List.{AllByRecursion, FoldsTo};
ghost use Rattle.ne_vec.specs.Divisions.{IsDivision, by_first, concat};
ghost use Rattle.ne_iter.specs.Calls.{CallsEachAt};
ghost use Rattle.ne_iter.specs.GroupBy.{by_key};
ghost use Rattle.ne_iter.specs.Keys.{items_of, DividesByKey, IsDividedBy};
ghost use Rattle.ne_iter.specs.GroupingRuns.{IsOver, IsUnread, HasRead, ReturnsNext, ReturnsOn};
ghost use Rattle.ne_iter.specs.Grouping.{Grouping};

use ne_vec::laws;
use std::alloc::AllocError;

/// After any calls of its `next`, a grouping has read what its contract says. It has returned runs,
/// then possibly `None` or an `Err`, and only `None` after that.
///
/// `HasRead s f rs g` says that the grouping began with the source `s` and the closure `f`, has
/// returned the runs `rs`, and is now `g`.
pub fn groupings_stand_at_any_moment<I: Iterator, K: PartialEq, F: FnMut(&I::Item) -> K>()
    ensures fresh { (g : Grouping I K I.Item F) → IsUnread g
        → HasRead I.next_gives (by_key F.FnMut K.eq) g.source g.closure [] g }
    ensures later { (s : I) (f : F) (done : List (List I.Item)) (g h : Grouping I K I.Item F)
        (results : List (Option (Result (List I.Item) AllocError)))
        → HasRead I.next_gives (by_key F.FnMut K.eq) s f done g
        → FoldsTo (ReturnsNext I.next_gives (by_key F.FnMut K.eq)) g results h
        → ReturnsOn I.next_gives (by_key F.FnMut K.eq) s f done results h }
{}

/// A grouping that has nothing ahead, and returned no `Err`, has taken everything that its source
/// gave, and has returned the runs of that.
pub fn whole_reading_gives_the_division<I: Iterator, K: PartialEq, F: FnMut(&I::Item) -> K>()
    ensures { (s : I) (f : F) (rs : List (List I.Item)) (g : Grouping I K I.Item F)
        → HasRead I.next_gives (by_key F.FnMut K.eq) s f rs g → IsOver g
        → (ps : List (I.Item × K)) × Drains I.next_gives s (items_of ps)
        × CallsEachAt F.FnMut f ps g.closure × DividesByKey K.eq ps rs }
{}

/// A grouping may be stopped at any moment: whatever items come after those that it has taken, and
/// whatever keys they have, the runs that it has returned are the first runs of all items.
pub fn stopped_grouping_has_the_first_runs<I: Iterator, K: PartialEq, F: FnMut(&I::Item) -> K>()
    ensures { (s : I) (f : F) (rs : List (List I.Item)) (g : Grouping I K I.Item F)
        (read : HasRead I.next_gives (by_key F.FnMut K.eq) s f rs g)
        (more : List (I.Item × K)) (all : List (List I.Item)) → (IsOver g → more ≡ [])
        → DividesByKey K.eq (read.drawn ++ more) all
        → (rest : List (List I.Item)) × (all ≡ rs ++ rest) }
{}

/// Items with keys have exactly one division by their keys. One after another its runs are the
/// items, and no run is empty.
pub fn runs_make_the_whole<T, K>()
    ensures exists { (eq : K → K → Bool) (ps : List (T × K))
        → (rs : List (List T)) × DividesByKey eq ps rs }
    ensures unique { (eq : K → K → Bool) (ps : List (T × K)) (rs others : List (List T))
        → DividesByKey eq ps rs → DividesByKey eq ps others → rs ≡ others }
    ensures whole { (eq : K → K → Bool) (ps : List (T × K)) (rs : List (List T))
        → DividesByKey eq ps rs → concat rs ≡ items_of ps }
    ensures some { (eq : K → K → Bool) (ps : List (T × K)) (rs : List (List T))
        → DividesByKey eq ps rs → AllByRecursion (λ r. r ≢ []) rs }
{
    laws::has_one_division::<(T, K)>();
}

/// If the closure acts as a function, the runs are those of the items by the function's values.
pub fn runs_by_a_function<T, K, F: FnMut(&T) -> K>(f: &F)
    ensures { (eq : K → K → Bool) (h : T → K) (ps : List (T × K)) (rs : List (List T)) (g : F)
        → ActsAsAt F.FnMut f.now h → CallsEachAt F.FnMut f.now ps g → DividesByKey eq ps rs
        → IsDivision (by_first (λ x y. eq (h x) (h y))) (items_of ps) rs }
{}

/// Runs by the keys that a function gives are the division of the items by these keys, where each
/// key is compared with the key of its run's first item. Callers of `group_by` that know the
/// former, by `IsDividedBy`, call this law for what a division says about its parts.
pub fn runs_by_keys_are_the_division<T, K>()
    ensures { (eq : K → K → Bool) (h : T → K) (xs : List T) (rs : List (List T))
        → IsDividedBy h eq xs rs → IsDivision (by_first (λ x y. eq (h x) (h y))) xs rs }
{}
