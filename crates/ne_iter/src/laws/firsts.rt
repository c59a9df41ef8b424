//! Laws about the first items of lists, for proofs that go from what was read so far to a list
//! function. `IsPrefix whole xs us` says that `us` are the first items of `xs`, and all of them if
//! `whole` is true. `ReadsList` says this of each list that is read.
ghost use Rattle.std.specs.Prelude.{◌≡◌, ◌≤◌, ◌++◌, ◌||◌, ◌&&◌, ℕ, Bool, true, List, length, ltb};
ghost use Rattle.std.specs.Prelude.{map, take};
ghost use Rattle.std.specs.List.{enumerate_from};
ghost use Rattle.ne_vec.specs.Lists.{IsPrefix};

/// What a list function makes of the first items of a list are the first items of what it makes of
/// the list. If the first items are all items, they are the list.
pub fn first_items_stay_first<A, B>()
    ensures all { (xs us : List A) → IsPrefix true xs us → us ≡ xs }
    ensures mapped { (h : A → B) (whole : Bool) (xs us : List A) → IsPrefix whole xs us
        → IsPrefix whole (map h xs) (map h us) }
    ensures numbered { (whole : Bool) (xs us : List A) → IsPrefix whole xs us
        → IsPrefix whole (enumerate_from 0 xs) (enumerate_from 0 us) }
    ensures taken { (n : ℕ) (whole : Bool) (xs us : List A) → length us ≤ n
        → IsPrefix (whole && ltb (length us) n) xs us → IsPrefix whole (take n xs) us }
    ensures joined { (whole : Bool) (xs ys us vs : List A)
        → IsPrefix (whole || ltb 0 (length vs)) xs us → IsPrefix whole ys vs
        → IsPrefix whole (xs ++ ys) (us ++ vs) }
{}
