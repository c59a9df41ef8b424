//! Lists of calls on sets: on each of the library's, and on any set. No function here has a proof
//! file, and some call a law.
ghost use Rattle.std.specs.Prelude.{◌≡◌, ◌≢◌, ◌<◌, ℕ, [], ◌∷◌, true, false, not, Some, is_some};
ghost use Rattle.std.specs.Prelude.{length, nat_eq, IfOk, OnOk};
ghost use Rattle.std.specs.BTreeSet.{contains as contains_ordered};
ghost use Rattle.std.specs.BTreeSet.{btree_set_len};
ghost use Rattle.std.specs.HashSet.{contains, get, hash_set_len};
ghost use Rattle.std.specs.List.{find};
ghost use Rattle.std.specs.Ordering.{nat_cmp};

use ne_laws::set_calls::{SetCall, SetReply, run_set};
use ne_laws::sets::{NonEmptySet, members_are_found, tree_sets_are_read_alike};
use nonempty_collections::{NEBTreeSet, NEIndexSet, NESet};
use std::alloc::{AllocError, Global};

/// Whatever the calls are, each has a reply, and the set has an item.
pub fn any_calls_on_a_set<S: NonEmptySet<u32>>(
    alloc: Global,
    s: &mut S,
    calls: Vec<SetCall<u32>>,
) -> Result<usize, AllocError>
    ensures count { IfOk result (λ count. count ≡ length calls.items) }
    ensures some { 0 < length (S.items s.new) }
{
    Ok(run_set(alloc, s, calls)?.len())
}

/// An item that is inserted is there. It is new if and only if the set did not contain it.
pub fn add_and_ask(
    alloc: Global,
    s: &mut NESet<u32>,
    x: u32,
) -> Result<Vec<SetReply<u32>>, AllocError>
    ensures replies { IfOk result (λ replies. replies.items
        ≡ SetReply.Added (not (contains nat_eq s.old x)) ∷ SetReply.Has true ∷ []) }
    ensures there { OnOk result (contains nat_eq s.new x ≡ true) }
{
    members_are_found::<u32>();
    let calls = vec![in alloc; SetCall::Insert(x), SetCall::Has(x)]?;
    run_set(alloc, s, calls)
}

/// An item that is removed is not there afterwards, if there are others, which stay.
pub fn remove_and_ask_in_order(
    alloc: Global,
    s: &mut NEBTreeSet<u32>,
    x: u32,
) -> Result<Vec<SetReply<u32>>, AllocError>
    requires { 1 < btree_set_len s.old }
    ensures replies { IfOk result (λ replies. replies.items
        ≡ SetReply.Removed (contains_ordered nat_cmp s.old x) ∷ SetReply.Has false ∷ []) }
    ensures others { OnOk result ((q : ℕ) → q ≢ x
        → contains_ordered nat_cmp s.new q ≡ contains_ordered nat_cmp s.old q) }
{
    tree_sets_are_read_alike::<u32>();
    let calls = vec![in alloc; SetCall::Remove(x), SetCall::Has(x)]?;
    run_set(alloc, s, calls)
}

/// An item takes the place of an equal one, which is returned, and there are as many as before.
pub fn replace_there(
    alloc: Global,
    s: &mut NEIndexSet<u32>,
    x: u32,
) -> Result<Vec<SetReply<u32>>, AllocError>
    requires { is_some (get nat_eq s.old x) ≡ true }
    ensures replies { IfOk result (λ replies. replies.items
        ≡ SetReply.Old (get nat_eq s.old x) ∷ []) }
    ensures there { OnOk result (get nat_eq s.new x ≡ Some x) }
    ensures len { OnOk result (hash_set_len s.new ≡ hash_set_len s.old) }
{
    run_set(alloc, s, vec![in alloc; SetCall::Replace(x)]?)
}

/// Two calls remove different items from a set of two: the second one removes nothing.
pub fn remove_both_items<S: NonEmptySet<u32>>(
    alloc: Global,
    s: &mut S,
    x: u32,
    other: u32,
) -> Result<Vec<SetReply<u32>>, AllocError>
    requires apart { x ≢ other }
    requires two { length (S.items s.old) ≡ 2 }
    requires there { is_some (find (nat_eq x) (S.items s.old)) ≡ true }
    ensures replies { IfOk result (λ replies. replies.items
        ≡ SetReply.Removed true ∷ SetReply.Removed false ∷ []) }
    ensures stays { OnOk result (find (nat_eq other) (S.items s.new)
        ≡ find (nat_eq other) (S.items s.old)) }
    ensures len { OnOk result (length (S.items s.new) ≡ 1) }
{
    let calls = vec![in alloc; SetCall::Remove(x), SetCall::Remove(other)]?;
    run_set(alloc, s, calls)
}
