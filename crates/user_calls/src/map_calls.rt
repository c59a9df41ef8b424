//! Lists of calls on maps: on each of the library's, on a user's own, and on any map. No function
//! here has a proof file, and one calls a law.
ghost use Rattle.std.specs.Prelude.{◌≡◌, ◌≢◌, ◌<◌, [], ◌∷◌, true, false, None, Some};
ghost use Rattle.std.specs.Prelude.{is_some, length, nat_eq, IfOk, OnOk};
ghost use Rattle.std.specs.BTreeMap.{get as get_ordered};
ghost use Rattle.std.specs.HashMap.{get};
ghost use Rattle.std.specs.Map.{lookup};
ghost use Rattle.std.specs.Ordering.{nat_cmp};

use crate::own_maps::PairMap;
use ne_laws::map_calls::{MapCall, MapReply, run_map};
use ne_laws::maps::{NonEmptyMap, tree_maps_are_read_alike};
use nonempty_collections::{NEBTreeMap, NEMap};
use std::alloc::{AllocError, Global};

/// Whatever the calls are, each has a reply, and the map has a key.
pub fn any_calls<M: NonEmptyMap<u32, u32>>(
    alloc: Global,
    m: &mut M,
    calls: Vec<MapCall<u32, u32>>,
) -> Result<usize, AllocError>
    ensures count { IfOk result (λ count. count ≡ length calls.items) }
    ensures some { 0 < length (M.entries m.new) }
{
    Ok(run_map(alloc, m, calls)?.len())
}

/// A key that is inserted is there, and its old value is returned.
pub fn put_and_ask(
    alloc: Global,
    m: &mut NEMap<u32, u32>,
    k: u32,
    v: u32,
) -> Result<Vec<MapReply<u32>>, AllocError>
    ensures replies { IfOk result (λ replies. replies.items
        ≡ MapReply.Old (get nat_eq m.old k) ∷ MapReply.Has true ∷ []) }
    ensures value { OnOk result (get nat_eq m.new k ≡ Some v) }
{
    let calls = vec![in alloc; MapCall::Insert(k, v), MapCall::Has(k)]?;
    run_map(alloc, m, calls)
}

/// A key that is not there is not written, and is still not there afterwards.
pub fn write_and_ask(
    alloc: Global,
    m: &mut NEBTreeMap<u32, u32>,
    k: u32,
    v: u32,
) -> Result<Vec<MapReply<u32>>, AllocError>
    requires { lookup (nat_eq k) m.old.entries ≡ None }
    ensures replies { IfOk result (λ replies. replies.items
        ≡ MapReply.Old None ∷ MapReply.Has false ∷ []) }
    ensures same { OnOk result (m.new.entries ≡ m.old.entries) }
{
    let calls = vec![in alloc; MapCall::Write(k, v), MapCall::Has(k)]?;
    run_map(alloc, m, calls)
}

/// The same as [`put_and_ask`] on a tree map, in terms of the order of its keys. A law connects
/// these terms with those of the calls.
pub fn put_and_ask_in_order(
    alloc: Global,
    m: &mut NEBTreeMap<u32, u32>,
    k: u32,
    v: u32,
) -> Result<Vec<MapReply<u32>>, AllocError>
    ensures replies { IfOk result (λ replies. replies.items
        ≡ MapReply.Old (get_ordered nat_cmp m.old k) ∷ MapReply.Has true ∷ []) }
    ensures value { OnOk result (get_ordered nat_cmp m.new k ≡ Some v) }
{
    tree_maps_are_read_alike::<u32, u32>();
    let calls = vec![in alloc; MapCall::Insert(k, v), MapCall::Has(k)]?;
    run_map(alloc, m, calls)
}

/// Two calls remove the keys of a map of two: the second one removes nothing.
pub fn remove_both(
    alloc: Global,
    m: &mut PairMap<u32, u32>,
    k: u32,
    other: u32,
) -> Result<Vec<MapReply<u32>>, AllocError>
    requires apart { k ≢ other }
    requires two { length m.old ≡ 2 }
    requires there { is_some (lookup (nat_eq k) m.old) ≡ true }
    ensures replies { IfOk result (λ replies. replies.items
        ≡ MapReply.Old (lookup (nat_eq k) m.old) ∷ MapReply.Old None ∷ []) }
    ensures stays { OnOk result (lookup (nat_eq other) m.new ≡ lookup (nat_eq other) m.old) }
    ensures len { OnOk result (length m.new ≡ 1) }
{
    let calls = vec![in alloc; MapCall::Remove(k), MapCall::Remove(other)]?;
    run_map(alloc, m, calls)
}
