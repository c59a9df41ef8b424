//! A list of calls on a map, made one after another.
ghost use Rattle.std.specs.Prelude.{◌≡◌, length, IfOk, OnErr};
ghost use Rattle.ne_laws.specs.Calls.{RunsPrefix, RunsTo};
ghost use Rattle.ne_laws.specs.MapCalls.{MapReplies};
ghost use Rattle.ne_laws.specs.Maps.{IsNonEmptyMap};

use crate::maps::NonEmptyMap;
use std::alloc::{AllocError, Global};
use std::num::NonZeroUsize;

/// A call on a map.
#[derive(Drop)]
pub enum MapCall<K, V> {
    /// Inserts the value at the key, by [`NonEmptyMap::put`].
    Insert(K, V),
    /// Changes the value of the key if the key is there, by [`NonEmptyMap::set`].
    Write(K, V),
    /// Removes the key unless it is the only one, by [`NonEmptyMap::take`].
    Remove(K),
    /// Returns whether the key is there, by [`NonEmptyMap::has`].
    Has(K),
    /// Returns the number of keys, by [`NonEmptyMap::size`].
    Len,
}

/// The reply to a call on a map.
#[derive(Debug, Drop)]
pub enum MapReply<V> {
    /// The reply to `Insert` and `Write`: the old value of the key, or `None` if it was not there.
    /// The reply to `Remove`: the value that was taken, or `None` if the key was not there or is
    /// the only one, which stays.
    Old(Option<V>),
    /// Whether the key is there.
    Has(bool),
    /// The number of keys.
    Len(NonZeroUsize),
}

/// Makes the calls in order, and returns a reply for each. The map has a key before and after each
/// call, whatever the calls are.
///
/// Returns `AllocError` if an allocation for a key or for the replies fails. Only the first calls
/// were then made; the other calls and the replies are dropped.
///
/// On `{1: 'a'}`, the calls `Insert(2, 'b')`, `Write(1, 'c')` and `Write(3, 'z')` have the replies
/// `Old(None)`, `Old(Some('a'))` and `Old(None)`, and leave `{1: 'c', 2: 'b'}`.
///
/// ```
/// let mut m = nebtm![alloc; 0 => 5, 2 => 1, 4 => 3]?;
/// let calls = vec![in alloc; MapCall::Insert(2, 7), MapCall::Write(8, 8), MapCall::Has(0),
///     MapCall::Len]?;
/// let replies = run_map(alloc, &mut m, calls)?;
/// // Old(Some(1)), Old(None), Has(true) and Len(3), and m is {0: 5, 2: 7, 4: 3}
/// ```
pub fn run_map<K: Eq + Drop, V: Drop, M: NonEmptyMap<K, V>>(
    alloc: Global,
    m: &mut M,
    calls: Vec<MapCall<K, V>>,
) -> Result<Vec<MapReply<V>>, AllocError>
    ensures run { IfOk result (λ replies. RunsTo (IsNonEmptyMap K.eq) (MapReplies K.eq)
        (M.entries m.old) calls.items replies.items (M.entries m.new)) }
    ensures refused { OnErr result (RunsPrefix (IsNonEmptyMap K.eq) (MapReplies K.eq)
        (M.entries m.old) calls.items (M.entries m.new)) }
    ensures one_each { IfOk result (λ replies. length replies.items ≡ length calls.items) }
    ensures map { IsNonEmptyMap K.eq (M.entries m.new) }
{
    // The contract of `size` says that there is a key.
    let _size = m.size();
    let mut replies = Vec::new(alloc);
    for call in calls {
        let reply = reply_to(m, call)?;
        replies.push(reply)?;
    }
    Ok(replies)
}

// Makes one call.
fn reply_to<K: Eq + Drop, V: Drop, M: NonEmptyMap<K, V>>(
    m: &mut M,
    call: MapCall<K, V>,
) -> Result<MapReply<V>, AllocError>
    requires { IsNonEmptyMap K.eq (M.entries m.old) }
    ensures step { IfOk result (λ reply. MapReplies K.eq (M.entries m.old) call reply
        (M.entries m.new)) }
    ensures unchanged { OnErr result (M.entries m.new ≡ M.entries m.old) }
    ensures map { IsNonEmptyMap K.eq (M.entries m.new) }
{
    match call {
        MapCall::Insert(k, v) => Ok(MapReply::Old(m.put(k, v)?)),
        MapCall::Write(k, v) => Ok(MapReply::Old(m.set(&k, v))),
        MapCall::Remove(k) => Ok(MapReply::Old(m.take(&k))),
        MapCall::Has(k) => Ok(MapReply::Has(m.has(&k))),
        MapCall::Len => Ok(MapReply::Len(m.size())),
    }
}
