//! A list of calls on a set, made one after another.
ghost use Rattle.std.specs.Prelude.{◌≡◌, length, IfOk, OnErr};
ghost use Rattle.ne_laws.specs.Calls.{RunsPrefix, RunsTo};
ghost use Rattle.ne_laws.specs.SetCalls.{SetReplies};
ghost use Rattle.ne_laws.specs.Sets.{IsNonEmptySet};

use crate::sets::NonEmptySet;
use std::alloc::{AllocError, Global};
use std::num::NonZeroUsize;

/// A call on a set.
#[derive(Drop)]
pub enum SetCall<T> {
    /// Inserts the item unless an equal one is there, by [`NonEmptySet::add`].
    Insert(T),
    /// Removes the item unless it is the only one, by [`NonEmptySet::discard`].
    Remove(T),
    /// Inserts the item, in place of an equal one if there is one, by [`NonEmptySet::put`].
    Replace(T),
    /// Returns whether the item is there, by [`NonEmptySet::has`].
    Has(T),
    /// Returns the number of items, by [`NonEmptySet::size`].
    Len,
}

/// The reply to a call on a set.
#[derive(Debug, Drop)]
pub enum SetReply<T> {
    /// The reply to `Insert`: whether the item is new.
    Added(bool),
    /// The reply to `Remove`: `true` if the item was removed, `false` if it was not there or is the
    /// only one, which stays.
    Removed(bool),
    /// The reply to `Replace`: the old item, or `None` if no item was equal.
    Old(Option<T>),
    /// Whether the item is there.
    Has(bool),
    /// The number of items.
    Len(NonZeroUsize),
}

/// Makes the calls in order, and returns a reply for each. The set has an item before and after
/// each call, whatever the calls are.
///
/// Returns `AllocError` if an allocation for an item or for the replies fails. Only the first calls
/// were then made; the other calls and the replies are dropped.
///
/// On `{1}`, the calls `Remove(1)`, `Insert(2)` and `Remove(1)` have the replies `Removed(false)`,
/// `Added(true)` and `Removed(true)`, and leave `{2}`.
///
/// ```
/// let mut s = nebts![alloc; 0, 2, 4]?;
/// let calls = vec![in alloc; SetCall::Insert(2), SetCall::Remove(4), SetCall::Replace(0),
///     SetCall::Has(4), SetCall::Len]?;
/// let replies = run_set(alloc, &mut s, calls)?;
/// // Added(false), Removed(true), Old(Some(0)), Has(false) and Len(2), and s is {0, 2}
/// ```
pub fn run_set<T: Eq + Drop, S: NonEmptySet<T>>(
    alloc: Global,
    s: &mut S,
    calls: Vec<SetCall<T>>,
) -> Result<Vec<SetReply<T>>, AllocError>
    ensures run { IfOk result (λ replies. RunsTo (IsNonEmptySet T.eq) (SetReplies T.eq)
        (S.items s.old) calls.items replies.items (S.items s.new)) }
    ensures refused { OnErr result (RunsPrefix (IsNonEmptySet T.eq) (SetReplies T.eq)
        (S.items s.old) calls.items (S.items s.new)) }
    ensures one_each { IfOk result (λ replies. length replies.items ≡ length calls.items) }
    ensures set { IsNonEmptySet T.eq (S.items s.new) }
{
    // The contract of `size` says that there is an item.
    let _size = s.size();
    let mut replies = Vec::new(alloc);
    for call in calls {
        let reply = reply_to(s, call)?;
        replies.push(reply)?;
    }
    Ok(replies)
}

// Makes one call.
fn reply_to<T: Eq + Drop, S: NonEmptySet<T>>(
    s: &mut S,
    call: SetCall<T>,
) -> Result<SetReply<T>, AllocError>
    requires { IsNonEmptySet T.eq (S.items s.old) }
    ensures step { IfOk result (λ reply. SetReplies T.eq (S.items s.old) call reply
        (S.items s.new)) }
    ensures unchanged { OnErr result (S.items s.new ≡ S.items s.old) }
    ensures set { IsNonEmptySet T.eq (S.items s.new) }
{
    match call {
        SetCall::Insert(x) => Ok(SetReply::Added(s.add(x)?)),
        SetCall::Remove(x) => Ok(SetReply::Removed(s.discard(&x))),
        SetCall::Replace(x) => Ok(SetReply::Old(s.put(x)?)),
        SetCall::Has(x) => Ok(SetReply::Has(s.has(&x))),
        SetCall::Len => Ok(SetReply::Len(s.size())),
    }
}
