//! A list of calls on a vector, made one after another.
ghost use Rattle.std.specs.Prelude.{◌≡◌, ◌<◌, length, IfOk, OnErr};
ghost use Rattle.ne_laws.specs.Calls.{RunsPrefix, RunsTo};
ghost use Rattle.ne_laws.specs.VectorCalls.{HasItem, VectorReplies};

use nonempty_collections::NEVec;
use std::alloc::{AllocError, Global};
use std::num::NonZeroUsize;

/// A call on a vector. Each variant has the name of the method that it calls.
#[derive(Drop)]
pub enum VecCall<T> {
    /// [`NEVec::push`].
    Push(T),
    /// [`NEVec::pop`].
    Pop,
    /// [`NEVec::remove`] at an index.
    Remove(usize),
    /// [`NEVec::swap_remove`] at an index.
    SwapRemove(usize),
    /// [`NEVec::insert`] at an index.
    Insert(usize, T),
    /// [`NEVec::swap`] at two indices.
    Swap(usize, usize),
    /// [`NEVec::append`] of all items of a `Vec`.
    Append(Vec<T>),
    /// [`NEVec::truncate`] to a length.
    Truncate(NonZeroUsize),
    /// [`NEVec::split_off`] after the first items, so many.
    SplitOff(NonZeroUsize),
    /// [`NEVec::reverse`].
    Reverse,
    /// [`NEVec::len`].
    Len,
}

/// The reply to a call on a vector.
#[derive(Debug, Drop)]
pub enum VecReply<T> {
    /// The reply to `Push`, `Insert`, `Swap`, `Append`, `Truncate` and `Reverse`: the call was
    /// made.
    Done,
    /// The item that was taken out, or `None` if it is the only one, which stays.
    Taken(Option<T>),
    /// The reply to `SplitOff`: the items after those that stay, in order.
    Split(Vec<T>),
    /// The number of items.
    Len(NonZeroUsize),
    /// The index is out of range, and nothing was changed: `Remove` and `SwapRemove` at the length
    /// or beyond, unless the vector has one item; `Swap` at the length or beyond; `Insert` and
    /// `SplitOff` beyond the length.
    Refused,
}

/// Makes the calls in order, and returns a reply for each. The vector has an item before and after
/// each call, whatever the calls are.
///
/// Returns `AllocError` if an allocation for an item or for the replies fails. Only the first calls
/// were then made; the other calls and the replies are dropped.
///
/// On `[1]`, the calls `Pop`, `Push(2)` and `Remove(0)` have the replies `Taken(None)`, `Done` and
/// `Taken(Some(1))`, and leave `[2]`.
///
/// ```
/// let mut v = NEVec::new(alloc, 1u32)?;
/// let calls = vec![in alloc; VecCall::Push(2), VecCall::Insert(2, 3), VecCall::Pop,
///     VecCall::Len, VecCall::SwapRemove(5)]?;
/// let replies = run_vec(alloc, &mut v, calls)?;
/// // Done, Done, Taken(Some(3)), Len(2) and Refused, and v is [1, 2]
/// ```
pub fn run_vec<T: Drop>(
    alloc: Global,
    v: &mut NEVec<T>,
    calls: Vec<VecCall<T>>,
) -> Result<Vec<VecReply<T>>, AllocError>
    ensures run { IfOk result (λ replies. RunsTo HasItem VectorReplies v.old calls.items
        replies.items v.new) }
    ensures refused { OnErr result (RunsPrefix HasItem VectorReplies v.old calls.items v.new) }
    ensures one_each { IfOk result (λ replies. length replies.items ≡ length calls.items) }
    ensures nonempty { 0 < length v.new }
{
    // The contract of `is_empty` says that there is an item.
    let _before = v.is_empty();
    let mut replies = Vec::new(alloc);
    for call in calls {
        let reply = reply_to(v, call)?;
        let _after = v.is_empty();
        replies.push(reply)?;
    }
    Ok(replies)
}

// Makes one call.
fn reply_to<T: Drop>(v: &mut NEVec<T>, call: VecCall<T>) -> Result<VecReply<T>, AllocError>
    ensures step { IfOk result (λ reply. VectorReplies v.old call reply v.new) }
    ensures unchanged { OnErr result (v.new ≡ v.old) }
{
    let len = v.len().get();
    match call {
        VecCall::Push(x) => v.push(x)?,
        VecCall::Pop => return Ok(VecReply::Taken(v.pop())),
        VecCall::Remove(i) if len == 1 || i < len => return Ok(VecReply::Taken(v.remove(i))),
        VecCall::SwapRemove(i) if len == 1 || i < len => {
            return Ok(VecReply::Taken(v.swap_remove(i)));
        }
        VecCall::Insert(i, x) if i <= len => v.insert(i, x)?,
        VecCall::Swap(i, j) if i < len && j < len => v.swap(i, j),
        VecCall::Append(mut items) => v.append(&mut items)?,
        VecCall::Truncate(n) => v.truncate(n),
        VecCall::SplitOff(n) if n.get() <= len => return Ok(VecReply::Split(v.split_off(n)?)),
        VecCall::Reverse => v.reverse(),
        VecCall::Len => return Ok(VecReply::Len(v.len())),
        _ => return Ok(VecReply::Refused),
    }
    Ok(VecReply::Done)
}
