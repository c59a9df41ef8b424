//! Lists of calls on vectors. No function here has a proof file or calls a law.
ghost use Rattle.std.specs.Prelude.{◌≡◌, ◌<◌, ◌≤◌, ◌++◌, ℕ, [], ◌∷◌, Some, length, reverse};
ghost use Rattle.std.specs.Prelude.{drop, swap, take, IfOk, OnOk};
ghost use Rattle.std.specs.Global.{Vec};
ghost use Rattle.std.specs.Int.NonZero.{non_zero_usize_get};

use ne_laws::vector_calls::{VecCall, VecReply, run_vec};
use nonempty_collections::NEVec;
use std::alloc::{AllocError, Global};
use std::num::NonZeroUsize;

/// Whatever the calls are, each has a reply, and the vector has an item.
pub fn any_calls_on_a_vector(
    alloc: Global,
    v: &mut NEVec<u32>,
    calls: Vec<VecCall<u32>>,
) -> Result<usize, AllocError>
    ensures count { IfOk result (λ count. count ≡ length calls.items) }
    ensures some { 0 < length v.new }
{
    Ok(run_vec(alloc, v, calls)?.len())
}

/// The item that is pushed is popped again, and the vector is as it was.
pub fn push_and_pop(
    alloc: Global,
    v: &mut NEVec<u32>,
    x: u32,
) -> Result<Vec<VecReply<u32>>, AllocError>
    ensures replies { IfOk result (λ replies. replies.items
        ≡ VecReply.Done ∷ VecReply.Taken (Some x) ∷ []) }
    ensures same { OnOk result (v.new ≡ v.old) }
{
    run_vec(alloc, v, vec![in alloc; VecCall::Push(x), VecCall::Pop]?)
}

/// An item is pushed, and of all items the first `n` are kept.
pub fn push_and_truncate(
    alloc: Global,
    v: &mut NEVec<u32>,
    x: u32,
    n: NonZeroUsize,
) -> Result<Vec<VecReply<u32>>, AllocError>
    ensures items { OnOk result (v.new ≡ take (non_zero_usize_get n) (v.old ++ x ∷ [])) }
{
    run_vec(
        alloc,
        v,
        vec![in alloc; VecCall::Push(x), VecCall::Truncate(n)]?,
    )
}

/// The items at two indices change places, and then the order is reversed.
pub fn swap_and_reverse(
    alloc: Global,
    v: &mut NEVec<u32>,
    i: usize,
    j: usize,
) -> Result<Vec<VecReply<u32>>, AllocError>
    requires i_within { i < length v.old }
    requires j_within { j < length v.old }
    ensures replies { IfOk result (λ replies. replies.items
        ≡ VecReply.Done ∷ VecReply.Done ∷ []) }
    ensures items { OnOk result (v.new ≡ reverse (swap v.old i j)) }
{
    run_vec(
        alloc,
        v,
        vec![in alloc; VecCall::Swap(i, j), VecCall::Reverse]?,
    )
}

/// An index out of range is refused, and nothing changes.
pub fn swap_out_of_range(
    alloc: Global,
    v: &mut NEVec<u32>,
    i: usize,
    j: usize,
) -> Result<Vec<VecReply<u32>>, AllocError>
    requires { length v.old ≤ j }
    ensures replies { IfOk result (λ replies. replies.items ≡ VecReply.Refused ∷ []) }
    ensures same { OnOk result (v.new ≡ v.old) }
{
    run_vec(alloc, v, vec![in alloc; VecCall::Swap(i, j)]?)
}

/// The first items stay, and the others are in the reply.
pub fn split(
    alloc: Global,
    v: &mut NEVec<u32>,
    n: NonZeroUsize,
) -> Result<Vec<VecReply<u32>>, AllocError>
    requires { non_zero_usize_get n ≤ length v.old }
    ensures rest { IfOk result (λ replies. (rest : Vec ℕ)
        → replies.items ≡ VecReply.Split rest ∷ []
        → rest.items ≡ drop (non_zero_usize_get n) v.old) }
    ensures items { OnOk result (v.new ≡ take (non_zero_usize_get n) v.old) }
{
    run_vec(alloc, v, vec![in alloc; VecCall::SplitOff(n)]?)
}

/// All items of a `Vec` are appended, and of all items the first `n` are kept.
pub fn append_and_truncate(
    alloc: Global,
    v: &mut NEVec<u32>,
    more: Vec<u32>,
    n: NonZeroUsize,
) -> Result<Vec<VecReply<u32>>, AllocError>
    ensures replies { IfOk result (λ replies. replies.items
        ≡ VecReply.Done ∷ VecReply.Done ∷ []) }
    ensures items { OnOk result (v.new
        ≡ take (non_zero_usize_get n) (v.old ++ more.items)) }
{
    run_vec(
        alloc,
        v,
        vec![in alloc; VecCall::Append(more), VecCall::Truncate(n)]?,
    )
}
