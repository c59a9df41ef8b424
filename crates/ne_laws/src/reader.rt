//! The first runs of a non-empty iterator, and the reader after them.
ghost use Rattle.std.specs.Prelude.{◌≡◌, ◌<◌, ◌≤◌, IfOk, length};
ghost use Rattle.std.specs.Iterator.{IsFiniteIterable, CallableOnAllAt};
ghost use Rattle.nonempty_collections.specs.GroupBy.{by_key};
ghost use Rattle.nonempty_collections.specs.GroupingRuns.{HasRead, IsOver, IsUnread};

use nonempty_collections::iter::GroupBy;
use nonempty_collections::laws::groupings_stand_at_any_moment;
use nonempty_collections::{NEVec, NonEmptyIterator};
use std::alloc::{AllocError, Global};

/// Returns the first `k` runs of `iter` by the keys that `key` returns, and the reader, which
/// yields the runs that follow. If there are fewer runs, all of them are returned, and the reader
/// returns `None` from then on.
///
/// The runs are those of [`group_by`](NonEmptyIterator::group_by): an item continues a run if its
/// key equals that of the run's first item. `key` is called once for each item that is drawn, in
/// order. At most one item beyond the runs is drawn, and the reader holds it. If `k` is 0, nothing
/// is drawn and `key` is not called.
///
/// Returns `AllocError` if an allocation for a run or for the list of the runs fails. All that was
/// drawn is then dropped, and so are the source and `key`.
///
/// For 5, 5, 6 and 6, each its own key, and `k` 1, it returns the run `[5, 5]`. `key` was then
/// called three times, the reader holds one 6, and the other 6 was not drawn.
///
/// ```
/// let items = nev![alloc; 50u32, 50, 60, 60]?.into_nonempty_iter();
/// let (runs, mut reader) = take_runs(alloc, items, |item| *item / 10, 1)?; // [[50, 50]]
/// let next = reader.next(); // Some(Ok([60, 60]))
/// ```
pub fn take_runs<I: NonEmptyIterator, K: PartialEq + Drop, F: FnMut(&I::Item) -> K + Drop>(
    alloc: Global,
    iter: I,
    key: F,
    k: usize,
) -> Result<(Vec<NEVec<I::Item>>, GroupBy<I::IntoIter, K, I::Item, F>), AllocError>
where
    I::Item: Drop,
    requires ends { IsFiniteIterable I.into_iter_gives I.IntoIter.can_next
        I.IntoIter.remaining iter }
    requires callable { (it : I.IntoIter) → I.into_iter_gives iter it
        → CallableOnAllAt I.IntoIter.next_gives F.FnMut it key }
    // The reader began with what the source becomes, and with this closure, and gave these runs.
    ensures reads { IfOk result (λ taken. (it : I.IntoIter) × I.into_iter_gives iter it
        × HasRead I.IntoIter.next_gives (by_key F.FnMut K.eq) it key taken.0.items taken.1) }
    ensures count { IfOk result (λ taken. length taken.0.items ≤ k) }
    ensures fewer { IfOk result (λ taken. length taken.0.items < k → IsOver taken.1) }
    ensures unread { IfOk result (λ taken. k ≡ 0 → IsUnread taken.1) }
{
    groupings_stand_at_any_moment::<I::IntoIter, K, F>();
    let mut reader = iter.group_by(alloc, key).into_iter();
    let mut runs = Vec::new(alloc);
    while runs.len() < k {
        let Some(run) = reader.next() else {
            return Ok((runs, reader));
        };
        runs.push(run?)?;
    }
    Ok((runs, reader))
}
