//! Functions that a user writes first over a queue.
ghost use Rattle.std.specs.Prelude.{◌≡◌, ◌-◌, ◌/◌, ◌<◌, ◌≤◌, ◌==◌, ◌%◌, List, [], ◌∷◌, ◌++◌};
ghost use Rattle.std.specs.Prelude.{All, Contains, IfOk, IfSome, MatchBool, MatchOption, OnOk};
ghost use Rattle.std.specs.Prelude.{Some, drop, false, filter, ltb, true};
ghost use Rattle.std.specs.Prelude.{◌↔◌, IsPermutation, IsSorted, IsTrue, length, map, reverse};
ghost use Rattle.std.specs.Prelude.{slice_get, slice_set};
ghost use Rattle.std.specs.List.{enumerate_from};
ghost use Rattle.std.specs.List.Sorted.{IsBinarySearchResult, IsPartitionPoint, IsPartitionedBy};
ghost use Rattle.std.specs.List.Sorted.{IsSearchInRange};
ghost use Rattle.std.specs.NonZero.{non_zero_usize_get};
ghost use Rattle.std.specs.Ordering.{nat_cmp};

use ne_deque::NEVecDeque;
use ne_iter::{IntoNonEmptyIterator, NonEmptyIterator};
use ne_vec::NEVec;
use std::alloc::{AllocError, Global};
use std::mem;
use std::num::NonZeroUsize;

/// One turn of a round robin: the first job goes to the back, and is returned to be run.
pub fn next_job(jobs: &mut NEVecDeque<u32>) -> u32
    ensures first { slice_get jobs.old 0 ≡ Some result }
    ensures turned { jobs.new ≡ drop 1 jobs.old ++ result ∷ [] }
{
    let job = *jobs.front();
    jobs.rotate_left(1);
    job
}

/// The same of jobs of any type, by two moves: the job that is taken is put at the back. The queue
/// is unchanged if there is one job only.
pub fn turn<T: Drop>(jobs: &mut NEVecDeque<T>) -> Result<(), AllocError>
    ensures { OnOk result ((x : T) (rest : List T) → jobs.old ≡ x ∷ rest
        → jobs.new ≡ rest ++ x ∷ []) }
{
    if let Some(job) = jobs.pop_front() {
        jobs.push_back(job)?;
    }
    Ok(())
}

/// Takes the first job if its time has come, and leaves the last one.
pub fn due(jobs: &mut NEVecDeque<u32>, now: u32) -> Option<u32>
    ensures { MatchOption result (jobs.new ≡ jobs.old)
        (λ job. (jobs.old ≡ job ∷ jobs.new) × (job ≤ now)) }
{
    if *jobs.front() <= now {
        jobs.pop_front()
    } else {
        None
    }
}

/// Takes the first job if its time has come, by the call for that.
pub fn next_due(jobs: &mut NEVecDeque<u32>, now: u32) -> Option<u32>
    ensures { MatchOption result (jobs.new ≡ jobs.old)
        (λ job. (jobs.old ≡ job ∷ jobs.new) × (job ≤ now)) }
{
    jobs.pop_front_if(|job| *job <= now)
}

/// Takes the last job if its time has come.
pub fn last_due(jobs: &mut NEVecDeque<u32>, now: u32) -> Option<u32>
    ensures { MatchOption result (jobs.new ≡ jobs.old)
        (λ job. (jobs.old ≡ jobs.new ++ job ∷ []) × (job ≤ now)) }
{
    jobs.pop_back_if(|job| *job <= now)
}

/// Takes the first job if it goes into 100 more than three times. No job may be 0.
pub fn small_first(jobs: &mut NEVecDeque<u32>) -> Option<u32>
    requires { All (λ x. 0 < x) jobs.old }
    ensures { MatchOption result (jobs.new ≡ jobs.old)
        (λ job. (jobs.old ≡ job ∷ jobs.new) × (3 < 100 / job)) }
{
    jobs.pop_front_if(|job| 100 / *job > 3)
}

/// Takes the last job if it goes into 100 more than three times. No job may be 0.
pub fn small_last(jobs: &mut NEVecDeque<u32>) -> Option<u32>
    requires { All (λ x. 0 < x) jobs.old }
    ensures { MatchOption result (jobs.new ≡ jobs.old)
        (λ job. (jobs.old ≡ jobs.new ++ job ∷ []) × (3 < 100 / job)) }
{
    jobs.pop_back_if(|job| 100 / *job > 3)
}

/// Searches a quotient. No item may be 0.
pub fn place_of_quotient(items: &NEVecDeque<u32>, wanted: u32) -> Result<usize, usize>
    requires { All (λ x. 0 < x) items.now }
    ensures bound { IsSearchInRange result (length items.now) }
    ensures place { IsBinarySearchResult (λ k. nat_cmp k wanted) (map (λ x. 1000 / x) items.now)
        result }
{
    items.binary_search_by_key(&wanted, |x| 1000 / *x)
}

/// Searches a quotient by a comparison.
pub fn place_by_quotient(items: &NEVecDeque<u32>, wanted: u32) -> Result<usize, usize>
    requires { All (λ x. 0 < x) items.now }
    ensures bound { IsSearchInRange result (length items.now) }
    ensures place { IsBinarySearchResult (λ x. nat_cmp (1000 / x) wanted) items.now result }
{
    items.binary_search_by(|x| (1000 / *x).cmp(&wanted))
}

/// Returns how many items go into `n` more than three times, if these come first.
pub fn large_quotients(items: &NEVecDeque<u32>, n: u32) -> usize
    requires { All (λ x. 0 < x) items.now }
    ensures bound { result ≤ length items.now }
    ensures point { IsPartitionedBy (λ x. ltb 3 (n / x)) items.now → IsPartitionPoint
        (λ x. ltb 3 (n / x) ≡ true) (λ x. ltb 3 (n / x) ≡ false) items.now result }
{
    items.partition_point(|x| n / *x > 3)
}

/// The last `n` numbers that were seen: the oldest goes when there are too many.
pub fn remember(seen: &mut NEVecDeque<u32>, x: u32, n: NonZeroUsize) -> Result<(), AllocError>
    requires { length seen.old ≤ non_zero_usize_get n }
    ensures { OnOk result (MatchBool (length seen.old == non_zero_usize_get n)
        (seen.new ≡ drop 1 seen.old ++ x ∷ []) (seen.new ≡ seen.old ++ x ∷ [])) }
{
    seen.push_back(x)?;
    if seen.len() > n {
        drop(seen.pop_front());
    }
    Ok(())
}

/// Adds the jobs of a vector at the back.
pub fn add_all(jobs: &mut NEVecDeque<u32>, more: NEVec<u32>) -> Result<(), AllocError>
    ensures { OnOk result (jobs.new ≡ jobs.old ++ more) }
{
    jobs.extend(more)
}

/// Keeps the items below 10, or returns `None` if there is none.
pub fn small(items: NEVecDeque<u32>) -> Option<NEVecDeque<u32>>
    ensures { MatchOption result (filter (λ x. ltb x 10) items ≡ [])
        (λ q. q ≡ filter (λ x. ltb x 10) items) }
{
    items.retain(|x| *x < 10).ok()
}

/// Returns the even ones of the halves, or `None` if none is even.
pub fn even_halves(items: NEVecDeque<u32>) -> Option<NEVecDeque<u32>>
    ensures { IfSome result (λ q. q ≡ map (λ x. x / 2) (filter (λ x. x / 2 % 2 == 0) items)) }
{
    let kept = items.retain_mut(|x| {
        *x /= 2;
        *x % 2 == 0
    });
    kept.ok()
}

/// Puts a job at a place, and returns the one that was there, if there is such a place.
pub fn replace_at(jobs: &mut NEVecDeque<u32>, place: usize, job: u32) -> Option<u32>
    ensures { MatchOption result (jobs.new ≡ jobs.old) (λ was.
        (slice_get jobs.old place ≡ Some was) × (jobs.new ≡ slice_set jobs.old place job)) }
{
    let found = jobs.get_mut(place)?;
    Some(mem::replace(found, job))
}

/// The greatest half.
pub fn greatest_half(items: &NEVecDeque<u32>) -> u32
    ensures among { Contains (map (λ x. x / 2) items.now) result }
    ensures bound { All (λ x. x ≤ result) (map (λ x. x / 2) items.now) }
{
    items.nonempty_iter().map(|x| *x / 2).max()
}

/// The halves, in a vector.
pub fn halves(alloc: Global, items: &NEVecDeque<u32>) -> Result<NEVec<u32>, AllocError>
    ensures { IfOk result (λ v. v ≡ map (λ x. x / 2) items.now) }
{
    items.nonempty_iter().map(|x| *x / 2).collect(alloc)
}

/// The halves, in a queue, by value.
pub fn halved(alloc: Global, items: NEVecDeque<u32>) -> Result<NEVecDeque<u32>, AllocError>
    ensures { IfOk result (λ q. q ≡ map (λ x. x / 2) items) }
{
    items.into_nonempty_iter().map(|x| x / 2).collect(alloc)
}

/// The items from back to front.
pub fn reversed(alloc: Global, items: &NEVecDeque<u32>) -> Result<Vec<u32>, AllocError>
    ensures { IfOk result (λ v. v.items ≡ reverse items.now) }
{
    items.iter().rev().copied().collect(alloc)
}

/// The items with their places.
pub fn numbered(alloc: Global, items: &NEVecDeque<u32>) -> Result<NEVec<(usize, u32)>, AllocError>
    ensures { IfOk result (λ v. v ≡ enumerate_from 0 items.now) }
{
    items.nonempty_iter().copied().enumerate().collect(alloc)
}

/// The jobs of both queues, those of the first before those of the second.
pub fn joined(
    alloc: Global,
    first: &NEVecDeque<u32>,
    second: &NEVecDeque<u32>,
) -> Result<NEVecDeque<u32>, AllocError>
    ensures { IfOk result (λ q. q ≡ first.now ++ second.now) }
{
    first
        .nonempty_iter()
        .chain(second.nonempty_iter())
        .copied()
        .collect(alloc)
}

/// The jobs in ascending order.
pub fn sorted(jobs: NEVecDeque<u32>) -> NEVecDeque<u32>
    ensures same { IsPermutation jobs result }
    ensures ascending { IsSorted nat_cmp result }
{
    let mut jobs = jobs;
    jobs.make_contiguous().sort_unstable();
    jobs
}

/// Whether two queues have the same jobs.
pub fn same(a: &NEVecDeque<u32>, b: &NEVecDeque<u32>) -> bool
    ensures { IsTrue result ↔ (a.now ≡ b.now) }
{
    a == b
}
