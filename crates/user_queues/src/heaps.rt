//! Functions over priority queues, as a user writes them.
ghost use Rattle.std.specs.Prelude.{◌≡◌, ℕ, ◌/◌, ◌∷◌, ◌≤◌, map, length, All, Contains};
ghost use Rattle.std.specs.Prelude.{[], IfOk, IfSome, MatchOption, filter, ltb};
ghost use Rattle.std.specs.BinaryHeap.{heap_items};
ghost use Rattle.std.specs.List.{sum_by};
ghost use Rattle.std.specs.List.Sorted.{IsPermutation, IsSorted};
ghost use Rattle.std.specs.Ordering.{nat_cmp};
ghost use Rattle.ne_vec.specs.Taken.{TakesUnlessLast};

use ne_heap::NEBinaryHeap;
use ne_iter::{IntoNonEmptyIterator, NonEmptyIterator};
use ne_vec::NEVec;
use std::alloc::{AllocError, Global};
use std::cmp::Reverse;
use std::collections::BinaryHeap;

/// A job that is due: the higher its priority, the sooner.
#[derive(Clone, Copy, Debug, Drop, Eq, Ord, PartialEq, PartialOrd)]
pub struct Job {
    pub priority: u32,
    pub number: u32,
}

/// Takes the job that is due next, unless it is the only one. Every other job has at most its
/// priority, and stays.
pub fn take_next(jobs: &mut NEBinaryHeap<Job>) -> Option<Job>
    ensures taken { TakesUnlessLast jobs.old jobs.new result
        (λ job. IsPermutation jobs.old (job ∷ jobs.new)) }
    ensures due { IfSome result (λ job. All (λ other. other.priority ≤ job.priority) jobs.new) }
{
    jobs.pop()
}

/// Returns the items in ascending order.
pub fn heap_sort(items: NEVec<u32>) -> NEVec<u32>
    ensures same { (f : ℕ → ℕ) → sum_by f result ≡ sum_by f items }
    ensures len { length result ≡ length items }
    ensures ascending { IsSorted nat_cmp result }
{
    NEBinaryHeap::from(items).into_sorted_vec()
}

/// Returns the greatest half.
pub fn greatest_half(heap: &NEBinaryHeap<u32>) -> u32
    ensures among { Contains (map (λ x. x / 2) heap.now) result }
    ensures bound { All (λ x. x ≤ result) (map (λ x. x / 2) heap.now) }
{
    heap.nonempty_iter().map(|x| *x / 2).max()
}

/// Returns the greatest item, by the heap and not by going over the items.
pub fn greatest(heap: &NEBinaryHeap<u32>) -> u32
    ensures among { Contains heap.now result }
    ensures bound { All (λ x. x ≤ result) heap.now }
{
    *heap.peek()
}

/// Returns the least item.
pub fn least(heap: &NEBinaryHeap<Reverse<u32>>) -> u32
    ensures among { Contains (map (λ r. r.0) heap.now) result }
    ensures bound { All (λ r. result ≤ r.0) heap.now }
{
    heap.peek().0
}

/// Returns the items of a plain heap as one that is never empty, or `None` if there is none.
pub fn if_any(heap: BinaryHeap<u32>) -> Option<NEBinaryHeap<u32>>
    ensures { MatchOption result (heap_items heap ≡ []) (IsPermutation (heap_items heap)) }
{
    NEBinaryHeap::try_from_heap(heap)
}

/// Makes room for `n` more items. Those that are there stay.
pub fn make_room(heap: &mut NEBinaryHeap<u32>, n: usize) -> Result<(), AllocError>
    ensures { heap.new ≡ heap.old }
{
    heap.reserve(n)
}

/// Keeps the items below 10, or returns `None` if there is none.
pub fn small(heap: NEBinaryHeap<u32>) -> Option<NEBinaryHeap<u32>>
    ensures { MatchOption result (filter (λ x. ltb x 10) heap ≡ [])
        (λ kept. IsPermutation (filter (λ x. ltb x 10) heap) kept) }
{
    heap.retain(|x| *x < 10).ok()
}

/// Returns the halves of the items, in the order of the iteration.
pub fn halves(alloc: Global, heap: NEBinaryHeap<u32>) -> Result<NEVec<u32>, AllocError>
    ensures { IfOk result (λ v. v ≡ map (λ x. x / 2) heap) }
{
    heap.into_nonempty_iter().map(|x| x / 2).collect(alloc)
}

/// The same by reference, as a plain vector.
pub fn halves_by_reference(alloc: Global, heap: &NEBinaryHeap<u32>) -> Result<Vec<u32>, AllocError>
    ensures { IfOk result (λ v. v.items ≡ map (λ x. x / 2) heap.now) }
{
    heap.iter().map(|x| *x / 2).collect(alloc)
}

/// Returns a heap of the halves of the items.
pub fn heap_of_halves(alloc: Global, items: &NEVec<u32>) -> Result<NEBinaryHeap<u32>, AllocError>
    ensures { IfOk result (λ h. IsPermutation (map (λ x. x / 2) items.now) h) }
{
    items.nonempty_iter().map(|x| *x / 2).collect(alloc)
}

/// Returns the bitwise `xor` of the items, by a loop.
pub fn mixed(heap: &NEBinaryHeap<u32>) -> u32 {
    let mut all = 0;
    for x in heap {
        all ^= *x;
    }
    all
}

/// Keeps the least items: offers `item` in place of the greatest, and returns what goes, which is
/// at least each that stays.
pub fn offer(least: &mut NEBinaryHeap<u32>, item: u32) -> u32
    ensures same { IsPermutation (item ∷ least.old) (result ∷ least.new) }
    ensures bound { All (λ x. x ≤ result) least.new }
{
    if item < *least.peek() {
        least.replace_greatest(item)
    } else {
        item
    }
}
