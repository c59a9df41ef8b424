//! Functions that call the laws of queues, priority queues and texts.
ghost use Rattle.std.specs.Prelude.{◌≡◌, ◌↔◌, ◌∷◌, ◌++◌, List, [], IfOk, IsTrue, OnOk, Some};
ghost use Rattle.std.specs.Cmp.Lexicographic.{slice_cmp};
ghost use Rattle.std.specs.Ordering.{nat_cmp};
ghost use Rattle.std.specs.Str.{chars};
ghost use Rattle.std.specs.declared.cmp.Ordering.TheVariants.{Less};
ghost use Rattle.ne_heap.specs.HeapItems.{SameItems};

use ne_deque::NEVecDeque;
use ne_deque::laws::{
    equal_queues_have_equal_hashes, queues_come_back, queues_compare_as_lists, queues_end,
    queues_one_by_one_are_collected,
};
use ne_heap::NEBinaryHeap;
use ne_heap::laws::{heaps_come_back, heaps_end, heaps_one_by_one_are_collected};
use ne_iter::iter::ItemSource;
use ne_iter::{FromNonEmptyIterator, IntoNonEmptyIterator, Singleton};
use ne_string::NEString;
use ne_string::laws::{
    equal_texts_have_equal_hashes, texts_come_back, texts_compare_as_lists, texts_end,
    texts_one_by_one_are_collected,
};
use std::alloc::{AllocError, Global};
use std::cmp::Ordering;
use std::collections::{BinaryHeap, VecDeque};
use std::hash::Hash;

/// Adds the items of any source that ends to a queue.
pub fn add_from<T: Drop, S: IntoIterator<Item = T>>(
    jobs: &mut NEVecDeque<T>,
    source: S,
) -> Result<(), AllocError>
    requires { ⟦<S as ItemSource>⟧.ends source }
    ensures { OnOk result ((xs : List T) → ⟦<S as ItemSource>⟧.listed source xs
        → jobs.new ≡ jobs.old ++ xs) }
{
    jobs.extend(source)
}

/// Adds the jobs of another queue, in order.
pub fn add_queue<T: Drop>(jobs: &mut NEVecDeque<T>, more: NEVecDeque<T>) -> Result<(), AllocError>
    ensures { OnOk result (jobs.new ≡ jobs.old ++ more) }
{
    queues_end::<T>();
    add_from(jobs, more.into_nonempty_iter())
}

/// Passes a queue through std's type.
pub fn through_std<T>(jobs: NEVecDeque<T>) -> Option<NEVecDeque<T>>
    ensures { result ≡ Some jobs }
{
    queues_come_back::<T>();
    NEVecDeque::try_from(VecDeque::from(jobs)).ok()
}

/// Adds two items, one after the other, to what is made of the first.
pub fn of_two<T: Drop, C: Singleton<Item = T> + Drop>(
    alloc: Global,
    first: T,
    second: T,
) -> Result<C, AllocError>
    ensures { IfOk result (C.collected (first ∷ second ∷ [])) }
{
    let mut made = C::singleton(alloc, first)?;
    made.extend_one(second)?;
    Ok(made)
}

/// Returns a queue of two jobs, which are added one by one: what is made if they are collected.
pub fn two_jobs<T: Drop>(alloc: Global, first: T, second: T) -> Result<NEVecDeque<T>, AllocError>
    ensures { IfOk result
        (⟦<NEVecDeque<T> as FromNonEmptyIterator<T>>⟧.collected (first ∷ second ∷ [])) }
{
    queues_one_by_one_are_collected::<T>();
    of_two(alloc, first, second)
}

/// Compares two queues by their first items that differ.
pub fn compared<T: Ord>(a: &NEVecDeque<T>, b: &NEVecDeque<T>) -> Ordering
    ensures { result ≡ slice_cmp T.cmp a.now b.now }
{
    queues_compare_as_lists::<T>();
    a.cmp(b)
}

/// Returns whether two queues are equal. If so, their hashes are equal too.
pub fn are_alike<T: Eq + Hash>(a: &NEVecDeque<T>, b: &NEVecDeque<T>) -> bool
    ensures { IsTrue result → ⟦<NEVecDeque<T> as Hash>⟧.hash_input a.now
        ≡ ⟦<NEVecDeque<T> as Hash>⟧.hash_input b.now }
{
    equal_queues_have_equal_hashes::<T>();
    a == b
}

/// Adds the tasks of a heap, in the order of its iterator.
pub fn add_heap<T: Ord + Drop>(
    jobs: &mut NEVecDeque<T>,
    tasks: NEBinaryHeap<T>,
) -> Result<(), AllocError>
    ensures { OnOk result (jobs.new ≡ jobs.old ++ tasks) }
{
    heaps_end::<T>();
    add_from(jobs, tasks.into_nonempty_iter())
}

/// Passes a heap through std's type.
pub fn heap_through_std<T: Ord>(tasks: NEBinaryHeap<T>) -> Option<NEBinaryHeap<T>>
    ensures { (made : List T) × (result ≡ Some made) × SameItems tasks made }
{
    heaps_come_back::<T>();
    NEBinaryHeap::try_from(BinaryHeap::from(tasks)).ok()
}

/// Returns a heap of two tasks, which are added one by one: what is made if they are collected.
pub fn two_tasks<T: Ord + Drop>(
    alloc: Global,
    first: T,
    second: T,
) -> Result<NEBinaryHeap<T>, AllocError>
    ensures { IfOk result
        (⟦<NEBinaryHeap<T> as FromNonEmptyIterator<T>>⟧.collected (first ∷ second ∷ [])) }
{
    heaps_one_by_one_are_collected::<T>();
    of_two(alloc, first, second)
}

/// Adds the characters of a text, in order.
pub fn add_text(characters: &mut NEVecDeque<char>, name: &NEString) -> Result<(), AllocError>
    ensures { OnOk result (characters.new ≡ characters.old ++ chars name.now) }
{
    texts_end();
    add_from(characters, name.chars())
}

/// Passes a text through std's type.
pub fn text_through_std(name: NEString) -> Option<NEString>
    ensures { result ≡ Some name }
{
    texts_come_back();
    NEString::try_from(String::from(name)).ok()
}

/// Returns a text of two characters, which are added one by one: what is made if they are
/// collected.
pub fn two_characters(alloc: Global, first: char, second: char) -> Result<NEString, AllocError>
    ensures { IfOk result
        (⟦<NEString as FromNonEmptyIterator<char>>⟧.collected (first ∷ second ∷ [])) }
{
    texts_one_by_one_are_collected();
    of_two(alloc, first, second)
}

/// Returns whether a text comes before another one.
pub fn comes_before(name: &NEString, other: &NEString) -> bool
    ensures { IsTrue result ↔ (slice_cmp nat_cmp name.now other.now ≡ Less) }
{
    texts_compare_as_lists();
    name < other
}

/// Returns whether two texts are equal. If so, their hashes are equal too.
pub fn texts_are_alike(name: &NEString, other: &NEString) -> bool
    ensures { IsTrue result → ⟦<NEString as Hash>⟧.hash_input name.now
        ≡ ⟦<NEString as Hash>⟧.hash_input other.now }
{
    equal_texts_have_equal_hashes();
    name == other
}
