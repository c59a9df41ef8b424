//! Laws of priority queues. Each law is the contract of a function that does nothing. A caller
//! calls the function to use what it ensures.
ghost use Rattle.std.specs.Prelude.{◌≡◌, ◌↔◌, List, [], MatchOption, Ok, Option, Result, Some};
ghost use Rattle.std.specs.BinaryHeap.{heap_items};
ghost use Rattle.ne_vec.specs.declared.Error.{Error};
ghost use Rattle.ne_heap.specs.HeapItems.{SameItems};

use crate::NEBinaryHeap;
use crate::binary_heap::{IntoIter, Iter};
use ne_iter::iter::ItemSource;
use ne_iter::{FromNonEmptyIterator, Singleton};
use std::collections::BinaryHeap;

/// A heap ends, by value and by reference, and so do its iterators.
pub fn heaps_end<'a, T: Ord + Drop + 'a>()
    ensures heaps { (h : _) → ⟦<NEBinaryHeap<T> as ItemSource>⟧.ends h }
    ensures lent { (h : _) → ⟦<&'a NEBinaryHeap<T> as ItemSource>⟧.ends h }
    ensures iterators { (s : _) → ⟦<Iter<'a, T> as ItemSource>⟧.ends s }
    ensures own { (s : _) → ⟦<IntoIter<T> as ItemSource>⟧.ends s }
{}

/// A heap that is converted into std's `BinaryHeap` and back, by `try_from` or `try_from_heap`, has
/// the same items, and the conversion back never fails.
pub fn heaps_come_back<T: Ord>()
    ensures by_try_from_heap { (h : List T) (inner : _) (r : Option (List T))
        → ⟦<BinaryHeap<T> as From<NEBinaryHeap<T>>>⟧.from_gives h inner
        → MatchOption r (heap_items inner ≡ []) (SameItems (heap_items inner))
        → (made : List T) × (r ≡ Some made) × SameItems h made }
    ensures by_try_from { (h : List T) (inner : _) (r : Result (List T) Error)
        → ⟦<BinaryHeap<T> as From<NEBinaryHeap<T>>>⟧.from_gives h inner
        → ⟦<NEBinaryHeap<T> as TryFrom<BinaryHeap<T>>>⟧.try_from_gives inner r
        → (made : List T) × (r ≡ Ok made) × SameItems h made }
{}

/// Items that are added one by one, by `singleton` and then `extend_one`, make what they make when
/// they are collected. Two heaps made from the same items have the same items, in any order.
pub fn heaps_one_by_one_are_collected<T: Ord + Drop>()
    ensures same_word { (items h : List T)
        → ⟦<NEBinaryHeap<T> as Singleton>⟧.collected items h
        ↔ ⟦<NEBinaryHeap<T> as FromNonEmptyIterator<T>>⟧.collected items h }
    ensures same_items { (items h g : List T)
        → ⟦<NEBinaryHeap<T> as Singleton>⟧.collected items h
        → ⟦<NEBinaryHeap<T> as FromNonEmptyIterator<T>>⟧.collected items g
        → SameItems h g }
{}
