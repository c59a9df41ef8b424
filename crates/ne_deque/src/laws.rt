//! Laws of queues. Each law is the contract of a function that does nothing. A caller calls the
//! function to use what it ensures.
ghost use Rattle.std.specs.Prelude.{◌≡◌, ◌↔◌, List, [], true, MatchOption, Option, Some};
ghost use Rattle.std.specs.Prelude.{Ok, Result};
ghost use Rattle.std.specs.Cmp.Lexicographic.{pointwise, slice_cmp, slice_partial_cmp};
ghost use Rattle.ne_vec.specs.declared.Error.{Error};

use crate::NEVecDeque;
use crate::vec_deque::{IntoIter, Iter, IterMut};
use ne_iter::iter::ItemSource;
use ne_iter::{FromNonEmptyIterator, Singleton};
use std::collections::VecDeque;
use std::hash::Hash;

/// A queue ends, by value and by reference, and so do its iterators.
pub fn queues_end<'a, T: Drop + 'a>()
    ensures queues { (q : _) → ⟦<NEVecDeque<T> as ItemSource>⟧.ends q }
    ensures lent { (q : _) → ⟦<&'a NEVecDeque<T> as ItemSource>⟧.ends q }
    ensures mutable { (q : _) → ⟦<&'a mut NEVecDeque<T> as ItemSource>⟧.ends q }
    ensures iterators { (s : _) → ⟦<Iter<'a, T> as ItemSource>⟧.ends s }
    ensures writing { (s : _) → ⟦<IterMut<'a, T> as ItemSource>⟧.ends s }
    ensures own { (s : _) → ⟦<IntoIter<T> as ItemSource>⟧.ends s }
{}

/// A queue that is converted into std's `VecDeque` and back, by `try_from` or `try_from_deque`, is
/// the same queue, and the conversion back never fails.
pub fn queues_come_back<T>()
    ensures by_try_from_deque { (q : List T) (inner : _) (r : Option (List T))
        → ⟦<VecDeque<T> as From<NEVecDeque<T>>>⟧.from_gives q inner
        → MatchOption r (inner.items ≡ []) (λ p. p ≡ inner.items) → r ≡ Some q }
    ensures by_try_from { (q : List T) (inner : _) (r : Result (List T) Error)
        → ⟦<VecDeque<T> as From<NEVecDeque<T>>>⟧.from_gives q inner
        → ⟦<NEVecDeque<T> as TryFrom<VecDeque<T>>>⟧.try_from_gives inner r → r ≡ Ok q }
{}

/// Items that are added one by one, by `singleton` and then `extend_one`, make what they make when
/// they are collected. Two queues made from the same items are the same list.
pub fn queues_one_by_one_are_collected<T: Drop>()
    ensures same_word { (items q : List T)
        → ⟦<NEVecDeque<T> as Singleton>⟧.collected items q
        ↔ ⟦<NEVecDeque<T> as FromNonEmptyIterator<T>>⟧.collected items q }
    ensures same_list { (items q p : List T)
        → ⟦<NEVecDeque<T> as Singleton>⟧.collected items q
        → ⟦<NEVecDeque<T> as FromNonEmptyIterator<T>>⟧.collected items p
        → q ≡ p }
{}

/// Queues compare as their lists do, item by item from the front.
pub fn queues_compare_as_lists<T: Ord>()
    ensures equal { (p q : List T) → ⟦<NEVecDeque<T> as PartialEq>⟧.eq p q ≡ pointwise T.eq p q }
    ensures ordered { (p q : List T) → ⟦<NEVecDeque<T> as Ord>⟧.cmp p q ≡ slice_cmp T.cmp p q }
    ensures partly_ordered { (p q : List T) → ⟦<NEVecDeque<T> as PartialOrd>⟧.partial_cmp p q
        ≡ slice_partial_cmp T.partial_cmp p q }
{}

/// Equal queues have equal hashes.
pub fn equal_queues_have_equal_hashes<T: Hash>()
    ensures { (p q : List T) → ⟦<NEVecDeque<T> as PartialEq>⟧.eq p q ≡ true
        → ⟦<NEVecDeque<T> as Hash>⟧.hash_input p ≡ ⟦<NEVecDeque<T> as Hash>⟧.hash_input q }
{}
