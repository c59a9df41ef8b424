//! The non-empty iterators over an [`NEVecDeque`], and how a queue and these iterators are turned
//! into std's iterators.
ghost use Rattle.std.specs.Prelude.{◌≡◌, ◌<◌, ⊤, length};
ghost use Rattle.std.specs.Slice.Iter.{iter_mut_rest};

use super::NEVecDeque;
use ne_iter::{FromNonEmptyIterator, IntoNonEmptyIterator, NonEmptyIterator};
use ne_vec::NEVec;
use std::alloc::{AllocError, Global};
use std::collections::{VecDeque, vec_deque};
use std::marker::Model;
use std::{slice, vec};

/// An iterator over the items of an [`NEVecDeque`], from front to back, of which there is at least
/// one. In contracts its value is the list of them.
#[derive(Drop)]
pub struct Iter<'a, T> {
    pub(super) inner: &'a VecDeque<T>,
}

impl<'a, T> Model for Iter<'a, T> {
    ghost use Rattle.std.specs.Prelude.{◌<◌, List, length};

    ghost Value = { List T };

    ghost view = { λ w. w.inner.now.items };

    ghost invariant = { λ w. 0 < length w.inner.now.items };
}

impl<'a, T> IntoIterator for Iter<'a, T> {
    ghost use Rattle.ne_deque.specs.Iterators.{IteratesQueue};

    type Item = &'a T;

    type IntoIter = vec_deque::Iter<'a, T>;

    ghost into_iter_gives = { λ s it. IteratesQueue s it };

    fn into_iter(self) -> vec_deque::Iter<'a, T> {
        self.inner.iter()
    }
}

impl<'a, T> NonEmptyIterator for Iter<'a, T> {
    ghost use Rattle.ne_vec.specs.Lists.{referenced};
    ghost use Rattle.ne_deque.specs.IteratorLaws.{HasFirst-queue};

    ghost item_view = { referenced };

    ghost not_empty = { λ s it made. HasFirst-queue s it made };
}

impl<'a, T> Clone for Iter<'a, T> {
    ghost is_clone = { λ s r. r ≡ s };

    ghost is_infallible = { λ _. ⊤ };

    fn clone(&self) -> Result<Iter<'a, T>, AllocError> {
        Ok(Iter { inner: self.inner })
    }
}

/// A mutable iterator over the items of an [`NEVecDeque`], from front to back, of which there is at
/// least one. Contracts describe it by the std iterator inside, `std_iterator`.
#[derive(Drop)]
pub struct IterMut<'a, T> {
    pub(super) inner: slice::IterMut<'a, T>,
    ghost nonempty: { 0 < length (iter_mut_rest inner) },
}

impl<'a, T> IntoIterator for IterMut<'a, T> {
    ghost use Rattle.ne_deque.specs.QueueLends.{std_iterator};

    type Item = &'a mut T;

    type IntoIter = slice::IterMut<'a, T>;

    ghost into_iter_gives = { λ w it. (0 < length (iter_mut_rest it)) × (it ≡ std_iterator w) };

    fn into_iter(self) -> slice::IterMut<'a, T> {
        self.inner
    }
}

impl<'a, T> NonEmptyIterator for IterMut<'a, T> {
    ghost use Rattle.ne_iter.specs.FirstItemLaws.{HasFirst-iter_mut};

    ghost not_empty = { λ s it made. HasFirst-iter_mut it made.0 };
}

/// The items of an [`NEVecDeque`], at least one, by value, from front to back. In contracts its
/// value is the list of them.
#[derive(Drop)]
pub struct IntoIter<T> {
    inner: NEVecDeque<T>,
}

impl<T> Model for IntoIter<T> {
    ghost use Rattle.std.specs.Prelude.{List};

    ghost Value = { List T };

    ghost view = { λ w. w.inner };
}

impl<T: Drop> IntoIterator for IntoIter<T> {
    ghost use Rattle.ne_vec.specs.Iterators.{IteratesByValue};

    type Item = T;

    type IntoIter = vec::IntoIter<T>;

    ghost into_iter_gives = { λ s it. IteratesByValue s it };

    fn into_iter(self) -> vec::IntoIter<T> {
        self.inner.into_iter()
    }
}

impl<T: Drop> NonEmptyIterator for IntoIter<T> {
    ghost use Rattle.ne_iter.specs.FirstItemLaws.{HasFirst-into_iter};

    ghost not_empty = { λ s it made. HasFirst-into_iter s it made };
}

impl<T: Drop> IntoNonEmptyIterator for NEVecDeque<T> {
    ghost use Rattle.std.specs.Prelude.{◌≡◌};
    ghost use Rattle.std.specs.Global.{Global};
    ghost use Rattle.std.proofs.Common.{refl};
    ghost use Rattle.ne_vec.specs.Iterators.{ListsItemsByValue};
    ghost use Rattle.ne_vec.specs.IteratorLaws.{lists_items_by_value};
    ghost use Rattle.ne_iter.specs.SourceLaws.{SameLists-of};

    type IntoNEIter = IntoIter<T>;

    ghost into_nonempty_iter_gives = { λ q s. (s ≡ q) × ListsItemsByValue Global s q };

    ghost same_lists = { SameLists-of (⟦<IntoIter<T> as IntoIterator>⟧.into_iter_gives)
        (⟦<vec::IntoIter<T> as Iterator>⟧.next_gives) (λ q. q)
        (λ q s. ListsItemsByValue Global s q) (λ q. lists_items_by_value q q refl Global) };

    fn into_nonempty_iter(self) -> IntoIter<T> {
        IntoIter { inner: self }
    }
}

impl<'a, T> IntoNonEmptyIterator for &'a NEVecDeque<T> {
    ghost use Rattle.std.specs.Prelude.{◌≡◌};
    ghost use Rattle.std.proofs.Common.{refl};
    ghost use Rattle.ne_deque.specs.Iterators.{ListsQueue};
    ghost use Rattle.ne_deque.specs.IteratorLaws.{lists_queue};
    ghost use Rattle.ne_iter.specs.SourceLaws.{SameLists-of};

    type IntoNEIter = Iter<'a, T>;

    ghost into_nonempty_iter_gives = { λ q s. (s ≡ q.now) × ListsQueue s q.now };

    ghost same_lists = { SameLists-of (⟦<Iter<'a, T> as IntoIterator>⟧.into_iter_gives)
        (⟦<vec_deque::Iter<'a, T> as Iterator>⟧.next_gives) (λ q. q.now)
        (λ q s. ListsQueue s q.now) (λ q. lists_queue q.now q.now refl) };

    fn into_nonempty_iter(self) -> Iter<'a, T> {
        self.nonempty_iter()
    }
}

impl<T: Drop> IntoIterator for NEVecDeque<T> {
    ghost use Rattle.ne_vec.specs.Iterators.{IteratesByValue};

    type Item = T;

    type IntoIter = vec::IntoIter<T>;

    ghost into_iter_gives = { λ q it. IteratesByValue q it };

    fn into_iter(self) -> vec::IntoIter<T> {
        self.inner.into_iter()
    }
}

impl<'a, T> IntoIterator for &'a NEVecDeque<T> {
    ghost use Rattle.ne_deque.specs.Iterators.{IteratesQueue};

    type Item = &'a T;

    type IntoIter = vec_deque::Iter<'a, T>;

    ghost into_iter_gives = { λ q it. IteratesQueue q.now it };

    fn into_iter(self) -> vec_deque::Iter<'a, T> {
        self.inner.iter()
    }
}

impl<'a, T> IntoIterator for &'a mut NEVecDeque<T> {
    ghost use Rattle.std.specs.Borrow.{sem};
    ghost use Rattle.ne_vec.specs.Iterators.{IteratesOverMut};
    ghost use Rattle.ne_deque.specs.QueueLends.{LendsIterator};

    type Item = &'a mut T;

    type IntoIter = slice::IterMut<'a, T>;

    fn into_iter(self) -> slice::IterMut<'a, T>
        ensures* writes_back { sem 𝓛 (LendsIterator T.row self.entry result) }
        ensures into_iter_gives { IteratesOverMut self.old result }
    {
        self.inner.iter_mut()
    }
}

/// Makes a queue of the items, in order, the first at the front.
///
/// ```
/// let queue: NEVecDeque<u32> = [1u32, 1, 2].into_nonempty_iter().collect(alloc)?; // [1, 1, 2]
/// ```
impl<T: Drop> FromNonEmptyIterator<T> for NEVecDeque<T> {
    ghost use Rattle.std.specs.Prelude.{◌≡◌};

    ghost collected = { λ xs q. q ≡ xs };

    fn from_nonempty_iter<I: IntoNonEmptyIterator<Item = T>>(
        alloc: Global,
        iter: I,
    ) -> Result<NEVecDeque<T>, AllocError> {
        let items = NEVec::from_nonempty_iter(alloc, iter)?;
        Ok(NEVecDeque::from(items))
    }

    fn from_drained(alloc: Global, items: &mut Vec<T>) -> Result<NEVecDeque<T>, AllocError> {
        let items = NEVec::from_drained(alloc, items)?;
        Ok(NEVecDeque::from(items))
    }
}
