//! The non-empty iterators over an [`NEBinaryHeap`], and how a heap is turned into them and into
//! std's iterators. They are those of non-empty slices and vectors, in no particular order.
use super::NEBinaryHeap;
use ne_iter::IntoNonEmptyIterator;
use std::{slice, vec};

/// A non-empty iterator over the items of an [`NEBinaryHeap`], in no particular order. In contracts
/// it is the list of the items.
pub use ne_vec::slice::Iter;
/// A non-empty iterator over the items of an [`NEBinaryHeap`] by value, in no particular order. In
/// contracts it is the list of the items.
pub use ne_vec::vector::IntoIter;

impl<T: Ord + Drop> IntoNonEmptyIterator for NEBinaryHeap<T> {
    ghost use Rattle.std.specs.Prelude.{◌≡◌};
    ghost use Rattle.std.specs.Global.{Global};
    ghost use Rattle.std.proofs.Common.{refl};
    ghost use Rattle.ne_vec.specs.Iterators.{ListsItemsByValue};
    ghost use Rattle.ne_vec.specs.IteratorLaws.{lists_items_by_value};
    ghost use Rattle.ne_iter.specs.SourceLaws.{SameLists-of};

    type IntoNEIter = IntoIter<T>;

    ghost into_nonempty_iter_gives = { λ h s. (s ≡ h) × ListsItemsByValue Global s h };

    ghost same_lists = { SameLists-of (⟦<IntoIter<T> as IntoIterator>⟧.into_iter_gives)
        (⟦<vec::IntoIter<T> as Iterator>⟧.next_gives) (λ h. h)
        (λ h s. ListsItemsByValue Global s h) (λ h. lists_items_by_value h h refl Global) };

    fn into_nonempty_iter(self) -> IntoIter<T> {
        self.into_vec().into_nonempty_iter()
    }
}

impl<'a, T: Ord> IntoNonEmptyIterator for &'a NEBinaryHeap<T> {
    ghost use Rattle.std.specs.Prelude.{◌≡◌};
    ghost use Rattle.std.proofs.Common.{refl};
    ghost use Rattle.ne_vec.specs.Iterators.{ListsItems};
    ghost use Rattle.ne_vec.specs.IteratorLaws.{lists_items};
    ghost use Rattle.ne_iter.specs.SourceLaws.{SameLists-of};

    type IntoNEIter = Iter<'a, T>;

    ghost into_nonempty_iter_gives = { λ h s. (s ≡ h.now) × ListsItems s h.now };

    ghost same_lists = { SameLists-of (⟦<Iter<'a, T> as IntoIterator>⟧.into_iter_gives)
        (⟦<slice::Iter<'a, T> as Iterator>⟧.next_gives) (λ h. h.now)
        (λ h s. ListsItems s h.now) (λ h. lists_items h.now h.now refl) };

    fn into_nonempty_iter(self) -> Iter<'a, T> {
        self.nonempty_iter()
    }
}

impl<T: Ord + Drop> IntoIterator for NEBinaryHeap<T> {
    ghost use Rattle.ne_vec.specs.Iterators.{IteratesByValue};

    type Item = T;

    type IntoIter = vec::IntoIter<T>;

    ghost into_iter_gives = { λ h it. IteratesByValue h it };

    fn into_iter(self) -> vec::IntoIter<T> {
        self.inner.into_iter()
    }
}

impl<'a, T: Ord> IntoIterator for &'a NEBinaryHeap<T> {
    ghost use Rattle.ne_vec.specs.Iterators.{IteratesOver};

    type Item = &'a T;

    type IntoIter = slice::Iter<'a, T>;

    ghost into_iter_gives = { λ h it. IteratesOver h.now it };

    fn into_iter(self) -> slice::Iter<'a, T> {
        self.inner.iter()
    }
}
