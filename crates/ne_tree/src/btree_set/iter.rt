//! The non-empty iterators over an [`NEBTreeSet`] and over a union, and how a set is turned into
//! one of them or into std's iterators.
ghost use Rattle.std.specs.Prelude.{◌≡◌, length};
ghost use Rattle.std.specs.BTreeSet.{IsOrdered};
ghost use Rattle.std.specs.Map.Iter.{deref};
ghost use Rattle.ne_vec.specs.Lists.{view_by};
ghost use Rattle.ne_iter.specs.Keyed.Iterators.{IteratesEntries, IteratesKnown, KnownByReference};
ghost use Rattle.ne_iter.specs.Keyed.IteratorLaws.{HasFirst-entries};
ghost use Rattle.ne_tree.specs.InOrder.{ItemsInOrder};

use super::NEBTreeSet;
use ne_iter::IntoNonEmptyIterator;
use ne_iter::iter::{HeldIterator, NonEmptyIter};
use std::collections::btree_set;

impl<T: Ord + Drop> IntoNonEmptyIterator for NEBTreeSet<T> {
    ghost use Rattle.std.specs.Prelude.{◌≡◌};
    ghost use Rattle.std.specs.BTreeSet.{IsOrdered};
    ghost use Rattle.ne_iter.specs.Keyed.Iterators.{ListsEntriesByValue};
    ghost use Rattle.ne_iter.specs.Keyed.IteratorLaws.{SameLists-entries};

    type IntoNEIter = IntoIter<T>;

    ghost into_nonempty_iter_gives = { λ s w. (w ≡ s.keys) × IsOrdered T.cmp s
        × ListsEntriesByValue (ItemsInOrder T.cmp) w s.keys };

    ghost same_lists = { SameLists-entries (ItemsInOrder T.cmp) (λ x. x) (λ s. s.keys)
        (IsOrdered T.cmp) };

    fn into_nonempty_iter(self) -> IntoIter<T> {
        NonEmptyIter::new(self.into_iter())
    }
}

impl<'a, T: Ord> IntoNonEmptyIterator for &'a NEBTreeSet<T> {
    ghost use Rattle.std.specs.Prelude.{◌≡◌};
    ghost use Rattle.std.specs.BTreeSet.{IsOrdered};
    ghost use Rattle.std.specs.Map.Iter.{deref};
    ghost use Rattle.ne_iter.specs.Keyed.Iterators.{ListsEntries, KnownByReference};
    ghost use Rattle.ne_iter.specs.Keyed.IteratorLaws.{SameLists-entries};

    type IntoNEIter = Iter<'a, T>;

    ghost into_nonempty_iter_gives = { λ s w. (w ≡ s.now.keys) × IsOrdered T.cmp s.now
        × ListsEntries (deref {X = T}) w s.now.keys };

    ghost same_lists = { SameLists-entries (KnownByReference 63 deref) deref (λ s. s.now.keys)
        (λ s. IsOrdered T.cmp s.now) };

    fn into_nonempty_iter(self) -> Iter<'a, T> {
        self.nonempty_iter()
    }
}

impl<T: Ord + Drop> IntoIterator for NEBTreeSet<T> {
    type Item = T;

    type IntoIter = btree_set::IntoIter<T>;

    ghost into_iter_gives = { λ s it. IteratesKnown (ItemsInOrder T.cmp) s.keys it × IsOrdered T.cmp
        s };

    fn into_iter(self) -> btree_set::IntoIter<T> {
        let NEBTreeSet { inner } = self;
        inner.into_iter()
    }
}

impl<'a, T: Ord> IntoIterator for &'a NEBTreeSet<T> {
    type Item = &'a T;

    type IntoIter = btree_set::Iter<'a, T>;

    ghost into_iter_gives = { λ s it. IteratesEntries (deref {X = T}) s.now.keys it
        × IsOrdered T.cmp s.now };

    fn into_iter(self) -> btree_set::Iter<'a, T> {
        self.inner.iter()
    }
}

/// What contracts know of the iterators that these types hold.
#[derive(Drop)]
pub struct Held;

/// A non-empty iterator over the items of an [`NEBTreeSet`], in ascending order. In contracts it is
/// the list of the items.
pub type Iter<'a, T> = NonEmptyIter<btree_set::Iter<'a, T>, Held>;

impl<'a, T> HeldIterator<btree_set::Iter<'a, T>> for Held {
    ghost item_view = { view_by (deref {X = T}) };

    ghost items_left = { length };

    ghost known = { KnownByReference 63 (deref {X = T}) };

    ghost has_first = { HasFirst-entries deref };
}

/// A non-empty iterator over the items of an [`NEBTreeSet`] by value, in ascending order. In
/// contracts it is the list of the items.
pub type IntoIter<T> = NonEmptyIter<btree_set::IntoIter<T>, Held>;

impl<T: Ord + Drop> HeldIterator<btree_set::IntoIter<T>> for Held {
    ghost items_left = { length };

    ghost known = { ItemsInOrder T.cmp };

    ghost has_first = { HasFirst-entries (λ x. x) };
}

/// A non-empty iterator over the items of two sets, each once, in ascending order. In contracts it
/// is the list of the items.
pub type Union<'a, T> = NonEmptyIter<btree_set::Union<'a, T>, Held>;

impl<'a, T: Ord> HeldIterator<btree_set::Union<'a, T>> for Held {
    ghost item_view = { view_by (deref {X = T}) };

    ghost items_left = { length };

    ghost known = { KnownByReference 64 (deref {X = T}) };

    ghost has_first = { HasFirst-entries deref };
}
