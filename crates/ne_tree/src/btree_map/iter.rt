//! The non-empty iterators over an [`NEBTreeMap`], and how a map, and those of them that lend its
//! values by `&mut`, are turned into std's iterators.
ghost use Rattle.std.specs.Prelude.{◌≡◌, ◌<◌, ◌^◌, length};
ghost use Rattle.std.specs.BTreeMap.{IsOrdered, btree_map_len};
ghost use Rattle.std.specs.BTreeMap.IterMut.{iter_mut_name, iter_mut_rest, values_mut_rest};
ghost use Rattle.std.specs.BTreeMap.IterMut.{IterMutCanStep};
ghost use Rattle.std.specs.Map.Iter.{deref, deref_pair};
ghost use Rattle.ne_vec.specs.Lists.{view_by};
ghost use Rattle.ne_iter.specs.Keyed.Iterators.{IteratesEntries, IteratesKnown, KnownByReference};
ghost use Rattle.ne_iter.specs.Keyed.Iterators.{KnownByValue};
ghost use Rattle.ne_iter.specs.Keyed.IteratorLaws.{HasFirst-entries};
ghost use Rattle.ne_tree.specs.InOrder.{EntriesInOrder};

use super::NEBTreeMap;
use ne_iter::IntoNonEmptyIterator;
use ne_iter::iter::{HeldIterator, NonEmptyIter, NonEmptyIterator};
use std::collections::btree_map;

impl<K: Ord + Drop, V: Drop> IntoNonEmptyIterator for NEBTreeMap<K, V> {
    ghost use Rattle.std.specs.Prelude.{◌≡◌};
    ghost use Rattle.std.specs.BTreeMap.{IsOrdered};
    ghost use Rattle.ne_iter.specs.Keyed.Iterators.{ListsEntriesByValue};
    ghost use Rattle.ne_iter.specs.Keyed.IteratorLaws.{SameLists-entries};

    type IntoNEIter = IntoIter<K, V>;

    ghost into_nonempty_iter_gives = { λ m w. (w ≡ m.entries) × IsOrdered K.cmp m
        × ListsEntriesByValue (EntriesInOrder K.cmp) w m.entries };

    ghost same_lists = { SameLists-entries (EntriesInOrder K.cmp) (λ x. x) (λ m. m.entries)
        (IsOrdered K.cmp) };

    fn into_nonempty_iter(self) -> IntoIter<K, V> {
        NonEmptyIter::new(self.into_iter())
    }
}

impl<'a, K: Ord, V> IntoNonEmptyIterator for &'a NEBTreeMap<K, V> {
    ghost use Rattle.std.specs.Prelude.{◌≡◌};
    ghost use Rattle.std.specs.BTreeMap.{IsOrdered};
    ghost use Rattle.std.specs.Map.Iter.{deref_pair};
    ghost use Rattle.ne_iter.specs.Keyed.Iterators.{ListsEntries, KnownByReference};
    ghost use Rattle.ne_iter.specs.Keyed.IteratorLaws.{SameLists-entries};

    type IntoNEIter = Iter<'a, K, V>;

    ghost into_nonempty_iter_gives = { λ m w. (w ≡ m.now.entries) × IsOrdered K.cmp m.now
        × ListsEntries (deref_pair {K = K} {X = V}) w m.now.entries };

    ghost same_lists = { SameLists-entries (KnownByReference 63 deref_pair) deref_pair
        (λ m. m.now.entries)
        (λ m. IsOrdered K.cmp m.now) };

    fn into_nonempty_iter(self) -> Iter<'a, K, V> {
        self.nonempty_iter()
    }
}

impl<K: Ord + Drop, V: Drop> IntoIterator for NEBTreeMap<K, V> {
    type Item = (K, V);

    type IntoIter = btree_map::IntoIter<K, V>;

    ghost into_iter_gives = { λ m it. IteratesKnown (EntriesInOrder K.cmp) m.entries it × IsOrdered
        K.cmp m };

    fn into_iter(self) -> btree_map::IntoIter<K, V> {
        let NEBTreeMap { inner } = self;
        inner.into_iter()
    }
}

impl<'a, K: Ord, V> IntoIterator for &'a NEBTreeMap<K, V> {
    type Item = (&'a K, &'a V);

    type IntoIter = btree_map::Iter<'a, K, V>;

    ghost into_iter_gives = { λ m it. IteratesEntries (deref_pair {K = K} {X = V}) m.now.entries it
        × IsOrdered K.cmp m.now };

    fn into_iter(self) -> btree_map::Iter<'a, K, V> {
        self.inner.iter()
    }
}

impl<'a, K: Ord, V> IntoIterator for &'a mut NEBTreeMap<K, V> {
    ghost use Rattle.std.specs.BTreeMap.Lent.{KeepsKeys};
    ghost use Rattle.std.specs.Borrow.{sem};
    ghost use Rattle.std.specs.Map.Iter.{LendsValuesInOrder};
    ghost use Rattle.ne_tree.specs.TreeLends.{LendsValues};
    ghost use Rattle.ne_tree.specs.ValidTreeMap.{IsValid};

    type Item = (&'a K, &'a mut V);

    type IntoIter = btree_map::IterMut<'a, K, V>;

    ghost into_iter_gives = { λ m it. (iter_mut_rest it ≡ m.now.entries) × IterMutCanStep it
        × (btree_map_len m.now < 2 ^ 63) × IsValid K.cmp m.now };

    fn into_iter(self) -> btree_map::IterMut<'a, K, V>
        ensures* writes_back { sem 𝓛 (LendsValues K.row V.row K.Ord self.entry
            (iter_mut_name result)) }
        ensures keeps { KeepsKeys self.old 0 }
        ensures into_iter_gives { (iter_mut_rest result ≡ self.old.entries)
            × IterMutCanStep result × (btree_map_len self.old < 2 ^ 63)
            × IsValid K.cmp self.old }
        ensures values_run { LendsValuesInOrder (iter_mut_rest {K = K} {X = V}) }
    {
        self.iter_mut()
    }
}

/// What contracts know of the iterators that these types hold.
#[derive(Drop)]
pub struct Held;

/// A non-empty iterator over the pairs of an [`NEBTreeMap`], in ascending order of the keys. In
/// contracts it is the list of the pairs.
pub type Iter<'a, K, V> = NonEmptyIter<btree_map::Iter<'a, K, V>, Held>;

impl<'a, K, V> HeldIterator<btree_map::Iter<'a, K, V>> for Held {
    ghost item_view = { view_by (deref_pair {K = K} {X = V}) };

    ghost items_left = { length };

    ghost known = { KnownByReference 63 (deref_pair {K = K} {X = V}) };

    ghost has_first = { HasFirst-entries deref_pair };
}

/// A non-empty iterator over the pairs of an [`NEBTreeMap`], in ascending order of the keys, with
/// mutable references to the values. Contracts describe it by the std iterator inside,
/// `std_iterator`.
#[derive(Drop)]
pub struct IterMut<'a, K, V> {
    pub(super) inner: btree_map::IterMut<'a, K, V>,
    ghost nonempty: { 0 < length (iter_mut_rest inner) },
}

impl<'a, K, V> NonEmptyIterator for IterMut<'a, K, V> {
    ghost use Rattle.std.specs.BTreeMap.IterMut.{iter_mut_rest};
    ghost use Rattle.ne_iter.specs.Keyed.IteratorLaws.{HasFirst-lent};

    ghost not_empty = { λ w it made. HasFirst-lent iter_mut_rest it made.0 };
}

impl<'a, K, V> IntoIterator for IterMut<'a, K, V> {
    ghost use Rattle.ne_tree.specs.TreeLends.{std_iterator};

    type Item = (&'a K, &'a mut V);

    type IntoIter = btree_map::IterMut<'a, K, V>;

    ghost into_iter_gives = { λ w it. (0 < length (iter_mut_rest it)) × (it ≡ std_iterator w) };

    fn into_iter(self) -> btree_map::IterMut<'a, K, V> {
        self.inner
    }
}

/// A non-empty iterator over the pairs of an [`NEBTreeMap`] by value, in ascending order of the
/// keys. In contracts it is the list of the pairs.
pub type IntoIter<K, V> = NonEmptyIter<btree_map::IntoIter<K, V>, Held>;

impl<K: Ord + Drop, V: Drop> HeldIterator<btree_map::IntoIter<K, V>> for Held {
    ghost items_left = { length };

    ghost known = { EntriesInOrder K.cmp };

    ghost has_first = { HasFirst-entries (λ x. x) };
}

/// A non-empty iterator over the keys of an [`NEBTreeMap`], in ascending order. In contracts it is
/// the list of the keys.
pub type Keys<'a, K, V> = NonEmptyIter<btree_map::Keys<'a, K, V>, Held>;

impl<'a, K, V> HeldIterator<btree_map::Keys<'a, K, V>> for Held {
    ghost item_view = { view_by (deref {X = K}) };

    ghost items_left = { length };

    ghost known = { KnownByReference 63 (deref {X = K}) };

    ghost has_first = { HasFirst-entries deref };
}

/// A non-empty iterator over the keys of an [`NEBTreeMap`] by value, in ascending order. In
/// contracts it is the list of the keys.
pub type IntoKeys<K, V> = NonEmptyIter<btree_map::IntoKeys<K, V>, Held>;

impl<K: Drop, V: Drop> HeldIterator<btree_map::IntoKeys<K, V>> for Held {
    ghost items_left = { length };

    ghost known = { KnownByValue };

    ghost has_first = { HasFirst-entries (λ x. x) };
}

/// A non-empty iterator over the values of an [`NEBTreeMap`], in ascending order of their keys. In
/// contracts it is the list of the values.
pub type Values<'a, K, V> = NonEmptyIter<btree_map::Values<'a, K, V>, Held>;

impl<'a, K, V> HeldIterator<btree_map::Values<'a, K, V>> for Held {
    ghost item_view = { view_by (deref {X = V}) };

    ghost items_left = { length };

    ghost known = { KnownByReference 63 (deref {X = V}) };

    ghost has_first = { HasFirst-entries deref };
}

/// A non-empty iterator over mutable references to the values of an [`NEBTreeMap`], in ascending
/// order of their keys. Contracts describe it by the std iterator inside, `std_values_iterator`.
#[derive(Drop)]
pub struct ValuesMut<'a, K, V> {
    pub(super) inner: btree_map::ValuesMut<'a, K, V>,
    ghost nonempty: { 0 < length (values_mut_rest inner) },
}

impl<'a, K, V> NonEmptyIterator for ValuesMut<'a, K, V> {
    ghost use Rattle.ne_tree.specs.TreeLendLaws.{HasFirst-values_mut};

    ghost not_empty = { λ w it made. HasFirst-values_mut it made.0 };
}

impl<'a, K, V> IntoIterator for ValuesMut<'a, K, V> {
    ghost use Rattle.ne_tree.specs.TreeLends.{std_values_iterator};

    type Item = &'a mut V;

    type IntoIter = btree_map::ValuesMut<'a, K, V>;

    ghost into_iter_gives = { λ w it. (0 < length (values_mut_rest it))
        × (it ≡ std_values_iterator w) };

    fn into_iter(self) -> btree_map::ValuesMut<'a, K, V> {
        self.inner
    }
}

/// A non-empty iterator over the values of an [`NEBTreeMap`] by value, in ascending order of their
/// keys. In contracts it is the list of the values.
pub type IntoValues<K, V> = NonEmptyIter<btree_map::IntoValues<K, V>, Held>;

impl<K: Drop, V: Drop> HeldIterator<btree_map::IntoValues<K, V>> for Held {
    ghost items_left = { length };

    ghost known = { KnownByValue };

    ghost has_first = { HasFirst-entries (λ x. x) };
}
