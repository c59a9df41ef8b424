//! The non-empty iterators over an [`NEMap`], and how a map, and those of them that lend its values
//! by `&mut`, are turned into std's iterators.
ghost use Rattle.std.specs.Prelude.{◌≡◌, ◌<◌, ◌^◌, length};
ghost use Rattle.std.specs.HashMap.{IsUnique, hash_map_len};
ghost use Rattle.std.specs.HashMap.IterMut.{iter_mut_name, iter_mut_rest, values_mut_rest};
ghost use Rattle.std.specs.HashMap.IterMut.{IterMutCanStep};
ghost use Rattle.std.specs.Map.Iter.{deref, deref_pair};
ghost use Rattle.ne_vec.specs.Lists.{view_by};
ghost use Rattle.ne_iter.specs.Keyed.Iterators.{IteratesEntries, IteratesEntriesByValue};
ghost use Rattle.ne_iter.specs.Keyed.Iterators.{KnownByReference, KnownByValue};
ghost use Rattle.ne_iter.specs.Keyed.IteratorLaws.{HasFirst-entries};

use super::NEMap;
use ne_iter::IntoNonEmptyIterator;
use ne_iter::iter::{HeldIterator, NonEmptyIter, NonEmptyIterator};
use std::collections::hash_map;
use std::hash::{BuildHasher, Hash};

impl<K: Eq + Hash + Drop, V: Drop, S: BuildHasher + Drop> IntoNonEmptyIterator for NEMap<K, V, S> {
    ghost use Rattle.std.specs.Prelude.{◌≡◌};
    ghost use Rattle.std.specs.HashMap.{IsUnique};
    ghost use Rattle.ne_iter.specs.Keyed.Iterators.{ListsEntriesByValue, KnownByValue};
    ghost use Rattle.ne_iter.specs.Keyed.IteratorLaws.{SameLists-entries};

    type IntoNEIter = IntoIter<K, V>;

    ghost into_nonempty_iter_gives = { λ m w. (w ≡ m.entries) × IsUnique K.eq m
        × ListsEntriesByValue KnownByValue w m.entries };

    ghost same_lists = { SameLists-entries KnownByValue (λ x. x) (λ m. m.entries) (IsUnique K.eq) };

    fn into_nonempty_iter(self) -> IntoIter<K, V> {
        NonEmptyIter::new(self.into_iter())
    }
}

impl<'a, K: Eq + Hash, V, S: BuildHasher> IntoNonEmptyIterator for &'a NEMap<K, V, S> {
    ghost use Rattle.std.specs.Prelude.{◌≡◌};
    ghost use Rattle.std.specs.HashMap.{IsUnique};
    ghost use Rattle.std.specs.Map.Iter.{deref_pair};
    ghost use Rattle.ne_iter.specs.Keyed.Iterators.{ListsEntries, KnownByReference};
    ghost use Rattle.ne_iter.specs.Keyed.IteratorLaws.{SameLists-entries};

    type IntoNEIter = Iter<'a, K, V>;

    ghost into_nonempty_iter_gives = { λ m w. (w ≡ m.now.entries) × IsUnique K.eq m.now
        × ListsEntries (deref_pair {K = K} {X = V}) w m.now.entries };

    ghost same_lists = { SameLists-entries (KnownByReference 63 deref_pair) deref_pair
        (λ m. m.now.entries)
        (λ m. IsUnique K.eq m.now) };

    fn into_nonempty_iter(self) -> Iter<'a, K, V> {
        self.nonempty_iter()
    }
}

impl<K: Eq + Hash + Drop, V: Drop, S: BuildHasher + Drop> IntoIterator for NEMap<K, V, S> {
    type Item = (K, V);

    type IntoIter = hash_map::IntoIter<K, V>;

    ghost into_iter_gives = { λ m it. IteratesEntriesByValue m.entries it × IsUnique K.eq m };

    fn into_iter(self) -> hash_map::IntoIter<K, V> {
        let NEMap { inner } = self;
        inner.into_iter()
    }
}

impl<'a, K: Eq + Hash, V, S: BuildHasher> IntoIterator for &'a NEMap<K, V, S> {
    type Item = (&'a K, &'a V);

    type IntoIter = hash_map::Iter<'a, K, V>;

    ghost into_iter_gives = { λ m it. IteratesEntries (deref_pair {K = K} {X = V}) m.now.entries it
        × IsUnique K.eq m.now };

    fn into_iter(self) -> hash_map::Iter<'a, K, V> {
        self.inner.iter()
    }
}

impl<'a, K: Eq + Hash, V, S: BuildHasher> IntoIterator for &'a mut NEMap<K, V, S> {
    ghost use Rattle.std.specs.HashMap.Lent.{KeepsKeys};
    ghost use Rattle.std.specs.Borrow.{sem};
    ghost use Rattle.std.specs.Map.Iter.{LendsValuesInOrder};
    ghost use Rattle.ne_hash.specs.HashLends.{LendsValues};
    ghost use Rattle.ne_hash.specs.ValidHashMap.{IsValid};

    type Item = (&'a K, &'a mut V);

    type IntoIter = hash_map::IterMut<'a, K, V>;

    ghost into_iter_gives = { λ m it. (iter_mut_rest it ≡ m.now.entries) × IterMutCanStep it
        × (hash_map_len m.now < 2 ^ 63) × IsValid K.eq m.now };

    fn into_iter(self) -> hash_map::IterMut<'a, K, V>
        ensures* writes_back { sem 𝓛 (LendsValues K.row V.row S.row S.Hasher.row K.Hash
            S.BuildHasher S.Hasher.Hasher self.entry (iter_mut_name result)) }
        ensures keeps { KeepsKeys self.old }
        ensures into_iter_gives { (iter_mut_rest result ≡ self.old.entries)
            × IterMutCanStep result × (hash_map_len self.old < 2 ^ 63)
            × IsValid K.eq self.old }
        ensures values_run { LendsValuesInOrder (iter_mut_rest {K = K} {X = V}) }
    {
        self.iter_mut()
    }
}

/// What contracts know of the iterators that these types hold.
#[derive(Drop)]
pub struct Held;

/// A non-empty iterator over the pairs of an [`NEMap`], in an unspecified order. In contracts it is
/// the list of the pairs.
pub type Iter<'a, K, V> = NonEmptyIter<hash_map::Iter<'a, K, V>, Held>;

impl<'a, K, V> HeldIterator<hash_map::Iter<'a, K, V>> for Held {
    ghost item_view = { view_by (deref_pair {K = K} {X = V}) };

    ghost items_left = { length };

    ghost known = { KnownByReference 63 (deref_pair {K = K} {X = V}) };

    ghost has_first = { HasFirst-entries deref_pair };
}

/// A non-empty iterator over the pairs of an [`NEMap`], in an unspecified order, with mutable
/// references to the values. Contracts describe it by the std iterator inside, `std_iterator`.
#[derive(Drop)]
pub struct IterMut<'a, K, V> {
    pub(super) inner: hash_map::IterMut<'a, K, V>,
    ghost nonempty: { 0 < length (iter_mut_rest inner) },
}

impl<'a, K, V> NonEmptyIterator for IterMut<'a, K, V> {
    ghost use Rattle.std.specs.HashMap.IterMut.{iter_mut_rest};
    ghost use Rattle.ne_iter.specs.Keyed.IteratorLaws.{HasFirst-lent};

    ghost not_empty = { λ w it made. HasFirst-lent iter_mut_rest it made.0 };
}

impl<'a, K, V> IntoIterator for IterMut<'a, K, V> {
    ghost use Rattle.ne_hash.specs.HashLends.{std_iterator};

    type Item = (&'a K, &'a mut V);

    type IntoIter = hash_map::IterMut<'a, K, V>;

    ghost into_iter_gives = { λ w it. (0 < length (iter_mut_rest it)) × (it ≡ std_iterator w) };

    fn into_iter(self) -> hash_map::IterMut<'a, K, V> {
        self.inner
    }
}

/// A non-empty iterator over the pairs of an [`NEMap`] by value, in an unspecified order. In
/// contracts it is the list of the pairs.
pub type IntoIter<K, V> = NonEmptyIter<hash_map::IntoIter<K, V>, Held>;

impl<K: Drop, V: Drop> HeldIterator<hash_map::IntoIter<K, V>> for Held {
    ghost items_left = { length };

    ghost known = { KnownByValue };

    ghost has_first = { HasFirst-entries (λ x. x) };
}

/// A non-empty iterator over the keys of an [`NEMap`], in the order of the pairs. In contracts it
/// is the list of the keys.
pub type Keys<'a, K, V> = NonEmptyIter<hash_map::Keys<'a, K, V>, Held>;

impl<'a, K, V> HeldIterator<hash_map::Keys<'a, K, V>> for Held {
    ghost item_view = { view_by (deref {X = K}) };

    ghost items_left = { length };

    ghost known = { KnownByReference 63 (deref {X = K}) };

    ghost has_first = { HasFirst-entries deref };
}

/// A non-empty iterator over the keys of an [`NEMap`] by value, in the order of the pairs. In
/// contracts it is the list of the keys.
pub type IntoKeys<K, V> = NonEmptyIter<hash_map::IntoKeys<K, V>, Held>;

impl<K: Drop, V: Drop> HeldIterator<hash_map::IntoKeys<K, V>> for Held {
    ghost items_left = { length };

    ghost known = { KnownByValue };

    ghost has_first = { HasFirst-entries (λ x. x) };
}

/// A non-empty iterator over the values of an [`NEMap`], in the order of the pairs. In contracts it
/// is the list of the values.
pub type Values<'a, K, V> = NonEmptyIter<hash_map::Values<'a, K, V>, Held>;

impl<'a, K, V> HeldIterator<hash_map::Values<'a, K, V>> for Held {
    ghost item_view = { view_by (deref {X = V}) };

    ghost items_left = { length };

    ghost known = { KnownByReference 63 (deref {X = V}) };

    ghost has_first = { HasFirst-entries deref };
}

/// A non-empty iterator over mutable references to the values of an [`NEMap`], in the order of
/// the pairs. Contracts describe it by the std iterator inside, `std_values_iterator`.
#[derive(Drop)]
pub struct ValuesMut<'a, K, V> {
    pub(super) inner: hash_map::ValuesMut<'a, K, V>,
    ghost nonempty: { 0 < length (values_mut_rest inner) },
}

impl<'a, K, V> NonEmptyIterator for ValuesMut<'a, K, V> {
    ghost use Rattle.ne_iter.specs.FirstItemLaws.{HasFirst-iter_mut};

    ghost not_empty = { λ w it made t ended. HasFirst-iter_mut it.inner made.0 t.inner ended };
}

impl<'a, K, V> IntoIterator for ValuesMut<'a, K, V> {
    ghost use Rattle.ne_hash.specs.HashLends.{std_values_iterator};

    type Item = &'a mut V;

    type IntoIter = hash_map::ValuesMut<'a, K, V>;

    ghost into_iter_gives = { λ w it. (0 < length (values_mut_rest it))
        × (it ≡ std_values_iterator w) };

    fn into_iter(self) -> hash_map::ValuesMut<'a, K, V> {
        self.inner
    }
}

/// A non-empty iterator over the values of an [`NEMap`] by value, in the order of the pairs. In
/// contracts it is the list of the values.
pub type IntoValues<K, V> = NonEmptyIter<hash_map::IntoValues<K, V>, Held>;

impl<K: Drop, V: Drop> HeldIterator<hash_map::IntoValues<K, V>> for Held {
    ghost items_left = { length };

    ghost known = { KnownByValue };

    ghost has_first = { HasFirst-entries (λ x. x) };
}
