//! The traits of an [`NEBTreeMap`]: conversions, clones, equality as a map, collecting, printing.
ghost use Rattle.std.specs.Prelude.{◌≡◌, ◌↔◌, ◌++◌, ◌&&◌, IsTrue, MatchResult};
ghost use Rattle.std.specs.BTreeMap.{IsClone, IsEmpty, get, get_by_text};
ghost use Rattle.std.specs.Cmp.{and_equiv, and_per, on_equiv, on_per};
ghost use Rattle.std.specs.Cmp.Lexicographic.{lists_equiv, lists_per, nat_list_eq_equiv, pointwise};
ghost use Rattle.std.specs.Str.{bytes_eq};
ghost use Rattle.ne_vec.specs.Lists.{itself, referenced};
ghost use Rattle.ne_iter.specs.Collected.{IsMapOfPairs};
ghost use Rattle.ne_iter.specs.Keyed.Clones.{KeepsEntries};
ghost use Rattle.ne_iter.specs.Keyed.SameMap.{IsSameMap};
ghost use Rattle.ne_tree.specs.ValidTreeMap.{IsValid};

use super::NEBTreeMap;
use ne_iter::iter::KeyedMap;
use ne_iter::{Error, FromNonEmptyIterator, IntoNonEmptyIterator, Singleton};
use std::alloc::{AllocError, Global};
use std::collections::BTreeMap;
use std::fmt;
use std::fmt::Debug;

/// Returns the inner `BTreeMap`, for the methods that only a `BTreeMap` has. The map cannot be
/// changed through it.
impl<K: Ord, V> AsRef<BTreeMap<K, V>> for NEBTreeMap<K, V> {
    fn as_ref(&self) -> &BTreeMap<K, V>
        ensures same { result.now ≡ self.now }
        ensures valid { IsValid K.cmp self.now }
    {
        &self.inner
    }
}

/// Compares maps: they are equal if each key is in both or in neither, and has equal values if it
/// is in both.
impl<K: Ord, V: PartialEq> PartialEq for NEBTreeMap<K, V> {
    ghost eq = { λ m n. pointwise (λ p q. K.eq p.0 q.0 && V.eq p.1 q.1) m.entries n.entries };

    ghost laws = { on_per (λ m. m.entries) (lists_per
        (and_per (on_per (λ p. p.0) K.PartialEq.laws) (on_per (λ p. p.1) V.laws))) };

    fn eq(&self, other: &NEBTreeMap<K, V>) -> bool
        ensures eq { result ≡ pointwise (λ p q. K.eq p.0 q.0 && V.eq p.1 q.1) self.now.entries
            other.now.entries }
        ensures same_map { IsTrue result
            ↔ IsSameMap V.eq (get K.cmp self.now) (get K.cmp other.now) }
    {
        self.inner == other.inner
    }
}

impl<K: Ord, V: Eq> Eq for NEBTreeMap<K, V> {
    ghost laws = { on_equiv (λ m. m.entries) (lists_equiv
        (and_equiv (on_equiv (λ p. p.0) K.Eq.laws) (on_equiv (λ p. p.1) V.Eq.laws))) };
}

/// Calls the inherent method `into_map`.
impl<K: Ord, V> From<NEBTreeMap<K, V>> for BTreeMap<K, V> {
    ghost from_gives = { λ m n. (n ≡ m) × IsValid K.cmp n };

    fn from(m: NEBTreeMap<K, V>) -> BTreeMap<K, V> {
        m.into_map()
    }
}

/// Converts a map as `try_from_map` does, and returns `Error::Empty` if and only if `map` is empty.
/// It does not allocate; the Rust crate collects the pairs into a new map.
impl<K: Ord, V> TryFrom<BTreeMap<K, V>> for NEBTreeMap<K, V> {
    ghost use Rattle.std.specs.Prelude.{Result};

    type Error = Error;

    ghost try_from_gives = { λ map r. MatchResult r (λ m. m ≡ map) (λ _. IsEmpty map) };

    fn try_from(map: BTreeMap<K, V>) -> Result<NEBTreeMap<K, V>, Error> {
        match NEBTreeMap::try_from_map(map) {
            Some(made) => Ok(made),
            None => Err(Error::Empty),
        }
    }
}

/// Calls the inherent method `clone`.
impl<K: Ord + Clone, V: Clone> Clone for NEBTreeMap<K, V> {
    ghost is_clone = { λ m n. IsClone K.is_clone V.is_clone m n
        × KeepsEntries K.is_clone V.is_clone m.entries n.entries };

    fn clone(&self) -> Result<NEBTreeMap<K, V>, AllocError> {
        NEBTreeMap::clone(self)
    }
}

/// Collects pairs into a map that holds each key once, with the value of its last pair. The keys
/// are in ascending order.
impl<K: Ord + Drop, V: Drop> FromNonEmptyIterator<(K, V)> for NEBTreeMap<K, V> {
    ghost collected = { λ pairs m. IsMapOfPairs K.eq pairs m.entries };

    fn from_nonempty_iter<I: IntoNonEmptyIterator<Item = (K, V)>>(
        alloc: Global,
        iter: I,
    ) -> Result<NEBTreeMap<K, V>, AllocError> {
        let inner: BTreeMap<K, V> = BTreeMap::from_nonempty_iter(alloc, iter)?;
        Ok(NEBTreeMap { inner })
    }
}

/// Prints as std prints a map: `{0: 10, 1: 11}`.
impl<K: Ord + Debug, V: Debug> Debug for NEBTreeMap<K, V> {
    fn fmt<W: fmt::Write>(&self, f: &mut fmt::Formatter<W>) -> fmt::Result {
        self.inner.fmt(f)
    }
}

/// Starts with one pair, and adds each further pair by `insert`.
impl<K: Ord + Drop, V: Drop> Singleton for NEBTreeMap<K, V> {
    type Item = (K, V);

    ghost collected = { λ pairs m. IsMapOfPairs K.eq pairs m.entries };

    fn singleton(alloc: Global, item: (K, V)) -> Result<NEBTreeMap<K, V>, AllocError> {
        let (k, v) = item;
        NEBTreeMap::new(alloc, k, v)
    }

    fn extend_one(&mut self, item: (K, V)) -> Result<(), AllocError> {
        let (k, v) = item;
        let _old = self.insert(k, v)?;
        Ok(())
    }
}

/// Calls the inherent method `extend`.
impl<K: Ord + Drop, V: Drop> Extend<(K, V)> for NEBTreeMap<K, V> {
    ghost extend_gives = { λ m pairs n. IsMapOfPairs K.eq (m.entries ++ pairs) n.entries
        × IsValid K.cmp n };

    fn extend<I: IntoIterator<Item = (K, V)>>(&mut self, iter: I) -> Result<(), AllocError> {
        NEBTreeMap::extend(self, iter)
    }
}

/// The value of a key is what [`get`](Self::get) returns.
impl<K: Ord + Drop, V: Drop> KeyedMap<K, V> for NEBTreeMap<K, V> {
    ghost key_view = { itself };

    ghost same = { K.eq };

    ghost value = { get K.cmp };

    ghost equivalence = { K.Eq.laws };

    fn with_entry(alloc: Global, k: K, v: V) -> Result<Self, AllocError> {
        NEBTreeMap::new(alloc, k, v)
    }

    fn put_value(&mut self, _alloc: Global, k: K, v: V) -> Result<(), AllocError> {
        let _old = self.insert(k, v)?;
        Ok(())
    }

    fn value_mut(&mut self, k: &K) -> Option<&mut V> {
        self.get_mut(k)
    }
}

/// A key is given by its text, and a `String` is made of it where the key is new.
impl<V: Drop> KeyedMap<&str, V> for NEBTreeMap<String, V> {
    ghost key_view = { referenced };

    ghost same = { bytes_eq };

    ghost value = { get_by_text };

    ghost equivalence = { nat_list_eq_equiv };

    fn with_entry(alloc: Global, k: &str, v: V) -> Result<Self, AllocError> {
        let map = NEBTreeMap::new(alloc, String::from_str(alloc, k)?, v)?;
        Ok(map)
    }

    fn put_value(&mut self, alloc: Global, k: &str, v: V) -> Result<(), AllocError> {
        let _old = self.insert(String::from_str(alloc, k)?, v)?;
        Ok(())
    }

    fn value_mut(&mut self, k: &&str) -> Option<&mut V> {
        self.get_mut(*k)
    }
}
