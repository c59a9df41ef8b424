//! The traits of an [`NEIndexMap`]: conversions, clones, equality as a map, access by index,
//! collecting, printing.
ghost use Rattle.std.specs.Prelude.{◌≡◌, ◌<◌, ◌↔◌, ◌++◌, IfOk, IsTrue, List, Some, slice_get, true};
ghost use Rattle.std.specs.Cmp.{partial_equiv_from_equiv};
ghost use Rattle.std.specs.HashMap.Eq.{hash_map_eq_refl, hash_map_eq_symm, hash_map_eq_trans};
ghost use Rattle.std.specs.Iterator.{IsFiniteIterable};
ghost use Rattle.indexmap.specs.IndexMap.{hasher_of, index_map_eq, index_map_len, values};
ghost use Rattle.std.specs.Cmp.Lexicographic.{nat_list_eq_equiv};
ghost use Rattle.std.specs.Str.{bytes_eq};
ghost use Rattle.indexmap.specs.IndexMap.{IsClone, get, get_by_text};
ghost use Rattle.ne_vec.specs.Lists.{itself, referenced};
ghost use Rattle.ne_iter.specs.Keyed.Clones.{KeepsEntries};
ghost use Rattle.ne_iter.specs.Keyed.KeyList.{IsKeyListMapOf};
ghost use Rattle.ne_iter.specs.Keyed.SameMap.{IsSameMap};
ghost use Rattle.std.specs.Cmp;
ghost use Rattle.ne_index.specs.ValidIndexMap.{IsValid};

use super::NEIndexMap;
use indexmap::IndexMap;
use ne_iter::iter::{ItemSource, KeyedMap};
use ne_iter::{FromNonEmptyIterator, IntoNonEmptyIterator, NonEmptyIterator, Singleton};
use std::alloc::{AllocError, Global};
use std::fmt;
use std::fmt::Debug;
use std::hash::{BuildHasher, Hash};
use std::ops::Index;

/// Returns the inner `IndexMap`, for the methods that only an `IndexMap` has. The map cannot be
/// changed through it.
impl<K: Eq + Hash, V, S: BuildHasher> AsRef<IndexMap<K, V, S>> for NEIndexMap<K, V, S> {
    fn as_ref(&self) -> &IndexMap<K, V, S>
        ensures same { result.now ≡ self.now }
        ensures valid { IsValid K.eq self.now }
    {
        &self.inner
    }
}

/// Compares maps: they are equal if each key is in both or in neither, and has equal values if it
/// is in both. The order of the entries does not matter.
impl<K: Eq + Hash, V: PartialEq, S: BuildHasher> PartialEq for NEIndexMap<K, V, S> {
    ghost eq = { index_map_eq K.eq V.eq };

    ghost laws = { let v = V.laws in record {
      symm = hash_map_eq_symm K.eq V.eq v.symm;
      trans = hash_map_eq_trans K.eq V.eq K.Eq.laws v.trans;
    } };

    fn eq(&self, other: &NEIndexMap<K, V, S>) -> bool
        ensures eq { result ≡ index_map_eq K.eq V.eq self.now other.now }
        ensures same_map { IsTrue result
            ↔ IsSameMap V.eq (get K.eq self.now) (get K.eq other.now) }
    {
        self.inner == other.inner
    }
}

impl<K: Eq + Hash, V: Eq, S: BuildHasher> Eq for NEIndexMap<K, V, S> {
    ghost laws = { let v = V.Eq.laws in Cmp.equiv (record {
      symm = hash_map_eq_symm K.eq V.eq v.symm;
      trans = hash_map_eq_trans K.eq V.eq K.Eq.laws (partial_equiv_from_equiv v).trans;
    }) (hash_map_eq_refl K.eq V.eq v.refl) };
}

/// Calls the inherent method `into_map`.
impl<K: Eq + Hash, V, S: BuildHasher> From<NEIndexMap<K, V, S>> for IndexMap<K, V, S> {
    ghost from_gives = { λ m n. (n ≡ m) × IsValid K.eq n };

    fn from(m: NEIndexMap<K, V, S>) -> IndexMap<K, V, S> {
        m.into_map()
    }
}

/// Calls the inherent method `clone`.
impl<K: Eq + Hash + Clone, V: Clone, S: BuildHasher + Clone> Clone for NEIndexMap<K, V, S> {
    ghost is_clone = { λ m n. IsClone K.is_clone V.is_clone m n
        × KeepsEntries K.is_clone V.is_clone m.entries n.entries };

    fn clone(&self) -> Result<NEIndexMap<K, V, S>, AllocError> {
        NEIndexMap::clone(self)
    }
}

/// Collects pairs into a map that holds each key once, with the value of its last pair. The keys
/// are in the order in which they first appear.
impl<K: Eq + Hash + Drop, V: Drop, S: BuildHasher + Default + Drop> FromNonEmptyIterator<(K, V)>
    for NEIndexMap<K, V, S> {
    ghost collected = { λ pairs m. IsKeyListMapOf K.eq pairs m.entries };

    fn from_nonempty_iter<I: IntoNonEmptyIterator<Item = (K, V)>>(
        alloc: Global,
        iter: I,
    ) -> Result<NEIndexMap<K, V, S>, AllocError> {
        let inner = collected(alloc, iter)?;
        Ok(NEIndexMap { inner })
    }
}

// Collects pairs into an `IndexMap`, whose type does not guarantee a key.
fn collected<
    K: Eq + Hash + Drop,
    V: Drop,
    S: BuildHasher + Default + Drop,
    I: IntoNonEmptyIterator<Item = (K, V)>,
>(alloc: Global, iter: I) -> Result<IndexMap<K, V, S>, AllocError>
    requires { (source : I.IntoNEIter) → I.into_nonempty_iter_gives iter source
        → IsFiniteIterable I.IntoNEIter.into_iter_gives I.IntoNEIter.IntoIter.can_next
        I.IntoNEIter.IntoIter.remaining source }
    ensures { IfOk result (λ m. (pairs : List (K × V)) × ⟦<I as ItemSource>⟧.reads true iter pairs
        × (IsKeyListMapOf K.eq pairs m.entries × (0 < index_map_len m))) }
{
    iter.into_nonempty_iter().into_iter().collect(alloc)
}

/// Returns the value at an index, from 0. The index must be less than `len`; the Rust crate panics
/// on others.
///
/// ```
/// let map = neim![alloc; 4 => 26, 2 => 24]?;
/// let value = map[1]; // 24
/// ```
impl<K: Eq + Hash, V> Index<usize> for NEIndexMap<K, V> {
    type Output = V;

    ghost can_index = { λ m i. i < index_map_len m };

    ghost index_gives = { λ m i v. slice_get (values m) i ≡ Some v };

    fn index(&self, index: usize) -> &V
        requires { index < index_map_len self.now }
        ensures { slice_get (values self.now) index ≡ Some result.now }
    {
        &self.inner[index]
    }
}

/// Prints as std prints a map: `{0: 10, 1: 11}`.
impl<K: Eq + Hash + Debug, V: Debug, S: BuildHasher> Debug for NEIndexMap<K, V, S> {
    fn fmt<W: fmt::Write>(&self, f: &mut fmt::Formatter<W>) -> fmt::Result {
        self.inner.fmt(f)
    }
}

/// Starts with one pair, and adds each further pair by `insert`.
impl<K: Eq + Hash + Drop, V: Drop> Singleton for NEIndexMap<K, V> {
    type Item = (K, V);

    ghost collected = { λ pairs m. IsKeyListMapOf K.eq pairs m.entries };

    fn singleton(alloc: Global, item: (K, V)) -> Result<NEIndexMap<K, V>, AllocError> {
        let (k, v) = item;
        NEIndexMap::new(alloc, k, v)
    }

    fn extend_one(&mut self, item: (K, V)) -> Result<(), AllocError> {
        let (k, v) = item;
        let _old = self.insert(k, v)?;
        Ok(())
    }
}

/// Calls the inherent method `extend`.
impl<K: Eq + Hash + Drop, V: Drop, S: BuildHasher> Extend<(K, V)> for NEIndexMap<K, V, S> {
    ghost extend_gives = { λ m pairs n. IsKeyListMapOf K.eq (m.entries ++ pairs) n.entries
        × (hasher_of n ≡ hasher_of m) × IsValid K.eq n };

    fn extend<I: IntoIterator<Item = (K, V)>>(&mut self, iter: I) -> Result<(), AllocError> {
        NEIndexMap::extend(self, iter)
    }
}

/// The value of a key is what [`get`](Self::get) returns.
impl<K: Eq + Hash + Drop, V: Drop> KeyedMap<K, V> for NEIndexMap<K, V> {
    ghost key_view = { itself };

    ghost same = { K.eq };

    ghost value = { get K.eq };

    ghost equivalence = { K.Eq.laws };

    fn with_entry(alloc: Global, k: K, v: V) -> Result<Self, AllocError> {
        NEIndexMap::new(alloc, k, v)
    }

    fn put_value(&mut self, _alloc: Global, k: K, v: V) -> Result<(), AllocError> {
        let _old = self.insert(k, v)?;
        Ok(())
    }

    fn value_mut(&mut self, k: &K) -> Option<&mut V> {
        self.get_mut(k)
    }
}

/// A key is given by its text, and a `String` is made of it where the key is new.
impl<V: Drop> KeyedMap<&str, V> for NEIndexMap<String, V> {
    ghost key_view = { referenced };

    ghost same = { bytes_eq };

    ghost value = { get_by_text };

    ghost equivalence = { nat_list_eq_equiv };

    fn with_entry(alloc: Global, k: &str, v: V) -> Result<Self, AllocError> {
        let map = NEIndexMap::new(alloc, String::from_str(alloc, k)?, v)?;
        Ok(map)
    }

    fn put_value(&mut self, alloc: Global, k: &str, v: V) -> Result<(), AllocError> {
        let _old = self.insert(String::from_str(alloc, k)?, v)?;
        Ok(())
    }

    fn value_mut(&mut self, k: &&str) -> Option<&mut V> {
        self.get_mut(*k)
    }
}
