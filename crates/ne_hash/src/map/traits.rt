//! The traits of an [`NEMap`]: conversions, clones, equality as a map, collecting, printing.
ghost use Rattle.std.specs.Prelude.{◌≡◌, ◌↔◌, ◌++◌, IsTrue, MatchResult};
ghost use Rattle.std.specs.HashMap.{get, get_by_text, hash_map_eq, IsClone, IsEmpty};
ghost use Rattle.std.specs.Cmp.Lexicographic.{nat_list_eq_equiv};
ghost use Rattle.std.specs.Str.{bytes_eq};
ghost use Rattle.ne_vec.specs.Lists.{itself, referenced};
ghost use Rattle.ne_iter.specs.Collected.{IsMapOfPairs};
ghost use Rattle.ne_iter.specs.Keyed.Clones.{KeepsEntries};
ghost use Rattle.ne_iter.specs.Keyed.SameMap.{IsSameMap};
ghost use Rattle.ne_hash.specs.ValidHashMap.{IsValid};

use super::NEMap;
use ne_iter::iter::KeyedMap;
use ne_iter::{Error, FromNonEmptyIterator, IntoNonEmptyIterator, Singleton};
use std::alloc::{AllocError, Global};
use std::collections::HashMap;
use std::fmt;
use std::fmt::Debug;
use std::hash::{BuildHasher, Hash};

/// Returns the inner `HashMap`, for the methods that only a `HashMap` has. The map cannot be
/// changed through it.
impl<K: Eq + Hash, V, S: BuildHasher> AsRef<HashMap<K, V, S>> for NEMap<K, V, S> {
    fn as_ref(&self) -> &HashMap<K, V, S>
        ensures same { result.now ≡ self.now }
        ensures valid { IsValid K.eq self.now }
    {
        &self.inner
    }
}

/// Compares maps: they are equal if each key is in both or in neither, and has equal values if it
/// is in both. The order of iteration does not matter.
impl<K: Eq + Hash, V: PartialEq, S: BuildHasher> PartialEq for NEMap<K, V, S> {
    ghost use Rattle.std.specs.HashMap.Eq.{hash_map_eq_symm, hash_map_eq_trans};

    ghost eq = { hash_map_eq K.eq V.eq };

    ghost laws = { let v = V.laws in record {
      symm = hash_map_eq_symm K.eq V.eq v.symm;
      trans = hash_map_eq_trans K.eq V.eq K.Eq.laws v.trans;
    } };

    fn eq(&self, other: &NEMap<K, V, S>) -> bool
        ensures eq { result ≡ hash_map_eq K.eq V.eq self.now other.now }
        ensures same_map { IsTrue result
            ↔ IsSameMap V.eq (get K.eq self.now) (get K.eq other.now) }
    {
        self.inner == other.inner
    }
}

impl<K: Eq + Hash, V: Eq, S: BuildHasher> Eq for NEMap<K, V, S> {
    ghost use Rattle.std.specs.Cmp.{equiv, partial_equiv_from_equiv};
    ghost use Rattle.std.specs.HashMap.Eq.{hash_map_eq_refl, hash_map_eq_symm, hash_map_eq_trans};

    ghost laws = { let v = V.Eq.laws in equiv (record {
      symm = hash_map_eq_symm K.eq V.eq v.symm;
      trans = hash_map_eq_trans K.eq V.eq K.Eq.laws (partial_equiv_from_equiv v).trans;
    }) (hash_map_eq_refl K.eq V.eq v.refl) };
}

/// Calls the inherent method `into_map`.
impl<K: Eq + Hash, V, S: BuildHasher> From<NEMap<K, V, S>> for HashMap<K, V, S> {
    ghost from_gives = { λ m n. (n ≡ m) × IsValid K.eq n };

    fn from(m: NEMap<K, V, S>) -> HashMap<K, V, S> {
        m.into_map()
    }
}

/// Converts a map as `try_from_map` does, and returns `Error::Empty` if and only if `map` is empty.
/// It does not allocate and keeps the hasher; the Rust crate collects the pairs into a new map with
/// a default hasher.
impl<K: Eq + Hash, V, S: BuildHasher + Drop> TryFrom<HashMap<K, V, S>> for NEMap<K, V, S> {
    ghost use Rattle.std.specs.Prelude.{Result};

    type Error = Error;

    ghost try_from_gives = { λ map r. MatchResult r (λ m. m ≡ map) (λ _. IsEmpty map) };

    fn try_from(map: HashMap<K, V, S>) -> Result<NEMap<K, V, S>, Error> {
        match NEMap::try_from_map(map) {
            Some(made) => Ok(made),
            None => Err(Error::Empty),
        }
    }
}

/// Calls the inherent method `clone`.
impl<K: Eq + Hash + Clone, V: Clone, S: BuildHasher + Clone> Clone for NEMap<K, V, S> {
    ghost is_clone = { λ m n. IsClone K.is_clone V.is_clone m n
        × KeepsEntries K.is_clone V.is_clone m.entries n.entries };

    fn clone(&self) -> Result<NEMap<K, V, S>, AllocError> {
        NEMap::clone(self)
    }
}

/// Collects pairs into a map that holds each key once, with the value of its last pair.
impl<K: Eq + Hash + Drop, V: Drop, S: BuildHasher + Default + Drop> FromNonEmptyIterator<(K, V)>
    for NEMap<K, V, S> {
    ghost collected = { λ pairs m. IsMapOfPairs K.eq pairs m.entries };

    fn from_nonempty_iter<I: IntoNonEmptyIterator<Item = (K, V)>>(
        alloc: Global,
        iter: I,
    ) -> Result<NEMap<K, V, S>, AllocError> {
        let inner: HashMap<K, V, S> = HashMap::from_nonempty_iter(alloc, iter)?;
        Ok(NEMap { inner })
    }
}

/// Prints as std prints a map: `{0: 10}`.
impl<K: Eq + Hash + Debug, V: Debug, S: BuildHasher> Debug for NEMap<K, V, S> {
    fn fmt<W: fmt::Write>(&self, f: &mut fmt::Formatter<W>) -> fmt::Result {
        self.inner.fmt(f)
    }
}

/// Starts with one pair, and adds each further pair by `insert`.
impl<K: Eq + Hash + Drop, V: Drop> Singleton for NEMap<K, V> {
    type Item = (K, V);

    ghost collected = { λ pairs m. IsMapOfPairs K.eq pairs m.entries };

    fn singleton(alloc: Global, item: (K, V)) -> Result<NEMap<K, V>, AllocError> {
        let (k, v) = item;
        NEMap::new(alloc, k, v)
    }

    fn extend_one(&mut self, item: (K, V)) -> Result<(), AllocError> {
        let (k, v) = item;
        let _old = self.insert(k, v)?;
        Ok(())
    }
}

/// Calls the inherent method `extend`.
impl<K: Eq + Hash + Drop, V: Drop, S: BuildHasher> Extend<(K, V)> for NEMap<K, V, S> {
    ghost extend_gives = { λ m pairs n. IsMapOfPairs K.eq (m.entries ++ pairs) n.entries
        × IsValid K.eq n };

    fn extend<I: IntoIterator<Item = (K, V)>>(&mut self, iter: I) -> Result<(), AllocError> {
        NEMap::extend(self, iter)
    }
}

/// The value of a key is what [`get`](Self::get) returns.
impl<K: Eq + Hash + Drop, V: Drop> KeyedMap<K, V> for NEMap<K, V> {
    ghost key_view = { itself };

    ghost same = { K.eq };

    ghost value = { get K.eq };

    ghost equivalence = { K.Eq.laws };

    fn with_entry(alloc: Global, k: K, v: V) -> Result<Self, AllocError> {
        NEMap::new(alloc, k, v)
    }

    fn put_value(&mut self, _alloc: Global, k: K, v: V) -> Result<(), AllocError> {
        let _old = self.insert(k, v)?;
        Ok(())
    }

    fn value_mut(&mut self, k: &K) -> Option<&mut V> {
        self.get_mut(k)
    }
}

/// A key is given by its text, and a `String` is made of it where the key is new.
impl<V: Drop> KeyedMap<&str, V> for NEMap<String, V> {
    ghost key_view = { referenced };

    ghost same = { bytes_eq };

    ghost value = { get_by_text };

    ghost equivalence = { nat_list_eq_equiv };

    fn with_entry(alloc: Global, k: &str, v: V) -> Result<Self, AllocError> {
        let map = NEMap::new(alloc, String::from_str(alloc, k)?, v)?;
        Ok(map)
    }

    fn put_value(&mut self, alloc: Global, k: &str, v: V) -> Result<(), AllocError> {
        let _old = self.insert(String::from_str(alloc, k)?, v)?;
        Ok(())
    }

    fn value_mut(&mut self, k: &&str) -> Option<&mut V> {
        self.get_mut(*k)
    }
}
