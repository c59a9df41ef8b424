//! Maps that hold at least one key, whatever their type is: the library's three map types, and a
//! user's own.
ghost use Rattle.std.specs.Prelude.{◌≡◌, List, length, is_some, IfOk, OnErr, OnOk};
ghost use Rattle.std.specs.BTreeMap.{get, BTreeMap};
ghost use Rattle.std.specs.Int.NonZero.{non_zero_usize_get};
ghost use Rattle.std.specs.Map.{lookup};
ghost use Rattle.ne_laws.specs.Maps.{IsNonEmptyMap, Puts, Takes, Writes};

use nonempty_collections::{NEBTreeMap, NEIndexMap, NEMap};
use std::alloc::AllocError;
use std::hash::{BuildHasher, Hash};
use std::mem;
use std::num::NonZeroUsize;

/// A map that holds at least one key. Keys are compared by `==`.
///
/// In contracts it is the list of its entries, in some order: `lookup (K.eq k) (M.entries m)` is
/// the value of the key `k`, and `IsNonEmptyMap K.eq (M.entries m)` says that no two keys are equal
/// and that there is at least one.
///
/// ```
/// let mut map = NEMap::new(alloc, 1, 10)?;
/// let absent = map.put(2, 20)?; // None
/// let old = map.set(&1, 11); // Some(10)
/// let (has, size) = (map.has(&2), map.size().get()); // true and 2
/// let (taken, only) = (map.take(&1), map.take(&2)); // Some(11) and None
/// ```
pub trait NonEmptyMap<K: Eq, V> {
    /// The keys with their values, in some order.
    ghost entries: { Self → List (K × V) };

    /// Inserts a key and its value, and returns the old value of an equal key, or `None` if the key
    /// is new.
    ///
    /// Returns `AllocError` if the map has to grow and the allocation fails. The map is then
    /// unchanged, and the pair is dropped.
    fn put(&mut self, k: K, v: V) -> Result<Option<V>, AllocError>
        ensures old { IfOk result (λ old. old ≡ lookup (K.eq k) (entries self.old)) }
        ensures puts { OnOk result (Puts K.eq (entries self.old) k v (entries self.new)) }
        ensures unchanged { OnErr result (entries self.new ≡ entries self.old) }
        ensures map { IsNonEmptyMap K.eq (entries self.new) };

    /// Returns whether the map holds a key equal to `k`.
    fn has(&self, k: &K) -> bool
        ensures { result ≡ is_some (lookup (K.eq k.now) (entries self.now)) };

    /// Changes the value of the key equal to `k`, and returns the old value. If there is no such
    /// key, it returns `None`, nothing changes, and the new value is dropped. It does not allocate.
    fn set(&mut self, k: &K, v: V) -> Option<V>
        ensures old { result ≡ lookup (K.eq k.now) (entries self.old) }
        ensures writes { Writes K.eq (entries self.old) k.now v (entries self.new) }
        ensures map { IsNonEmptyMap K.eq (entries self.new) };

    /// Removes the key equal to `k`, and returns its value. Returns `None` if there is no such key,
    /// or if it is the only one, which then stays. It does not allocate.
    fn take(&mut self, k: &K) -> Option<V>
        // `None` if and only if the key is absent or the only one; then nothing changes.
        ensures takes { Takes K.eq (entries self.old) k.now result (entries self.new) }
        ensures map { IsNonEmptyMap K.eq (entries self.new) };

    /// Returns the number of keys, which is at least 1.
    fn size(&self) -> NonZeroUsize
        ensures size { non_zero_usize_get result ≡ length (entries self.now) }
        ensures map { IsNonEmptyMap K.eq (entries self.now) };
}

/// Looking up a key of a tree map by the order of the keys, as std does, and by `==`, as lists of
/// calls do, gives the same value.
pub fn tree_maps_are_read_alike<K: Ord, V>()
    ensures { (m : BTreeMap K V) (q : K) → get K.cmp m q ≡ lookup (K.eq q) m.entries }
{}

impl<K: Ord + Drop, V: Drop> NonEmptyMap<K, V> for NEBTreeMap<K, V> {
    ghost entries = { λ m. m.entries };

    fn put(&mut self, k: K, v: V) -> Result<Option<V>, AllocError> {
        self.insert(k, v)
    }

    fn has(&self, k: &K) -> bool {
        self.contains_key(k)
    }

    fn set(&mut self, k: &K, v: V) -> Option<V> {
        let place = self.get_mut(k)?;
        Some(mem::replace(place, v))
    }

    fn take(&mut self, k: &K) -> Option<V> {
        self.remove(k)
    }

    fn size(&self) -> NonZeroUsize {
        self.len()
    }
}

impl<K: Eq + Hash + Drop, V: Drop, S: BuildHasher> NonEmptyMap<K, V> for NEMap<K, V, S> {
    ghost entries = { λ m. m.entries };

    fn put(&mut self, k: K, v: V) -> Result<Option<V>, AllocError> {
        self.insert(k, v)
    }

    fn has(&self, k: &K) -> bool {
        self.contains_key(k)
    }

    fn set(&mut self, k: &K, v: V) -> Option<V> {
        let place = self.get_mut(k)?;
        Some(mem::replace(place, v))
    }

    fn take(&mut self, k: &K) -> Option<V> {
        self.remove(k)
    }

    fn size(&self) -> NonZeroUsize {
        self.len()
    }
}

impl<K: Eq + Hash + Drop, V: Drop, S: BuildHasher> NonEmptyMap<K, V> for NEIndexMap<K, V, S> {
    ghost entries = { λ m. m.entries };

    fn put(&mut self, k: K, v: V) -> Result<Option<V>, AllocError> {
        self.insert(k, v)
    }

    fn has(&self, k: &K) -> bool {
        self.contains_key(k)
    }

    fn set(&mut self, k: &K, v: V) -> Option<V> {
        let place = self.get_mut(k)?;
        Some(mem::replace(place, v))
    }

    // As the deprecated `remove` of Rust's `indexmap`, this puts the last entry in its place.
    fn take(&mut self, k: &K) -> Option<V> {
        self.swap_remove(k)
    }

    fn size(&self) -> NonZeroUsize {
        self.len()
    }
}
