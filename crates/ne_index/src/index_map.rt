//! Index maps that hold at least one key, their iterators, and the traits that they implement.
//!
//! An [`NEIndexMap`] iterates in the order in which its keys were inserted, unless `swap_indices`
//! or a removal that swaps moved some, and each key has an index. Keys are looked up by `Eq` and
//! `Hash`. A key that is in the map stays as it is, at its index, if an equal one is inserted.
//!
//! A method that removes an entry by `&mut self`, in `remove`, never removes the only one; `retain`
//! takes the map. The Rust crate lacks these methods, and `first_mut`, `last_mut`, `or_insert` and
//! `into_map`.
ghost use Rattle.std.specs.Prelude.{◌≡◌, ◌+◌, ◌-◌, ◌<◌, ◌≤◌, ◌^◌, ◌++◌, [], ◌∷◌, if◌then◌else◌};
ghost use Rattle.std.specs.Prelude.{false, is_some, slice_get, unwrap_or, length, None, Some, IfOk};
ghost use Rattle.std.specs.Prelude.{IfSome, IsSome, IfNone, IsOk, MatchOption, OnErr, OnOk};
ghost use Rattle.std.specs.Borrow.{sem};
ghost use Rattle.std.specs.HashMap.Lent.{KeepsKeys};
ghost use Rattle.std.specs.Int.NonZero.{non_zero_usize_get};
ghost use Rattle.std.specs.Iterator.{ExtendsWithItems, IsFiniteIterable};
ghost use Rattle.std.specs.Iterator.Runs.{YieldsMutRefsInOrder};
ghost use Rattle.std.specs.List.{swap, IsAmong};
ghost use Rattle.std.specs.Map.Iter.{deref, deref_pair, LendsValuesInOrder, ShowsInOrder};
ghost use Rattle.std.specs.Map.Iter.{ShowsValuesInOrder};
ghost use Rattle.std.specs.Option.{option_copied, option_copied_mut, option_map};
ghost use Rattle.std.specs.Set.{is_member};
ghost use Rattle.indexmap.specs.IndexMap.{get, get_by, get_key_by, hasher_of, index_map_len};
ghost use Rattle.indexmap.specs.IndexMap.{index_of_by, keys, spare, values, with_value_at, IsEmpty};
ghost use Rattle.indexmap.specs.IndexMap.{IsReordered, IsUnchanged, IsClone, Updates};
ghost use Rattle.indexmap.specs.Iter.{iter_mut_name, iter_mut_rest, values_mut_name};
ghost use Rattle.indexmap.specs.Iter.{values_mut_rest, values_mut_steps, IterMutCanStep};
ghost use Rattle.ne_vec.specs.Lists.{itself};
ghost use Rattle.ne_iter.specs.Keyed.Extends.{ExtendsByList};
ghost use Rattle.ne_iter.specs.Keyed.Clones.{KeepsEntries};
ghost use Rattle.ne_iter.specs.Keyed.KeyList.{IsKeyListMapOf};
ghost use Rattle.ne_iter.specs.Keyed.Iterators.{FindsEach, ListsEntries};
ghost use Rattle.ne_iter.specs.SourceLists.{MeetsList};
ghost use Rattle.ne_index.specs.IndexLends.{inner_iterator, inner_values_iterator, LendsValue};
ghost use Rattle.ne_index.specs.IndexLends.{LendsInserted, LendsValueAt, LendsValues};
ghost use Rattle.ne_index.specs.Puts.{put_entry, put_item};
ghost use Rattle.ne_index.specs.ValidIndexMap.{IsValid};

mod iter;
mod remove;
mod serialized;
mod traits;

use indexmap::{Equivalent, IndexMap, map};
pub use iter::{Held, IntoIter, Iter, IterMut, Keys, Values, ValuesMut};
use ne_iter::iter::{ItemSource, NonEmptyIter};
use std::alloc::{AllocError, Global};
use std::hash::{BuildHasher, BuildHasherDefault, FoldHasher, Hash};
use std::marker::Model;
use std::num::NonZeroUsize;

/// An index map that holds at least one key. It wraps [`IndexMap`] of the crate `indexmap`.
///
/// Lookups and removals take a `&K`, or a `&str` if the keys are `String`s, or a `&[T]` if they are
/// `Vec<T>`s.
///
/// In contracts it is the record of the inner map: `m.entries` is the list of the pairs in the
/// map's order, `get K.eq m k` is the value of the key `k`, `get_by_text m bs` that of the `String`
/// whose bytes are `bs`, `hasher_of m` is the hasher, and `IsValid K.eq m` says that there is a key
/// and that no two keys are equal.
///
/// The default hasher has a fixed seed; the Rust crate's default is `RandomState`. If untrusted
/// users can choose the keys, create the map by `with_hasher` with `RandomState`.
///
/// Equality and hashing are lawful, as the laws of their traits require. That a clone equals its
/// original is assumed only where a clause says so.
///
/// ```
/// let map = neim![alloc; 1 => 10, 2 => 20, 1 => 30]?;
/// let (one, three) = (map.get(&1), map.get(&3)); // Some(&30) and None
/// let len = map.len().get(); // 2
/// ```
#[derive(Drop)]
pub struct NEIndexMap<K: Eq + Hash, V, S: BuildHasher = BuildHasherDefault<FoldHasher>> {
    inner: IndexMap<K, V, S>,
}

impl<K: Eq + Hash, V, S: BuildHasher> Model for NEIndexMap<K, V, S> {
    ghost use Rattle.indexmap.specs.IndexMap.{IndexMap as Entries};
    ghost use Rattle.indexmap.specs.Layout.{hash_map_code};
    ghost use Rattle.ne_index.specs.ValidIndexMap.{IsValid};

    ghost Value = { Entries K V S };

    ghost coded = { hash_map_code K.code V.code S.code };

    ghost view = { λ m. m.inner };

    ghost invariant = { λ m. IsValid K.eq m.inner };
}

impl<K: Eq + Hash + Drop, V: Drop> NEIndexMap<K, V> {
    /// Creates a map that holds the key `k` with the value `v`, with the default hasher.
    ///
    /// Returns `AllocError` if the allocation fails; the pair is then dropped.
    ///
    /// ```
    /// let map = NEIndexMap::new(alloc, 4, 20)?; // {4: 20}
    /// ```
    pub fn new(alloc: Global, k: K, v: V) -> Result<Self, AllocError>
        ensures entries { IfOk result (λ m. m.entries ≡ (k, v) ∷ []) }
        ensures value { IfOk result (λ m. get K.eq m k ≡ Some v) }
    {
        NEIndexMap::with_hasher(alloc, BuildHasherDefault::new(), k, v)
    }

    /// Creates a map that holds the key `k` with the value `v`, with the default hasher and room
    /// for at least `capacity` keys, `k` included.
    ///
    /// Returns `AllocError` if the allocation fails or if `capacity` is more than can be allocated;
    /// the pair is then dropped.
    ///
    /// ```
    /// let room = NonZeroUsize::new(9).unwrap();
    /// let map = NEIndexMap::with_capacity(alloc, room, 2, 1)?; // {2: 1}, with room for 9 keys
    /// ```
    pub fn with_capacity(
        alloc: Global,
        capacity: NonZeroUsize,
        k: K,
        v: V,
    ) -> Result<Self, AllocError>
        ensures entries { IfOk result (λ m. m.entries ≡ (k, v) ∷ []) }
        ensures value { IfOk result (λ m. get K.eq m k ≡ Some v) }
        ensures room { IfOk result (λ m. non_zero_usize_get capacity ≤ index_map_len m + spare m) }
    {
        NEIndexMap::with_capacity_and_hasher(alloc, capacity, BuildHasherDefault::new(), k, v)
    }
}

impl<K: Eq + Hash, V, S: BuildHasher> NEIndexMap<K, V, S> {
    /// Creates a map that holds the key `k` with the value `v`, with the hasher `hasher` and room
    /// for at least `capacity` keys, `k` included.
    ///
    /// Returns `AllocError` if the allocation fails or if `capacity` is more than can be allocated;
    /// the hasher and the pair are then dropped.
    ///
    /// ```
    /// let (room, hasher) = (NonZeroUsize::new(9).unwrap(), BuildHasherDefault::new());
    /// let mut map: NEIndexMap<u32, u32> =
    ///     NEIndexMap::with_capacity_and_hasher(alloc, room, hasher, 2, 1)?;
    /// let has_room = map.capacity().get() >= 9; // true
    /// let is_empty = map.is_empty(); // false
    /// map.shrink_to_fit()?; // {2: 1}
    /// let hasher = map.hasher();
    /// ```
    pub fn with_capacity_and_hasher(
        alloc: Global,
        capacity: NonZeroUsize,
        hasher: S,
        k: K,
        v: V,
    ) -> Result<Self, AllocError>
    where
        K: Drop,
        V: Drop,
        S: Drop,
        ensures entries { IfOk result (λ m. m.entries ≡ (k, v) ∷ []) }
        ensures value { IfOk result (λ m. get K.eq m k ≡ Some v) }
        ensures hasher { IfOk result (λ m. hasher_of m ≡ hasher) }
        ensures room { IfOk result (λ m. non_zero_usize_get capacity ≤ index_map_len m + spare m) }
    {
        let mut inner = IndexMap::with_capacity_and_hasher(alloc, capacity.get(), hasher)?;
        inner.insert(k, v)?;
        Ok(NEIndexMap { inner })
    }

    /// Creates a map that holds the key `k` with the value `v`, with the hasher `hasher`.
    ///
    /// Returns `AllocError` if the allocation fails; the hasher and the pair are then dropped.
    ///
    /// ```
    /// let hasher = BuildHasherDefault::new();
    /// let map: NEIndexMap<u32, u32> = NEIndexMap::with_hasher(alloc, hasher, 8, 50)?; // {8: 50}
    /// ```
    pub fn with_hasher(alloc: Global, hasher: S, k: K, v: V) -> Result<Self, AllocError>
    where
        K: Drop,
        V: Drop,
        S: Drop,
        ensures entries { IfOk result (λ m. m.entries ≡ (k, v) ∷ []) }
        ensures value { IfOk result (λ m. get K.eq m k ≡ Some v) }
        ensures hasher { IfOk result (λ m. hasher_of m ≡ hasher) }
    {
        let mut inner = IndexMap::with_hasher(alloc, hasher);
        inner.insert(k, v)?;
        Ok(NEIndexMap { inner })
    }

    /// Returns the map as a non-empty map, or `None` if and only if it is empty. The entries and
    /// the hasher stay as they are, and nothing is allocated.
    ///
    /// ```
    /// let inner: IndexMap<u32, u32> = [(4, 1), (2, 2)].into_iter().collect(alloc)?;
    /// let some = NEIndexMap::try_from_map(inner); // Some({4: 1, 2: 2})
    /// let inner: IndexMap<u32, u32> = Vec::new(alloc).into_iter().collect(alloc)?;
    /// let none = NEIndexMap::try_from_map(inner); // None
    /// ```
    pub fn try_from_map(map: IndexMap<K, V, S>) -> Option<Self>
    where
        S: Drop,
        ensures { MatchOption result (IsEmpty map) (λ m. m ≡ map) }
    {
        if map.is_empty() {
            map.destroy_empty();
            None
        } else {
            Some(NEIndexMap::wrap(map))
        }
    }

    /// Returns the inner `IndexMap` unchanged, with its hasher. Its type no longer guarantees a
    /// key. The Rust crate has only `From`, which is here too.
    ///
    /// ```
    /// let inner = neim![alloc; 4 => 26, 2 => 24]?.into_map(); // {4: 26, 2: 24}
    /// ```
    pub fn into_map(self) -> IndexMap<K, V, S>
        ensures same { result ≡ self }
        ensures valid { IsValid K.eq result }
    {
        self.inner
    }

    /// Returns how many keys the map has room for, which is at least `len`.
    pub fn capacity(&self) -> NonZeroUsize
        ensures room { non_zero_usize_get result ≡ index_map_len self.now + spare self.now }
        ensures at_least_len { index_map_len self.now ≤ non_zero_usize_get result }
    {
        NonZeroUsize::new(self.inner.capacity()).unwrap()
    }

    /// Returns the hasher that the map was created with.
    pub fn hasher(&self) -> &S
        ensures { result.now ≡ hasher_of self.now }
    {
        self.inner.hasher()
    }

    /// Returns the crate `indexmap`'s iterator over the pairs, in the map's order.
    ///
    /// ```
    /// let map = neim![alloc; 0 => 3, 2 => 1]?;
    /// let pairs = map.iter(); // (&0, &3) and (&2, &1)
    /// ```
    pub fn iter(&self) -> map::Iter<'_, K, V>
        ensures rest { result ≡ self.now.entries }
        // Each run of `next` yields what is left, in order, and so its values.
        ensures runs { ShowsInOrder (deref_pair {K = K} {X = V}) }
        ensures values_run { ShowsValuesInOrder (deref_pair {K = K} {X = V}) }
        ensures fits { index_map_len self.now < 2 ^ 63 }
        ensures valid { IsValid K.eq self.now }
    {
        self.inner.iter()
    }

    /// Returns the crate `indexmap`'s iterator over the pairs with mutable references to the
    /// values, in the map's order. The keys and their order do not change.
    ///
    /// ```
    /// let mut map = neim![alloc; 4 => 0u32, 2 => 1]?;
    /// for (_key, value) in map.iter_mut() {
    ///     *value = value.wrapping_mul(31).wrapping_add(1);
    /// } // {4: 1, 2: 32}
    /// ```
    pub fn iter_mut(&mut self) -> map::IterMut<'_, K, V>
        // Once the iterator is gone, the map has its old keys with the values last written.
        ensures* writes_back { sem 𝓛 (LendsValues K.row V.row S.row S.Hasher.row K.Hash
            S.BuildHasher S.Hasher.Hasher self.entry (iter_mut_name result)) }
        // Whatever is written, the keys and their number stay.
        ensures keeps { KeepsKeys self.old }
        // `next` may be called.
        ensures ready { IterMutCanStep result }
        ensures rest { iter_mut_rest result ≡ self.old.entries }
        ensures fits { index_map_len self.old < 2 ^ 63 }
        // Each run of `next` lends the values of what is left, in order.
        ensures values_run { LendsValuesInOrder (iter_mut_rest {K = K} {V = V}) }
        ensures valid { IsValid K.eq self.old }
    {
        self.inner.iter_mut()
    }

    /// Returns a non-empty iterator over the pairs, in the map's order.
    ///
    /// ```
    /// let map = neim![alloc; 0 => 3, 2 => 1]?;
    /// let pairs = map.nonempty_iter(); // (&0, &3) and (&2, &1)
    /// ```
    pub fn nonempty_iter(&self) -> Iter<'_, K, V>
        ensures entries { result ≡ self.now.entries }
        // As the source of a chain, it yields these items.
        ensures lists { ListsEntries (deref_pair {K = K} {X = V}) result self.now.entries }
        // `get` finds each entry.
        ensures found { FindsEach (get K.eq self.now) self.now.entries }
        ensures valid { IsValid K.eq self.now }
    {
        NonEmptyIter::new(self.inner.iter())
    }

    /// Returns a non-empty iterator over the pairs with mutable references to the values, in the
    /// map's order. The keys and their order do not change.
    ///
    /// ```
    /// let mut map = neim![alloc; 4 => 1u32, 2 => 32]?;
    /// for (_key, value) in map.nonempty_iter_mut() {
    ///     *value = value.wrapping_mul(31).wrapping_add(2);
    /// } // {4: 33, 2: 994}
    /// ```
    pub fn nonempty_iter_mut(&mut self) -> IterMut<'_, K, V>
        // Once the iterator is gone, the map has its old keys with the values last written.
        ensures* writes_back { sem 𝓛 (LendsValues K.row V.row S.row S.Hasher.row K.Hash
            S.BuildHasher S.Hasher.Hasher self.entry (iter_mut_name (inner_iterator result))) }
        // Whatever is written, the keys and their number stay.
        ensures keeps { KeepsKeys self.old }
        // `next` may be called.
        ensures ready { IterMutCanStep (inner_iterator result) }
        ensures rest { iter_mut_rest (inner_iterator result) ≡ self.old.entries }
        ensures fits { index_map_len self.old < 2 ^ 63 }
        // Each run of `next` lends the values of what is left, in order.
        ensures values_run { LendsValuesInOrder (iter_mut_rest {K = K} {V = V}) }
        ensures valid { IsValid K.eq self.old }
    {
        IterMut {
            inner: self.iter_mut(),
        }
    }

    /// Returns a non-empty iterator over the keys, in the map's order.
    ///
    /// ```
    /// let map = neim![alloc; 0 => 3, 2 => 1]?;
    /// let keys = map.keys(); // &0 and &2
    /// ```
    pub fn keys(&self) -> Keys<'_, K, V>
        ensures keys { result ≡ keys self.now }
        // As the source of a chain, it yields these items.
        ensures lists { ListsEntries (deref {X = K}) result (keys self.now) }
        ensures found { (q : K) → is_some (get K.eq self.now q) ≡ is_member K.eq result q }
        ensures len { length result ≡ index_map_len self.now }
        ensures valid { IsValid K.eq self.now }
    {
        NonEmptyIter::new(self.inner.keys())
    }

    /// Returns the number of keys, which is at least 1.
    ///
    /// ```
    /// let len = neim![alloc; 1 => 10, 2 => 20, 1 => 30]?.len().get(); // 2
    /// ```
    pub fn len(&self) -> NonZeroUsize
        ensures len { non_zero_usize_get result ≡ index_map_len self.now }
        ensures valid { IsValid K.eq self.now }
    {
        NonZeroUsize::new(self.inner.len()).unwrap()
    }

    /// Returns `false`: the map always holds a key.
    ///
    /// It exists for code that is written for `IndexMap` too. It is deprecated in the Rust crate.
    pub fn is_empty(&self) -> bool
        ensures never { result ≡ false }
        ensures valid { IsValid K.eq self.now }
    {
        self.inner.is_empty()
    }

    /// Returns a non-empty iterator over the values, in the order of their keys.
    ///
    /// ```
    /// let map = neim![alloc; 0 => 3, 2 => 1]?;
    /// let values = map.values(); // &3 and &1
    /// ```
    pub fn values(&self) -> Values<'_, K, V>
        ensures values { result ≡ values self.now }
        // As the source of a chain, it yields these items.
        ensures lists { ListsEntries (deref {X = V}) result (values self.now) }
        ensures len { length result ≡ index_map_len self.now }
        ensures valid { IsValid K.eq self.now }
    {
        NonEmptyIter::new(self.inner.values())
    }

    /// Returns a non-empty iterator over mutable references to the values, in the order of their
    /// keys. The keys and their order do not change.
    ///
    /// ```
    /// let mut map = neim![alloc; 4 => 1u32, 2 => 32]?;
    /// for value in map.values_mut() {
    ///     *value = value.wrapping_mul(31).wrapping_add(2);
    /// } // {4: 33, 2: 994}
    /// ```
    pub fn values_mut(&mut self) -> ValuesMut<'_, K, V>
        // Once the iterator is gone, the map has its old keys with the values last written.
        ensures* writes_back { sem 𝓛 (LendsValues K.row V.row S.row S.Hasher.row K.Hash
            S.BuildHasher S.Hasher.Hasher self.entry
            (values_mut_name (inner_values_iterator result))) }
        // Whatever is written, the keys and their number stay.
        ensures keeps { KeepsKeys self.old }
        ensures rest { values_mut_rest (inner_values_iterator result) ≡ values self.old }
        ensures fits { index_map_len self.old < 2 ^ 63 }
        // Each run of `next` lends what is left, in order.
        ensures runs { YieldsMutRefsInOrder (values_mut_steps {K = K} {V = V}) values_mut_rest }
        ensures valid { IsValid K.eq self.old }
    {
        ValuesMut {
            inner: self.inner.values_mut(),
        }
    }

    /// Returns the first key and its value, which are always there.
    ///
    /// ```
    /// let map = neim![alloc; 4 => 26, 2 => 24]?;
    /// let first = map.first(); // (&4, &26)
    /// ```
    pub fn first(&self) -> (&K, &V)
        ensures first { slice_get self.now.entries 0 ≡ Some (deref_pair result) }
        ensures value { get K.eq self.now result.0.now ≡ Some result.1.now }
    {
        self.inner.first().unwrap()
    }

    /// Returns a mutable reference to the value of the first entry. The keys, their indices and the
    /// other values do not change.
    ///
    /// ```
    /// let mut map = neim![alloc; 2 => 24, 4 => 26]?;
    /// *map.first_mut() = 27; // {2: 27, 4: 26}
    /// ```
    pub fn first_mut(&mut self) -> &mut V
        // Once the reference is gone, the first entry has the value last written.
        ensures* writes_back { sem 𝓛 (LendsValueAt K.row V.row S.row S.Hasher.row K.Hash
            S.BuildHasher S.Hasher.Hasher self.entry 0 result) }
        ensures value { slice_get (values self.old) 0 ≡ Some result.now }
        // Whatever is written, the keys and their number stay.
        ensures stays { (w : V) → (keys (with_value_at self.old 0 w) ≡ keys self.old)
            × (index_map_len (with_value_at self.old 0 w) ≡ index_map_len self.old) }
        // The value that is written is then the first.
        ensures written { (w : V) → slice_get (values (with_value_at self.old 0 w)) 0 ≡ Some w }
        // The first key gets the value that is written, and the others keep theirs.
        ensures updates { (k : K) (v w : V) → slice_get self.old.entries 0 ≡ Some (k, v)
            → Updates K.eq self.old (with_value_at self.old 0 w) k (Some w) }
        ensures valid { IsValid K.eq self.old }
    {
        prove!(self.inner.len() > 0);
        self.value_at(0)
    }

    /// Returns the last key and its value, which are always there.
    ///
    /// ```
    /// let map = neim![alloc; 4 => 26, 2 => 24]?;
    /// let last = map.last(); // (&2, &24)
    /// ```
    pub fn last(&self) -> (&K, &V)
        ensures last { slice_get self.now.entries (index_map_len self.now - 1)
            ≡ Some (deref_pair result) }
        ensures value { get K.eq self.now result.0.now ≡ Some result.1.now }
    {
        self.inner.last().unwrap()
    }

    /// Returns a mutable reference to the value of the last entry. The keys, their indices and the
    /// other values do not change.
    ///
    /// ```
    /// let mut map = neim![alloc; 2 => 24, 4 => 26]?;
    /// *map.last_mut() = 27; // {2: 24, 4: 27}
    /// ```
    pub fn last_mut(&mut self) -> &mut V
        // Once the reference is gone, the last entry has the value last written.
        ensures* writes_back { sem 𝓛 (LendsValueAt K.row V.row S.row S.Hasher.row K.Hash
            S.BuildHasher S.Hasher.Hasher self.entry (index_map_len self.old - 1) result) }
        ensures value { slice_get (values self.old) (index_map_len self.old - 1)
            ≡ Some result.now }
        // Whatever is written, the keys and their number stay.
        ensures stays { (w : V) → let last = index_map_len self.old - 1 in
            (keys (with_value_at self.old last w) ≡ keys self.old)
            × (index_map_len (with_value_at self.old last w) ≡ index_map_len self.old) }
        // The value that is written is then the last.
        ensures written { (w : V) → let last = index_map_len self.old - 1 in
            slice_get (values (with_value_at self.old last w)) last ≡ Some w }
        // The last key gets the value that is written, and the others keep theirs.
        ensures updates { (k : K) (v w : V) → let last = index_map_len self.old - 1 in
            slice_get self.old.entries last ≡ Some (k, v)
            → Updates K.eq self.old (with_value_at self.old last w) k (Some w) }
        ensures valid { IsValid K.eq self.old }
    {
        let last = self.inner.len() - 1;
        self.value_at(last)
    }

    /// Returns whether the map holds a key equal to `k`.
    ///
    /// ```
    /// let map = neim![alloc; 4 => 26, 2 => 24]?;
    /// let (there, absent) = (map.contains_key(&2), map.contains_key(&8)); // true and false
    /// ```
    pub fn contains_key<Q: Equivalent<K>>(&self, k: Q) -> bool
        ensures { result ≡ is_some (get_by (Q.equivalent k) self.now) }
    {
        self.inner.contains_key(k)
    }

    /// Returns the value of the key equal to `k`, or `None` if there is no such key.
    ///
    /// ```
    /// let map = neim![alloc; 1 => 10, 2 => 20, 1 => 30]?;
    /// let (one, three) = (map.get(&1), map.get(&3)); // Some(&30) and None
    /// let ages = neim![alloc; String::from_str(alloc, "Ada")? => 36]?;
    /// let (ada, none) = (ages.get("Ada"), ages.get("Al")); // Some(&36) and None
    /// ```
    pub fn get<Q: Equivalent<K>>(&self, k: Q) -> Option<&V>
        ensures value { option_copied result ≡ get_by (Q.equivalent k) self.now }
        ensures member { IfSome result (λ v. IsAmong (values self.now) v.now) }
    {
        self.inner.get(k)
    }

    /// Returns the key equal to `k`, as it is in the map, and its value, or `None` if there is no
    /// such key.
    ///
    /// ```
    /// let map = neim![alloc; 0 => 3, 2 => 1]?;
    /// let pair = map.get_key_value(&2); // Some((&2, &1))
    /// ```
    pub fn get_key_value<Q: Equivalent<K>>(&self, k: Q) -> Option<(&K, &V)>
        ensures key { option_map (λ p. p.0.now) result ≡ get_key_by (Q.equivalent k) self.now }
        ensures value { option_map (λ p. p.1.now) result ≡ get_by (Q.equivalent k) self.now }
    {
        self.inner.get_key_value(k)
    }

    /// Returns a mutable reference to the value of the key equal to `k`, or `None` if there is no
    /// such key. The keys, their indices and the other values do not change.
    ///
    /// ```
    /// let mut map = neim![alloc; 4 => 26, 2 => 24]?;
    /// if let Some(value) = map.get_mut(&4) {
    ///     *value = 27; // {4: 27, 2: 24}
    /// }
    /// ```
    pub fn get_mut<Q: Equivalent<K>>(&mut self, k: Q) -> Option<&mut V>
        // Once the reference is gone, the key has the value last written.
        ensures* writes_back { sem 𝓛 (LendsValue K.row V.row S.row S.Hasher.row K.Hash
            S.BuildHasher S.Hasher.Hasher self.entry (Q.equivalent k) result) }
        ensures value { option_copied_mut result ≡ get_by (Q.equivalent k) self.old }
        ensures valid { IsValid K.eq self.old }
    {
        self.inner.get_mut(k)
    }

    /// Returns the index of the key equal to `k`, or `None` if there is no such key.
    ///
    /// ```
    /// let map = neim![alloc; 0 => 3, 2 => 1]?;
    /// let index = map.get_index_of(&2); // Some(1)
    /// let none = map.get_index_of(&4); // None
    /// ```
    pub fn get_index_of<Q: Equivalent<K>>(&self, k: Q) -> Option<usize>
        ensures place { result ≡ index_of_by (Q.equivalent k) self.now }
        ensures found { is_some result ≡ is_some (get_by (Q.equivalent k) self.now) }
        ensures within { IfSome result (λ i. i < index_map_len self.now) }
        ensures value { IfSome result (λ i. slice_get (values self.now) i
            ≡ get_by (Q.equivalent k) self.now) }
        ensures valid { IsValid K.eq self.now }
    {
        self.inner.get_index_of(k)
    }

    /// Inserts a key and its value, and returns the old value of an equal key, or `None` if the key
    /// is new. An equal key that is in the map stays there, at its index, and takes the new value,
    /// and `k` is dropped. A new key is added at the end.
    ///
    /// Returns `AllocError` if the map has to grow and the allocation fails. This can happen only
    /// for a new key; the entries are then unchanged and the pair is dropped.
    ///
    /// ```
    /// let mut map = NEIndexMap::new(alloc, 4, 20)?;
    /// let none = map.insert(2, 21)?; // None: the key is new
    /// let old = map.insert(4, 22)?; // Some(20), and the map is {4: 22, 2: 21}
    /// ```
    pub fn insert(&mut self, k: K, v: V) -> Result<Option<V>, AllocError>
    where
        K: Drop,
        V: Drop,
        ensures old { IfOk result (λ old. old ≡ get K.eq self.old k) }
        ensures updates { OnOk result (Updates K.eq self.old self.new k (Some v)) }
        ensures entries { OnOk result (self.new.entries ≡ put_entry K.eq self.old.entries k v) }
        ensures keys { OnOk result (keys self.new ≡ put_item K.eq (keys self.old) k) }
        ensures new_last { IfOk result (λ old. IfNone old
            (self.new.entries ≡ self.old.entries ++ (k, v) ∷ [])) }
        ensures keys_stay { IfOk result (λ old. IsSome old → keys self.new ≡ keys self.old) }
        ensures len { IfOk result (λ old. index_map_len self.new
            ≡ index_map_len self.old + (if is_some old then 0 else 1)) }
        // Only a new key can fail; the entries then stay.
        ensures refused { OnErr result (get K.eq self.old k ≡ None) }
        ensures unchanged { OnErr result (IsUnchanged self.old self.new) }
        ensures hasher { hasher_of self.new ≡ hasher_of self.old }
        ensures valid { IsValid K.eq self.new }
    {
        Ok(self.inner.insert(k, v)?)
    }

    /// Returns a mutable reference to the value of the key equal to `k`. If there is no such key,
    /// `k` is first added at the end, with the value `v`. A key that is in the map stays there, at
    /// its index, and `k` and `v` are dropped.
    ///
    /// Returns `AllocError` if the map has to grow and the allocation fails. This can happen only
    /// for a new key; the entries are then unchanged and the pair is dropped.
    ///
    /// ```
    /// let mut map = neim![alloc; 2 => 24]?;
    /// *map.or_insert(4, 0)? += 1;
    /// *map.or_insert(2, 0)? += 1; // {2: 25, 4: 1}
    /// ```
    pub fn or_insert(&mut self, k: K, v: V) -> Result<&mut V, AllocError>
    where
        K: Drop,
        V: Drop,
        // Once the reference is gone, the map is as after `insert` of the value last written.
        ensures* writes_back { sem 𝓛 (LendsInserted K.row V.row S.row S.Hasher.row K.Hash
            S.BuildHasher S.Hasher.Hasher self.entry k result) }
        ensures value { IfOk result (λ r. r.now ≡ unwrap_or (get K.eq self.old k) v) }
        // Only a new key can fail.
        ensures refused { OnErr result (get K.eq self.old k ≡ None) }
        ensures valid { IsValid K.eq self.old }
    {
        let index = self.index_or_insert(k, v)?;
        Ok(self.value_at(index))
    }

    /// Releases room that the map does not need. The entries and their order do not change.
    ///
    /// If the allocation of the smaller room fails, the map keeps the room that it has, so this
    /// never returns `AllocError`.
    pub fn shrink_to_fit(&mut self) -> Result<(), AllocError>
        ensures done { IsOk result }
        ensures unchanged { IsUnchanged self.old self.new }
        ensures hasher { hasher_of self.new ≡ hasher_of self.old }
        ensures valid { IsValid K.eq self.new }
    {
        self.inner.shrink_to_fit();
        Ok(())
    }

    /// Swaps the pairs at the indices `a` and `b`. All other pairs stay where they are.
    ///
    /// Both indices must be less than `len`; the Rust crate panics on others.
    ///
    /// ```
    /// let mut map = neim![alloc; 0 => 5, 2 => 7]?;
    /// map.swap_indices(0, 1); // {2: 7, 0: 5}
    /// ```
    pub fn swap_indices(&mut self, a: usize, b: usize)
        requires a { a < index_map_len self.old }
        requires b { b < index_map_len self.old }
        ensures entries { self.new.entries ≡ swap self.old.entries a b }
        ensures reordered { IsReordered K.eq self.old self.new }
        ensures hasher { hasher_of self.new ≡ hasher_of self.old }
        ensures valid { IsValid K.eq self.new }
    {
        self.inner.swap_indices(a, b);
    }

    /// Inserts the pairs, in order. Each key has the value of its last pair. A key that is already
    /// in the map stays as it is, at its index. New keys are added at the end, in the order in
    /// which they first appear.
    ///
    /// Returns `AllocError` if the map has to grow and the allocation fails. The pairs before the
    /// one that failed are then in the map, and that one is dropped.
    ///
    /// ```
    /// let mut map = neim![alloc; 4 => 22, 2 => 21]?;
    /// map.extend([(6, 23), (2, 24)])?; // {4: 22, 2: 24, 6: 23}
    /// ```
    pub fn extend<I: IntoIterator<Item = (K, V)>>(&mut self, iter: I) -> Result<(), AllocError>
    where
        K: Drop,
        V: Drop,
        requires { IsFiniteIterable I.into_iter_gives I.IntoIter.can_next I.IntoIter.remaining
            iter }
        // The map of the old pairs and those that were added: at `Ok`, all of the source.
        ensures ran { ExtendsWithItems I.into_iter_gives I.IntoIter.next_gives
            (λ old pairs new. IsKeyListMapOf K.eq (old.entries ++ pairs) new.entries
            × (hasher_of new ≡ hasher_of old))
            iter self.old self.new result }
        // The same at `Ok`, by the list of the source.
        ensures lists { OnOk result (ExtendsByList (⟦<I as ItemSource>⟧.lists itself)
            (MeetsList I.into_iter_gives I.IntoIter.next_gives itself) iter self.old.entries
            (λ all. IsKeyListMapOf K.eq all self.new.entries)) }
        ensures hasher { hasher_of self.new ≡ hasher_of self.old }
        ensures valid { IsValid K.eq self.new }
    {
        self.inner.extend(iter)
    }

    /// Returns a map of clones, entry by entry. If clones equal their originals, it has the same
    /// entries.
    ///
    /// Returns `AllocError` if an allocation or a clone fails. No law says that a clone equals its
    /// original; so this also returns `AllocError` if the clone of a key does not equal the key or
    /// has another hash.
    ///
    /// ```
    /// let map = neim![alloc; 4 => 26, 2 => 24]?;
    /// let copy = map.clone()?; // {4: 26, 2: 24}
    /// ```
    pub fn clone(&self) -> Result<Self, AllocError>
    where
        K: Clone,
        V: Clone,
        S: Clone,
        ensures clones { IfOk result (λ m. IsClone K.is_clone V.is_clone self.now m
            × KeepsEntries K.is_clone V.is_clone self.now.entries m.entries) }
    {
        let inner = self.inner.clone()?;
        Ok(NEIndexMap::wrap(inner))
    }

    // Wraps a map that is not empty. The contract of `len` says that no two keys are equal.
    fn wrap(inner: IndexMap<K, V, S>) -> Self
        requires { 0 < index_map_len inner }
        ensures { result ≡ inner }
    {
        prove!(inner.len() > 0);
        NEIndexMap { inner }
    }

    // Returns the index of the key equal to `k`, which is first inserted with the value `v` if
    // there is no such key.
    fn index_or_insert(&mut self, k: K, v: V) -> Result<usize, AllocError>
    where
        K: Drop,
        V: Drop,
        ensures written { IfOk result (λ i. (w : V) → (with_value_at self.new i w).entries
            ≡ put_entry K.eq self.old.entries k w) }
        ensures value { IfOk result (λ i. slice_get (values self.new) i
            ≡ Some (unwrap_or (get K.eq self.old k) v)) }
        ensures within { IfOk result (λ i. i < index_map_len self.new) }
        ensures refused { OnErr result (get K.eq self.old k ≡ None) }
        ensures unchanged { OnErr result (IsUnchanged self.old self.new) }
        ensures hasher { hasher_of self.new ≡ hasher_of self.old }
        ensures valid { IsValid K.eq self.old }
    {
        if let Some(index) = self.inner.get_index_of(&k) {
            return Ok(index);
        }
        let (index, _old) = self.inner.insert_full(k, v)?;
        Ok(index)
    }

    // Returns a mutable reference to the value at the index.
    fn value_at(&mut self, index: usize) -> &mut V
        requires { index < index_map_len self.old }
        ensures* writes_back { sem 𝓛 (LendsValueAt K.row V.row S.row S.Hasher.row K.Hash
            S.BuildHasher S.Hasher.Hasher self.entry index result) }
        ensures value { slice_get (values self.old) index ≡ Some result.now }
        ensures stays { (w : V) → (keys (with_value_at self.old index w) ≡ keys self.old)
            × (index_map_len (with_value_at self.old index w) ≡ index_map_len self.old) }
        ensures written { (w : V) → slice_get (values (with_value_at self.old index w)) index
            ≡ Some w }
        ensures updates { (k : K) (v w : V) → slice_get self.old.entries index ≡ Some (k, v)
            → Updates K.eq self.old (with_value_at self.old index w) k (Some w) }
        ensures valid { IsValid K.eq self.old }
    {
        &mut self.inner[index]
    }
}
