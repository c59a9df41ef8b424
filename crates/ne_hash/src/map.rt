//! Hashed maps that hold at least one key, their iterators, and the traits that they implement.
//!
//! An [`NEMap`] finds a key by its hash, and iterates in an unspecified order. Keys are compared by
//! `==`. A key that is in the map stays as it is if an equal one is inserted.
//!
//! A method that removes an entry by `&mut self` never removes the only one; `retain` takes the
//! map. The Rust crate lacks these methods, and `values_mut`, `into_keys`, `into_values` and
//! `into_map`.
ghost use Rattle.std.specs.Prelude.{◌≡◌, ◌+◌, ◌<◌, ◌≤◌, ◌^◌, ◌++◌, [], ◌∷◌, if◌then◌else◌, ◌↔◌};
ghost use Rattle.std.specs.Prelude.{false, filter, is_some, length, None, IfOk, IfSome, IsOk};
ghost use Rattle.std.specs.Prelude.{MatchOption, OnErr, OnOk, Some, Bool, Contains, IsErr, IsTrue};
ghost use Rattle.std.specs.Prelude.{IsSome};
ghost use Rattle.std.specs.HashMap.{get, get_by, get_key_by, hash_map_len, hasher_of, keys, spare};
ghost use Rattle.std.specs.HashMap.{values, IsEmpty, IsReordered, IsUnchanged, PutsEntry, IsClone};
ghost use Rattle.std.specs.HashMap.{Updates, UpdatesBy};
ghost use Rattle.std.specs.HashMap.IterMut.{iter_mut_name, iter_mut_rest, values_mut_name};
ghost use Rattle.std.specs.HashMap.IterMut.{values_mut_rest, values_mut_steps, IterMutCanStep};
ghost use Rattle.std.specs.HashMap.Lent.{KeepsKeys};
ghost use Rattle.std.specs.Borrow.{sem};
ghost use Rattle.std.specs.Int.NonZero.{non_zero_usize_get};
ghost use Rattle.std.specs.Iterator.{ExtendsWithItems, IsFiniteIterable};
ghost use Rattle.std.specs.List.{IsAmong};
ghost use Rattle.std.specs.Map.Iter.{deref, deref_pair, LendsValuesInOrder, ShowsInOrder};
ghost use Rattle.std.specs.Map.Iter.{ShowsValuesInOrder};
ghost use Rattle.std.specs.Option.{option_copied, option_copied_mut, option_map};
ghost use Rattle.std.specs.Set.{is_member};
ghost use Rattle.std.specs.Iterator.Runs.{YieldsMutRefsInOrder};
ghost use Rattle.std.specs.List.Sorted.{IsPermutation};
ghost use Rattle.std.specs.Map.{remove_entry};
ghost use Rattle.std.specs.Map.Calls.{CallableOnEachPair, CalledAtPair, RetainsPairs, TakesPair};
ghost use Rattle.ne_vec.specs.Lists.{itself};
ghost use Rattle.ne_vec.specs.Taken.{TakesFoundUnlessLast};
ghost use Rattle.ne_iter.specs.Collected.{IsMapOfPairs};
ghost use Rattle.ne_iter.specs.Keyed.Extends.{ExtendsByList};
ghost use Rattle.ne_iter.specs.Keyed.Iterators.{FindsEach, KnownByValue, ListsEntries};
ghost use Rattle.ne_iter.specs.Keyed.Iterators.{ListsEntriesByValue};
ghost use Rattle.ne_iter.specs.SourceLists.{MeetsList};
ghost use Rattle.ne_iter.specs.Keyed.Clones.{KeepsEntries};
ghost use Rattle.ne_iter.specs.Keyed.KeptEntries.{either_way, kept_entries, ActsAsAtEntry};
ghost use Rattle.ne_iter.specs.Keyed.KeptEntries.{TestsEntries, TestsKeys};
ghost use Rattle.ne_hash.specs.HashLends.{std_iterator, std_values_iterator, LendsValue};
ghost use Rattle.ne_hash.specs.HashLends.{LendsValues};
ghost use Rattle.ne_hash.specs.ValidHashMap.{IsValid};

mod iter;
mod serialized;
mod traits;

pub use iter::{Held, IntoIter, IntoKeys, IntoValues, Iter, IterMut, Keys, Values, ValuesMut};
use ne_iter::iter::{ItemSource, NonEmptyIter};
use std::alloc::{AllocError, Global};
use std::collections::hash_map::Equivalent;
use std::collections::{HashMap, hash_map};
use std::hash::{BuildHasher, BuildHasherDefault, FoldHasher, Hash};
use std::marker::Model;
use std::num::NonZeroUsize;

/// A hashed map that holds at least one key. It wraps std's [`HashMap`].
///
/// The default hasher has a fixed seed. If untrusted users can choose the keys, create the map by
/// [`with_hasher`](NEMap::with_hasher) with std's `RandomState`, and fill it by `insert` or
/// `extend`:
///
/// ```
/// let map = NEMap::with_hasher(alloc, RandomState::new(&rt)?, 1, 'a')?;
/// ```
///
/// By `serde` a map is read with the default hasher, so read one of such keys as an `NEBTreeMap`.
///
/// Lookups and removals take a `&K`, or a `&str` if the keys are `String`s, or a `&[T]` if they are
/// `Vec<T>`s.
///
/// In contracts it is std's record of the map: `get K.eq m k` is the value of the key `k`,
/// `get_by_text m bs` that of the `String` whose bytes are `bs`, `m.entries` is the list of the
/// pairs in the order of iteration, `IsValid K.eq m` says that there is a key and that no two keys
/// are equal, and `hasher_of m` is the hasher.
///
/// Equality and hashing are lawful, as the laws of their traits require. That a clone equals its
/// original is assumed only where a clause says so.
///
/// ```
/// let map = nem![alloc; 1 => 10, 2 => 20, 1 => 30]?;
/// let (one, three) = (map.get(&1), map.get(&3)); // Some(&30) and None
/// let len = map.len().get(); // 2
/// ```
#[derive(Drop)]
pub struct NEMap<K: Eq + Hash, V, S: BuildHasher = BuildHasherDefault<FoldHasher>> {
    inner: HashMap<K, V, S>,
}

impl<K: Eq + Hash, V, S: BuildHasher> Model for NEMap<K, V, S> {
    ghost use Rattle.std.specs.HashMap.{HashMap as Entries};
    ghost use Rattle.std_collections.specs.Layout.HashMap.{hash_map_code};
    ghost use Rattle.ne_hash.specs.ValidHashMap.{IsValid};

    ghost Value = { Entries K V S };

    ghost coded = { hash_map_code K.code V.code S.code };

    ghost view = { λ m. m.inner };

    ghost invariant = { λ m. IsValid K.eq m.inner };
}

impl<K: Eq + Hash + Drop, V: Drop> NEMap<K, V> {
    /// Creates a map that holds the key `k` with the value `v`, with the default hasher.
    ///
    /// Returns `AllocError` if the allocation fails; the pair is then dropped.
    ///
    /// ```
    /// let map = NEMap::new(alloc, 4, 20)?; // {4: 20}
    /// ```
    pub fn new(alloc: Global, k: K, v: V) -> Result<Self, AllocError>
        ensures entries { IfOk result (λ m. m.entries ≡ (k, v) ∷ []) }
        ensures value { IfOk result (λ m. get K.eq m k ≡ Some v) }
    {
        NEMap::with_hasher(alloc, BuildHasherDefault::new(), k, v)
    }

    /// Creates a map that holds the key `k` with the value `v`, with the default hasher and room
    /// for at least `capacity` keys, `k` included.
    ///
    /// Returns `AllocError` if the allocation fails or if `capacity` is more than can be allocated;
    /// the pair is then dropped.
    ///
    /// ```
    /// let room = NonZeroUsize::new(9).unwrap();
    /// let map = NEMap::with_capacity(alloc, room, 2, 1)?; // {2: 1}, with room for 9 keys
    /// ```
    pub fn with_capacity(
        alloc: Global,
        capacity: NonZeroUsize,
        k: K,
        v: V,
    ) -> Result<Self, AllocError>
        ensures entries { IfOk result (λ m. m.entries ≡ (k, v) ∷ []) }
        ensures value { IfOk result (λ m. get K.eq m k ≡ Some v) }
        ensures room { IfOk result (λ m. non_zero_usize_get capacity ≤ hash_map_len m + spare m) }
    {
        NEMap::with_capacity_and_hasher(alloc, capacity, BuildHasherDefault::new(), k, v)
    }
}

impl<K: Eq + Hash, V, S: BuildHasher> NEMap<K, V, S> {
    /// Creates a map that holds the key `k` with the value `v`, with the hasher `hasher` and room
    /// for at least `capacity` keys, `k` included.
    ///
    /// Returns `AllocError` if the allocation fails or if `capacity` is more than can be allocated;
    /// the hasher and the pair are then dropped.
    ///
    /// ```
    /// let (room, hasher) = (NonZeroUsize::new(9).unwrap(), BuildHasherDefault::new());
    /// let mut map: NEMap<u32, u32> =
    ///     NEMap::with_capacity_and_hasher(alloc, room, hasher, 2, 1)?;
    /// let has_room = map.capacity().get() >= 9; // true
    /// let is_empty = map.is_empty(); // false
    /// map.shrink_to_fit()?; // {2: 1}
    /// let hasher = map.hasher();
    /// ```
    pub fn with_capacity_and_hasher(
        alloc: Global,
        capacity: NonZeroUsize,
        hasher: S,
        k: K,
        v: V,
    ) -> Result<Self, AllocError>
    where
        K: Drop,
        V: Drop,
        S: Drop,
        ensures entries { IfOk result (λ m. m.entries ≡ (k, v) ∷ []) }
        ensures value { IfOk result (λ m. get K.eq m k ≡ Some v) }
        ensures hasher { IfOk result (λ m. hasher_of m ≡ hasher) }
        ensures room { IfOk result (λ m. non_zero_usize_get capacity ≤ hash_map_len m + spare m) }
    {
        let inner = HashMap::with_capacity_and_hasher(alloc, capacity.get(), hasher)?;
        of_one_key(inner, k, v)
    }

    /// Creates a map that holds the key `k` with the value `v`, with the hasher `hasher`.
    ///
    /// Returns `AllocError` if the allocation fails; the hasher and the pair are then dropped.
    ///
    /// ```
    /// let hasher = BuildHasherDefault::new();
    /// let map: NEMap<u32, u32> = NEMap::with_hasher(alloc, hasher, 5, 60)?; // {5: 60}
    /// ```
    pub fn with_hasher(alloc: Global, hasher: S, k: K, v: V) -> Result<Self, AllocError>
    where
        K: Drop,
        V: Drop,
        S: Drop,
        ensures entries { IfOk result (λ m. m.entries ≡ (k, v) ∷ []) }
        ensures value { IfOk result (λ m. get K.eq m k ≡ Some v) }
        ensures hasher { IfOk result (λ m. hasher_of m ≡ hasher) }
    {
        of_one_key(HashMap::with_hasher(alloc, hasher), k, v)
    }

    /// Returns the map as a non-empty map, or `None` if and only if it is empty. The entries and
    /// the hasher stay as they are, and nothing is allocated.
    ///
    /// ```
    /// let mut inner = HashMap::new(alloc);
    /// inner.insert(4, 1)?;
    /// inner.insert(2, 2)?;
    /// let some = NEMap::try_from_map(inner); // Some({2: 2, 4: 1})
    /// let empty: HashMap<u32, u32> = HashMap::new(alloc);
    /// let none = NEMap::try_from_map(empty); // None
    /// ```
    pub fn try_from_map(map: HashMap<K, V, S>) -> Option<Self>
    where
        S: Drop,
        ensures { MatchOption result (IsEmpty map) (λ m. m ≡ map) }
    {
        if map.is_empty() {
            map.destroy_empty();
            None
        } else {
            Some(NEMap::wrap(map))
        }
    }

    /// Returns the inner `HashMap` unchanged, with its hasher. Its type no longer guarantees a key.
    /// The Rust crate has only `From`, which is here too.
    ///
    /// ```
    /// let inner = nem![alloc; 2 => 24, 4 => 26]?.into_map(); // {2: 24, 4: 26}
    /// ```
    pub fn into_map(self) -> HashMap<K, V, S>
        ensures same { result ≡ self }
        ensures valid { IsValid K.eq result }
    {
        self.inner
    }

    /// Returns how many keys the map has room for, which is at least `len`.
    pub fn capacity(&self) -> NonZeroUsize
        ensures room { non_zero_usize_get result ≡ hash_map_len self.now + spare self.now }
        ensures at_least_len { hash_map_len self.now ≤ non_zero_usize_get result }
    {
        NonZeroUsize::new(self.inner.capacity()).unwrap()
    }

    /// Returns the hasher that the map was created with.
    pub fn hasher(&self) -> &S
        ensures { result.now ≡ hasher_of self.now }
    {
        self.inner.hasher()
    }

    /// Returns std's iterator over the pairs, in an unspecified order.
    ///
    /// ```
    /// let map = nem![alloc; 0 => 3, 2 => 1]?;
    /// let pairs = map.iter(); // (&0, &3) and (&2, &1), in some order
    /// ```
    pub fn iter(&self) -> hash_map::Iter<'_, K, V>
        ensures rest { result ≡ self.now.entries }
        // Each run of `next` yields what is left, in order, and so its values.
        ensures runs { ShowsInOrder (deref_pair {K = K} {X = V}) }
        ensures values_run { ShowsValuesInOrder (deref_pair {K = K} {X = V}) }
        ensures fits { hash_map_len self.now < 2 ^ 63 }
        ensures valid { IsValid K.eq self.now }
    {
        self.inner.iter()
    }

    /// Returns std's iterator over the pairs with mutable references to the values, in an
    /// unspecified order. The keys and their number do not change.
    ///
    /// ```
    /// let mut map = nem![alloc; 2 => 0u32, 4 => 1]?;
    /// for (_key, value) in map.iter_mut() {
    ///     *value = value.wrapping_mul(31).wrapping_add(1);
    /// } // {2: 1, 4: 32}
    /// ```
    pub fn iter_mut(&mut self) -> hash_map::IterMut<'_, K, V>
        // Once the iterator is gone, the map has its old keys with the values last written.
        ensures* writes_back { sem 𝓛 (LendsValues K.row V.row S.row S.Hasher.row K.Hash
            S.BuildHasher S.Hasher.Hasher self.entry (iter_mut_name result)) }
        // Whatever is written, the keys and their number stay.
        ensures keeps { KeepsKeys self.old }
        // `next` may be called.
        ensures ready { IterMutCanStep result }
        ensures rest { iter_mut_rest result ≡ self.old.entries }
        ensures fits { hash_map_len self.old < 2 ^ 63 }
        // Each run of `next` lends the values of what is left, in order.
        ensures values_run { LendsValuesInOrder (iter_mut_rest {K = K} {X = V}) }
        ensures valid { IsValid K.eq self.old }
    {
        self.inner.iter_mut()
    }

    /// Returns a non-empty iterator over the pairs, in an unspecified order.
    ///
    /// ```
    /// let map = nem![alloc; 0 => 3, 2 => 1]?;
    /// let pairs = map.nonempty_iter(); // (&0, &3) and (&2, &1), in some order
    /// ```
    pub fn nonempty_iter(&self) -> Iter<'_, K, V>
        ensures entries { result ≡ self.now.entries }
        // As the source of a chain, it yields these items.
        ensures lists { ListsEntries (deref_pair {K = K} {X = V}) result self.now.entries }
        // `get` finds each entry.
        ensures found { FindsEach (get K.eq self.now) self.now.entries }
        ensures valid { IsValid K.eq self.now }
    {
        NonEmptyIter::new(self.inner.iter())
    }

    /// Returns a non-empty iterator over the pairs with mutable references to the values, in an
    /// unspecified order. The keys and their number do not change.
    ///
    /// ```
    /// let mut map = nem![alloc; 2 => 1u32, 4 => 32]?;
    /// for (_key, value) in map.nonempty_iter_mut() {
    ///     *value = value.wrapping_mul(31).wrapping_add(2);
    /// } // {2: 33, 4: 994}
    /// ```
    pub fn nonempty_iter_mut(&mut self) -> IterMut<'_, K, V>
        // Once the iterator is gone, the map has its old keys with the values last written.
        ensures* writes_back { sem 𝓛 (LendsValues K.row V.row S.row S.Hasher.row K.Hash
            S.BuildHasher S.Hasher.Hasher self.entry (iter_mut_name (std_iterator result))) }
        // Whatever is written, the keys and their number stay.
        ensures keeps { KeepsKeys self.old }
        // `next` may be called.
        ensures ready { IterMutCanStep (std_iterator result) }
        ensures rest { iter_mut_rest (std_iterator result) ≡ self.old.entries }
        ensures fits { hash_map_len self.old < 2 ^ 63 }
        // Each run of `next` lends the values of what is left, in order.
        ensures values_run { LendsValuesInOrder (iter_mut_rest {K = K} {X = V}) }
        ensures valid { IsValid K.eq self.old }
    {
        IterMut {
            inner: self.iter_mut(),
        }
    }

    /// Returns a non-empty iterator over the keys. The order is unspecified, but it is that of the
    /// pairs.
    ///
    /// ```
    /// let map = nem![alloc; 0 => 3, 2 => 1]?;
    /// let keys = map.keys(); // &0 and &2, in some order
    /// ```
    pub fn keys(&self) -> Keys<'_, K, V>
        ensures keys { result ≡ keys self.now }
        // As the source of a chain, it yields these items.
        ensures lists { ListsEntries (deref {X = K}) result (keys self.now) }
        ensures found { (q : K) → is_some (get K.eq self.now q) ≡ is_member K.eq result q }
        ensures len { length result ≡ hash_map_len self.now }
        ensures valid { IsValid K.eq self.now }
    {
        NonEmptyIter::new(self.inner.keys())
    }

    /// Returns a non-empty iterator over the keys by value. The order is unspecified, but it is
    /// that of the pairs. The values are dropped.
    ///
    /// ```
    /// let keys = nem![alloc; 0 => 3, 2 => 1]?.into_keys(); // 0 and 2, in some order
    /// ```
    pub fn into_keys(self) -> IntoKeys<K, V>
    where
        K: Drop,
        V: Drop,
        S: Drop,
        ensures keys { result ≡ keys self }
        // As the source of a chain, it yields these items.
        ensures lists { ListsEntriesByValue KnownByValue result (keys self) }
        ensures found { (q : K) → is_some (get K.eq self q) ≡ is_member K.eq result q }
        ensures len { length result ≡ hash_map_len self }
    {
        NonEmptyIter::new(self.inner.into_keys())
    }

    /// Returns the number of keys, which is at least 1.
    ///
    /// ```
    /// let len = nem![alloc; 1 => 10, 2 => 20, 1 => 30]?.len().get(); // 2
    /// ```
    pub fn len(&self) -> NonZeroUsize
        ensures len { non_zero_usize_get result ≡ hash_map_len self.now }
        ensures valid { IsValid K.eq self.now }
    {
        NonZeroUsize::new(self.inner.len()).unwrap()
    }

    /// Returns `false`: the map always holds a key.
    ///
    /// It exists for code that is written for `HashMap` too. It is deprecated in the Rust crate.
    pub fn is_empty(&self) -> bool
        ensures never { result ≡ false }
        ensures valid { IsValid K.eq self.now }
    {
        self.inner.is_empty()
    }

    /// Returns a non-empty iterator over the values. The order is unspecified, but it is that of
    /// the pairs.
    ///
    /// ```
    /// let map = nem![alloc; 0 => 3, 2 => 1]?;
    /// let values = map.values(); // &3 and &1, in some order
    /// ```
    pub fn values(&self) -> Values<'_, K, V>
        ensures values { result ≡ values self.now }
        // As the source of a chain, it yields these items.
        ensures lists { ListsEntries (deref {X = V}) result (values self.now) }
        ensures len { length result ≡ hash_map_len self.now }
        ensures valid { IsValid K.eq self.now }
    {
        NonEmptyIter::new(self.inner.values())
    }

    /// Returns a non-empty iterator over mutable references to the values. The order is
    /// unspecified, but it is that of the pairs. The keys and their number do not change.
    ///
    /// ```
    /// let mut map = nem![alloc; 2 => 1u32, 4 => 32]?;
    /// for value in map.values_mut() {
    ///     *value = value.wrapping_mul(31).wrapping_add(2);
    /// } // {2: 33, 4: 994}
    /// ```
    pub fn values_mut(&mut self) -> ValuesMut<'_, K, V>
        // Once the iterator is gone, the map has its old keys with the values last written.
        ensures* writes_back { sem 𝓛 (LendsValues K.row V.row S.row S.Hasher.row K.Hash
            S.BuildHasher S.Hasher.Hasher self.entry
            (values_mut_name (std_values_iterator result))) }
        // Whatever is written, the keys and their number stay.
        ensures keeps { KeepsKeys self.old }
        ensures rest { values_mut_rest (std_values_iterator result) ≡ values self.old }
        ensures fits { hash_map_len self.old < 2 ^ 63 }
        // Each run of `next` lends what is left, in order.
        ensures runs { YieldsMutRefsInOrder (values_mut_steps {K = K} {X = V}) values_mut_rest }
        ensures valid { IsValid K.eq self.old }
    {
        ValuesMut {
            inner: self.inner.values_mut(),
        }
    }

    /// Returns a non-empty iterator over the values by value. The order is unspecified, but it is
    /// that of the pairs. The keys are dropped.
    ///
    /// ```
    /// let values = nem![alloc; 0 => 3, 2 => 1]?.into_values(); // 3 and 1, in some order
    /// ```
    pub fn into_values(self) -> IntoValues<K, V>
    where
        K: Drop,
        V: Drop,
        S: Drop,
        ensures values { result ≡ values self }
        // As the source of a chain, it yields these items.
        ensures lists { ListsEntriesByValue KnownByValue result (values self) }
        ensures found { (k : K) (v : V) → get K.eq self k ≡ Some v → Contains result v }
        ensures len { length result ≡ hash_map_len self }
    {
        NonEmptyIter::new(self.inner.into_values())
    }

    /// Returns whether the map holds a key equal to `k`.
    ///
    /// ```
    /// let map = nem![alloc; 2 => 24, 4 => 26]?;
    /// let (there, absent) = (map.contains_key(&2), map.contains_key(&8)); // true and false
    /// ```
    pub fn contains_key<Q: Equivalent<K>>(&self, k: Q) -> bool
        ensures { result ≡ is_some (get_by (Q.equivalent k) self.now) }
    {
        self.inner.contains_key(k)
    }

    /// Returns the value of the key equal to `k`, or `None` if there is no such key.
    ///
    /// ```
    /// let map = nem![alloc; 1 => 10, 2 => 20, 1 => 30]?;
    /// let (one, three) = (map.get(&1), map.get(&3)); // Some(&30) and None
    /// let ages = nem![alloc; String::from_str(alloc, "Ada")? => 36]?;
    /// let (ada, none) = (ages.get("Ada"), ages.get("Al")); // Some(&36) and None
    /// ```
    pub fn get<Q: Equivalent<K>>(&self, k: Q) -> Option<&V>
        ensures value { option_copied result ≡ get_by (Q.equivalent k) self.now }
        ensures member { IfSome result (λ v. IsAmong (values self.now) v.now) }
    {
        self.inner.get(k)
    }

    /// Returns the key equal to `k`, as it is in the map, and its value, or `None` if there is no
    /// such key.
    ///
    /// ```
    /// let map = NEMap::new(alloc, 4, 20)?;
    /// let pair = map.get_key_value(&4); // Some((&4, &20))
    /// ```
    pub fn get_key_value<Q: Equivalent<K>>(&self, k: Q) -> Option<(&K, &V)>
        ensures key { option_map (λ p. p.0.now) result ≡ get_key_by (Q.equivalent k) self.now }
        ensures value { option_map (λ p. p.1.now) result ≡ get_by (Q.equivalent k) self.now }
    {
        self.inner.get_key_value(k)
    }

    /// Returns a mutable reference to the value of the key equal to `k`, or `None` if there is no
    /// such key. The keys and the other values do not change.
    ///
    /// ```
    /// let mut map = nem![alloc; 2 => 24, 4 => 26]?;
    /// if let Some(value) = map.get_mut(&4) {
    ///     *value = 27; // {2: 24, 4: 27}
    /// }
    /// ```
    pub fn get_mut<Q: Equivalent<K>>(&mut self, k: Q) -> Option<&mut V>
        // Once the reference is gone, the key has the value last written.
        ensures* writes_back { sem 𝓛 (LendsValue K.row V.row S.row S.Hasher.row K.Hash
            S.BuildHasher S.Hasher.Hasher self.entry (Q.equivalent k) result) }
        ensures value { option_copied_mut result ≡ get_by (Q.equivalent k) self.old }
        ensures valid { IsValid K.eq self.old }
    {
        self.inner.get_mut(k)
    }

    /// Inserts a key and its value, and returns the old value of an equal key, or `None` if the key
    /// is new. An equal key that is in the map stays there and takes the new value, and `k` is
    /// dropped.
    ///
    /// Returns `AllocError` if the map has to grow and the allocation fails. This can happen only
    /// for a new key; the entries are then unchanged and the pair is dropped.
    ///
    /// ```
    /// let mut map = NEMap::new(alloc, 4, 20)?;
    /// let none = map.insert(2, 21)?; // None: the key is new
    /// let old = map.insert(4, 22)?; // Some(20), and the map is {2: 21, 4: 22}
    /// ```
    pub fn insert(&mut self, k: K, v: V) -> Result<Option<V>, AllocError>
    where
        K: Drop,
        V: Drop,
        ensures old { IfOk result (λ old. old ≡ get K.eq self.old k) }
        ensures updates { OnOk result (Updates K.eq self.old self.new k (Some v)) }
        ensures entries { IfOk result (PutsEntry K.eq self.old self.new k v) }
        ensures keys_stay { IfOk result (λ old. IsSome old → keys self.new ≡ keys self.old) }
        ensures len { IfOk result (λ old. hash_map_len self.new
            ≡ hash_map_len self.old + (if is_some old then 0 else 1)) }
        // Only a new key can fail; the entries then stay.
        ensures refused { OnErr result (get K.eq self.old k ≡ None) }
        ensures unchanged { OnErr result (IsUnchanged self.old self.new) }
        ensures hasher { hasher_of self.new ≡ hasher_of self.old }
        ensures valid { IsValid K.eq self.new }
    {
        Ok(self.inner.insert(k, v)?)
    }

    /// Removes the key equal to `k` and returns its value. Returns `None` if there is no such key,
    /// or if it is the only one, which then stays. The order of iteration may change.
    ///
    /// ```
    /// let mut map = nem![alloc; 2 => 24, 4 => 26]?;
    /// let removed = map.remove(&2); // Some(24)
    /// let none = map.remove(&4); // None: the only key stays
    /// let stays = map.get(&4); // Some(&26)
    /// ```
    pub fn remove<Q: Equivalent<K>>(&mut self, k: Q) -> Option<V>
    where
        K: Drop,
        // `None` if and only if the key is absent or the only one; then nothing changes.
        ensures entries { TakesFoundUnlessLast (get_by (Q.equivalent k) self.old ≡ None)
            self.old.entries self.new.entries result
            (λ v. (get_by (Q.equivalent k) self.old ≡ Some v)
            × IsPermutation (remove_entry (Q.equivalent k) self.old.entries) self.new.entries) }
        ensures updates { IfSome result (λ _.
            UpdatesBy K.eq (Q.equivalent k) self.old self.new None) }
        ensures len { hash_map_len self.new + (if is_some result then 1 else 0)
            ≡ hash_map_len self.old }
        ensures hasher { hasher_of self.new ≡ hasher_of self.old }
        ensures valid { IsValid K.eq self.new }
    {
        if self.inner.len() > 1 {
            self.inner.remove(k)
        } else {
            None
        }
    }

    /// Removes the key equal to `k` and returns it, as it was in the map, and its value. Returns
    /// `None` if there is no such key, or if it is the only one, which then stays. The order of
    /// iteration may change.
    ///
    /// ```
    /// let mut map = nem![alloc; 2 => 24, 4 => 26]?;
    /// let removed = map.remove_entry(&4); // Some((4, 26))
    /// let none = map.remove_entry(&2); // None: the only key stays
    /// let stays = map.contains_key(&2); // true
    /// ```
    pub fn remove_entry<Q: Equivalent<K>>(&mut self, k: Q) -> Option<(K, V)>
        // `None` if and only if the key is absent or the only one; then nothing changes.
        ensures entries { TakesFoundUnlessLast (get_by (Q.equivalent k) self.old ≡ None)
            self.old.entries self.new.entries result
            (λ p. (get_key_by (Q.equivalent k) self.old ≡ Some p.0)
            × (get_by (Q.equivalent k) self.old ≡ Some p.1)
            × IsPermutation (remove_entry (Q.equivalent k) self.old.entries) self.new.entries) }
        ensures same { IfSome result (λ p. IsTrue (Q.equivalent k p.0)) }
        ensures updates { IfSome result (λ _.
            UpdatesBy K.eq (Q.equivalent k) self.old self.new None) }
        ensures len { hash_map_len self.new + (if is_some result then 1 else 0)
            ≡ hash_map_len self.old }
        ensures hasher { hasher_of self.new ≡ hasher_of self.old }
        ensures valid { IsValid K.eq self.new }
    {
        if self.inner.len() > 1 {
            self.inner.remove_entry(k)
        } else {
            None
        }
    }

    /// Keeps the entries for which `f` returns `true`, in order and with the values that `f` left,
    /// or returns the empty map as an error if there is no such entry. Both have the hasher of this
    /// map.
    ///
    /// `f` is called once for each entry, in the order of iteration. It must be callable with each
    /// of them. The clause `filtered` covers an `f` that only tests the entry, `kept` one whose
    /// result and new value depend only on the entry and that changes nothing else, and `called`
    /// any `f`.
    ///
    /// ```
    /// let even = NEMap::new(alloc, 2, 24)?.retain(|k, _v| *k % 2 == 0); // Ok({2: 24})
    /// let none = NEMap::new(alloc, 3, 9)?.retain(|k, _v| *k % 2 == 0); // Err({})
    /// ```
    pub fn retain<F: FnMut(&K, &mut V) -> bool>(self, f: F) -> Result<Self, HashMap<K, V, S>>
    where
        K: Drop,
        V: Drop,
        requires { CallableOnEachPair (CalledAtPair F.FnMut) (TakesPair F.FnMut) f self.entries }
        ensures none { IsErr result ↔ IsEmpty (either_way result) }
        ensures kept { (keeps : K → V → Bool) (writes : K → V → V)
            → ActsAsAtEntry F.FnMut f keeps writes
            → (either_way result).entries ≡ kept_entries keeps writes self.entries }
        ensures filtered { (keeps : K × V → Bool) → TestsEntries F.FnMut f keeps
            → (either_way result).entries ≡ filter keeps self.entries }
        ensures keys { (keeps : K → Bool) → TestsKeys F.FnMut f keeps
            → keys (either_way result) ≡ filter keeps (keys self) }
        ensures called { RetainsPairs (CalledAtPair F.FnMut) f self.entries
            (either_way result).entries }
        ensures hasher { hasher_of (either_way result) ≡ hasher_of self }
    {
        let mut inner = self.inner;
        inner.retain(f);
        if inner.is_empty() {
            Err(inner)
        } else {
            Ok(NEMap { inner })
        }
    }

    /// Releases room that the map does not need. The entries stay, but the order of iteration may
    /// change.
    ///
    /// If an allocation of smaller room fails, that part of the room stays as it is, so this never
    /// returns `AllocError`.
    pub fn shrink_to_fit(&mut self) -> Result<(), AllocError>
        ensures done { IsOk result }
        ensures entries { IsReordered K.eq self.old self.new }
        ensures hasher { hasher_of self.new ≡ hasher_of self.old }
        ensures valid { IsValid K.eq self.new }
    {
        self.inner.shrink_to_fit();
        Ok(())
    }

    /// Inserts the pairs, in order. Each key has the value of its last pair. A key that is already
    /// in the map stays as it is.
    ///
    /// Returns `AllocError` if the map has to grow and the allocation fails. The pairs before the
    /// one that failed are then in the map, and that one is dropped.
    ///
    /// ```
    /// let mut map = nem![alloc; 2 => 21, 4 => 22]?;
    /// map.extend([(6, 23), (2, 24)])?; // {2: 24, 4: 22, 6: 23}
    /// ```
    pub fn extend<I: IntoIterator<Item = (K, V)>>(&mut self, iter: I) -> Result<(), AllocError>
    where
        K: Drop,
        V: Drop,
        requires { IsFiniteIterable I.into_iter_gives I.IntoIter.can_next I.IntoIter.remaining
            iter }
        // The map of the old pairs and those that were added: at `Ok`, all of the source.
        ensures ran { ExtendsWithItems I.into_iter_gives I.IntoIter.next_gives
            (λ old pairs new. IsMapOfPairs K.eq (old.entries ++ pairs) new.entries)
            iter self.old self.new result }
        // The same at `Ok`, by the list of the source.
        ensures lists { OnOk result (ExtendsByList (⟦<I as ItemSource>⟧.lists itself)
            (MeetsList I.into_iter_gives I.IntoIter.next_gives itself) iter self.old.entries
            (λ all. IsMapOfPairs K.eq all self.new.entries)) }
        ensures valid { IsValid K.eq self.new }
    {
        self.inner.extend(iter)
    }

    /// Returns a map of clones, entry by entry. If clones equal their originals, it has the same
    /// entries.
    ///
    /// Returns `AllocError` if an allocation or a clone fails. No law says that a clone equals its
    /// original; so this also returns `AllocError` if the clone of a key does not equal the key, or
    /// if the clone of the hasher gives it another hash.
    ///
    /// ```
    /// let map = nem![alloc; 2 => 24, 4 => 26]?;
    /// let same = map.clone()? == map; // true
    /// ```
    pub fn clone(&self) -> Result<Self, AllocError>
    where
        K: Clone,
        V: Clone,
        S: Clone,
        ensures clones { IfOk result (λ m. IsClone K.is_clone V.is_clone self.now m
            × KeepsEntries K.is_clone V.is_clone self.now.entries m.entries) }
    {
        let inner = self.inner.clone()?;
        Ok(NEMap::wrap(inner))
    }

    // Wraps a map that is not empty. The contract of `len` says that no two keys are equal.
    fn wrap(inner: HashMap<K, V, S>) -> Self
        requires { 0 < hash_map_len inner }
        ensures { result ≡ inner }
    {
        prove!(inner.len() > 0);
        NEMap { inner }
    }
}

// Inserts one pair into an empty map.
fn of_one_key<K: Eq + Hash + Drop, V: Drop, S: BuildHasher + Drop>(
    map: HashMap<K, V, S>,
    k: K,
    v: V,
) -> Result<NEMap<K, V, S>, AllocError>
    requires { IsEmpty map }
    ensures entries { IfOk result (λ m. m.entries ≡ (k, v) ∷ []) }
    ensures value { IfOk result (λ m. get K.eq m k ≡ Some v) }
    ensures hasher { IfOk result (λ m. hasher_of m ≡ hasher_of map) }
    ensures room { IfOk result (λ m. spare map ≤ hash_map_len m + spare m) }
{
    let mut inner = map;
    inner.insert(k, v)?;
    Ok(NEMap { inner })
}
