//! Tree maps that hold at least one key, their iterators, and the traits that they implement.
//!
//! An [`NEBTreeMap`] iterates in ascending order of its keys. Keys are looked up by `Ord`. A key
//! that is in the map stays as it is if an equal one is inserted.
//!
//! A method that removes an entry by `&mut self` never removes the only one; `retain` takes the
//! map. The Rust crate lacks these methods, and `range`, `values_mut`, `into_keys`, `into_values`,
//! `into_map`, `is_empty` and those for the first and the last key.
ghost use Rattle.std.specs.Prelude.{◌≡◌, ◌+◌, ◌<◌, ◌^◌, ◌++◌, [], ◌∷◌, if◌then◌else◌, ◌-◌, ◌↔◌};
ghost use Rattle.std.specs.Prelude.{is_some, false, length, take, slice_get, None, Some, IfOk};
ghost use Rattle.std.specs.Prelude.{IfSome, IsSome, MatchOption, OnErr, OnOk, Bool, IsErr};
ghost use Rattle.std.specs.Prelude.{Contains, filter};
ghost use Rattle.std.specs.BTreeMap.{btree_map_len, get, get_by, get_key_by, insert_entry, is_at};
ghost use Rattle.std.specs.BTreeMap.{keys, values, IsClone, IsEmpty, IsUnchanged, Updates};
ghost use Rattle.std.specs.BTreeMap.{IsLowerBound, IsRun, IsUpperBound, UpdatesBy};
ghost use Rattle.std.specs.BTreeMap.IterMut.{iter_mut_rest, values_mut_rest, values_mut_steps};
ghost use Rattle.std.specs.BTreeMap.IterMut.{iter_mut_name, values_mut_name, IterMutCanStep};
ghost use Rattle.std.specs.BTreeMap.Lent.{KeepsKeys};
ghost use Rattle.std.specs.Borrow.{sem};
ghost use Rattle.std.specs.Int.NonZero.{non_zero_usize_get};
ghost use Rattle.std.specs.Iterator.{ExtendsWithItems, IsFiniteIterable};
ghost use Rattle.std.specs.List.{IsAmong};
ghost use Rattle.std.specs.Map.Iter.{deref, deref_pair, LendsValuesInOrder, ShowsInOrder};
ghost use Rattle.std.specs.Map.Iter.{ShowsValuesInOrder, ShowsInReverse, TakesFirst, TakesLast};
ghost use Rattle.std.specs.Map.Iter.{ValuesAreAmong};
ghost use Rattle.std.specs.Option.{option_copied, option_copied_mut, option_map};
ghost use Rattle.std.specs.Ordering.{eq_by_cmp};
ghost use Rattle.std.specs.Set.{is_member};
ghost use Rattle.std.specs.BTreeMap.Range.{entries_between, IsLeBy, IsLtBy, IsRangeOf};
ghost use Rattle.std.specs.Iterator.Runs.{YieldsMutRefsInOrder};
ghost use Rattle.std.specs.Map.{remove_entry};
ghost use Rattle.std.specs.Map.Calls.{CallableOnEachPair, CalledAtPair, RetainsPairs, TakesPair};
ghost use Rattle.std.specs.declared.cmp.Ordering.TheVariants.{Equal};
ghost use Rattle.ne_vec.specs.Lists.{itself};
ghost use Rattle.ne_vec.specs.Taken.{TakesFoundUnlessLast, TakesUnlessLast};
ghost use Rattle.ne_iter.specs.Collected.{IsMapOfPairs};
ghost use Rattle.ne_iter.specs.Keyed.Extends.{ExtendsByList};
ghost use Rattle.ne_iter.specs.Keyed.Iterators.{FindsEach, KnownByValue, ListsEntries};
ghost use Rattle.ne_iter.specs.Keyed.Iterators.{ListsEntriesByValue};
ghost use Rattle.ne_iter.specs.SourceLists.{MeetsList};
ghost use Rattle.ne_iter.specs.Keyed.Clones.{KeepsEntries};
ghost use Rattle.ne_iter.specs.Keyed.KeptEntries.{either_way, kept_entries, ActsAsAtEntry};
ghost use Rattle.ne_iter.specs.Keyed.KeptEntries.{TestsEntries, TestsKeys};
ghost use Rattle.ne_tree.specs.TreeLends.{std_iterator, std_values_iterator, LendsValue};
ghost use Rattle.ne_tree.specs.TreeLends.{LendsValues, LendsValuesInside};
ghost use Rattle.ne_tree.specs.ValidTreeMap.{IsValid};

mod iter;
mod serialized;
mod traits;

pub use iter::{Held, IntoIter, IntoKeys, IntoValues, Iter, IterMut, Keys, Values, ValuesMut};
use ne_iter::iter::{ItemSource, NonEmptyIter};
use std::alloc::{AllocError, Global};
use std::collections::btree_map::Comparable;
use std::collections::{BTreeMap, btree_map};
use std::marker::Model;
use std::num::NonZeroUsize;
use std::ops::RangeBounds;

/// A tree map that holds at least one key. It wraps std's [`BTreeMap`].
///
/// Lookups and removals take a `&K`, or a `&str` if the keys are `String`s, or a `&[T]` if they are
/// `Vec<T>`s.
///
/// In contracts it is std's record of the map: `get K.cmp m k` is the value of the key `k`,
/// `get_by_text m bs` that of the `String` whose bytes are `bs`, `m.entries` is the list of the
/// pairs in ascending order of the keys, and `IsValid K.cmp m` says that there is a key and that
/// the keys are in that order.
///
/// Equality and order are lawful, as the laws of their traits require. That a clone equals its
/// original is assumed only where a clause says so.
///
/// ```
/// let map = nebtm![alloc; 1 => 10, 2 => 20, 1 => 30]?;
/// let (one, three) = (map.get(&1), map.get(&3)); // Some(&30) and None
/// let len = map.len().get(); // 2
/// ```
#[derive(Drop)]
pub struct NEBTreeMap<K: Ord, V> {
    inner: BTreeMap<K, V>,
}

impl<K: Ord, V> Model for NEBTreeMap<K, V> {
    ghost use Rattle.std.specs.BTreeMap.{BTreeMap as Entries};
    ghost use Rattle.std_collections.specs.Layout.BTreeMap.{btree_map_code};
    ghost use Rattle.ne_tree.specs.ValidTreeMap.{IsValid};

    ghost Value = { Entries K V };

    ghost coded = { btree_map_code K.code V.code };

    ghost view = { λ m. m.inner };

    ghost invariant = { λ m. IsValid K.cmp m.inner };
}

impl<K: Ord, V> NEBTreeMap<K, V> {
    /// Creates a map that holds the key `k` with the value `v`.
    ///
    /// Returns `AllocError` if the allocation fails; the pair is then dropped.
    ///
    /// ```
    /// let map = NEBTreeMap::new(alloc, 4, 20)?; // {4: 20}
    /// ```
    pub fn new(alloc: Global, k: K, v: V) -> Result<Self, AllocError>
    where
        K: Drop,
        V: Drop,
        ensures entries { IfOk result (λ m. m.entries ≡ (k, v) ∷ []) }
        ensures value { IfOk result (λ m. get K.cmp m k ≡ Some v) }
    {
        let mut inner = BTreeMap::new(alloc);
        inner.insert(k, v)?;
        Ok(NEBTreeMap { inner })
    }

    /// Returns the map as a non-empty map, or `None` if and only if it is empty. The entries stay
    /// as they are, and nothing is allocated.
    ///
    /// ```
    /// let mut inner = BTreeMap::new(alloc);
    /// inner.insert(4, 1)?;
    /// inner.insert(2, 2)?;
    /// let some = NEBTreeMap::try_from_map(inner); // Some({2: 2, 4: 1})
    /// let empty: BTreeMap<u32, u32> = BTreeMap::new(alloc);
    /// let none = NEBTreeMap::try_from_map(empty); // None
    /// ```
    pub fn try_from_map(map: BTreeMap<K, V>) -> Option<Self>
        ensures { MatchOption result (IsEmpty map) (λ m. m ≡ map) }
    {
        if map.is_empty() {
            map.destroy_empty();
            None
        } else {
            Some(NEBTreeMap::wrap(map))
        }
    }

    /// Returns the inner `BTreeMap` unchanged. Its type no longer guarantees a key. The Rust crate
    /// has only `From`, which is here too.
    ///
    /// ```
    /// let inner = nebtm![alloc; 4 => 26, 2 => 24]?.into_map(); // {2: 24, 4: 26}
    /// ```
    pub fn into_map(self) -> BTreeMap<K, V>
        ensures same { result ≡ self }
        ensures valid { IsValid K.cmp result }
    {
        self.inner
    }

    /// Returns std's iterator over the pairs, in ascending order of the keys.
    ///
    /// ```
    /// let map = nebtm![alloc; 0 => 3, 2 => 1]?;
    /// let pairs = map.iter(); // (&0, &3) and (&2, &1)
    /// ```
    pub fn iter(&self) -> btree_map::Iter<'_, K, V>
        ensures rest { result ≡ self.now.entries }
        // Each run of `next` yields what is left, in order, and so its values.
        ensures runs { ShowsInOrder (deref_pair {K = K} {X = V}) }
        ensures values_run { ShowsValuesInOrder (deref_pair {K = K} {X = V}) }
        ensures fits { btree_map_len self.now < 2 ^ 63 }
        ensures valid { IsValid K.cmp self.now }
    {
        self.inner.iter()
    }

    /// Returns std's iterator over the pairs with mutable references to the values, in ascending
    /// order of the keys. The keys and their number do not change.
    ///
    /// ```
    /// let mut map = nebtm![alloc; 2 => 0u32, 4 => 1]?;
    /// for (_key, value) in map.iter_mut() {
    ///     *value = value.wrapping_mul(31).wrapping_add(1);
    /// } // {2: 1, 4: 32}
    /// ```
    pub fn iter_mut(&mut self) -> btree_map::IterMut<'_, K, V>
        // Once the iterator is gone, the map has its old keys with the values last written.
        ensures* writes_back { sem 𝓛 (LendsValues K.row V.row K.Ord self.entry
            (iter_mut_name result)) }
        // Whatever is written, the keys and their number stay.
        ensures keeps { KeepsKeys self.old 0 }
        // `next` may be called.
        ensures ready { IterMutCanStep result }
        ensures rest { iter_mut_rest result ≡ self.old.entries }
        ensures fits { btree_map_len self.old < 2 ^ 63 }
        // Each run of `next` lends the values of what is left, in order.
        ensures values_run { LendsValuesInOrder (iter_mut_rest {K = K} {X = V}) }
        ensures valid { IsValid K.cmp self.old }
    {
        inner_iter_mut(&mut self.inner)
    }

    /// Returns a non-empty iterator over the pairs, in ascending order of the keys.
    ///
    /// ```
    /// let map = nebtm![alloc; 0 => 3, 2 => 1]?;
    /// let pairs = map.nonempty_iter(); // (&0, &3) and (&2, &1)
    /// ```
    pub fn nonempty_iter(&self) -> Iter<'_, K, V>
        ensures entries { result ≡ self.now.entries }
        // As the source of a chain, it yields these items.
        ensures lists { ListsEntries (deref_pair {K = K} {X = V}) result self.now.entries }
        // `get` finds each entry.
        ensures found { FindsEach (get K.cmp self.now) self.now.entries }
        ensures valid { IsValid K.cmp self.now }
    {
        NonEmptyIter::new(self.inner.iter())
    }

    /// Returns a non-empty iterator over the pairs with mutable references to the values, in
    /// ascending order of the keys. The keys and their number do not change.
    ///
    /// ```
    /// let mut map = nebtm![alloc; 2 => 1u32, 4 => 32]?;
    /// for (_key, value) in map.nonempty_iter_mut() {
    ///     *value = value.wrapping_mul(31).wrapping_add(2);
    /// } // {2: 33, 4: 994}
    /// ```
    pub fn nonempty_iter_mut(&mut self) -> IterMut<'_, K, V>
        // Once the iterator is gone, the map has its old keys with the values last written.
        ensures* writes_back { sem 𝓛 (LendsValues K.row V.row K.Ord self.entry
            (iter_mut_name (std_iterator result))) }
        // Whatever is written, the keys and their number stay.
        ensures keeps { KeepsKeys self.old 0 }
        // `next` may be called.
        ensures ready { IterMutCanStep (std_iterator result) }
        ensures rest { iter_mut_rest (std_iterator result) ≡ self.old.entries }
        ensures fits { btree_map_len self.old < 2 ^ 63 }
        // Each run of `next` lends the values of what is left, in order.
        ensures values_run { LendsValuesInOrder (iter_mut_rest {K = K} {X = V}) }
        ensures valid { IsValid K.cmp self.old }
    {
        IterMut {
            inner: self.iter_mut(),
        }
    }

    /// Returns a non-empty iterator over the keys, in ascending order.
    ///
    /// ```
    /// let map = nebtm![alloc; 0 => 3, 2 => 1]?;
    /// let keys = map.keys(); // &0 and &2
    /// ```
    pub fn keys(&self) -> Keys<'_, K, V>
        ensures keys { result ≡ keys self.now }
        // As the source of a chain, it yields these items.
        ensures lists { ListsEntries (deref {X = K}) result (keys self.now) }
        ensures found { (q : K)
            → is_some (get K.cmp self.now q) ≡ is_member (eq_by_cmp K.cmp) result q }
        ensures len { length result ≡ btree_map_len self.now }
        ensures valid { IsValid K.cmp self.now }
    {
        NonEmptyIter::new(self.inner.keys())
    }

    /// Returns a non-empty iterator over the keys by value, in ascending order. The values are
    /// dropped.
    ///
    /// ```
    /// let keys = nebtm![alloc; 0 => 3, 2 => 1]?.into_keys(); // 0 and 2
    /// ```
    pub fn into_keys(self) -> IntoKeys<K, V>
    where
        K: Drop,
        V: Drop,
        ensures keys { result ≡ keys self }
        // As the source of a chain, it yields these items.
        ensures lists { ListsEntriesByValue KnownByValue result (keys self) }
        ensures found { (q : K)
            → is_some (get K.cmp self q) ≡ is_member (eq_by_cmp K.cmp) result q }
        ensures len { length result ≡ btree_map_len self }
    {
        NonEmptyIter::new(self.inner.into_keys())
    }

    /// Returns the number of keys, which is at least 1.
    ///
    /// ```
    /// let len = nebtm![alloc; 1 => 10, 2 => 20, 1 => 30]?.len().get(); // 2
    /// ```
    pub fn len(&self) -> NonZeroUsize
        ensures len { non_zero_usize_get result ≡ btree_map_len self.now }
        ensures valid { IsValid K.cmp self.now }
    {
        NonZeroUsize::new(self.inner.len()).unwrap()
    }

    /// Returns `false`: the map always holds a key.
    ///
    /// It exists for code that is written for `BTreeMap` too.
    ///
    /// ```
    /// let empty = nebtm![alloc; 1 => 10]?.is_empty(); // false
    /// ```
    pub fn is_empty(&self) -> bool
        ensures never { result ≡ false }
        ensures valid { IsValid K.cmp self.now }
    {
        self.inner.is_empty()
    }

    /// Returns a non-empty iterator over the values, in ascending order of their keys.
    ///
    /// ```
    /// let map = nebtm![alloc; 0 => 3, 2 => 1]?;
    /// let values = map.values(); // &3 and &1
    /// ```
    pub fn values(&self) -> Values<'_, K, V>
        ensures values { result ≡ values self.now }
        // As the source of a chain, it yields these items.
        ensures lists { ListsEntries (deref {X = V}) result (values self.now) }
        ensures len { length result ≡ btree_map_len self.now }
        ensures valid { IsValid K.cmp self.now }
    {
        NonEmptyIter::new(self.inner.values())
    }

    /// Returns a non-empty iterator over mutable references to the values, in ascending order of
    /// their keys. The keys and their number do not change.
    ///
    /// ```
    /// let mut map = nebtm![alloc; 2 => 0u32, 4 => 1]?;
    /// for value in map.values_mut() {
    ///     *value = value.wrapping_mul(31).wrapping_add(1);
    /// } // {2: 1, 4: 32}
    /// ```
    pub fn values_mut(&mut self) -> ValuesMut<'_, K, V>
        // Once the iterator is gone, the map has its old keys with the values last written.
        ensures* writes_back { sem 𝓛 (LendsValues K.row V.row K.Ord self.entry
            (values_mut_name (std_values_iterator result))) }
        // Whatever is written, the keys and their number stay.
        ensures keeps { KeepsKeys self.old 0 }
        ensures rest { values_mut_rest (std_values_iterator result) ≡ values self.old }
        ensures fits { btree_map_len self.old < 2 ^ 63 }
        // Each run of `next` lends what is left, in order.
        ensures runs { YieldsMutRefsInOrder (values_mut_steps {K = K} {X = V})
            (values_mut_rest {K = K} {X = V}) }
        ensures valid { IsValid K.cmp self.old }
    {
        ValuesMut {
            inner: self.lend_values(),
        }
    }

    /// Returns a non-empty iterator over the values by value, in ascending order of their keys. The
    /// keys are dropped.
    ///
    /// ```
    /// let values = nebtm![alloc; 0 => 3, 2 => 1]?.into_values(); // 3 and 1
    /// ```
    pub fn into_values(self) -> IntoValues<K, V>
    where
        K: Drop,
        V: Drop,
        ensures values { result ≡ values self }
        // As the source of a chain, it yields these items.
        ensures lists { ListsEntriesByValue KnownByValue result (values self) }
        ensures found { (k : K) (v : V) → get K.cmp self k ≡ Some v → Contains result v }
        ensures len { length result ≡ btree_map_len self }
    {
        NonEmptyIter::new(self.inner.into_values())
    }

    /// Returns the least key and its value, which are always there.
    ///
    /// ```
    /// let map = nebtm![alloc; 4 => 1, 2 => 3]?;
    /// let pair = map.first_key_value(); // (&2, &3)
    /// ```
    pub fn first_key_value(&self) -> (&K, &V)
        ensures first { slice_get self.now.entries 0 ≡ Some (deref_pair result) }
        ensures value { get K.cmp self.now result.0.now ≡ Some result.1.now }
        ensures least { IsLowerBound K.cmp self.now result.0.now }
    {
        self.inner.first_key_value().unwrap()
    }

    /// Returns the greatest key and its value, which are always there.
    ///
    /// ```
    /// let map = nebtm![alloc; 4 => 1, 2 => 3]?;
    /// let pair = map.last_key_value(); // (&4, &1)
    /// ```
    pub fn last_key_value(&self) -> (&K, &V)
        ensures last { slice_get self.now.entries (btree_map_len self.now - 1)
            ≡ Some (deref_pair result) }
        ensures value { get K.cmp self.now result.0.now ≡ Some result.1.now }
        ensures greatest { IsUpperBound K.cmp self.now result.0.now }
    {
        self.inner.last_key_value().unwrap()
    }

    /// Returns whether the map holds a key equal to `k`.
    ///
    /// ```
    /// let map = nebtm![alloc; 2 => 24, 4 => 26]?;
    /// let (there, absent) = (map.contains_key(&2), map.contains_key(&8)); // true and false
    /// ```
    pub fn contains_key<Q: Comparable<K>>(&self, k: Q) -> bool
        ensures { result ≡ is_some (get_by (Q.compare k) self.now) }
    {
        self.inner.contains_key(k)
    }

    /// Returns the value of the key equal to `k`, or `None` if there is no such key.
    ///
    /// ```
    /// let map = nebtm![alloc; 1 => 10, 2 => 20, 1 => 30]?;
    /// let (one, three) = (map.get(&1), map.get(&3)); // Some(&30) and None
    /// let ages = nebtm![alloc; String::from_str(alloc, "Ada")? => 36]?;
    /// let (ada, none) = (ages.get("Ada"), ages.get("Al")); // Some(&36) and None
    /// ```
    pub fn get<Q: Comparable<K>>(&self, k: Q) -> Option<&V>
        ensures value { option_copied result ≡ get_by (Q.compare k) self.now }
        ensures member { IfSome result (λ v. IsAmong (values self.now) v.now) }
    {
        self.inner.get(k)
    }

    /// Returns the key equal to `k`, as it is in the map, and its value, or `None` if there is no
    /// such key.
    ///
    /// ```
    /// let map = nebtm![alloc; 0 => 3, 2 => 1]?;
    /// let pair = map.get_key_value(&2); // Some((&2, &1))
    /// ```
    pub fn get_key_value<Q: Comparable<K>>(&self, k: Q) -> Option<(&K, &V)>
        ensures key { option_map (λ p. p.0.now) result ≡ get_key_by (Q.compare k) self.now }
        ensures value { option_map (λ p. p.1.now) result ≡ get_by (Q.compare k) self.now }
    {
        self.inner.get_key_value(k)
    }

    /// Returns a mutable reference to the value of the key equal to `k`, or `None` if there is no
    /// such key. The keys and the other values do not change.
    ///
    /// ```
    /// let mut map = nebtm![alloc; 2 => 24, 4 => 26]?;
    /// if let Some(value) = map.get_mut(&4) {
    ///     *value = 27; // {2: 24, 4: 27}
    /// }
    /// ```
    pub fn get_mut<Q: Comparable<K>>(&mut self, k: Q) -> Option<&mut V>
        // Once the reference is gone, the key has the value last written.
        ensures* writes_back { sem 𝓛 (LendsValue K.row V.row K.Ord self.entry (Q.compare k)
            result) }
        ensures value { option_copied_mut result ≡ get_by (Q.compare k) self.old }
        ensures valid { IsValid K.cmp self.old }
    {
        self.inner.get_mut(k)
    }

    /// Returns an iterator over the pairs whose keys are in `range`, in ascending order of the
    /// keys. There may be none, so this is std's iterator.
    ///
    /// The start of `range` must be at most its end, and less than its end if both are excluded;
    /// Rust's `BTreeMap` panics otherwise.
    ///
    /// ```
    /// let map = nebtm![alloc; 2 => 24, 4 => 26, 6 => 23]?;
    /// let pairs = map.range(3..7); // (&4, &26) and (&6, &23)
    /// ```
    pub fn range<R: RangeBounds<K> + Drop>(&self, range: R) -> btree_map::Range<'_, K, V>
        requires { R.is_forward range (IsLeBy K.cmp) (IsLtBy K.cmp) }
        ensures between { R.has_bounds range → result ≡ entries_between K.cmp (R.start_bound range)
            (R.end_bound range) self.now.entries }
        ensures in_range { R.has_bounds range
            → IsRangeOf K.cmp (R.start_bound range) (R.end_bound range) self.now result }
        // The entries are next to each other in the map.
        ensures contiguous { IsRun self.now result }
        // Each run of `next` yields what is left, in order, and of `next_back` in reverse.
        ensures runs { ShowsInOrder (deref_pair {K = K} {X = V}) }
        ensures runs_back { ShowsInReverse (deref_pair {K = K} {X = V}) }
        ensures fits { length result < 2 ^ 63 }
        // Each call that yields a pair yields a value of the map.
        ensures member { ValuesAreAmong (TakesFirst deref_pair) (λ x. x.1.now) result
            (values self.now) }
        ensures listed_back { ValuesAreAmong (TakesLast deref_pair) (λ x. x.1.now) result
            (values self.now) }
        ensures valid { IsValid K.cmp self.now }
    {
        self.inner.range(range)
    }

    /// Inserts a key and its value, and returns the old value of an equal key, or `None` if the key
    /// is new. An equal key that is in the map stays there and takes the new value, and `k` is
    /// dropped.
    ///
    /// Returns `AllocError` if the map has to grow and the allocation fails. This can happen only
    /// for a new key; the entries are then unchanged and the pair is dropped.
    ///
    /// ```
    /// let mut map = NEBTreeMap::new(alloc, 4, 20)?;
    /// let none = map.insert(2, 21)?; // None: the key is new
    /// let old = map.insert(4, 22)?; // Some(20), and the map is {2: 21, 4: 22}
    /// ```
    pub fn insert(&mut self, k: K, v: V) -> Result<Option<V>, AllocError>
    where
        K: Drop,
        V: Drop,
        ensures old { IfOk result (λ old. old ≡ get K.cmp self.old k) }
        ensures updates { OnOk result (Updates K.cmp self.old self.new k (Some v)) }
        ensures entries { OnOk result (self.new.entries
            ≡ insert_entry K.cmp self.old.entries k v) }
        ensures keys_stay { IfOk result (λ old. IsSome old → keys self.new ≡ keys self.old) }
        ensures len { IfOk result (λ old. btree_map_len self.new
            ≡ btree_map_len self.old + (if is_some old then 0 else 1)) }
        // Only a new key can fail; the entries then stay.
        ensures refused { OnErr result (get K.cmp self.old k ≡ None) }
        ensures unchanged { OnErr result (IsUnchanged self.old self.new) }
        ensures valid { IsValid K.cmp self.new }
    {
        Ok(self.inner.insert(k, v)?)
    }

    /// Removes the key equal to `k` and returns its value. Returns `None` if there is no such key,
    /// or if it is the only one, which then stays.
    ///
    /// ```
    /// let mut map = nebtm![alloc; 2 => 24, 4 => 26]?;
    /// let removed = map.remove(&2); // Some(24), and map is {4: 26}
    /// let none = map.remove(&4); // None: the only key stays
    /// ```
    pub fn remove<Q: Comparable<K>>(&mut self, k: Q) -> Option<V>
    where
        K: Drop,
        // `None` if and only if the key is absent or the only one; then nothing changes.
        ensures entries { TakesFoundUnlessLast (get_by (Q.compare k) self.old ≡ None)
            self.old.entries self.new.entries result
            (λ v. (get_by (Q.compare k) self.old ≡ Some v)
            × (self.new.entries ≡ remove_entry (is_at (Q.compare k)) self.old.entries)) }
        ensures updates { IfSome result (λ _.
            UpdatesBy K.cmp (Q.compare k) self.old self.new None) }
        ensures len { btree_map_len self.new + (if is_some result then 1 else 0)
            ≡ btree_map_len self.old }
        ensures valid { IsValid K.cmp self.new }
    {
        if self.inner.len() > 1 {
            self.inner.remove(k)
        } else {
            None
        }
    }

    /// Removes the key equal to `k` and returns it, as it was in the map, and its value. Returns
    /// `None` if there is no such key, or if it is the only one, which then stays.
    ///
    /// ```
    /// let mut map = nebtm![alloc; 2 => 24, 4 => 26]?;
    /// let removed = map.remove_entry(&4); // Some((4, 26)), and map is {2: 24}
    /// let none = map.remove_entry(&2); // None: the only key stays
    /// ```
    pub fn remove_entry<Q: Comparable<K>>(&mut self, k: Q) -> Option<(K, V)>
        // `None` if and only if the key is absent or the only one; then nothing changes.
        ensures entries { TakesFoundUnlessLast (get_by (Q.compare k) self.old ≡ None)
            self.old.entries self.new.entries result
            (λ p. (get_key_by (Q.compare k) self.old ≡ Some p.0)
            × (get_by (Q.compare k) self.old ≡ Some p.1)
            × (self.new.entries ≡ remove_entry (is_at (Q.compare k)) self.old.entries)) }
        ensures same { IfSome result (λ p. Q.compare k p.0 ≡ Equal) }
        ensures updates { IfSome result (λ _.
            UpdatesBy K.cmp (Q.compare k) self.old self.new None) }
        ensures len { btree_map_len self.new + (if is_some result then 1 else 0)
            ≡ btree_map_len self.old }
        ensures valid { IsValid K.cmp self.new }
    {
        if self.inner.len() > 1 {
            self.inner.remove_entry(k)
        } else {
            None
        }
    }

    /// Removes the least key and returns it and its value, or returns `None` if it is the only key,
    /// which then stays.
    ///
    /// ```
    /// let mut map = nebtm![alloc; 2 => 24, 4 => 26]?;
    /// let popped = map.pop_first(); // Some((2, 24)), and map is {4: 26}
    /// let none = map.pop_first(); // None: the only key stays
    /// ```
    pub fn pop_first(&mut self) -> Option<(K, V)>
        // `None` if and only if there is one entry; then nothing changes.
        ensures entries { TakesUnlessLast self.old.entries self.new.entries result
            (λ p. self.old.entries ≡ p ∷ self.new.entries) }
        ensures value { IfSome result (λ p. get K.cmp self.old p.0 ≡ Some p.1) }
        ensures least { IfSome result (λ p. IsLowerBound K.cmp self.old p.0) }
        ensures updates { IfSome result (λ p. Updates K.cmp self.old self.new p.0 None) }
        ensures len { btree_map_len self.new + (if is_some result then 1 else 0)
            ≡ btree_map_len self.old }
        ensures valid { IsValid K.cmp self.new }
    {
        if self.inner.len() > 1 {
            self.inner.pop_first()
        } else {
            None
        }
    }

    /// Removes the greatest key and returns it and its value, or returns `None` if it is the only
    /// key, which then stays.
    ///
    /// ```
    /// let mut map = nebtm![alloc; 2 => 24, 4 => 26]?;
    /// let popped = map.pop_last(); // Some((4, 26)), and map is {2: 24}
    /// let none = map.pop_last(); // None: the only key stays
    /// ```
    pub fn pop_last(&mut self) -> Option<(K, V)>
        // `None` if and only if there is one entry; then nothing changes.
        ensures entries { TakesUnlessLast self.old.entries self.new.entries result
            (λ p. self.old.entries ≡ self.new.entries ++ p ∷ []) }
        // The same, for the automatic proof.
        ensures rest { IfSome result (λ _. self.new.entries
            ≡ take (btree_map_len self.old - 1) self.old.entries) }
        ensures value { IfSome result (λ p. get K.cmp self.old p.0 ≡ Some p.1) }
        ensures greatest { IfSome result (λ p. IsUpperBound K.cmp self.old p.0) }
        ensures updates { IfSome result (λ p. Updates K.cmp self.old self.new p.0 None) }
        ensures len { btree_map_len self.new + (if is_some result then 1 else 0)
            ≡ btree_map_len self.old }
        ensures valid { IsValid K.cmp self.new }
    {
        if self.inner.len() > 1 {
            self.inner.pop_last()
        } else {
            None
        }
    }

    /// Keeps the entries for which `f` returns `true`, in order and with the values that `f` left,
    /// or returns the empty map as an error if there is no such entry.
    ///
    /// `f` is called once for each entry, in ascending order of the keys. It must be callable with
    /// each of them. The clause `filtered` covers an `f` that only tests the entry, `kept` one
    /// whose result and new value depend only on the entry and that changes nothing else, and
    /// `called` any `f`.
    ///
    /// ```
    /// let even = nebtm![alloc; 2 => 24, 4 => 27]?.retain(|_k, v| *v % 2 == 0); // Ok({2: 24})
    /// let none = nebtm![alloc; 2 => 25, 4 => 27]?.retain(|_k, v| *v % 2 == 0); // Err({})
    /// ```
    pub fn retain<F: FnMut(&K, &mut V) -> bool>(self, f: F) -> Result<Self, BTreeMap<K, V>>
    where
        K: Drop,
        V: Drop,
        requires { CallableOnEachPair (CalledAtPair F.FnMut) (TakesPair F.FnMut) f self.entries }
        ensures none { IsErr result ↔ IsEmpty (either_way result) }
        ensures kept { (keeps : K → V → Bool) (writes : K → V → V)
            → ActsAsAtEntry F.FnMut f keeps writes
            → (either_way result).entries ≡ kept_entries keeps writes self.entries }
        ensures filtered { (keeps : K × V → Bool) → TestsEntries F.FnMut f keeps
            → (either_way result).entries ≡ filter keeps self.entries }
        ensures keys { (keeps : K → Bool) → TestsKeys F.FnMut f keeps
            → keys (either_way result) ≡ filter keeps (keys self) }
        ensures called { RetainsPairs (CalledAtPair F.FnMut) f self.entries
            (either_way result).entries }
    {
        let mut inner = self.inner;
        inner.retain(f);
        if inner.is_empty() {
            Err(inner)
        } else {
            Ok(NEBTreeMap { inner })
        }
    }

    /// Inserts the pairs, in order. Each key has the value of its last pair. A key that is already
    /// in the map stays as it is.
    ///
    /// Returns `AllocError` if the map has to grow and the allocation fails. The pairs before the
    /// one that failed are then in the map, and that one is dropped.
    ///
    /// ```
    /// let mut map = nebtm![alloc; 2 => 21, 4 => 22]?;
    /// map.extend([(6, 23), (2, 24)])?; // {2: 24, 4: 22, 6: 23}
    /// ```
    pub fn extend<I: IntoIterator<Item = (K, V)>>(&mut self, iter: I) -> Result<(), AllocError>
    where
        K: Drop,
        V: Drop,
        requires { IsFiniteIterable I.into_iter_gives I.IntoIter.can_next I.IntoIter.remaining
            iter }
        // The map of the old pairs and those that were added: at `Ok`, all of the source.
        ensures ran { ExtendsWithItems I.into_iter_gives I.IntoIter.next_gives
            (λ old pairs new. IsMapOfPairs K.eq (old.entries ++ pairs) new.entries)
            iter self.old self.new result }
        // The same at `Ok`, by the list of the source.
        ensures lists { OnOk result (ExtendsByList (⟦<I as ItemSource>⟧.lists itself)
            (MeetsList I.into_iter_gives I.IntoIter.next_gives itself) iter self.old.entries
            (λ all. IsMapOfPairs K.eq all self.new.entries)) }
        ensures valid { IsValid K.cmp self.new }
    {
        self.inner.extend(iter)
    }

    /// Returns a map of clones, entry by entry. If clones equal their originals, it has the same
    /// entries.
    ///
    /// Returns `AllocError` if an allocation or a clone fails. No law says that a clone equals its
    /// original; so this also returns `AllocError` if the clones of the keys are not in ascending
    /// order.
    ///
    /// ```
    /// let map = nebtm![alloc; 2 => 24, 4 => 26]?;
    /// let same = map.clone()? == map; // true
    /// ```
    pub fn clone(&self) -> Result<Self, AllocError>
    where
        K: Clone,
        V: Clone,
        ensures clones { IfOk result (λ m. IsClone K.is_clone V.is_clone self.now m
            × KeepsEntries K.is_clone V.is_clone self.now.entries m.entries) }
    {
        let inner = self.inner.clone()?;
        Ok(NEBTreeMap::wrap(inner))
    }

    // Wraps a map that is not empty. The contract of `len` says that its keys ascend.
    fn wrap(inner: BTreeMap<K, V>) -> Self
        requires { 0 < btree_map_len inner }
        ensures { result ≡ inner }
    {
        prove!(inner.len() > 0);
        NEBTreeMap { inner }
    }

    // Lends the values by std's iterator, for `values_mut`.
    fn lend_values(&mut self) -> btree_map::ValuesMut<'_, K, V>
        ensures* writes_back { sem 𝓛 (LendsValues K.row V.row K.Ord self.entry
            (values_mut_name result)) }
        ensures keeps { KeepsKeys self.old 0 }
        ensures rest { values_mut_rest result ≡ values self.old }
        ensures fits { btree_map_len self.old < 2 ^ 63 }
        ensures runs { YieldsMutRefsInOrder (values_mut_steps {K = K} {X = V})
            (values_mut_rest {K = K} {X = V}) }
        ensures valid { IsValid K.cmp self.old }
    {
        inner_values_mut(&mut self.inner)
    }
}

// Lends the values of the inner map, for `iter_mut`.
fn inner_iter_mut<'a, K: Ord, V>(map: &'a mut BTreeMap<K, V>) -> btree_map::IterMut<'a, K, V>
    ensures* writes_back { sem 𝓛 (LendsValuesInside K.row V.row K.Ord map.entry
        (iter_mut_name result)) }
    ensures keeps { KeepsKeys map.old 0 }
    ensures ready { IterMutCanStep result }
    ensures rest { iter_mut_rest result ≡ map.old.entries }
    ensures fits { btree_map_len map.old < 2 ^ 63 }
    ensures values_run { LendsValuesInOrder (iter_mut_rest {K = K} {X = V}) }
{
    map.iter_mut()
}

// Lends the values of the inner map, for `lend_values`.
fn inner_values_mut<'a, K: Ord, V>(map: &'a mut BTreeMap<K, V>) -> btree_map::ValuesMut<'a, K, V>
    ensures* writes_back { sem 𝓛 (LendsValuesInside K.row V.row K.Ord map.entry
        (values_mut_name result)) }
    ensures keeps { KeepsKeys map.old 0 }
    ensures rest { values_mut_rest result ≡ values map.old }
    ensures fits { btree_map_len map.old < 2 ^ 63 }
    ensures runs { YieldsMutRefsInOrder (values_mut_steps {K = K} {X = V})
        (values_mut_rest {K = K} {X = V}) }
{
    map.values_mut()
}
