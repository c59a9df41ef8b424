//! The methods of an [`NEIndexMap`] that remove entries. None but `retain`, which takes the map by
//! value, removes the only one.
ghost use Rattle.std.specs.Prelude.{◌≡◌, ◌+◌, ◌-◌, ◌++◌, [], ◌∷◌, if◌then◌else◌, ◌↔◌, is_some};
ghost use Rattle.std.specs.Prelude.{filter, take, None, Some, IfSome, Bool, IsErr, IsTrue};
ghost use Rattle.std.specs.Map.Calls.{CallableOnEachPair, CalledAtPair, RetainsPairs, TakesPair};
ghost use Rattle.indexmap.specs.IndexMap.{get_by, get_key_by, hasher_of, index_map_len, keys};
ghost use Rattle.indexmap.specs.IndexMap.{shift_remove_entry, swap_remove_entry, Updates, IsEmpty};
ghost use Rattle.indexmap.specs.IndexMap.{UpdatesBy};
ghost use Rattle.ne_vec.specs.Taken.{TakesFoundUnlessLast, TakesUnlessLast};
ghost use Rattle.ne_iter.specs.Keyed.KeptEntries.{either_way, kept_entries, ActsAsAtEntry};
ghost use Rattle.ne_iter.specs.Keyed.KeptEntries.{TestsEntries, TestsKeys};
ghost use Rattle.ne_index.specs.ValidIndexMap.{IsValid};

use super::NEIndexMap;
use indexmap::{Equivalent, IndexMap};
use std::hash::{BuildHasher, Hash};

impl<K: Eq + Hash, V, S: BuildHasher> NEIndexMap<K, V, S> {
    /// Removes the key equal to `k` and returns its value. Returns `None` if there is no such key,
    /// or if it is the only one, which then stays. The last entry moves to the index of the removed
    /// one.
    ///
    /// ```
    /// let mut map = neim![alloc; 2 => 24, 4 => 26, 6 => 23]?;
    /// let removed = map.swap_remove(&2); // Some(24), and map is {6: 23, 4: 26}
    /// let none = map.swap_remove(&8); // None: there is no such key
    /// ```
    pub fn swap_remove<Q: Equivalent<K>>(&mut self, k: Q) -> Option<V>
    where
        K: Drop,
        // `None` if and only if the key is absent or the only one; then nothing changes.
        ensures entries { TakesFoundUnlessLast (get_by (Q.equivalent k) self.old ≡ None)
            self.old.entries self.new.entries result
            (λ v. (get_by (Q.equivalent k) self.old ≡ Some v)
            × (self.new.entries ≡ swap_remove_entry (Q.equivalent k) self.old.entries)) }
        ensures updates { IfSome result (λ _.
            UpdatesBy K.eq (Q.equivalent k) self.old self.new None) }
        ensures len { index_map_len self.new + (if is_some result then 1 else 0)
            ≡ index_map_len self.old }
        ensures hasher { hasher_of self.new ≡ hasher_of self.old }
        ensures valid { IsValid K.eq self.new }
    {
        if self.inner.len() > 1 {
            self.inner.swap_remove(k)
        } else {
            None
        }
    }

    /// Removes the key equal to `k` and returns its value. Returns `None` if there is no such key,
    /// or if it is the only one, which then stays. The entries after the removed one move one index
    /// down.
    ///
    /// ```
    /// let mut map = neim![alloc; 2 => 24, 4 => 26]?;
    /// let removed = map.shift_remove(&2); // Some(24), and map is {4: 26}
    /// let none = map.shift_remove(&4); // None: the only entry stays
    /// ```
    pub fn shift_remove<Q: Equivalent<K>>(&mut self, k: Q) -> Option<V>
    where
        K: Drop,
        // `None` if and only if the key is absent or the only one; then nothing changes.
        ensures entries { TakesFoundUnlessLast (get_by (Q.equivalent k) self.old ≡ None)
            self.old.entries self.new.entries result
            (λ v. (get_by (Q.equivalent k) self.old ≡ Some v)
            × (self.new.entries ≡ shift_remove_entry (Q.equivalent k) self.old.entries)) }
        ensures updates { IfSome result (λ _.
            UpdatesBy K.eq (Q.equivalent k) self.old self.new None) }
        ensures len { index_map_len self.new + (if is_some result then 1 else 0)
            ≡ index_map_len self.old }
        ensures hasher { hasher_of self.new ≡ hasher_of self.old }
        ensures valid { IsValid K.eq self.new }
    {
        if self.inner.len() > 1 {
            self.inner.shift_remove(k)
        } else {
            None
        }
    }

    /// Removes the key equal to `k` and returns it, as it was in the map, and its value. Returns
    /// `None` if there is no such key, or if it is the only one, which then stays. The last entry
    /// moves to the index of the removed one.
    ///
    /// ```
    /// let mut map = neim![alloc; 2 => 24, 4 => 26, 6 => 23]?;
    /// let removed = map.swap_remove_entry(&2); // Some((2, 24)), and map is {6: 23, 4: 26}
    /// let none = map.swap_remove_entry(&8); // None: there is no such key
    /// ```
    pub fn swap_remove_entry<Q: Equivalent<K>>(&mut self, k: Q) -> Option<(K, V)>
        // `None` if and only if the key is absent or the only one; then nothing changes.
        ensures entries { TakesFoundUnlessLast (get_by (Q.equivalent k) self.old ≡ None)
            self.old.entries self.new.entries result
            (λ p. (get_key_by (Q.equivalent k) self.old ≡ Some p.0)
            × (get_by (Q.equivalent k) self.old ≡ Some p.1)
            × (self.new.entries ≡ swap_remove_entry (Q.equivalent k) self.old.entries)) }
        ensures same { IfSome result (λ p. IsTrue (Q.equivalent k p.0)) }
        ensures updates { IfSome result (λ _.
            UpdatesBy K.eq (Q.equivalent k) self.old self.new None) }
        ensures len { index_map_len self.new + (if is_some result then 1 else 0)
            ≡ index_map_len self.old }
        ensures hasher { hasher_of self.new ≡ hasher_of self.old }
        ensures valid { IsValid K.eq self.new }
    {
        if self.inner.len() > 1 {
            self.inner.swap_remove_entry(k)
        } else {
            None
        }
    }

    /// Removes the key equal to `k` and returns it, as it was in the map, and its value. Returns
    /// `None` if there is no such key, or if it is the only one, which then stays. The entries
    /// after the removed one move one index down.
    ///
    /// ```
    /// let mut map = neim![alloc; 2 => 24, 4 => 26]?;
    /// let removed = map.shift_remove_entry(&2); // Some((2, 24)), and map is {4: 26}
    /// let none = map.shift_remove_entry(&4); // None: the only entry stays
    /// ```
    pub fn shift_remove_entry<Q: Equivalent<K>>(&mut self, k: Q) -> Option<(K, V)>
        // `None` if and only if the key is absent or the only one; then nothing changes.
        ensures entries { TakesFoundUnlessLast (get_by (Q.equivalent k) self.old ≡ None)
            self.old.entries self.new.entries result
            (λ p. (get_key_by (Q.equivalent k) self.old ≡ Some p.0)
            × (get_by (Q.equivalent k) self.old ≡ Some p.1)
            × (self.new.entries ≡ shift_remove_entry (Q.equivalent k) self.old.entries)) }
        ensures same { IfSome result (λ p. IsTrue (Q.equivalent k p.0)) }
        ensures updates { IfSome result (λ _.
            UpdatesBy K.eq (Q.equivalent k) self.old self.new None) }
        ensures len { index_map_len self.new + (if is_some result then 1 else 0)
            ≡ index_map_len self.old }
        ensures hasher { hasher_of self.new ≡ hasher_of self.old }
        ensures valid { IsValid K.eq self.new }
    {
        if self.inner.len() > 1 {
            self.inner.shift_remove_entry(k)
        } else {
            None
        }
    }

    /// Removes the last entry and returns it, or returns `None` if it is the only one, which then
    /// stays.
    ///
    /// ```
    /// let mut map = neim![alloc; 2 => 24, 4 => 26]?;
    /// let popped = map.pop(); // Some((4, 26)), and map is {2: 24}
    /// let none = map.pop(); // None: the only entry stays
    /// ```
    pub fn pop(&mut self) -> Option<(K, V)>
        // `None` if and only if there is one entry; then nothing changes.
        ensures entries { TakesUnlessLast self.old.entries self.new.entries result
            (λ p. self.old.entries ≡ self.new.entries ++ p ∷ []) }
        // The same, for the automatic proof.
        ensures rest { IfSome result (λ _.
            self.new.entries ≡ take (index_map_len self.old - 1) self.old.entries) }
        ensures updates { IfSome result (λ p. Updates K.eq self.old self.new p.0 None) }
        ensures len { index_map_len self.new + (if is_some result then 1 else 0)
            ≡ index_map_len self.old }
        ensures hasher { hasher_of self.new ≡ hasher_of self.old }
        ensures valid { IsValid K.eq self.new }
    {
        if self.inner.len() > 1 {
            self.inner.pop()
        } else {
            None
        }
    }

    /// Keeps the entries for which `f` returns `true`, in order and with the values that `f` left,
    /// or returns the empty map as an error if there is no such entry. Both have the hasher of this
    /// map.
    ///
    /// `f` is called once for each entry, in the map's order. It must be callable with each of
    /// them. The clause `filtered` covers an `f` that only tests the entry, `kept` one whose result
    /// and changes depend only on the entry, and `called` any `f`.
    ///
    /// ```
    /// let map = neim![alloc; 6 => 24, 4 => 25]?;
    /// let even = map.retain(|_k, v| *v % 2 == 0); // Ok({6: 24})
    /// let none = neim![alloc; 4 => 25]?.retain(|_k, v| *v % 2 == 0); // Err({})
    /// ```
    pub fn retain<F: FnMut(&K, &mut V) -> bool>(self, f: F) -> Result<Self, IndexMap<K, V, S>>
    where
        K: Drop,
        V: Drop,
        requires { CallableOnEachPair (CalledAtPair F.FnMut) (TakesPair F.FnMut) f self.entries }
        ensures none { IsErr result ↔ IsEmpty (either_way result) }
        ensures kept { (keeps : K → V → Bool) (writes : K → V → V)
            → ActsAsAtEntry F.FnMut f keeps writes
            → (either_way result).entries ≡ kept_entries keeps writes self.entries }
        ensures filtered { (keeps : K × V → Bool) → TestsEntries F.FnMut f keeps
            → (either_way result).entries ≡ filter keeps self.entries }
        ensures keys { (keeps : K → Bool) → TestsKeys F.FnMut f keeps
            → keys (either_way result) ≡ filter keeps (keys self) }
        ensures called { RetainsPairs (CalledAtPair F.FnMut) f self.entries
            (either_way result).entries }
        ensures hasher { hasher_of (either_way result) ≡ hasher_of self }
    {
        let mut inner = self.inner;
        inner.retain(f);
        if inner.is_empty() {
            Err(inner)
        } else {
            Ok(NEIndexMap { inner })
        }
    }
}
