//! Maps whose values are made one key at a time.
ghost use Rattle.std.specs.Prelude.{◌≡◌, Bool, Option, None, IsSome, IfOk, OnErr, OnOk};
ghost use Rattle.std.specs.Borrow.{LendsSo, sem};
ghost use Rattle.std.specs.Cmp.{IsEquivalence};
ghost use Rattle.std.specs.Option.{option_copied_mut};
ghost use Rattle.ne_vec.specs.Lists.{View};
ghost use Rattle.ne_iter.specs.KeyedMap.{PutsValue};

use std::alloc::{AllocError, Global};

/// A map with a value for each of its keys, which begins with one key, and in which the value of a
/// key can be put and changed. The three map types are such maps; the Rust crate has no such trait.
///
/// `K` is what keys are given by: the type of the map's keys, or `&str` for keys that are a
/// `String`, which is then made for a new key only. In contracts a key is seen through `key_view`:
/// `value m k` is the value of the key `k` in `m`, or `None` if it is not there, and `same j k`
/// says whether `j` and `k` are one key.
///
/// ```
/// let mut map: NEBTreeMap<String, u32> = KeyedMap::with_entry(alloc, "a", 10)?;
/// map.put_value(alloc, "b", 20)?;
/// if let Some(value) = map.value_mut(&"a") {
///     *value = 11; // {"a": 11, "b": 20}
/// }
/// ```
pub trait KeyedMap<K, V>: Sized {
    ghost key_view: { View K };

    ghost same: { key_view.Target → key_view.Target → Bool };

    ghost value: { Self → key_view.Target → Option V };

    /// Returns a map of one key, `k`, with the value `v`.
    ///
    /// Returns `AllocError` if the allocation fails; the pair is then dropped.
    fn with_entry(alloc: Global, k: K, v: V) -> Result<Self, AllocError>
        ensures { IfOk result (λ m. PutsValue same (λ _. None) (key_view.of k) v (value m)) };

    /// Gives the key the value `v`, and drops its old value if it has one.
    ///
    /// Returns `AllocError` if an allocation for the map or for the key fails; the pair is then
    /// dropped, and the map is as before.
    fn put_value(&mut self, alloc: Global, k: K, v: V) -> Result<(), AllocError>
        ensures value { OnOk result (PutsValue same (value self.old) (key_view.of k) v
            (value self.new)) }
        ensures unchanged { OnErr result ((q : key_view.Target) → value self.new q
            ≡ value self.old q) };

    /// Returns a mutable reference to the value of the key `k`, or `None` if it is not there. It
    /// does not allocate.
    fn value_mut(&mut self, k: &K) -> Option<&mut V>
        // Once the reference is gone, the key has the value last written.
        ensures* writes_back { sem 𝓛 (LendsSo Self.row V.row self.entry result
            (λ n v. IsSome (value self.old (key_view.of k.now))
            → PutsValue same (value self.old) (key_view.of k.now) v (value n))
            (λ n. n ≡ self.old)) }
        ensures value { option_copied_mut result ≡ value self.old (key_view.of k.now) };

    ghost equivalence: { IsEquivalence same };
}
