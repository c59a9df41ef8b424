//! Collecting into maps and sets. Keys and items are the same if `==` returns `true`; it is not
//! specified which of several equal ones is kept.
ghost use Rattle.std.specs.Prelude.{◌<◌, length};
ghost use Rattle.std.specs.BTreeMap.{IsOrdered};
ghost use Rattle.std.specs.BTreeSet.{IsFromIterResult};
ghost use Rattle.ne_iter.specs.Collected.{IsMapOfPairs, IsSetOf};

use crate::iter::{FromNonEmptyIterator, IntoNonEmptyIterator, NonEmptyIterator};
use std::alloc::{AllocError, Global};
use std::collections::{BTreeMap, BTreeSet, HashMap, HashSet};
use std::hash::{BuildHasher, Hash};

/// Makes a map with each key once, with the value of the last pair that has it.
///
/// ```
/// let items = nev![alloc; 3, 4, 2]?.into_nonempty_iter();
/// let map: HashMap<u32, u32> = items.map(|x| (x / 2, x)).collect(alloc)?;
/// let last = map.get(&1).copied(); // Some(2)
/// ```
impl<K: Eq + Hash + Drop, V: Drop, S: BuildHasher + Default + Drop> FromNonEmptyIterator<(K, V)>
    for HashMap<K, V, S> {
    ghost collected = { λ xs m. IsMapOfPairs K.eq xs m.entries × (0 < length m.entries) };

    fn from_nonempty_iter<I: IntoNonEmptyIterator<Item = (K, V)>>(
        alloc: Global,
        iter: I,
    ) -> Result<HashMap<K, V, S>, AllocError> {
        iter.into_nonempty_iter().into_iter().collect(alloc)
    }
}

/// Makes a map with each key once, with the value of the last pair that has it. The keys are in
/// ascending order.
///
/// ```
/// let items = nev![alloc; 4, 3, 2]?.into_nonempty_iter();
/// let map: BTreeMap<u32, u32> = items.map(|x| (x / 2, x)).collect(alloc)?; // {1: 2, 2: 4}
/// ```
impl<K: Ord + Drop, V: Drop> FromNonEmptyIterator<(K, V)> for BTreeMap<K, V> {
    ghost collected = { λ xs m. IsMapOfPairs K.eq xs m.entries × IsOrdered K.cmp m
        × (0 < length m.entries) };

    fn from_nonempty_iter<I: IntoNonEmptyIterator<Item = (K, V)>>(
        alloc: Global,
        iter: I,
    ) -> Result<BTreeMap<K, V>, AllocError> {
        iter.into_nonempty_iter().into_iter().collect(alloc)
    }
}

/// Makes a set with each item once.
impl<T: Eq + Hash + Drop, S: BuildHasher + Default + Drop> FromNonEmptyIterator<T>
    for HashSet<T, S> {
    ghost collected = { λ xs s. IsSetOf T.eq xs s.keys × (0 < length s.keys) };

    fn from_nonempty_iter<I: IntoNonEmptyIterator<Item = T>>(
        alloc: Global,
        iter: I,
    ) -> Result<HashSet<T, S>, AllocError> {
        iter.into_nonempty_iter().into_iter().collect(alloc)
    }
}

/// Makes a set with each item once. The items are in ascending order.
///
/// ```
/// let halves = nev![alloc; 3, 1, 4, 1, 5, 9, 2, 6]?.into_nonempty_iter().map(|x| x / 2);
/// let set: BTreeSet<u32> = halves.collect(alloc)?; // {0, 1, 2, 3, 4}
/// ```
impl<T: Ord + Drop> FromNonEmptyIterator<T> for BTreeSet<T> {
    ghost collected = { λ xs s. IsSetOf T.eq xs s.keys × IsFromIterResult T.cmp xs s
        × (0 < length s.keys) };

    fn from_nonempty_iter<I: IntoNonEmptyIterator<Item = T>>(
        alloc: Global,
        iter: I,
    ) -> Result<BTreeSet<T>, AllocError> {
        iter.into_nonempty_iter().into_iter().collect(alloc)
    }
}
