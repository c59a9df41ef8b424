//! Laws of index maps and sets. Each law is the contract of a function that does nothing. A caller
//! calls the function to use what it ensures.
ghost use Rattle.std.specs.Prelude.{◌≡◌, ◌↔◌, ◌++◌, List, Option, Some, MatchOption, Ok, Result};
ghost use Rattle.ne_vec.specs.declared.Error.{Error};
ghost use Rattle.indexmap.specs.IndexMap.{IndexMap as Entries, IsEmpty as HasNoEntry, get};
ghost use Rattle.indexmap.specs.IndexSet.{IndexSet as Keys, IsEmpty as HasNoKey, IsSameSet};
ghost use Rattle.ne_iter.specs.Collected.{IsSetOf};
ghost use Rattle.ne_iter.specs.Keyed.KeyList.{first_seen, key_list};
ghost use Rattle.ne_iter.specs.Keyed.SameMap.{IsSameMap};

use crate::{NEIndexMap, NEIndexSet};
use indexmap::{IndexMap, IndexSet};
use ne_iter::{FromNonEmptyIterator, Singleton};
use std::hash::{BuildHasher, Hash};

/// A map that is converted into the crate `indexmap`'s map and back, by `try_from_map`, is the same
/// map with the same hasher, and the conversion back never fails.
pub fn index_maps_come_back<K: Eq + Hash, V, S: BuildHasher + Drop>()
    ensures { (m inner : Entries K V S) (r : Option (Entries K V S))
        → ⟦<IndexMap<K, V, S> as From<NEIndexMap<K, V, S>>>⟧.from_gives m inner
        → MatchOption r (HasNoEntry inner) (λ n. n ≡ inner) → r ≡ Some m }
{}

/// A set that is converted into the crate `indexmap`'s set and back, by `try_from` or
/// `try_from_set`, is the same set with the same hasher, and the conversion back never fails.
pub fn index_sets_come_back<T: Eq + Hash, S: BuildHasher + Drop>()
    ensures by_try_from_set { (s inner : Keys T S) (r : Option (Keys T S))
        → ⟦<IndexSet<T, S> as From<NEIndexSet<T, S>>>⟧.from_gives s inner
        → MatchOption r (HasNoKey inner) (λ t. t ≡ inner) → r ≡ Some s }
    ensures by_try_from { (s inner : Keys T S) (r : Result (Keys T S) Error)
        → ⟦<IndexSet<T, S> as From<NEIndexSet<T, S>>>⟧.from_gives s inner
        → ⟦<NEIndexSet<T, S> as TryFrom<IndexSet<T, S>>>⟧.try_from_gives inner r
        → r ≡ Ok s }
{}

/// Equality of index maps by `==` is symmetric and transitive for all values that implement
/// `PartialEq`. It ignores the order of the entries.
pub fn index_map_equality_is_symmetric_and_transitive<K: Eq + Hash, V: PartialEq, S: BuildHasher>()
    ensures symmetric { (m n : Entries K V S) → IsSameMap V.eq (get K.eq m) (get K.eq n)
        → IsSameMap V.eq (get K.eq n) (get K.eq m) }
    ensures transitive { (m n o : Entries K V S) → IsSameMap V.eq (get K.eq m) (get K.eq n)
        → IsSameMap V.eq (get K.eq n) (get K.eq o) → IsSameMap V.eq (get K.eq m) (get K.eq o) }
{}

/// If each value equals itself, so does each index map.
pub fn index_map_equality_is_reflexive<K: Eq + Hash, V: Eq, S: BuildHasher>()
    ensures { (m : Entries K V S) → IsSameMap V.eq (get K.eq m) (get K.eq m) }
{}

/// Equality of index sets by `==` is reflexive, symmetric and transitive. It ignores the order of
/// the items.
pub fn index_set_equality_is_an_equivalence<T: Eq + Hash, S: BuildHasher>()
    ensures reflexive { (s : Keys T S) → IsSameSet T.eq s s }
    ensures symmetric { (s t : Keys T S) → IsSameSet T.eq s t → IsSameSet T.eq t s }
    ensures transitive { (s t u : Keys T S) → IsSameSet T.eq s t → IsSameSet T.eq t u
        → IsSameSet T.eq s u }
{}

/// Pairs that are added one by one, by `singleton` and then `extend_one`, make what they make when
/// they are collected. Two maps made from the same pairs have the same entries, in the same order.
pub fn index_maps_one_by_one_are_collected<K: Eq + Hash + Drop, V: Drop>()
    ensures same_word { (pairs : List (K × V)) (m : _)
        → ⟦<NEIndexMap<K, V> as Singleton>⟧.collected pairs m
        ↔ ⟦<NEIndexMap<K, V> as FromNonEmptyIterator<(K, V)>>⟧.collected pairs m }
    ensures same_entries { (pairs : List (K × V))
        (m n : _)
        → ⟦<NEIndexMap<K, V> as Singleton>⟧.collected pairs m
        → ⟦<NEIndexMap<K, V> as FromNonEmptyIterator<(K, V)>>⟧.collected pairs n
        → n.entries ≡ m.entries }
{}

/// Items that are added one by one, by `singleton` and then `extend_one`, make what they make when
/// they are collected. Two sets made from the same items have the same items, in the same order.
pub fn index_sets_one_by_one_are_collected<T: Eq + Hash + Drop>()
    ensures same_word { (items : List T) (s : _)
        → ⟦<NEIndexSet<T> as Singleton>⟧.collected items s
        ↔ ⟦<NEIndexSet<T> as FromNonEmptyIterator<T>>⟧.collected items s }
    ensures same_keys { (items : List T) (s t : _)
        → ⟦<NEIndexSet<T> as Singleton>⟧.collected items s
        → ⟦<NEIndexSet<T> as FromNonEmptyIterator<T>>⟧.collected items t
        → t.keys ≡ s.keys }
{}

/// A key list holds each key of its list once and no other. The key list of a list begins with the
/// key list of each prefix of the list.
pub fn key_lists_are_sets_in_order<K: Eq>()
    ensures once { (xs : List K) → IsSetOf K.eq xs (key_list K.eq xs) }
    ensures in_order { (prefix more : List K) → key_list K.eq (prefix ++ more)
        ≡ key_list K.eq prefix ++ first_seen K.eq prefix more }
{}
