//! Laws of tree maps and sets. Each law is the contract of a function that does nothing. A caller
//! calls the function to use what it ensures.
ghost use Rattle.std.specs.Prelude.{◌≡◌, ◌↔◌, List, Option, Some, MatchOption, Ok, Result};
ghost use Rattle.std.specs.BTreeMap.{BTreeMap as Entries, IsEmpty as HasNoEntry, get};
ghost use Rattle.std.specs.BTreeSet.{BTreeSet as Keys, IsEmpty as HasNoKey, IsSameSet};
ghost use Rattle.ne_vec.specs.declared.Error.{Error};
ghost use Rattle.ne_iter.specs.Keyed.SameMap.{IsSameMap};

use crate::{NEBTreeMap, NEBTreeSet};
use ne_iter::{FromNonEmptyIterator, Singleton};
use std::collections::{BTreeMap, BTreeSet};

/// A map that is converted into std's map and back, by `try_from` or `try_from_map`, is the same
/// map, and the conversion back never fails.
pub fn tree_maps_come_back<K: Ord, V>()
    ensures by_try_from_map { (m inner : Entries K V) (r : Option (Entries K V))
        → ⟦<BTreeMap<K, V> as From<NEBTreeMap<K, V>>>⟧.from_gives m inner
        → MatchOption r (HasNoEntry inner) (λ n. n ≡ inner) → r ≡ Some m }
    ensures by_try_from { (m inner : Entries K V) (r : Result (Entries K V) Error)
        → ⟦<BTreeMap<K, V> as From<NEBTreeMap<K, V>>>⟧.from_gives m inner
        → ⟦<NEBTreeMap<K, V> as TryFrom<BTreeMap<K, V>>>⟧.try_from_gives inner r
        → r ≡ Ok m }
{}

/// A set that is converted into std's set and back, by `try_from` or `try_from_set`, is the same
/// set, and the conversion back never fails.
pub fn tree_sets_come_back<T: Ord>()
    ensures by_try_from_set { (s inner : Keys T) (r : Option (Keys T))
        → ⟦<BTreeSet<T> as From<NEBTreeSet<T>>>⟧.from_gives s inner
        → MatchOption r (HasNoKey inner) (λ t. t ≡ inner) → r ≡ Some s }
    ensures by_try_from { (s inner : Keys T) (r : Result (Keys T) Error)
        → ⟦<BTreeSet<T> as From<NEBTreeSet<T>>>⟧.from_gives s inner
        → ⟦<NEBTreeSet<T> as TryFrom<BTreeSet<T>>>⟧.try_from_gives inner r
        → r ≡ Ok s }
{}

/// Equality of maps by `==` is symmetric and transitive for all values that implement `PartialEq`.
pub fn tree_map_equality_is_symmetric_and_transitive<K: Ord, V: PartialEq>()
    ensures symmetric { (m n : Entries K V) → IsSameMap V.eq (get K.cmp m) (get K.cmp n)
        → IsSameMap V.eq (get K.cmp n) (get K.cmp m) }
    ensures transitive { (m n o : Entries K V) → IsSameMap V.eq (get K.cmp m) (get K.cmp n)
        → IsSameMap V.eq (get K.cmp n) (get K.cmp o) → IsSameMap V.eq (get K.cmp m) (get K.cmp o) }
{}

/// If each value equals itself, so does each map.
pub fn tree_map_equality_is_reflexive<K: Ord, V: Eq>()
    ensures { (m : Entries K V) → IsSameMap V.eq (get K.cmp m) (get K.cmp m) }
{}

/// Equality of sets by `==` is reflexive, symmetric and transitive.
pub fn tree_set_equality_is_an_equivalence<T: Ord>()
    ensures reflexive { (s : Keys T) → IsSameSet T.cmp s s }
    ensures symmetric { (s t : Keys T) → IsSameSet T.cmp s t → IsSameSet T.cmp t s }
    ensures transitive { (s t u : Keys T) → IsSameSet T.cmp s t → IsSameSet T.cmp t u
        → IsSameSet T.cmp s u }
{}

/// What is said of pairs that are added one by one, by `singleton` and then `extend_one`, is what
/// is said of them collected. Two maps made from the same pairs have the same value at each key.
pub fn tree_maps_one_by_one_are_collected<K: Ord + Drop, V: Drop>()
    ensures same_word { (pairs : List (K × V)) (m : Entries K V)
        → ⟦<NEBTreeMap<K, V> as Singleton>⟧.collected pairs m
        ↔ ⟦<NEBTreeMap<K, V> as FromNonEmptyIterator<(K, V)>>⟧.collected pairs m }
    ensures same_map { (pairs : List (K × V)) (m n : Entries K V)
        → ⟦<NEBTreeMap<K, V> as Singleton>⟧.collected pairs m
        → ⟦<NEBTreeMap<K, V> as FromNonEmptyIterator<(K, V)>>⟧.collected pairs n
        → (q : K) → get K.cmp m q ≡ get K.cmp n q }
{}

/// What is said of items that are added one by one, by `singleton` and then `extend_one`, is what
/// is said of them collected. Two sets made from the same items have equal items.
pub fn tree_sets_one_by_one_are_collected<T: Ord + Drop>()
    ensures same_word { (items : List T) (s : Keys T)
        → ⟦<NEBTreeSet<T> as Singleton>⟧.collected items s
        ↔ ⟦<NEBTreeSet<T> as FromNonEmptyIterator<T>>⟧.collected items s }
    ensures same_set { (items : List T) (s t : Keys T)
        → ⟦<NEBTreeSet<T> as Singleton>⟧.collected items s
        → ⟦<NEBTreeSet<T> as FromNonEmptyIterator<T>>⟧.collected items t
        → IsSameSet T.cmp s t }
{}
