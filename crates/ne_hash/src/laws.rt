//! Laws of hashed maps and sets. Each law is the contract of a function that does nothing. A caller
//! calls the function to use what it ensures.
ghost use Rattle.std.specs.Prelude.{◌≡◌, ◌↔◌, List, Option, Some, MatchOption, Ok, Result};
ghost use Rattle.std.specs.HashMap.{HashMap as Entries, IsEmpty as HasNoEntry, get};
ghost use Rattle.std.specs.HashSet.{HashSet as Keys, IsEmpty as HasNoKey, IsSameSet};
ghost use Rattle.ne_vec.specs.declared.Error.{Error};
ghost use Rattle.ne_iter.specs.Keyed.SameMap.{IsSameMap};

use crate::{NEMap, NESet};
use ne_iter::{FromNonEmptyIterator, Singleton};
use std::collections::{HashMap, HashSet};
use std::hash::{BuildHasher, Hash};

/// A map that is converted into std's map and back, by `try_from` or `try_from_map`, is the same
/// map with the same hasher, and the conversion back never fails.
pub fn hashed_maps_come_back<K: Eq + Hash, V, S: BuildHasher + Drop>()
    ensures by_try_from_map { (m inner : Entries K V S) (r : Option (Entries K V S))
        → ⟦<HashMap<K, V, S> as From<NEMap<K, V, S>>>⟧.from_gives m inner
        → MatchOption r (HasNoEntry inner) (λ n. n ≡ inner) → r ≡ Some m }
    ensures by_try_from { (m inner : Entries K V S) (r : Result (Entries K V S) Error)
        → ⟦<HashMap<K, V, S> as From<NEMap<K, V, S>>>⟧.from_gives m inner
        → ⟦<NEMap<K, V, S> as TryFrom<HashMap<K, V, S>>>⟧.try_from_gives inner r
        → r ≡ Ok m }
{}

/// A set that is converted into std's set and back, by `try_from` or `try_from_set`, is the same
/// set with the same hasher, and the conversion back never fails.
pub fn hashed_sets_come_back<T: Eq + Hash, S: BuildHasher + Drop>()
    ensures by_try_from_set { (s inner : Keys T S) (r : Option (Keys T S))
        → ⟦<HashSet<T, S> as From<NESet<T, S>>>⟧.from_gives s inner
        → MatchOption r (HasNoKey inner) (λ t. t ≡ inner) → r ≡ Some s }
    ensures by_try_from { (s inner : Keys T S) (r : Result (Keys T S) Error)
        → ⟦<HashSet<T, S> as From<NESet<T, S>>>⟧.from_gives s inner
        → ⟦<NESet<T, S> as TryFrom<HashSet<T, S>>>⟧.try_from_gives inner r
        → r ≡ Ok s }
{}

/// Equality of maps by `==` is symmetric and transitive for all values that implement `PartialEq`.
pub fn hashed_map_equality_is_symmetric_and_transitive<K: Eq + Hash, V: PartialEq, S: BuildHasher>()
    ensures symmetric { (m n : Entries K V S) → IsSameMap V.eq (get K.eq m) (get K.eq n)
        → IsSameMap V.eq (get K.eq n) (get K.eq m) }
    ensures transitive { (m n o : Entries K V S) → IsSameMap V.eq (get K.eq m) (get K.eq n)
        → IsSameMap V.eq (get K.eq n) (get K.eq o) → IsSameMap V.eq (get K.eq m) (get K.eq o) }
{}

/// If each value equals itself, so does each map.
pub fn hashed_map_equality_is_reflexive<K: Eq + Hash, V: Eq, S: BuildHasher>()
    ensures { (m : Entries K V S) → IsSameMap V.eq (get K.eq m) (get K.eq m) }
{}

/// Equality of sets by `==` is reflexive, symmetric and transitive.
pub fn hashed_set_equality_is_an_equivalence<T: Eq + Hash, S: BuildHasher>()
    ensures reflexive { (s : Keys T S) → IsSameSet T.eq s s }
    ensures symmetric { (s t : Keys T S) → IsSameSet T.eq s t → IsSameSet T.eq t s }
    ensures transitive { (s t u : Keys T S) → IsSameSet T.eq s t → IsSameSet T.eq t u
        → IsSameSet T.eq s u }
{}

/// What is said of pairs that are added one by one, by `singleton` and then `extend_one`, is what
/// is said of them collected. Two maps made from the same pairs have the same value at each key.
pub fn hashed_maps_one_by_one_are_collected<K: Eq + Hash + Drop, V: Drop>()
    ensures same_word { (pairs : List (K × V)) (m : Entries K V _)
        → ⟦<NEMap<K, V> as Singleton>⟧.collected pairs m
        ↔ ⟦<NEMap<K, V> as FromNonEmptyIterator<(K, V)>>⟧.collected pairs m }
    ensures same_map { (pairs : List (K × V)) (m n : Entries K V _)
        → ⟦<NEMap<K, V> as Singleton>⟧.collected pairs m
        → ⟦<NEMap<K, V> as FromNonEmptyIterator<(K, V)>>⟧.collected pairs n
        → (q : K) → get K.eq m q ≡ get K.eq n q }
{}

/// What is said of items that are added one by one, by `singleton` and then `extend_one`, is what
/// is said of them collected. Two sets made from the same items have equal items.
pub fn hashed_sets_one_by_one_are_collected<T: Eq + Hash + Drop>()
    ensures same_word { (items : List T) (s : Keys T _)
        → ⟦<NESet<T> as Singleton>⟧.collected items s
        ↔ ⟦<NESet<T> as FromNonEmptyIterator<T>>⟧.collected items s }
    ensures same_set { (items : List T) (s t : Keys T _)
        → ⟦<NESet<T> as Singleton>⟧.collected items s
        → ⟦<NESet<T> as FromNonEmptyIterator<T>>⟧.collected items t
        → IsSameSet T.eq s t }
{}
