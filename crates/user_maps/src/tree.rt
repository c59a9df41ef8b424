//! Tree maps and sets.
ghost use Rattle.std.specs.Prelude.{◌≡◌, ◌+◌, ◌≤◌, ◌≢◌, ◌/◌, ◌++◌, ◌↔◌, [], ◌∷◌, ℕ, map, nat_eq};
ghost use Rattle.std.specs.Prelude.{All, Contains, IfOk, IfSome, IsSome, IsTrue, None, OnOk, Some};
ghost use Rattle.std.specs.Prelude.{◌%◌, ◌⊎◌, false, filter, ltb, MatchOption};
ghost use Rattle.std.specs.BTreeMap.{get, get_by, get_by_text, keys, values, IsUnchanged};
ghost use Rattle.std.specs.BTreeSet.{contains, contains_text, union, IsSameSet};
ghost use Rattle.std.specs.Cmp.Lexicographic.{slice_cmp};
ghost use Rattle.std.specs.Ordering.{nat_cmp};
ghost use Rattle.std.specs.String.{string_bytes};
ghost use Rattle.nonempty_collections.specs.Collected.{IsMapOfPairs, IsSetOf};
ghost use Rattle.nonempty_collections.specs.KeptEntries.{kept_entries};
ghost use Rattle.nonempty_collections.specs.SameMap.{IsSameMap};

use crate::two;
use ne_string::NEString;
use nonempty_collections::{IntoNonEmptyIterator, NEBTreeMap, NEBTreeSet, NEVec, NonEmptyIterator};
use std::alloc::{AllocError, Global};
use std::collections::btree_map::Comparable;

/// Returns the value of a key that was inserted.
pub fn put_and_look_up(map: &mut NEBTreeMap<u32, u32>, k: u32, v: u32) -> Result<u32, AllocError>
    ensures { IfOk result (λ found. found ≡ v) }
{
    map.insert(k, v)?;
    match map.get(&k) {
        Some(found) => Ok(*found),
        None => unreachable!(),
    }
}

/// Returns whether another key keeps its value when one is inserted.
pub fn put_beside(
    map: &mut NEBTreeMap<u32, u32>,
    k: u32,
    v: u32,
    other: u32,
) -> Result<bool, AllocError>
    requires { k ≢ other }
    ensures { IfOk result (λ same. IsTrue same) }
{
    let before = map.get(&other).copied();
    map.insert(k, v)?;
    Ok(map.get(&other).copied() == before)
}

/// Returns the greatest value.
pub fn greatest_copy(m: &NEBTreeMap<u32, u32>) -> u32
    ensures member { Contains (values m.now) result }
    ensures greatest { All (λ x. x ≤ result) (values m.now) }
{
    m.values().copied().max()
}

/// Returns a key with the greatest value, and this value.
pub fn dearest(prices: &NEBTreeMap<u32, u32>) -> (u32, u32)
    ensures member { get nat_cmp prices.now result.0 ≡ Some result.1 }
    ensures bound { All (λ x. x ≤ result.1) (values prices.now) }
{
    let found = prices.nonempty_iter().max_by_key(|pair| *pair.1);
    (*found.0, *found.1)
}

/// Returns half of each value, in the order of the keys.
pub fn halves(alloc: Global, m: &NEBTreeMap<u32, u32>) -> Result<NEVec<u32>, AllocError>
    ensures { IfOk result (λ v. v ≡ map (λ x. x / 2) (values m.now)) }
{
    m.values().map(|x| *x / 2).collect(alloc)
}

/// Returns the sum of each key and its value, in the order of the keys.
pub fn sums(alloc: Global, m: NEBTreeMap<u16, u16>) -> Result<NEVec<u32>, AllocError>
    ensures { IfOk result (λ v. v ≡ map (λ p. p.0 + p.1) m.entries) }
{
    m.into_nonempty_iter()
        .map(|p| u32::from(p.0) + u32::from(p.1))
        .collect(alloc)
}

/// Returns a map from each item to its half.
pub fn numbered(alloc: Global, items: NEVec<u32>) -> Result<NEBTreeMap<u32, u32>, AllocError>
    ensures { IfOk result (λ m. IsMapOfPairs nat_eq (map (λ x. (x, x / 2)) items) m.entries) }
{
    items
        .into_nonempty_iter()
        .map(|x| (x, x / 2))
        .collect(alloc)
}

/// Returns the map of two pairs with the same key.
pub fn pairs(
    alloc: Global,
    k: u32,
    first: u32,
    second: u32,
) -> Result<NEBTreeMap<u32, u32>, AllocError>
    ensures { IfOk result (λ m. IsMapOfPairs nat_eq ((k, first) ∷ (k, second) ∷ []) m.entries) }
{
    two(alloc, (k, first), (k, second))
}

/// Adds pairs to a map.
pub fn extended(map: &mut NEBTreeMap<u32, u32>, more: NEVec<(u32, u32)>) -> Result<(), AllocError>
    ensures { OnOk result (IsMapOfPairs nat_eq (map.old.entries ++ more) map.new.entries) }
{
    map.extend(more)
}

/// Returns whether they are the same map.
pub fn same(a: &NEBTreeMap<u32, u32>, b: &NEBTreeMap<u32, u32>) -> bool
    ensures { IsTrue result ↔ IsSameMap nat_eq (get nat_cmp a.now) (get nat_cmp b.now) }
{
    *a == *b
}

/// Returns the items of a set, ascending.
pub fn items_by_value(alloc: Global, set: NEBTreeSet<u32>) -> Result<NEVec<u32>, AllocError>
    ensures { IfOk result (λ v. v ≡ set.keys) }
{
    set.into_nonempty_iter().collect(alloc)
}

/// Returns the set of an item that is given twice.
pub fn one_item(alloc: Global, x: u32) -> Result<NEBTreeSet<u32>, AllocError>
    ensures { IfOk result (λ s. IsSetOf nat_eq (x ∷ x ∷ []) s.keys) }
{
    two(alloc, x, x)
}

/// Adds items to a set.
pub fn extended_set(set: &mut NEBTreeSet<u32>, more: NEVec<u32>) -> Result<(), AllocError>
    ensures { OnOk result (IsSetOf nat_eq (set.old.keys ++ more) set.new.keys) }
{
    set.extend(more)
}

/// Returns whether they are the same set.
pub fn same_set(a: &NEBTreeSet<u32>, b: &NEBTreeSet<u32>) -> bool
    ensures { IsTrue result ↔ IsSameSet nat_cmp a.now b.now }
{
    *a == *b
}

/// Removes a key, and returns its value.
pub fn removed_value(map: &mut NEBTreeMap<u32, u32>, k: u32) -> Option<u32>
    ensures old { IfSome result (λ v. get nat_cmp map.old k ≡ Some v) }
    ensures new { IfSome result (λ _. get nat_cmp map.new k ≡ None) }
    ensures none { result ≡ None → IsUnchanged map.old map.new }
{
    map.remove(&k)
}

/// Returns the value of a key that is a text.
pub fn value_of_text(map: &NEBTreeMap<String, u32>, k: &str) -> Option<u32>
    ensures { result ≡ get_by_text map.now k.now }
{
    map.get(k).copied()
}

/// Inserts a key, which is then found as a text.
pub fn put_text(map: &mut NEBTreeMap<String, u32>, k: String, v: u32) -> Result<(), AllocError>
    ensures { OnOk result (get_by_text map.new (string_bytes k) ≡ Some v) }
{
    map.insert(k, v)?;
    Ok(())
}

/// Removes a key that is a text, and returns its value.
pub fn removed_text(map: &mut NEBTreeMap<String, u32>, k: &str) -> Option<u32>
    ensures old { IfSome result (λ v. get_by_text map.old k.now ≡ Some v) }
    ensures new { IfSome result (λ _. get_by_text map.new k.now ≡ None) }
    ensures none { result ≡ None → IsUnchanged map.old map.new }
{
    map.remove(k)
}

/// Writes the value of a key that is a text, and returns whether the key is there.
pub fn write_text(map: &mut NEBTreeMap<String, u32>, k: &str, v: u32) -> bool
    ensures found { IsTrue result ↔ IsSome (get_by_text map.old k.now) }
    ensures value { IsTrue result → get_by_text map.new k.now ≡ Some v }
{
    match map.get_mut(k) {
        Some(value) => {
            *value = v;
            true
        }
        None => false,
    }
}

/// Removes an item that is a text, and returns whether it was removed.
pub fn removed_item(set: &mut NEBTreeSet<String>, text: &str) -> bool
    ensures old { IsTrue result → IsTrue (contains_text set.old text.now) }
    ensures new { IsTrue result → contains_text set.new text.now ≡ false }
{
    set.remove(text)
}

/// Returns the value of a key that is a nonempty text.
pub fn value_of_name(map: &NEBTreeMap<NEString, u32>, name: &str) -> Option<u32>
    ensures { result ≡ get (slice_cmp nat_cmp) map.now name.now }
{
    map.get(name).copied()
}

/// Returns the value of the key that compares as equal to what is looked up.
pub fn value_of<K: Ord, Q: Comparable<K>>(map: &NEBTreeMap<K, u32>, k: Q) -> Option<u32>
    ensures { result ≡ get_by (Q.compare k) map.now }
{
    map.get(k).copied()
}

/// Returns the entries with even values, or `None` if there are none.
pub fn even_values(map: NEBTreeMap<u32, u32>) -> Option<NEBTreeMap<u32, u32>>
    ensures { MatchOption result (filter (λ e. nat_eq (e.1 % 2) 0) map.entries ≡ [])
        (λ kept. kept.entries ≡ filter (λ e. nat_eq (e.1 % 2) 0) map.entries) }
{
    map.retain(|_k, v| *v % 2 == 0).ok()
}

/// Returns the items below 10, or `None` if there are none.
pub fn small_items(set: NEBTreeSet<u32>) -> Option<NEBTreeSet<u32>>
    ensures { MatchOption result (filter (λ x. ltb x 10) set.keys ≡ [])
        (λ kept. kept.keys ≡ filter (λ x. ltb x 10) set.keys) }
{
    set.retain(|x| *x < 10).ok()
}

/// Returns whether an item is in one of two sets, by their union.
pub fn is_in_either(
    alloc: Global,
    a: &NEBTreeSet<u32>,
    b: &NEBTreeSet<u32>,
    x: u32,
) -> Result<bool, AllocError>
    ensures { IfOk result (λ found. IsTrue found
        ↔ (IsTrue (contains nat_cmp a.now x) ⊎ IsTrue (contains nat_cmp b.now x))) }
{
    let both: NEBTreeSet<u32> = a.union(b).copied().collect(alloc)?;
    Ok(both.contains(&x))
}

/// Writes the value of a key, and returns whether the key is there.
pub fn write_if_there(map: &mut NEBTreeMap<u32, u32>, k: u32, v: u32) -> bool
    ensures found { IsTrue result ↔ IsSome (get nat_cmp map.old k) }
    ensures value { IsTrue result → get nat_cmp map.new k ≡ Some v }
    ensures others { (q : ℕ) → q ≢ k → get nat_cmp map.new q ≡ get nat_cmp map.old q }
{
    match map.get_mut(&k) {
        Some(value) => {
            *value = v;
            true
        }
        None => false,
    }
}

/// Halves each value. The contract says only that the keys stay.
pub fn halve_values(map: &mut NEBTreeMap<u32, u32>)
    ensures { keys map.new ≡ keys map.old }
{
    for value in map.values_mut() {
        *value /= 2;
    }
}

/// Returns the entries with even values, with half of these, or `None` if there are none.
pub fn even_values_halved(map: NEBTreeMap<u32, u32>) -> Option<NEBTreeMap<u32, u32>>
    ensures { IfSome result (λ kept. kept.entries
        ≡ kept_entries (λ k v. nat_eq (v % 2) 0) (λ k v. v / 2) map.entries) }
{
    let kept = map.retain(|_k, v| {
        let is_even = *v % 2 == 0;
        *v /= 2;
        is_even
    });
    kept.ok()
}

/// Returns the keys of the prices in a map that are below 10.
pub fn keys_of_cheap(alloc: Global, prices: &NEBTreeMap<u32, u32>) -> Result<Vec<u32>, AllocError>
    ensures { IfOk result (λ v.
        v.items ≡ map (λ p. p.0) (filter (λ p. ltb p.1 10) prices.now.entries)) }
{
    prices
        .nonempty_iter()
        .filter(|p| *p.1 < 10)
        .map(|p| *p.0)
        .collect(alloc)
}
