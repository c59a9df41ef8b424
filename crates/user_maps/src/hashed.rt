//! Hashed maps and sets.
ghost use Rattle.std.specs.Prelude.{◌≡◌, ◌+◌, ◌++◌, ◌↔◌, [], ◌∷◌, map, nat_eq, IfOk, IsTrue};
ghost use Rattle.std.specs.Prelude.{◌%◌, ◌⊎◌, filter, ltb, IfSome, MatchOption, None, Ok, OnOk};
ghost use Rattle.std.specs.Prelude.{All, Some, IsSome, false, ◌≤◌};
ghost use Rattle.std.specs.HashMap.{get, get_by, get_by_text, values, IsUnchanged};
ghost use Rattle.std.specs.HashSet.{contains, contains_text, IsSameSet, IsUnion};
ghost use Rattle.std.specs.Str.{bytes_eq};
ghost use Rattle.std.specs.String.{string_bytes};
ghost use Rattle.nonempty_collections.specs.Collected.{IsMapOfPairs, IsSetOf};
ghost use Rattle.nonempty_collections.specs.Pairs.{cartesian_product};
ghost use Rattle.nonempty_collections.specs.SameMap.{IsSameMap};

use crate::two;
use ne_string::NEString;
use nonempty_collections::{
    IntoNonEmptyIterator, NEMap, NESet, NEVec, NonEmptyIterator, NonEmptyItertools,
};
use std::alloc::{AllocError, Global};
use std::collections::hash_map::Equivalent;
use std::hash::Hash;

/// Returns the sum of each key and its value, in the order of the map.
pub fn sums(alloc: Global, m: NEMap<u16, u16>) -> Result<NEVec<u32>, AllocError>
    ensures { IfOk result (λ v. v ≡ map (λ p. p.0 + p.1) m.entries) }
{
    m.into_nonempty_iter()
        .map(|p| u32::from(p.0) + u32::from(p.1))
        .collect(alloc)
}

/// Returns a key with the greatest value.
pub fn key_of_greatest(m: &NEMap<u32, u32>) -> u32
    ensures { IfSome (get nat_eq m.now result) (λ most. All (λ x. x ≤ most) (values m.now)) }
{
    *m.nonempty_iter().max_by_key(|pair| *pair.1).0
}

/// Returns the map of two pairs with the same key.
pub fn pairs(alloc: Global, k: u32, first: u32, second: u32) -> Result<NEMap<u32, u32>, AllocError>
    ensures { IfOk result (λ m. IsMapOfPairs nat_eq ((k, first) ∷ (k, second) ∷ []) m.entries) }
{
    two(alloc, (k, first), (k, second))
}

/// Adds pairs to a map.
pub fn extended(map: &mut NEMap<u32, u32>, more: NEVec<(u32, u32)>) -> Result<(), AllocError>
    ensures { OnOk result (IsMapOfPairs nat_eq (map.old.entries ++ more) map.new.entries) }
{
    map.extend(more)
}

/// Returns whether they are the same map.
pub fn same(a: &NEMap<u32, u32>, b: &NEMap<u32, u32>) -> bool
    ensures { IsTrue result ↔ IsSameMap nat_eq (get nat_eq a.now) (get nat_eq b.now) }
{
    *a == *b
}

/// Returns the items of a set, in its order.
pub fn items_by_value(alloc: Global, set: NESet<u32>) -> Result<NEVec<u32>, AllocError>
    ensures { IfOk result (λ v. v ≡ set.keys) }
{
    set.into_nonempty_iter().collect(alloc)
}

/// Returns each item that is in one of two sets.
pub fn all_of_both(alloc: Global, a: &NESet<u32>, b: &NESet<u32>) -> Result<NEVec<u32>, AllocError>
    ensures { IfOk result (λ v. IsUnion nat_eq a.now b.now v) }
{
    a.union(b).copied().collect(alloc)
}

/// Returns each row paired with each item of a set, in the set's order.
pub fn pairs_with_items(
    alloc: Global,
    rows: &NEVec<u32>,
    set: &NESet<u32>,
) -> Result<Result<NEVec<(u32, u32)>, AllocError>, AllocError>
    ensures { IfOk result (λ r. r ≡ Ok (cartesian_product rows.now set.now.keys)) }
{
    let items = set.nonempty_iter().copied();
    let pairs = rows.nonempty_iter().copied().cartesian_product(items);
    pairs.collect(alloc)
}

/// Returns the set of an item that is given twice.
pub fn one_item(alloc: Global, x: u32) -> Result<NESet<u32>, AllocError>
    ensures { IfOk result (λ s. IsSetOf nat_eq (x ∷ x ∷ []) s.keys) }
{
    two(alloc, x, x)
}

/// Adds items to a set.
pub fn extended_set(set: &mut NESet<u32>, more: NEVec<u32>) -> Result<(), AllocError>
    ensures { OnOk result (IsSetOf nat_eq (set.old.keys ++ more) set.new.keys) }
{
    set.extend(more)
}

/// Returns whether they are the same set.
pub fn same_set(a: &NESet<u32>, b: &NESet<u32>) -> bool
    ensures { IsTrue result ↔ IsSameSet nat_eq a.now b.now }
{
    *a == *b
}

/// Removes a key, and returns its value.
pub fn removed_value(map: &mut NEMap<u32, u32>, k: u32) -> Option<u32>
    ensures old { IfSome result (λ v. get nat_eq map.old k ≡ Some v) }
    ensures new { IfSome result (λ _. get nat_eq map.new k ≡ None) }
    ensures none { result ≡ None → IsUnchanged map.old map.new }
{
    map.remove(&k)
}

/// Returns the value of a key that is a text.
pub fn value_of_text(map: &NEMap<String, u32>, k: &str) -> Option<u32>
    ensures { result ≡ get_by_text map.now k.now }
{
    map.get(k).copied()
}

/// Inserts a key, which is then found as a text.
pub fn put_text(map: &mut NEMap<String, u32>, k: String, v: u32) -> Result<(), AllocError>
    ensures { OnOk result (get_by_text map.new (string_bytes k) ≡ Some v) }
{
    map.insert(k, v)?;
    Ok(())
}

/// Removes a key that is a text, and returns its value.
pub fn removed_text(map: &mut NEMap<String, u32>, k: &str) -> Option<u32>
    ensures old { IfSome result (λ v. get_by_text map.old k.now ≡ Some v) }
    ensures new { IfSome result (λ _. get_by_text map.new k.now ≡ None) }
    ensures none { result ≡ None → IsUnchanged map.old map.new }
{
    map.remove(k)
}

/// Writes the value of a key that is a text, and returns whether the key is there.
pub fn write_text(map: &mut NEMap<String, u32>, k: &str, v: u32) -> bool
    ensures found { IsTrue result ↔ IsSome (get_by_text map.old k.now) }
    ensures value { IsTrue result → get_by_text map.new k.now ≡ Some v }
{
    match map.get_mut(k) {
        Some(value) => {
            *value = v;
            true
        }
        None => false,
    }
}

/// Removes an item that is a text, and returns whether it was removed.
pub fn removed_item(set: &mut NESet<String>, text: &str) -> bool
    ensures old { IsTrue result → IsTrue (contains_text set.old text.now) }
    ensures new { IsTrue result → contains_text set.new text.now ≡ false }
{
    set.remove(text)
}

/// Returns the value of a key that is a nonempty text.
pub fn value_of_name(map: &NEMap<NEString, u32>, name: &str) -> Option<u32>
    ensures { result ≡ get bytes_eq map.now name.now }
{
    map.get(name).copied()
}

/// Returns the value of the key that is equivalent to what is looked up.
pub fn value_of<K: Eq + Hash, Q: Equivalent<K>>(map: &NEMap<K, u32>, k: Q) -> Option<u32>
    ensures { result ≡ get_by (Q.equivalent k) map.now }
{
    map.get(k).copied()
}

/// Returns the entries with even values, or `None` if there are none.
pub fn even_values(map: NEMap<u32, u32>) -> Option<NEMap<u32, u32>>
    ensures { MatchOption result (filter (λ e. nat_eq (e.1 % 2) 0) map.entries ≡ [])
        (λ kept. kept.entries ≡ filter (λ e. nat_eq (e.1 % 2) 0) map.entries) }
{
    map.retain(|_k, v| *v % 2 == 0).ok()
}

/// Returns the items below 10, or `None` if there are none.
pub fn small_items(set: NESet<u32>) -> Option<NESet<u32>>
    ensures { MatchOption result (filter (λ x. ltb x 10) set.keys ≡ [])
        (λ kept. kept.keys ≡ filter (λ x. ltb x 10) set.keys) }
{
    set.retain(|x| *x < 10).ok()
}

/// Returns whether an item is in one of two sets, by their union.
pub fn is_in_either(
    alloc: Global,
    a: &NESet<u32>,
    b: &NESet<u32>,
    x: u32,
) -> Result<bool, AllocError>
    ensures { IfOk result (λ found. IsTrue found
        ↔ (IsTrue (contains nat_eq a.now x) ⊎ IsTrue (contains nat_eq b.now x))) }
{
    let both: NESet<u32> = a.union(b).copied().collect(alloc)?;
    Ok(both.contains(&x))
}
