//! Index maps and sets.
ghost use Rattle.std.specs.Prelude.{◌≡◌, ◌≤◌, ◌+◌, ◌/◌, ◌++◌, ◌↔◌, [], ◌∷◌, map, nat_eq, IfOk};
ghost use Rattle.std.specs.Prelude.{All, IfSome, IsTrue, MatchOption, None, OnOk, Some, true};
ghost use Rattle.std.specs.Prelude.{◌%◌, ◌⊎◌, ◌<◌, ◌^◌, filter, ltb, slice_get, IsSome, false};
ghost use Rattle.std.specs.Option.{unwrap_or};
ghost use Rattle.std.specs.Str.{bytes_eq};
ghost use Rattle.std.specs.String.{string_bytes};
ghost use Rattle.indexmap.specs.IndexMap.{get, get_by, get_by_text, keys, values};
ghost use Rattle.indexmap.specs.IndexSet.{contains, contains_text, union, IsSameSet};
ghost use Rattle.nonempty_collections.specs.KeyList.{key_list, IsKeyListMapOf};
ghost use Rattle.nonempty_collections.specs.SameMap.{IsSameMap};

use crate::two;
use indexmap::Equivalent;
use ne_string::NEString;
use nonempty_collections::{
    IntoNonEmptyIterator, NEIndexMap, NEIndexSet, NEVec, NonEmptyIterator, neis,
};
use std::alloc::{AllocError, Global};
use std::hash::Hash;

/// Inserts a key, which is the last one if it is new, and returns whether it is.
pub fn put_last(map: &mut NEIndexMap<u32, u32>, k: u32, v: u32) -> Result<bool, AllocError>
    ensures { IfOk result (λ new. IsTrue new
        → map.new.entries ≡ map.old.entries ++ (k, v) ∷ []) }
{
    let old = map.insert(k, v)?;
    Ok(old.is_none())
}

/// Returns the value of a key, by its index.
pub fn at_its_place(map: &NEIndexMap<u32, u32>, k: u32) -> Option<u32>
    ensures { result ≡ get nat_eq map.now k }
{
    match map.get_index_of(&k) {
        Some(place) => Some(map[place]),
        None => None,
    }
}

/// Returns the sum of each key and its value, in the order of the map.
pub fn sums(alloc: Global, m: NEIndexMap<u16, u16>) -> Result<NEVec<u32>, AllocError>
    ensures { IfOk result (λ v. v ≡ map (λ p. p.0 + p.1) m.entries) }
{
    m.into_nonempty_iter()
        .map(|p| u32::from(p.0) + u32::from(p.1))
        .collect(alloc)
}

/// Returns a map from each item to its half, in the order in which the items first appear.
pub fn numbered(alloc: Global, items: NEVec<u32>) -> Result<NEIndexMap<u32, u32>, AllocError>
    ensures { IfOk result (λ m. IsKeyListMapOf nat_eq (map (λ x. (x, x / 2)) items) m.entries) }
{
    items
        .into_nonempty_iter()
        .map(|x| (x, x / 2))
        .collect(alloc)
}

/// Returns the map of two pairs with the same key.
pub fn pairs(
    alloc: Global,
    k: u32,
    first: u32,
    second: u32,
) -> Result<NEIndexMap<u32, u32>, AllocError>
    ensures { IfOk result (λ m. IsKeyListMapOf nat_eq ((k, first) ∷ (k, second) ∷ []) m.entries) }
{
    two(alloc, (k, first), (k, second))
}

/// Adds pairs to a map.
pub fn extended(map: &mut NEIndexMap<u32, u32>, more: NEVec<(u32, u32)>) -> Result<(), AllocError>
    ensures { OnOk result (IsKeyListMapOf nat_eq (map.old.entries ++ more) map.new.entries) }
{
    map.extend(more)
}

/// Returns whether they are the same map.
pub fn same(a: &NEIndexMap<u32, u32>, b: &NEIndexMap<u32, u32>) -> bool
    ensures { IsTrue result ↔ IsSameMap nat_eq (get nat_eq a.now) (get nat_eq b.now) }
{
    *a == *b
}

/// Returns the items of a set, in its order.
pub fn items_by_value(alloc: Global, set: NEIndexSet<u32>) -> Result<NEVec<u32>, AllocError>
    ensures { IfOk result (λ v. v ≡ set.keys) }
{
    set.into_nonempty_iter().collect(alloc)
}

/// Returns each item that is in one of two sets: those of the first, and then the others.
pub fn all_of_both(
    alloc: Global,
    a: &NEIndexSet<u32>,
    b: &NEIndexSet<u32>,
) -> Result<NEVec<u32>, AllocError>
    ensures { IfOk result (λ v. v ≡ union nat_eq a.now b.now) }
{
    a.union(b).copied().collect(alloc)
}

/// Returns the halves, each once, in the order in which they first appear.
pub fn distinct_halves(alloc: Global, items: NEVec<u32>) -> Result<NEIndexSet<u32>, AllocError>
    ensures { IfOk result (λ s. s.keys ≡ key_list nat_eq (map (λ x. x / 2) items)) }
{
    items.into_nonempty_iter().map(|x| x / 2).collect(alloc)
}

/// Returns the set of an item that is given twice.
pub fn one_item(alloc: Global, x: u32) -> Result<NEIndexSet<u32>, AllocError>
    ensures { IfOk result (λ s. s.keys ≡ key_list nat_eq (x ∷ x ∷ [])) }
{
    two(alloc, x, x)
}

/// Adds items to a set.
pub fn extended_set(set: &mut NEIndexSet<u32>, more: NEVec<u32>) -> Result<(), AllocError>
    ensures { OnOk result (set.new.keys ≡ key_list nat_eq (set.old.keys ++ more)) }
{
    set.extend(more)
}

/// Returns whether they are the same set.
pub fn same_set(a: &NEIndexSet<u32>, b: &NEIndexSet<u32>) -> bool
    ensures { IsTrue result ↔ IsSameSet nat_eq a.now b.now }
{
    *a == *b
}

/// Returns a key with the least value, and this value, by reference.
pub fn cheapest<'a>(prices: &'a NEIndexMap<u32, u32>) -> (&'a u32, &'a u32)
    ensures member { get nat_eq prices.now result.0.now ≡ Some result.1.now }
    ensures bound { All (λ pair. result.1.now ≤ pair.1) prices.now.entries }
{
    prices.nonempty_iter().min_by_key(|pair| *pair.1)
}

/// Returns whether a set that is written out is a subset of another. The attribute has the check
/// search once more, without the lemmas of std, and that search ends.
#[tactic(auto, using(std::proofs::Common::arith))]
pub fn is_written_out_subset(alloc: Global) -> Result<bool, AllocError>
    ensures { IfOk result (λ subset. subset ≡ true) }
{
    let a: NEIndexSet<u32> = neis![alloc; 1, 2]?;
    let b: NEIndexSet<u32> = neis![alloc; 2, 1, 3]?;
    Ok(a.is_subset(&b))
}

/// Removes a key, and returns its value. The others keep their order.
pub fn removed_value(map: &mut NEIndexMap<u32, u32>, k: u32) -> Option<u32>
    ensures old { IfSome result (λ v. get nat_eq map.old k ≡ Some v) }
    ensures new { IfSome result (λ _. get nat_eq map.new k ≡ None) }
    ensures none { result ≡ None → map.new.entries ≡ map.old.entries }
{
    map.shift_remove(&k)
}

/// Returns the value of a key that is a text.
pub fn value_of_text(map: &NEIndexMap<String, u32>, k: &str) -> Option<u32>
    ensures { result ≡ get_by_text map.now k.now }
{
    map.get(k).copied()
}

/// Inserts a key, which is then found as a text.
pub fn put_text(map: &mut NEIndexMap<String, u32>, k: String, v: u32) -> Result<(), AllocError>
    ensures { OnOk result (get_by_text map.new (string_bytes k) ≡ Some v) }
{
    map.insert(k, v)?;
    Ok(())
}

/// Removes a key that is a text, and returns its value.
pub fn removed_text(map: &mut NEIndexMap<String, u32>, k: &str) -> Option<u32>
    ensures old { IfSome result (λ v. get_by_text map.old k.now ≡ Some v) }
    ensures new { IfSome result (λ _. get_by_text map.new k.now ≡ None) }
    ensures none { result ≡ None → map.new.entries ≡ map.old.entries }
{
    map.shift_remove(k)
}

/// Writes the value of a key that is a text, and returns whether the key is there.
pub fn write_text(map: &mut NEIndexMap<String, u32>, k: &str, v: u32) -> bool
    ensures found { IsTrue result ↔ IsSome (get_by_text map.old k.now) }
    ensures value { IsTrue result → get_by_text map.new k.now ≡ Some v }
{
    match map.get_mut(k) {
        Some(value) => {
            *value = v;
            true
        }
        None => false,
    }
}

/// Removes an item that is a text, and returns whether it was removed.
pub fn removed_item(set: &mut NEIndexSet<String>, text: &str) -> bool
    ensures old { IsTrue result → IsTrue (contains_text set.old text.now) }
    ensures new { IsTrue result → contains_text set.new text.now ≡ false }
{
    set.shift_remove(text)
}

/// Returns the value of a key that is a nonempty text.
pub fn value_of_name(map: &NEIndexMap<NEString, u32>, name: &str) -> Option<u32>
    ensures { result ≡ get bytes_eq map.now name.now }
{
    map.get(name).copied()
}

/// Returns the value of the key that is equivalent to what is looked up.
pub fn value_of<K: Eq + Hash, Q: Equivalent<K>>(map: &NEIndexMap<K, u32>, k: Q) -> Option<u32>
    ensures { result ≡ get_by (Q.equivalent k) map.now }
{
    map.get(k).copied()
}

/// Returns the entries with even values, or `None` if there are none.
pub fn even_values(map: NEIndexMap<u32, u32>) -> Option<NEIndexMap<u32, u32>>
    ensures { MatchOption result (filter (λ e. nat_eq (e.1 % 2) 0) map.entries ≡ [])
        (λ kept. kept.entries ≡ filter (λ e. nat_eq (e.1 % 2) 0) map.entries) }
{
    map.retain(|_k, v| *v % 2 == 0).ok()
}

/// Returns the entries whose keys are below 10, or `None` if there are none.
pub fn small_keys(map: NEIndexMap<u32, u32>) -> Option<NEIndexMap<u32, u32>>
    ensures { MatchOption result (filter (λ k. ltb k 10) (keys map) ≡ [])
        (λ kept. keys kept ≡ filter (λ k. ltb k 10) (keys map)) }
{
    map.retain(|k, _v| *k < 10).ok()
}

/// Returns the items below 10, or `None` if there are none.
pub fn small_items(set: NEIndexSet<u32>) -> Option<NEIndexSet<u32>>
    ensures { MatchOption result (filter (λ x. ltb x 10) set.keys ≡ [])
        (λ kept. kept.keys ≡ filter (λ x. ltb x 10) set.keys) }
{
    set.retain(|x| *x < 10).ok()
}

/// Writes the first value. The keys stay.
pub fn write_first(map: &mut NEIndexMap<u32, u32>, v: u32)
    ensures value { slice_get (values map.new) 0 ≡ Some v }
    ensures keys { keys map.new ≡ keys map.old }
{
    *map.first_mut() = v;
}

/// Returns whether an item is in one of two sets, by their union.
pub fn is_in_either(
    alloc: Global,
    a: &NEIndexSet<u32>,
    b: &NEIndexSet<u32>,
    x: u32,
) -> Result<bool, AllocError>
    ensures { IfOk result (λ found. IsTrue found
        ↔ (IsTrue (contains nat_eq a.now x) ⊎ IsTrue (contains nat_eq b.now x))) }
{
    let both: NEIndexSet<u32> = a.union(b).copied().collect(alloc)?;
    Ok(both.contains(&x))
}

/// Returns the value of a key, which is `v` and put there if the key is new.
pub fn value_or_put(map: &mut NEIndexMap<u32, u32>, k: u32, v: u32) -> Result<u32, AllocError>
    ensures value { IfOk result (λ found. found ≡ unwrap_or (get nat_eq map.old k) v) }
    ensures there { IfOk result (λ found. get nat_eq map.new k ≡ Some found) }
{
    Ok(*map.or_insert(k, v)?)
}

/// Counts a key: its value is one more, or 1 if the key is new.
pub fn count_one(map: &mut NEIndexMap<u32, u64>, k: u32) -> Result<(), AllocError>
    requires { unwrap_or (get nat_eq map.old k) 0 + 1 < 2 ^ 64 }
    ensures { OnOk result (get nat_eq map.new k ≡ Some (unwrap_or (get nat_eq map.old k) 0 + 1)) }
{
    *map.or_insert(k, 0)? += 1;
    Ok(())
}
