//! Tree sets that hold at least one item, their iterators, and the traits that they implement.
//!
//! An [`NEBTreeSet`] iterates in ascending order of its items. Items are compared by `Ord`. Of
//! several equal items the set holds one.
//!
//! A method that removes an item by `&mut self` never removes the only one; `retain` takes the set.
//! The Rust crate lacks these methods, and `range`, `into_set`, `is_empty`, `first` and `last`.
ghost use Rattle.std.specs.Prelude.{◌≡◌, ◌+◌, ◌<◌, ◌^◌, ◌↔◌, ◌++◌, [], ◌∷◌, if◌then◌else◌, ◌-◌};
ghost use Rattle.std.specs.Prelude.{true, false, not, is_some, length, take, slice_get, IfOk};
ghost use Rattle.std.specs.Prelude.{IsTrue, MatchOption, OnErr, OnOk, Bool, Some, IfSome, IsErr};
ghost use Rattle.std.specs.Bool.{OnFalse, OnTrue};
ghost use Rattle.std.specs.BTreeSet.{btree_set_len, contains, contains_by, difference, get, get_by};
ghost use Rattle.std.specs.BTreeSet.{insert_key, intersection, keys_between, replace_key, union};
ghost use Rattle.std.specs.BTreeSet.{IsDifference, IsDisjoint, IsEmpty, IsIntersection, IsSubset};
ghost use Rattle.std.specs.BTreeSet.{IsClone, IsUnchanged, IsUnion, Updates, IsKeyRangeOf};
ghost use Rattle.std.specs.BTreeSet.{IsLowerBound, IsRun, IsUpperBound, UpdatesBy};
ghost use Rattle.std.specs.Int.NonZero.{non_zero_usize_get};
ghost use Rattle.std.specs.Iterator.{ExtendsWithItems, IsFiniteIterable, ActsAsAt};
ghost use Rattle.std.specs.List.Sorted.{IsStrictlySortedBy};
ghost use Rattle.std.specs.Map.Iter.{deref, ShowsInOrder, ShowsInReverse};
ghost use Rattle.std.specs.Option.{option_copied};
ghost use Rattle.std.specs.BTreeMap.{is_at};
ghost use Rattle.std.specs.BTreeMap.Range.{IsLeBy, IsLtBy};
ghost use Rattle.std.specs.Fn.{CalledAt};
ghost use Rattle.std.specs.List.{filter};
ghost use Rattle.std.specs.List.Retain.{IsFiltered};
ghost use Rattle.std.specs.declared.cmp.Ordering.TheVariants.{Equal};
ghost use Rattle.std.specs.Set.{remove_key};
ghost use Rattle.ne_vec.specs.Lists.{itself};
ghost use Rattle.ne_vec.specs.Taken.{RemovesFoundUnlessLast, TakesFoundUnlessLast, TakesUnlessLast};
ghost use Rattle.ne_iter.specs.Collected.{IsSetOf};
ghost use Rattle.ne_iter.specs.Keyed.Extends.{ExtendsByList};
ghost use Rattle.ne_iter.specs.Keyed.Iterators.{ListsEntries, ListsUnion};
ghost use Rattle.ne_iter.specs.SourceLists.{MeetsList};
ghost use Rattle.ne_iter.specs.Keyed.Clones.{KeepsItems};
ghost use Rattle.ne_iter.specs.Keyed.KeptEntries.{either_way};
ghost use Rattle.ne_tree.specs.ValidTreeSet.{IsValid};

mod iter;
mod serialized;
mod traits;

pub use iter::{Held, IntoIter, Iter, Union};
use ne_iter::iter::{ItemSource, NonEmptyIter};
use std::alloc::{AllocError, Global};
use std::collections::btree_map::Comparable;
use std::collections::{BTreeSet, btree_set};
use std::marker::Model;
use std::num::NonZeroUsize;
use std::ops::RangeBounds;

/// A tree set that holds at least one item. It wraps std's [`BTreeSet`].
///
/// Lookups and removals take a `&T`, or a `&str` if the items are `String`s, or a `&[U]` if they
/// are `Vec<U>`s.
///
/// In contracts it is std's record of the set: `contains T.cmp s x` says whether an item equal to
/// `x` is in the set, `contains_text s bs` whether the `String` whose bytes are `bs` is, `s.keys`
/// is the list of the items in ascending order, and `IsValid T.cmp s` says that there is an item
/// and that they are in that order.
///
/// ```
/// let set = nebts![alloc; 2, 1, 2]?;
/// let (two, three) = (set.contains(&2), set.contains(&3)); // true and false
/// let len = set.len().get(); // 2
/// ```
#[derive(Drop)]
pub struct NEBTreeSet<T: Ord> {
    inner: BTreeSet<T>,
}

impl<T: Ord> Model for NEBTreeSet<T> {
    ghost use Rattle.std.specs.BTreeSet.{BTreeSet as Keys};
    ghost use Rattle.std_collections.specs.Layout.BTreeSet.{btree_set_code};
    ghost use Rattle.ne_tree.specs.ValidTreeSet.{IsValid};

    ghost Value = { Keys T };

    ghost coded = { btree_set_code T.code };

    ghost view = { λ s. s.inner };

    ghost invariant = { λ s. IsValid T.cmp s.inner };
}

impl<T: Ord> NEBTreeSet<T> {
    /// Creates a set that holds the item `value`.
    ///
    /// Returns `AllocError` if the allocation fails; the item is then dropped.
    ///
    /// ```
    /// let set = NEBTreeSet::new(alloc, 2)?; // {2}
    /// ```
    pub fn new(alloc: Global, value: T) -> Result<Self, AllocError>
    where
        T: Drop,
        ensures keys { IfOk result (λ s. s.keys ≡ value ∷ []) }
        ensures found { IfOk result (λ s. contains T.cmp s value ≡ true) }
    {
        let mut inner = BTreeSet::new(alloc);
        inner.insert(value)?;
        Ok(NEBTreeSet { inner })
    }

    /// Returns the set as a non-empty set, or `None` if and only if it is empty. The items stay as
    /// they are, and nothing is allocated.
    ///
    /// ```
    /// let mut inner = BTreeSet::new(alloc);
    /// inner.insert(2)?;
    /// inner.insert(4)?;
    /// let some = NEBTreeSet::try_from_set(inner); // Some({2, 4})
    /// let empty: BTreeSet<u32> = BTreeSet::new(alloc);
    /// let none = NEBTreeSet::try_from_set(empty); // None
    /// ```
    pub fn try_from_set(set: BTreeSet<T>) -> Option<Self>
        ensures { MatchOption result (IsEmpty set) (λ s. s ≡ set) }
    {
        if set.is_empty() {
            set.destroy_empty();
            None
        } else {
            Some(NEBTreeSet::wrap(set))
        }
    }

    /// Returns the inner `BTreeSet` unchanged. Its type no longer guarantees an item. The Rust
    /// crate has only `From`, which is here too.
    ///
    /// ```
    /// let inner = nebts![alloc; 4, 2]?.into_set(); // {2, 4}
    /// ```
    pub fn into_set(self) -> BTreeSet<T>
        ensures same { result ≡ self }
        ensures valid { IsValid T.cmp result }
    {
        self.inner
    }

    /// Returns std's iterator over the items, in ascending order.
    ///
    /// ```
    /// let set = nebts![alloc; 10, 2]?;
    /// let items = set.iter(); // &2 and &10
    /// ```
    pub fn iter(&self) -> btree_set::Iter<'_, T>
        ensures rest { result ≡ self.now.keys }
        // Each run of `next` yields what is left, in order.
        ensures runs { ShowsInOrder (deref {X = T}) }
        ensures fits { btree_set_len self.now < 2 ^ 63 }
        ensures valid { IsValid T.cmp self.now }
    {
        self.inner.iter()
    }

    /// Returns a non-empty iterator over the items, in ascending order.
    ///
    /// ```
    /// let set = nebts![alloc; 10, 2]?;
    /// let items = set.nonempty_iter(); // &2 and &10
    /// ```
    pub fn nonempty_iter(&self) -> Iter<'_, T>
        ensures keys { result ≡ self.now.keys }
        // As the source of a chain, it yields these items.
        ensures lists { ListsEntries (deref {X = T}) result self.now.keys }
        ensures valid { IsValid T.cmp self.now }
    {
        NonEmptyIter::new(self.inner.iter())
    }

    /// Returns the number of items, which is at least 1.
    ///
    /// ```
    /// let len = nebts![alloc; 2, 1, 2]?.len().get(); // 2
    /// ```
    pub fn len(&self) -> NonZeroUsize
        ensures len { non_zero_usize_get result ≡ btree_set_len self.now }
        ensures valid { IsValid T.cmp self.now }
    {
        NonZeroUsize::new(self.inner.len()).unwrap()
    }

    /// Returns `false`: the set always holds an item.
    ///
    /// It exists for code that is written for `BTreeSet` too.
    ///
    /// ```
    /// let empty = nebts![alloc; 2]?.is_empty(); // false
    /// ```
    pub fn is_empty(&self) -> bool
        ensures never { result ≡ false }
        ensures valid { IsValid T.cmp self.now }
    {
        self.inner.is_empty()
    }

    /// Returns the least item, which is always there.
    ///
    /// ```
    /// let set = nebts![alloc; 4, 2]?;
    /// let first = set.first(); // &2
    /// ```
    pub fn first(&self) -> &T
        ensures first { slice_get self.now.keys 0 ≡ Some result.now }
        ensures found { IsTrue (contains T.cmp self.now result.now) }
        ensures least { IsLowerBound T.cmp self.now result.now }
    {
        self.inner.first().unwrap()
    }

    /// Returns the greatest item, which is always there.
    ///
    /// ```
    /// let set = nebts![alloc; 4, 2]?;
    /// let last = set.last(); // &4
    /// ```
    pub fn last(&self) -> &T
        ensures last { slice_get self.now.keys (btree_set_len self.now - 1) ≡ Some result.now }
        ensures found { IsTrue (contains T.cmp self.now result.now) }
        ensures greatest { IsUpperBound T.cmp self.now result.now }
    {
        self.inner.last().unwrap()
    }

    /// Returns whether the set holds an item equal to `value`.
    ///
    /// ```
    /// let set = nebts![alloc; 2, 4]?;
    /// let (there, absent) = (set.contains(&4), set.contains(&8)); // true and false
    /// let names = nebts![alloc; String::from_str(alloc, "Ada")?]?;
    /// let (ada, al) = (names.contains("Ada"), names.contains("Al")); // true and false
    /// ```
    pub fn contains<Q: Comparable<T>>(&self, value: Q) -> bool
        ensures { result ≡ contains_by (Q.compare value) self.now }
    {
        self.inner.contains(value)
    }

    /// Returns an iterator over the items that are not in `other`, in ascending order. There may be
    /// none, so this is std's iterator.
    ///
    /// ```
    /// let (a, b) = (nebts![alloc; 2, 4, 6]?, nebts![alloc; 6]?);
    /// let left = a.difference(&b); // &2 and &4
    /// ```
    pub fn difference<'a>(&'a self, other: &'a NEBTreeSet<T>) -> btree_set::Difference<'a, T>
        ensures items { result ≡ difference T.cmp self.now other.now }
        ensures members { IsDifference T.cmp self.now other.now result }
        ensures ordered { IsStrictlySortedBy T.cmp result }
        ensures fits { length result < 2 ^ 63 }
        ensures runs { ShowsInOrder (deref {X = T}) }
    {
        self.inner.difference(&other.inner)
    }

    /// Returns the item equal to `value`, as it is in the set, or `None` if there is no such item.
    ///
    /// ```
    /// let set = nebts![alloc; 1, 2]?;
    /// let (two, none) = (set.get(&2), set.get(&0)); // Some(&2) and None
    /// ```
    pub fn get<Q: Comparable<T>>(&self, value: Q) -> Option<&T>
        ensures item { option_copied result ≡ get_by (Q.compare value) self.now }
        ensures found { is_some result ≡ contains_by (Q.compare value) self.now }
    {
        self.inner.get(value)
    }

    /// Returns an iterator over the items that are in `range`, in ascending order. There may be
    /// none, so this is std's iterator.
    ///
    /// The start of `range` must be at most its end, and less than its end if both are excluded;
    /// Rust's `BTreeSet` panics otherwise.
    ///
    /// ```
    /// let set = nebts![alloc; 2, 4, 6]?;
    /// let items = set.range(3..7); // &4 and &6
    /// ```
    pub fn range<R: RangeBounds<T> + Drop>(&self, range: R) -> btree_set::Range<'_, T>
        requires { R.is_forward range (IsLeBy T.cmp) (IsLtBy T.cmp) }
        ensures between { R.has_bounds range → result ≡ keys_between T.cmp (R.start_bound range)
            (R.end_bound range) self.now }
        ensures in_range { R.has_bounds range
            → IsKeyRangeOf T.cmp (R.start_bound range) (R.end_bound range) self.now result }
        // The items are next to each other in the set.
        ensures contiguous { IsRun self.now result }
        // Each run of `next` yields what is left, in order, and of `next_back` in reverse.
        ensures runs { ShowsInOrder (deref {X = T}) }
        ensures runs_back { ShowsInReverse (deref {X = T}) }
        ensures fits { length result < 2 ^ 63 }
        ensures valid { IsValid T.cmp self.now }
    {
        self.inner.range(range)
    }

    /// Inserts an item, and returns whether it is new. An equal item that is in the set stays
    /// there, and `value` is dropped.
    ///
    /// Returns `AllocError` if the set has to grow and the allocation fails. This can happen only
    /// for a new item; the items are then unchanged and the new one is dropped.
    ///
    /// ```
    /// let mut set = nebts![alloc; 2, 6]?;
    /// let added = set.insert(8)?; // true, and the set is {2, 6, 8}
    /// let again = set.insert(8)?; // false
    /// ```
    pub fn insert(&mut self, value: T) -> Result<bool, AllocError>
    where
        T: Drop,
        ensures added { IfOk result (λ added. added ≡ not (contains T.cmp self.old value)) }
        ensures updates { OnOk result (Updates T.cmp self.old self.new value true) }
        ensures keys { OnOk result (self.new.keys ≡ insert_key T.cmp self.old.keys value) }
        ensures kept { IfOk result (λ added. OnFalse added (IsUnchanged self.old self.new)) }
        ensures len { IfOk result (λ added. btree_set_len self.new
            ≡ btree_set_len self.old + (if added then 1 else 0)) }
        // Only a new item can fail; the items then stay.
        ensures refused { OnErr result (contains T.cmp self.old value ≡ false) }
        ensures unchanged { OnErr result (IsUnchanged self.old self.new) }
        ensures valid { IsValid T.cmp self.new }
    {
        Ok(self.inner.insert(value)?)
    }

    /// Removes the item equal to `value` and returns `true`. Returns `false` if there is no such
    /// item, or if it is the only one, which then stays.
    ///
    /// ```
    /// let mut set = nebts![alloc; 2, 4]?;
    /// let removed = set.remove(&2); // true, and set is {4}
    /// let kept = set.remove(&4); // false: the only item stays
    /// ```
    pub fn remove<Q: Comparable<T>>(&mut self, value: Q) -> bool
    where
        T: Drop,
        // `false` if and only if the item is absent or the only one; then nothing changes.
        ensures keys { RemovesFoundUnlessLast (contains_by (Q.compare value) self.old ≡ false)
            self.old.keys self.new.keys result
            (self.new.keys ≡ remove_key (is_at (Q.compare value)) self.old.keys) }
        ensures updates { OnTrue result
            (UpdatesBy T.cmp (Q.compare value) self.old self.new false) }
        ensures len { btree_set_len self.new + (if result then 1 else 0)
            ≡ btree_set_len self.old }
        ensures valid { IsValid T.cmp self.new }
    {
        if self.inner.len() > 1 {
            self.inner.remove(value)
        } else {
            false
        }
    }

    /// Removes the item equal to `value` and returns it, as it was in the set. Returns `None` if
    /// there is no such item, or if it is the only one, which then stays.
    ///
    /// ```
    /// let mut set = nebts![alloc; 2, 4]?;
    /// let taken = set.take(&4); // Some(4), and set is {2}
    /// let none = set.take(&2); // None: the only item stays
    /// ```
    pub fn take<Q: Comparable<T>>(&mut self, value: Q) -> Option<T>
        // `None` if and only if the item is absent or the only one; then nothing changes.
        ensures keys { TakesFoundUnlessLast (contains_by (Q.compare value) self.old ≡ false)
            self.old.keys self.new.keys result
            (λ x. (get_by (Q.compare value) self.old ≡ Some x)
            × (self.new.keys ≡ remove_key (is_at (Q.compare value)) self.old.keys)) }
        ensures same { IfSome result (λ x. Q.compare value x ≡ Equal) }
        ensures updates { IfSome result (λ _.
            UpdatesBy T.cmp (Q.compare value) self.old self.new false) }
        ensures len { btree_set_len self.new + (if is_some result then 1 else 0)
            ≡ btree_set_len self.old }
        ensures valid { IsValid T.cmp self.new }
    {
        if self.inner.len() > 1 {
            self.inner.take(value)
        } else {
            None
        }
    }

    /// Removes the least item and returns it, or returns `None` if it is the only one, which then
    /// stays.
    ///
    /// ```
    /// let mut set = nebts![alloc; 2, 4]?;
    /// let popped = set.pop_first(); // Some(2), and set is {4}
    /// let none = set.pop_first(); // None: the only item stays
    /// ```
    pub fn pop_first(&mut self) -> Option<T>
        // `None` if and only if there is one item; then nothing changes.
        ensures keys { TakesUnlessLast self.old.keys self.new.keys result
            (λ x. self.old.keys ≡ x ∷ self.new.keys) }
        ensures found { IfSome result (λ x. IsTrue (contains T.cmp self.old x)) }
        ensures least { IfSome result (IsLowerBound T.cmp self.old) }
        ensures updates { IfSome result (λ x. Updates T.cmp self.old self.new x false) }
        ensures len { btree_set_len self.new + (if is_some result then 1 else 0)
            ≡ btree_set_len self.old }
        ensures valid { IsValid T.cmp self.new }
    {
        if self.inner.len() > 1 {
            self.inner.pop_first()
        } else {
            None
        }
    }

    /// Removes the greatest item and returns it, or returns `None` if it is the only one, which
    /// then stays.
    ///
    /// ```
    /// let mut set = nebts![alloc; 2, 4]?;
    /// let popped = set.pop_last(); // Some(4), and set is {2}
    /// let none = set.pop_last(); // None: the only item stays
    /// ```
    pub fn pop_last(&mut self) -> Option<T>
        // `None` if and only if there is one item; then nothing changes.
        ensures keys { TakesUnlessLast self.old.keys self.new.keys result
            (λ x. self.old.keys ≡ self.new.keys ++ x ∷ []) }
        // The same, for the automatic proof.
        ensures rest { IfSome result (λ _. self.new.keys
            ≡ take (btree_set_len self.old - 1) self.old.keys) }
        ensures found { IfSome result (λ x. IsTrue (contains T.cmp self.old x)) }
        ensures greatest { IfSome result (IsUpperBound T.cmp self.old) }
        ensures updates { IfSome result (λ x. Updates T.cmp self.old self.new x false) }
        ensures len { btree_set_len self.new + (if is_some result then 1 else 0)
            ≡ btree_set_len self.old }
        ensures valid { IsValid T.cmp self.new }
    {
        if self.inner.len() > 1 {
            self.inner.pop_last()
        } else {
            None
        }
    }

    /// Keeps the items for which `f` returns `true`, in order, or returns the empty set as an error
    /// if there is no such item.
    ///
    /// `f` is called once for each item, in ascending order. It must be callable with any value of
    /// the items' type. The clause `kept` covers an `f` whose result depends only on the item and
    /// that changes nothing; `called` covers any `f`.
    ///
    /// ```
    /// let even = nebts![alloc; 4, 5]?.retain(|x| *x % 2 == 0); // Ok({4})
    /// let none = nebts![alloc; 1, 3]?.retain(|x| *x % 2 == 0); // Err({})
    /// ```
    pub fn retain<F: FnMut(&T) -> bool>(self, f: F) -> Result<Self, BTreeSet<T>>
    where
        T: Drop,
        requires { F.IsAlwaysCallable f }
        ensures none { IsErr result ↔ IsEmpty (either_way result) }
        ensures kept { (keeps : T → Bool) → ActsAsAt F.FnMut f keeps
            → (either_way result).keys ≡ filter keeps self.keys }
        ensures called { IsFiltered (CalledAt F.FnMut) f self.keys (either_way result).keys }
    {
        let mut inner = self.inner;
        inner.retain(f);
        if inner.is_empty() {
            Err(inner)
        } else {
            Ok(NEBTreeSet { inner })
        }
    }

    /// Returns an iterator over the items that are also in `other`, in ascending order. There may
    /// be none, so this is std's iterator.
    ///
    /// ```
    /// let (a, b) = (nebts![alloc; 1, 3]?, nebts![alloc; 3, 5]?);
    /// let shared = a.intersection(&b); // &3
    /// ```
    pub fn intersection<'a>(&'a self, other: &'a NEBTreeSet<T>) -> btree_set::Intersection<'a, T>
        ensures items { result ≡ intersection T.cmp self.now other.now }
        ensures members { IsIntersection T.cmp self.now other.now result }
        ensures ordered { IsStrictlySortedBy T.cmp result }
        ensures fits { length result < 2 ^ 63 }
        ensures runs { ShowsInOrder (deref {X = T}) }
    {
        self.inner.intersection(&other.inner)
    }

    /// Returns whether no item is in both sets.
    ///
    /// ```
    /// let (a, b) = (nebts![alloc; 2, 4]?, nebts![alloc; 4, 6]?);
    /// let disjoint = a.is_disjoint(&b); // false: 4 is in both
    /// ```
    pub fn is_disjoint(&self, other: &NEBTreeSet<T>) -> bool
        ensures { IsTrue result ↔ IsDisjoint T.cmp self.now other.now }
    {
        self.inner.is_disjoint(&other.inner)
    }

    /// Returns whether every item of this set is in `other`.
    ///
    /// ```
    /// let (a, b) = (nebts![alloc; 4]?, nebts![alloc; 2, 4]?);
    /// let subset = a.is_subset(&b); // true
    /// ```
    pub fn is_subset(&self, other: &NEBTreeSet<T>) -> bool
        ensures { IsTrue result ↔ IsSubset T.cmp self.now other.now }
    {
        self.inner.is_subset(&other.inner)
    }

    /// Returns whether every item of `other` is in this set.
    ///
    /// ```
    /// let (a, b) = (nebts![alloc; 2, 4]?, nebts![alloc; 4]?);
    /// let superset = a.is_superset(&b); // true
    /// ```
    pub fn is_superset(&self, other: &NEBTreeSet<T>) -> bool
        ensures { IsTrue result ↔ IsSubset T.cmp other.now self.now }
    {
        self.inner.is_superset(&other.inner)
    }

    /// Inserts an item in place of an equal one, and returns the replaced item, or `None` if the
    /// item is new.
    ///
    /// Returns `AllocError` if the set has to grow and the allocation fails. This can happen only
    /// for a new item; the items are then unchanged and the new one is dropped.
    ///
    /// ```
    /// let mut set = nebts![alloc; 2, 4]?;
    /// let old = set.replace(4)?; // Some(4)
    /// ```
    pub fn replace(&mut self, value: T) -> Result<Option<T>, AllocError>
    where
        T: Drop,
        ensures old { IfOk result (λ old. old ≡ get T.cmp self.old value) }
        ensures updates { OnOk result (Updates T.cmp self.old self.new value true) }
        ensures keys { OnOk result (self.new.keys ≡ replace_key T.cmp self.old.keys value) }
        ensures len { IfOk result (λ old. btree_set_len self.new
            ≡ btree_set_len self.old + (if is_some old then 0 else 1)) }
        // Only a new item can fail; the items then stay.
        ensures refused { OnErr result (contains T.cmp self.old value ≡ false) }
        ensures unchanged { OnErr result (IsUnchanged self.old self.new) }
        ensures valid { IsValid T.cmp self.new }
    {
        Ok(self.inner.replace(value)?)
    }

    /// Returns a non-empty iterator over the items of both sets, each once, in ascending order. Of
    /// two equal items it returns this set's.
    ///
    /// ```
    /// let (a, b) = (nebts![alloc; 1, 3]?, nebts![alloc; 3, 2]?);
    /// let all = a.union(&b); // &1, &2 and &3
    /// ```
    pub fn union<'a>(&'a self, other: &'a NEBTreeSet<T>) -> Union<'a, T>
        ensures items { result ≡ union T.cmp self.now other.now }
        ensures members { IsUnion T.cmp self.now other.now result }
        ensures ordered { IsStrictlySortedBy T.cmp result }
        // As the source of a chain, it yields these items.
        ensures lists { ListsUnion result (union T.cmp self.now other.now) }
    {
        NonEmptyIter::new(self.inner.union(&other.inner))
    }

    /// Inserts the items, in order. An item that is already in the set stays as it is.
    ///
    /// Returns `AllocError` if the set has to grow and the allocation fails. The items before the
    /// one that failed are then in the set, and that one is dropped.
    ///
    /// ```
    /// let mut set = NEBTreeSet::new(alloc, 2)?;
    /// set.extend([4, 2])?; // {2, 4}
    /// ```
    pub fn extend<I: IntoIterator<Item = T>>(&mut self, iter: I) -> Result<(), AllocError>
    where
        T: Drop,
        requires { IsFiniteIterable I.into_iter_gives I.IntoIter.can_next I.IntoIter.remaining
            iter }
        // The set of the old items and those that were added: at `Ok`, all of the source.
        ensures ran { ExtendsWithItems I.into_iter_gives I.IntoIter.next_gives
            (λ old items new. IsSetOf T.eq (old.keys ++ items) new.keys)
            iter self.old self.new result }
        // The same at `Ok`, by the list of the source.
        ensures lists { OnOk result (ExtendsByList (⟦<I as ItemSource>⟧.lists itself)
            (MeetsList I.into_iter_gives I.IntoIter.next_gives itself) iter self.old.keys
            (λ all. IsSetOf T.eq all self.new.keys)) }
        ensures valid { IsValid T.cmp self.new }
    {
        self.inner.extend(iter)
    }

    /// Returns a set of clones, item by item. If clones equal their originals, it has the same
    /// items.
    ///
    /// Returns `AllocError` if an allocation or a clone fails. No law says that a clone equals its
    /// original; so this also returns `AllocError` if the clones are not in ascending order.
    ///
    /// ```
    /// let set = nebts![alloc; 2, 4]?;
    /// let same = set.clone()? == set; // true
    /// ```
    pub fn clone(&self) -> Result<Self, AllocError>
    where
        T: Clone,
        ensures clones { IfOk result (λ s. IsClone T.is_clone self.now s
            × KeepsItems T.is_clone self.now.keys s.keys) }
    {
        let inner = self.inner.clone()?;
        Ok(NEBTreeSet::wrap(inner))
    }

    // Wraps a set that is not empty. The contract of `len` says that its items ascend.
    fn wrap(inner: BTreeSet<T>) -> Self
        requires { 0 < btree_set_len inner }
        ensures { result ≡ inner }
    {
        prove!(inner.len() > 0);
        NEBTreeSet { inner }
    }
}
