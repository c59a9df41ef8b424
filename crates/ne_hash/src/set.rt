//! Hashed sets that hold at least one item, their iterators, and the traits that they implement.
//!
//! An [`NESet`] finds an item by its hash, and iterates in an unspecified order. Items are compared
//! by `==`. Of several equal items the set holds one.
//!
//! A method that removes an item by `&mut self` never removes the only one; `retain` takes the set.
//! The Rust crate lacks these methods, and `into_set`.
ghost use Rattle.std.specs.Prelude.{◌≡◌, ◌+◌, ◌<◌, ◌≤◌, ◌^◌, ◌↔◌, ◌++◌, [], ◌∷◌, if◌then◌else◌};
ghost use Rattle.std.specs.Prelude.{true, false, not, is_some, length, IfOk, IsOk, IsTrue};
ghost use Rattle.std.specs.Prelude.{MatchOption, OnErr, OnOk, Bool, Some, IfSome, IsErr};
ghost use Rattle.std.specs.Bool.{OnFalse, OnTrue};
ghost use Rattle.std.specs.HashSet.{contains, contains_by, get, get_by, hash_set_len, hasher_of};
ghost use Rattle.std.specs.HashSet.{spare, IsDifference, IsDisjoint, IsEmpty, IsIntersection};
ghost use Rattle.std.specs.HashSet.{IsReordered, IsSubset, IsUnchanged, IsUnion, IsClone, PutsKey};
ghost use Rattle.std.specs.HashSet.{ReplacesKey, AreKeysOf, Updates, UpdatesBy};
ghost use Rattle.std.specs.Int.NonZero.{non_zero_usize_get};
ghost use Rattle.std.specs.Iterator.{ExtendsWithItems, IsFiniteIterable, ActsAsAt};
ghost use Rattle.std.specs.List.{filter, IsDistinct};
ghost use Rattle.std.specs.Map.Iter.{deref, ShowsInOrder};
ghost use Rattle.std.specs.Option.{option_copied};
ghost use Rattle.std.specs.Fn.{CalledAt};
ghost use Rattle.std.specs.List.Retain.{IsFiltered};
ghost use Rattle.std.specs.List.Sorted.{IsPermutation};
ghost use Rattle.std.specs.Set.{remove_key};
ghost use Rattle.ne_vec.specs.Lists.{itself};
ghost use Rattle.ne_vec.specs.Taken.{RemovesFoundUnlessLast, TakesFoundUnlessLast};
ghost use Rattle.ne_iter.specs.Collected.{IsSetOf};
ghost use Rattle.ne_iter.specs.Keyed.Extends.{ExtendsByList};
ghost use Rattle.ne_iter.specs.Keyed.Iterators.{ListsEntries, ListsUnion};
ghost use Rattle.ne_iter.specs.SourceLists.{MeetsList};
ghost use Rattle.ne_iter.specs.Keyed.Clones.{KeepsItems};
ghost use Rattle.ne_iter.specs.Keyed.KeptEntries.{either_way};
ghost use Rattle.ne_hash.specs.ValidHashSet.{IsValid};

mod iter;
mod serialized;
mod traits;

pub use iter::{Held, IntoIter, Iter, Union};
use ne_iter::iter::{ItemSource, NonEmptyIter};
use std::alloc::{AllocError, Global};
use std::collections::hash_map::Equivalent;
use std::collections::{HashSet, hash_set};
use std::hash::{BuildHasher, BuildHasherDefault, FoldHasher, Hash};
use std::marker::Model;
use std::num::NonZeroUsize;

/// A hashed set that holds at least one item. It wraps std's [`HashSet`].
///
/// The default hasher has a fixed seed. If untrusted users can choose the items, create the set by
/// [`with_hasher`](NESet::with_hasher) with std's `RandomState`, and fill it by `insert` or
/// `extend`:
///
/// ```
/// let set = NESet::with_hasher(alloc, RandomState::new(&rt)?, 1)?;
/// ```
///
/// By `serde` a set is read with the default hasher, so read one of such items as an `NEBTreeSet`.
///
/// Lookups and removals take a `&T`, or a `&str` if the items are `String`s, or a `&[U]` if they
/// are `Vec<U>`s.
///
/// In contracts it is std's record of the set: `contains T.eq s x` says whether an item equal to
/// `x` is in the set, `contains_text s bs` whether the `String` whose bytes are `bs` is, `s.keys`
/// is the list of the items in the order of iteration, `IsValid T.eq s` says that there is an item
/// and that no two items are equal, and `hasher_of s` is the hasher.
///
/// ```
/// let set = nes![alloc; 2, 1, 2]?;
/// let (two, three) = (set.contains(&2), set.contains(&3)); // true and false
/// let len = set.len().get(); // 2
/// ```
#[derive(Drop)]
pub struct NESet<T: Eq + Hash, S: BuildHasher = BuildHasherDefault<FoldHasher>> {
    inner: HashSet<T, S>,
}

impl<T: Eq + Hash, S: BuildHasher> Model for NESet<T, S> {
    ghost use Rattle.std.specs.HashSet.{HashSet as Keys};
    ghost use Rattle.std_collections.specs.Layout.HashSet.{hash_set_code};
    ghost use Rattle.ne_hash.specs.ValidHashSet.{IsValid};

    ghost Value = { Keys T S };

    ghost coded = { hash_set_code T.code S.code };

    ghost view = { λ s. s.inner };

    ghost invariant = { λ s. IsValid T.eq s.inner };
}

impl<T: Eq + Hash + Drop> NESet<T> {
    /// Creates a set that holds the item `value`, with the default hasher.
    ///
    /// Returns `AllocError` if the allocation fails; the item is then dropped.
    ///
    /// ```
    /// let set = NESet::new(alloc, 2)?; // {2}
    /// ```
    pub fn new(alloc: Global, value: T) -> Result<Self, AllocError>
        ensures keys { IfOk result (λ s. s.keys ≡ value ∷ []) }
        ensures found { IfOk result (λ s. contains T.eq s value ≡ true) }
    {
        NESet::with_hasher(alloc, BuildHasherDefault::new(), value)
    }

    /// Creates a set that holds the item `value`, with the default hasher and room for at least
    /// `capacity` items, `value` included.
    ///
    /// Returns `AllocError` if the allocation fails or if `capacity` is more than can be allocated;
    /// the item is then dropped.
    ///
    /// ```
    /// let room = NonZeroUsize::new(9).unwrap();
    /// let set = NESet::with_capacity(alloc, room, 2)?; // {2}, with room for 9 items
    /// ```
    pub fn with_capacity(
        alloc: Global,
        capacity: NonZeroUsize,
        value: T,
    ) -> Result<Self, AllocError>
        ensures keys { IfOk result (λ s. s.keys ≡ value ∷ []) }
        ensures found { IfOk result (λ s. contains T.eq s value ≡ true) }
        ensures room { IfOk result (λ s. non_zero_usize_get capacity ≤ hash_set_len s + spare s) }
    {
        NESet::with_capacity_and_hasher(alloc, capacity, BuildHasherDefault::new(), value)
    }
}

impl<T: Eq + Hash, S: BuildHasher> NESet<T, S> {
    /// Creates a set that holds the item `value`, with the hasher `hasher` and room for at least
    /// `capacity` items, `value` included.
    ///
    /// Returns `AllocError` if the allocation fails or if `capacity` is more than can be allocated;
    /// the hasher and the item are then dropped.
    ///
    /// ```
    /// let (room, hasher) = (NonZeroUsize::new(9).unwrap(), BuildHasherDefault::new());
    /// let mut set: NESet<u32> =
    ///     NESet::with_capacity_and_hasher(alloc, room, hasher, 8)?;
    /// let has_room = set.capacity().get() >= 9; // true
    /// let is_empty = set.is_empty(); // false
    /// set.shrink_to_fit()?; // {8}
    /// let hasher = set.hasher();
    /// ```
    pub fn with_capacity_and_hasher(
        alloc: Global,
        capacity: NonZeroUsize,
        hasher: S,
        value: T,
    ) -> Result<Self, AllocError>
    where
        T: Drop,
        S: Drop,
        ensures keys { IfOk result (λ s. s.keys ≡ value ∷ []) }
        ensures found { IfOk result (λ s. contains T.eq s value ≡ true) }
        ensures hasher { IfOk result (λ s. hasher_of s ≡ hasher) }
        ensures room { IfOk result (λ s. non_zero_usize_get capacity ≤ hash_set_len s + spare s) }
    {
        let inner = HashSet::with_capacity_and_hasher(alloc, capacity.get(), hasher)?;
        of_one_item(inner, value)
    }

    /// Creates a set that holds the item `value`, with the hasher `hasher`.
    ///
    /// Returns `AllocError` if the allocation fails; the hasher and the item are then dropped.
    ///
    /// ```
    /// let hasher = BuildHasherDefault::new();
    /// let set: NESet<u32> = NESet::with_hasher(alloc, hasher, 8)?; // {8}
    /// ```
    pub fn with_hasher(alloc: Global, hasher: S, value: T) -> Result<Self, AllocError>
    where
        T: Drop,
        S: Drop,
        ensures keys { IfOk result (λ s. s.keys ≡ value ∷ []) }
        ensures found { IfOk result (λ s. contains T.eq s value ≡ true) }
        ensures hasher { IfOk result (λ s. hasher_of s ≡ hasher) }
    {
        of_one_item(HashSet::with_hasher(alloc, hasher), value)
    }

    /// Returns the set as a non-empty set, or `None` if and only if it is empty. The items and the
    /// hasher stay as they are, and nothing is allocated.
    ///
    /// ```
    /// let mut inner = HashSet::new(alloc);
    /// inner.insert(2)?;
    /// inner.insert(4)?;
    /// let some = NESet::try_from_set(inner); // Some({2, 4})
    /// let empty: HashSet<u32> = HashSet::new(alloc);
    /// let none = NESet::try_from_set(empty); // None
    /// ```
    pub fn try_from_set(set: HashSet<T, S>) -> Option<Self>
    where
        S: Drop,
        ensures { MatchOption result (IsEmpty set) (λ s. s ≡ set) }
    {
        if set.is_empty() {
            set.destroy_empty();
            None
        } else {
            Some(NESet::wrap(set))
        }
    }

    /// Returns the inner `HashSet` unchanged, with its hasher. Its type no longer guarantees an
    /// item. The Rust crate has only `From`, which is here too.
    ///
    /// ```
    /// let inner = nes![alloc; 2, 4]?.into_set(); // {2, 4}
    /// ```
    pub fn into_set(self) -> HashSet<T, S>
        ensures same { result ≡ self }
        ensures valid { IsValid T.eq result }
    {
        self.inner
    }

    /// Returns how many items the set has room for, which is at least `len`.
    pub fn capacity(&self) -> NonZeroUsize
        ensures room { non_zero_usize_get result ≡ hash_set_len self.now + spare self.now }
        ensures at_least_len { hash_set_len self.now ≤ non_zero_usize_get result }
    {
        NonZeroUsize::new(self.inner.capacity()).unwrap()
    }

    /// Returns the hasher that the set was created with.
    pub fn hasher(&self) -> &S
        ensures { result.now ≡ hasher_of self.now }
    {
        self.inner.hasher()
    }

    /// Returns std's iterator over the items, in an unspecified order.
    ///
    /// ```
    /// let set = nes![alloc; 10, 2]?;
    /// let items = set.iter(); // &2 and &10, in some order
    /// ```
    pub fn iter(&self) -> hash_set::Iter<'_, T>
        ensures rest { result ≡ self.now.keys }
        // Each run of `next` yields what is left, in order.
        ensures runs { ShowsInOrder (deref {X = T}) }
        ensures fits { hash_set_len self.now < 2 ^ 63 }
        ensures valid { IsValid T.eq self.now }
    {
        self.inner.iter()
    }

    /// Returns a non-empty iterator over the items, in an unspecified order.
    ///
    /// ```
    /// let set = nes![alloc; 10, 2]?;
    /// let items = set.nonempty_iter(); // &2 and &10, in some order
    /// ```
    pub fn nonempty_iter(&self) -> Iter<'_, T>
        ensures keys { result ≡ self.now.keys }
        // As the source of a chain, it yields these items.
        ensures lists { ListsEntries (deref {X = T}) result self.now.keys }
        ensures valid { IsValid T.eq self.now }
    {
        NonEmptyIter::new(self.inner.iter())
    }

    /// Returns the number of items, which is at least 1.
    ///
    /// ```
    /// let len = nes![alloc; 2, 1, 2]?.len().get(); // 2
    /// ```
    pub fn len(&self) -> NonZeroUsize
        ensures len { non_zero_usize_get result ≡ hash_set_len self.now }
        ensures valid { IsValid T.eq self.now }
    {
        NonZeroUsize::new(self.inner.len()).unwrap()
    }

    /// Returns `false`: the set always holds an item.
    ///
    /// It exists for code that is written for `HashSet` too. It is deprecated in the Rust crate.
    pub fn is_empty(&self) -> bool
        ensures never { result ≡ false }
        ensures valid { IsValid T.eq self.now }
    {
        self.inner.is_empty()
    }

    /// Returns whether the set holds an item equal to `value`.
    ///
    /// ```
    /// let set = nes![alloc; 2, 4]?;
    /// let (there, absent) = (set.contains(&4), set.contains(&8)); // true and false
    /// let names = nes![alloc; String::from_str(alloc, "Ada")?]?;
    /// let (ada, al) = (names.contains("Ada"), names.contains("Al")); // true and false
    /// ```
    pub fn contains<Q: Equivalent<T>>(&self, value: Q) -> bool
        ensures { result ≡ contains_by (Q.equivalent value) self.now }
    {
        self.inner.contains(value)
    }

    /// Returns an iterator over the items that are not in `other`, in an unspecified order. There
    /// may be none, so this is std's iterator.
    ///
    /// ```
    /// let (a, b) = (nes![alloc; 2, 4]?, nes![alloc; 4, 6]?);
    /// let left: Vec<u32> = a.difference(&b).copied().collect(alloc)?; // [2]
    /// ```
    pub fn difference<'a>(&'a self, other: &'a NESet<T, S>) -> hash_set::Difference<'a, T, S>
        ensures members { IsDifference T.eq self.now other.now result }
        ensures unique { IsDistinct T.eq result }
        // Each item is stored in one of the sets.
        ensures stored { AreKeysOf self.now other.now result }
        ensures fits { length result < 2 ^ 63 }
        ensures runs { ShowsInOrder (deref {X = T}) }
    {
        self.inner.difference(&other.inner)
    }

    /// Returns the item equal to `value`, as it is in the set, or `None` if there is no such item.
    ///
    /// ```
    /// let set = NESet::new(alloc, 8)?;
    /// let (eight, none) = (set.get(&8), set.get(&6)); // Some(&8) and None
    /// ```
    pub fn get<Q: Equivalent<T>>(&self, value: Q) -> Option<&T>
        ensures item { option_copied result ≡ get_by (Q.equivalent value) self.now }
        ensures found { is_some result ≡ contains_by (Q.equivalent value) self.now }
    {
        self.inner.get(value)
    }

    /// Inserts an item, and returns whether it is new. An equal item that is in the set stays
    /// there, and `value` is dropped.
    ///
    /// Returns `AllocError` if the set has to grow and the allocation fails. This can happen only
    /// for a new item; the items are then unchanged and the new one is dropped.
    ///
    /// ```
    /// let mut set = nes![alloc; 2, 6]?;
    /// let added = set.insert(8)?; // true, and the set is {2, 6, 8}
    /// let again = set.insert(8)?; // false
    /// ```
    pub fn insert(&mut self, value: T) -> Result<bool, AllocError>
    where
        T: Drop,
        ensures added { IfOk result (λ added. added ≡ not (contains T.eq self.old value)) }
        ensures updates { OnOk result (Updates T.eq self.old self.new value true) }
        ensures keys { IfOk result (PutsKey self.old self.new value) }
        ensures kept { IfOk result (λ added. OnFalse added (IsUnchanged self.old self.new)) }
        ensures len { IfOk result (λ added. hash_set_len self.new
            ≡ hash_set_len self.old + (if added then 1 else 0)) }
        // Only a new item can fail; the items then stay.
        ensures refused { OnErr result (contains T.eq self.old value ≡ false) }
        ensures unchanged { OnErr result (IsUnchanged self.old self.new) }
        ensures hasher { hasher_of self.new ≡ hasher_of self.old }
        ensures valid { IsValid T.eq self.new }
    {
        Ok(self.inner.insert(value)?)
    }

    /// Removes the item equal to `value` and returns `true`. Returns `false` if there is no such
    /// item, or if it is the only one, which then stays. The order of iteration may change.
    ///
    /// ```
    /// let mut set = nes![alloc; 2, 4]?;
    /// let removed = set.remove(&2); // true
    /// let only = set.remove(&4); // false: it is the only item
    /// let stays = set.contains(&4); // true
    /// ```
    pub fn remove<Q: Equivalent<T>>(&mut self, value: Q) -> bool
    where
        T: Drop,
        // `false` if and only if the item is absent or the only one; then nothing changes.
        ensures keys { RemovesFoundUnlessLast (contains_by (Q.equivalent value) self.old ≡ false)
            self.old.keys self.new.keys result
            (IsPermutation (remove_key (Q.equivalent value) self.old.keys) self.new.keys) }
        ensures updates { OnTrue result
            (UpdatesBy T.eq (Q.equivalent value) self.old self.new false) }
        ensures len { hash_set_len self.new + (if result then 1 else 0) ≡ hash_set_len self.old }
        ensures hasher { hasher_of self.new ≡ hasher_of self.old }
        ensures valid { IsValid T.eq self.new }
    {
        if self.inner.len() > 1 {
            self.inner.remove(value)
        } else {
            false
        }
    }

    /// Removes the item equal to `value` and returns it, as it was in the set. Returns `None` if
    /// there is no such item, or if it is the only one, which then stays. The order of iteration
    /// may change.
    ///
    /// ```
    /// let mut set = nes![alloc; 2, 4]?;
    /// let taken = set.take(&4); // Some(4)
    /// let none = set.take(&2); // None: the only item stays
    /// let stays = set.contains(&2); // true
    /// ```
    pub fn take<Q: Equivalent<T>>(&mut self, value: Q) -> Option<T>
        // `None` if and only if the item is absent or the only one; then nothing changes.
        ensures keys { TakesFoundUnlessLast (contains_by (Q.equivalent value) self.old ≡ false)
            self.old.keys self.new.keys result
            (λ x. (get_by (Q.equivalent value) self.old ≡ Some x)
            × IsPermutation (remove_key (Q.equivalent value) self.old.keys) self.new.keys) }
        ensures same { IfSome result (λ x. IsTrue (Q.equivalent value x)) }
        ensures updates { IfSome result (λ _.
            UpdatesBy T.eq (Q.equivalent value) self.old self.new false) }
        ensures len { hash_set_len self.new + (if is_some result then 1 else 0)
            ≡ hash_set_len self.old }
        ensures hasher { hasher_of self.new ≡ hasher_of self.old }
        ensures valid { IsValid T.eq self.new }
    {
        if self.inner.len() > 1 {
            self.inner.take(value)
        } else {
            None
        }
    }

    /// Keeps the items for which `f` returns `true`, in order, or returns the empty set as an error
    /// if there is no such item. Both have the hasher of this set.
    ///
    /// `f` is called once for each item, in the order of iteration. It must be callable with any
    /// value of the items' type. The clause `kept` covers an `f` whose result depends only on the
    /// item and that changes nothing; `called` covers any `f`.
    ///
    /// ```
    /// let even = NESet::new(alloc, 4)?.retain(|x| *x % 2 == 0); // Ok({4})
    /// let none = NESet::new(alloc, 3)?.retain(|x| *x % 2 == 0); // Err({})
    /// ```
    pub fn retain<F: FnMut(&T) -> bool>(self, f: F) -> Result<Self, HashSet<T, S>>
    where
        T: Drop,
        requires { F.IsAlwaysCallable f }
        ensures none { IsErr result ↔ IsEmpty (either_way result) }
        ensures kept { (keeps : T → Bool) → ActsAsAt F.FnMut f keeps
            → (either_way result).keys ≡ filter keeps self.keys }
        ensures called { IsFiltered (CalledAt F.FnMut) f self.keys (either_way result).keys }
        ensures hasher { hasher_of (either_way result) ≡ hasher_of self }
    {
        let mut inner = self.inner;
        inner.retain(f);
        if inner.is_empty() {
            Err(inner)
        } else {
            Ok(NESet { inner })
        }
    }

    /// Returns an iterator over the items that are also in `other`, in an unspecified order. There
    /// may be none, so this is std's iterator. Which of two equal items it returns is unspecified.
    ///
    /// ```
    /// let (a, b) = (nes![alloc; 0, 3]?, nes![alloc; 3, 1]?);
    /// let shared = a.intersection(&b); // &3
    /// ```
    pub fn intersection<'a>(&'a self, other: &'a NESet<T, S>) -> hash_set::Intersection<'a, T, S>
        ensures members { IsIntersection T.eq self.now other.now result }
        ensures unique { IsDistinct T.eq result }
        // Each item is stored in one of the sets.
        ensures stored { AreKeysOf self.now other.now result }
        ensures fits { length result < 2 ^ 63 }
        ensures runs { ShowsInOrder (deref {X = T}) }
    {
        self.inner.intersection(&other.inner)
    }

    /// Returns whether no item is in both sets.
    ///
    /// ```
    /// let (a, b) = (nes![alloc; 2, 4]?, nes![alloc; 4, 6]?);
    /// let disjoint = a.is_disjoint(&b); // false: 4 is in both
    /// ```
    pub fn is_disjoint(&self, other: &NESet<T, S>) -> bool
        ensures { IsTrue result ↔ IsDisjoint T.eq self.now other.now }
    {
        self.inner.is_disjoint(&other.inner)
    }

    /// Returns whether every item of this set is in `other`.
    ///
    /// ```
    /// let (a, b) = (nes![alloc; 4]?, nes![alloc; 2, 4]?);
    /// let subset = a.is_subset(&b); // true
    /// ```
    pub fn is_subset(&self, other: &NESet<T, S>) -> bool
        ensures { IsTrue result ↔ IsSubset T.eq self.now other.now }
    {
        self.inner.is_subset(&other.inner)
    }

    /// Returns whether every item of `other` is in this set.
    ///
    /// ```
    /// let (a, b) = (nes![alloc; 2, 4]?, nes![alloc; 4]?);
    /// let superset = a.is_superset(&b); // true
    /// ```
    pub fn is_superset(&self, other: &NESet<T, S>) -> bool
        ensures { IsTrue result ↔ IsSubset T.eq other.now self.now }
    {
        self.inner.is_superset(&other.inner)
    }

    /// Inserts an item in place of an equal one, and returns the replaced item, or `None` if the
    /// item is new.
    ///
    /// Returns `AllocError` if the set has to grow and the allocation fails. This can happen only
    /// for a new item; the items are then unchanged and the new one is dropped.
    ///
    /// ```
    /// let mut set = NESet::new(alloc, 8)?;
    /// let old = set.replace(8)?; // Some(8)
    /// let none = set.replace(6)?; // None: no item equals it
    /// ```
    pub fn replace(&mut self, value: T) -> Result<Option<T>, AllocError>
    where
        T: Drop,
        ensures old { IfOk result (λ old. old ≡ get T.eq self.old value) }
        ensures updates { OnOk result (Updates T.eq self.old self.new value true) }
        ensures keys { IfOk result (ReplacesKey T.eq self.old self.new value) }
        ensures len { IfOk result (λ old. hash_set_len self.new
            ≡ hash_set_len self.old + (if is_some old then 0 else 1)) }
        // Only a new item can fail; the items then stay.
        ensures refused { OnErr result (contains T.eq self.old value ≡ false) }
        ensures unchanged { OnErr result (IsUnchanged self.old self.new) }
        ensures hasher { hasher_of self.new ≡ hasher_of self.old }
        ensures valid { IsValid T.eq self.new }
    {
        Ok(self.inner.replace(value)?)
    }

    /// Makes room for at least `additional` more items. The items stay, but the order of iteration
    /// may change.
    ///
    /// Returns `AllocError` if the allocation fails or if `additional` is more than can be
    /// allocated; the items are then unchanged, in the same order.
    ///
    /// ```
    /// let mut set = NESet::new(alloc, 2)?;
    /// set.reserve(20)?; // the capacity is now at least 21
    /// ```
    pub fn reserve(&mut self, additional: usize) -> Result<(), AllocError>
        ensures keys { IsReordered T.eq self.old self.new }
        ensures room { OnOk result (additional ≤ spare self.new) }
        ensures unchanged { OnErr result (IsUnchanged self.old self.new) }
        ensures hasher { hasher_of self.new ≡ hasher_of self.old }
        ensures valid { IsValid T.eq self.new }
    {
        self.inner.reserve(additional)
    }

    /// Releases room that the set does not need. The items stay, but the order of iteration may
    /// change.
    ///
    /// If an allocation of smaller room fails, that part of the room stays as it is, so this never
    /// returns `AllocError`.
    pub fn shrink_to_fit(&mut self) -> Result<(), AllocError>
        ensures done { IsOk result }
        ensures keys { IsReordered T.eq self.old self.new }
        ensures hasher { hasher_of self.new ≡ hasher_of self.old }
        ensures valid { IsValid T.eq self.new }
    {
        self.inner.shrink_to_fit();
        Ok(())
    }

    /// Returns a non-empty iterator over the items of both sets, each once. The order is
    /// unspecified, and so is which of two equal items it returns.
    ///
    /// ```
    /// let (one, two) = (nes![alloc; 1]?, nes![alloc; 2]?);
    /// let count = one.union(&two).count().get(); // 2
    /// ```
    pub fn union<'a>(&'a self, other: &'a NESet<T, S>) -> Union<'a, T, S>
        ensures members { IsUnion T.eq self.now other.now result }
        ensures unique { IsDistinct T.eq result }
        // Each item is stored in one of the sets.
        ensures stored { AreKeysOf self.now other.now result }
        // As the source of a chain, it yields these items.
        ensures lists { ListsUnion result result }
    {
        NonEmptyIter::new(self.inner.union(&other.inner))
    }

    /// Inserts the items, in order. An item that is already in the set stays as it is.
    ///
    /// Returns `AllocError` if the set has to grow and the allocation fails. The items before the
    /// one that failed are then in the set, and that one is dropped.
    ///
    /// ```
    /// let mut set = NESet::new(alloc, 2)?;
    /// set.extend([4, 2])?; // {2, 4}
    /// ```
    pub fn extend<I: IntoIterator<Item = T>>(&mut self, iter: I) -> Result<(), AllocError>
    where
        T: Drop,
        requires { IsFiniteIterable I.into_iter_gives I.IntoIter.can_next I.IntoIter.remaining
            iter }
        // The set of the old items and those that were added: at `Ok`, all of the source.
        ensures ran { ExtendsWithItems I.into_iter_gives I.IntoIter.next_gives
            (λ old items new. IsSetOf T.eq (old.keys ++ items) new.keys)
            iter self.old self.new result }
        // The same at `Ok`, by the list of the source.
        ensures lists { OnOk result (ExtendsByList (⟦<I as ItemSource>⟧.lists itself)
            (MeetsList I.into_iter_gives I.IntoIter.next_gives itself) iter self.old.keys
            (λ all. IsSetOf T.eq all self.new.keys)) }
        ensures valid { IsValid T.eq self.new }
    {
        self.inner.extend(iter)
    }

    /// Returns a set of clones, item by item. If clones equal their originals, it has the same
    /// items.
    ///
    /// Returns `AllocError` if an allocation or a clone fails. No law says that a clone equals its
    /// original; so this also returns `AllocError` if the clone of an item does not equal the item,
    /// or if the clone of the hasher gives it another hash.
    ///
    /// ```
    /// let set = nes![alloc; 2, 4]?;
    /// let same = set.clone()? == set; // true
    /// ```
    pub fn clone(&self) -> Result<Self, AllocError>
    where
        T: Clone,
        S: Clone,
        ensures clones { IfOk result (λ s. IsClone T.is_clone self.now s
            × KeepsItems T.is_clone self.now.keys s.keys) }
    {
        let inner = self.inner.clone()?;
        Ok(NESet::wrap(inner))
    }

    // Wraps a set that is not empty. The contract of `len` says that no two items are equal.
    fn wrap(inner: HashSet<T, S>) -> Self
        requires { 0 < hash_set_len inner }
        ensures { result ≡ inner }
    {
        prove!(inner.len() > 0);
        NESet { inner }
    }
}

// Inserts one item into an empty set.
fn of_one_item<T: Eq + Hash + Drop, S: BuildHasher + Drop>(
    set: HashSet<T, S>,
    value: T,
) -> Result<NESet<T, S>, AllocError>
    requires { IsEmpty set }
    ensures keys { IfOk result (λ s. s.keys ≡ value ∷ []) }
    ensures found { IfOk result (λ s. contains T.eq s value ≡ true) }
    ensures hasher { IfOk result (λ s. hasher_of s ≡ hasher_of set) }
    ensures room { IfOk result (λ s. spare set ≤ hash_set_len s + spare s) }
{
    let mut inner = set;
    inner.insert(value)?;
    Ok(NESet { inner })
}
