//! Sets that hold at least one item, whatever their type is: the library's three set types, and a
//! user's own.
ghost use Rattle.std.specs.Prelude.{◌≡◌, List, length, is_some, not, IfOk, OnErr, OnOk};
ghost use Rattle.std.specs.BTreeSet.{contains, get, BTreeSet};
ghost use Rattle.std.specs.Int.NonZero.{non_zero_usize_get};
ghost use Rattle.std.specs.List.{find};
ghost use Rattle.std.specs.Set.{is_member};
ghost use Rattle.ne_laws.specs.Sets.{Adds, Discards, IsNonEmptySet, Puts};

use nonempty_collections::{NEBTreeSet, NEIndexSet, NESet};
use std::alloc::AllocError;
use std::hash::{BuildHasher, Hash};
use std::num::NonZeroUsize;

/// A set that holds at least one item. Items are compared by `==`.
///
/// In contracts it is the list of its items, in some order: `find (T.eq x) (S.items s)` is the item
/// of the set that equals `x`, and `IsNonEmptySet T.eq (S.items s)` says that no two items are
/// equal and that there is at least one.
///
/// ```
/// let mut set = NESet::new(alloc, 1)?;
/// let (new, old) = (set.add(2)?, set.put(2)?); // true and Some(2)
/// let (has, size) = (set.has(&2), set.size().get()); // true and 2
/// let (removed, only) = (set.discard(&1), set.discard(&2)); // true and false
/// ```
pub trait NonEmptySet<T: Eq> {
    /// The items, in some order.
    ghost items: { Self → List T };

    /// Inserts an item and returns `true`. Returns `false` if the set holds an equal item, which
    /// then stays, and `x` is dropped.
    ///
    /// Returns `AllocError` if the set has to grow and the allocation fails. The set is then
    /// unchanged, and the item is dropped.
    fn add(&mut self, x: T) -> Result<bool, AllocError>
        ensures added { IfOk result (λ added. added
            ≡ not (is_some (find (T.eq x) (items self.old)))) }
        ensures adds { OnOk result (Adds T.eq (items self.old) x (items self.new)) }
        ensures unchanged { OnErr result (items self.new ≡ items self.old) }
        ensures set { IsNonEmptySet T.eq (items self.new) };

    /// Inserts an item, in place of an equal one if there is one, and returns the old item, or
    /// `None` if there was none.
    ///
    /// Returns `AllocError` if the set has to grow and the allocation fails. The set is then
    /// unchanged, and the item is dropped.
    fn put(&mut self, x: T) -> Result<Option<T>, AllocError>
        ensures old { IfOk result (λ old. old ≡ find (T.eq x) (items self.old)) }
        ensures puts { OnOk result (Puts T.eq (items self.old) x (items self.new)) }
        ensures unchanged { OnErr result (items self.new ≡ items self.old) }
        ensures set { IsNonEmptySet T.eq (items self.new) };

    /// Returns whether the set holds an item equal to `x`.
    fn has(&self, x: &T) -> bool
        ensures { result ≡ is_some (find (T.eq x.now) (items self.now)) };

    /// Removes the item equal to `x` and returns `true`. Returns `false` if there is no such item,
    /// or if it is the only one, which then stays. It does not allocate.
    fn discard(&mut self, x: &T) -> bool
        // `false` if and only if the item is absent or the only one; then nothing changes.
        ensures discards { Discards T.eq (items self.old) x.now result (items self.new) }
        ensures set { IsNonEmptySet T.eq (items self.new) };

    /// Returns the number of items, which is at least 1.
    fn size(&self) -> NonZeroUsize
        ensures size { non_zero_usize_get result ≡ length (items self.now) }
        ensures set { IsNonEmptySet T.eq (items self.now) };
}

/// Looking up an item of a tree set by the order of the items, as std does, and by `==`, as lists
/// of calls do, gives the same item, and one if and only if the set contains it.
pub fn tree_sets_are_read_alike<T: Ord>()
    ensures item { (s : BTreeSet T) (q : T) → get T.cmp s q ≡ find (T.eq q) s.keys }
    ensures member { (s : BTreeSet T) (q : T)
        → contains T.cmp s q ≡ is_some (find (T.eq q) s.keys) }
{}

/// Looking up an item, as lists of calls do, gives one if and only if an equal one is among them,
/// as std says of the items that a hashed set or an index set contains.
pub fn members_are_found<T: Eq>()
    ensures { (xs : List T) (q : T) → is_member T.eq xs q ≡ is_some (find (T.eq q) xs) }
{}

impl<T: Ord + Drop> NonEmptySet<T> for NEBTreeSet<T> {
    ghost items = { λ s. s.keys };

    fn add(&mut self, x: T) -> Result<bool, AllocError> {
        self.insert(x)
    }

    fn put(&mut self, x: T) -> Result<Option<T>, AllocError> {
        self.replace(x)
    }

    fn has(&self, x: &T) -> bool {
        self.contains(x)
    }

    fn discard(&mut self, x: &T) -> bool {
        // The contract of `len` says that no two items are equal.
        let _len = self.len();
        self.remove(x)
    }

    fn size(&self) -> NonZeroUsize {
        self.len()
    }
}

impl<T: Eq + Hash + Drop, S: BuildHasher> NonEmptySet<T> for NESet<T, S> {
    ghost items = { λ s. s.keys };

    fn add(&mut self, x: T) -> Result<bool, AllocError> {
        self.insert(x)
    }

    fn put(&mut self, x: T) -> Result<Option<T>, AllocError> {
        self.replace(x)
    }

    fn has(&self, x: &T) -> bool {
        self.contains(x)
    }

    fn discard(&mut self, x: &T) -> bool {
        // The contract of `len` says that no two items are equal.
        let _len = self.len();
        self.remove(x)
    }

    fn size(&self) -> NonZeroUsize {
        self.len()
    }
}

impl<T: Eq + Hash + Drop, S: BuildHasher> NonEmptySet<T> for NEIndexSet<T, S> {
    ghost items = { λ s. s.keys };

    fn add(&mut self, x: T) -> Result<bool, AllocError> {
        self.insert(x)
    }

    fn put(&mut self, x: T) -> Result<Option<T>, AllocError> {
        self.replace(x)
    }

    fn has(&self, x: &T) -> bool {
        self.contains(x)
    }

    // As the deprecated `remove` of Rust's `indexmap`, this puts the last item in its place.
    fn discard(&mut self, x: &T) -> bool {
        // The contract of `len` says that no two items are equal.
        let _len = self.len();
        self.swap_remove(x)
    }

    fn size(&self) -> NonZeroUsize {
        self.len()
    }
}
