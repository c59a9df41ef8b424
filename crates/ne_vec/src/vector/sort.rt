//! The methods of [`NEVec`] that sort.
ghost use Rattle.std.specs.Prelude.{◌≡◌, ◌≤◌, length, IsOk, OnOk, OnErr, IsPermutation, IsSorted};
ghost use Rattle.std.specs.List.Sorted.{IsStable, IsSortedByClosure, IsStableByClosure};
ghost use Rattle.std.specs.List.Sorted.{IsSortedByKeyClosure, IsStableByKeyClosure};
ghost use Rattle.std.specs.Iterator.{ActsAsAt};
ghost use Rattle.ne_vec.specs.KeyOrder.{KeepsTies, KeysAscend};
ghost use Rattle.ne_vec.specs.Orders.{ComparesBy, ItemsAscend, KeepsTiesOf, Order};

use super::NEVec;
use std::alloc::AllocError;
use std::cmp::Ordering;

impl<T> NEVec<T> {
    /// Sorts the items in ascending order. Equal items keep their order.
    ///
    /// Returns `AllocError` if the allocation of working memory fails; the vector is then
    /// unchanged. Up to 20 items need no such memory.
    ///
    /// ```
    /// let mut items = nev![alloc; 3, 1, 4, 1, 5, 9, 2, 6]?;
    /// items.sort()?; // [1, 1, 2, 3, 4, 5, 6, 9]
    /// ```
    pub fn sort(&mut self) -> Result<(), AllocError>
    where
        T: Ord,
        ensures permutation { IsPermutation self.old self.new }
        ensures sorted { OnOk result (IsSorted T.cmp self.new) }
        ensures stable { IsStable T.cmp self.old self.new }
        ensures unchanged { OnErr result (self.new ≡ self.old) }
        ensures small { length self.old ≤ 20 → IsOk result }
    {
        self.inner.sort()
    }

    /// Sorts the items in ascending order by `f`. Items for which `f` returns `Equal` keep their
    /// order.
    ///
    /// `f` must be callable with any two values of the items' type. The items are sorted if the
    /// results of `f` are a total preorder; otherwise they are in some order. The clause `ordered`
    /// covers an `f` that compares numbers or texts of the items, also in reverse or one after
    /// another, and that changes nothing; `sorted` and `stable` cover any. Returns `AllocError` as
    /// `sort` does.
    ///
    /// ```
    /// let mut items = nev![alloc; 3, 1, 4, 1, 5, 9, 2, 6]?;
    /// items.sort_by(|x, y| (*x / 2).cmp(&(*y / 2)))?; // [1, 1, 3, 2, 4, 5, 6, 9]
    /// ```
    pub fn sort_by<F: FnMut(&T, &T) -> Ordering>(&mut self, f: F) -> Result<(), AllocError>
        requires { F.IsAlwaysCallable f }
        ensures permutation { IsPermutation self.old self.new }
        ensures sorted { OnOk result (IsSortedByClosure F.FnMut f self.new) }
        ensures stable { IsStableByClosure F.FnMut f self.old self.new }
        ensures ordered { (order : Order T) → ComparesBy F.FnMut f order
            → OnOk result (ItemsAscend order self.new) × KeepsTiesOf order self.old self.new }
        ensures unchanged { OnErr result (self.new ≡ self.old) }
        ensures small { length self.old ≤ 20 → IsOk result }
    {
        self.inner.sort_by(f)
    }

    /// Sorts the items in ascending order of their keys, as `f` returns them. Items with equal keys
    /// keep their order.
    ///
    /// `f` must be callable with any value of the items' type. The items are sorted if the key
    /// depends only on the item; otherwise they are in some order. Returns `AllocError` as `sort`
    /// does.
    ///
    /// ```
    /// let mut items = nev![alloc; 3, 1, 4, 1, 5, 9, 2, 6]?;
    /// items.sort_by_key(|x| *x / 2)?; // [1, 1, 3, 2, 4, 5, 6, 9]
    /// ```
    pub fn sort_by_key<K: Ord + Drop, F: FnMut(&T) -> K>(&mut self, f: F) -> Result<(), AllocError>
        requires { F.IsAlwaysCallable f }
        ensures permutation { IsPermutation self.old self.new }
        ensures sorted { OnOk result (IsSortedByKeyClosure F.FnMut K.cmp f self.new) }
        ensures stable { IsStableByKeyClosure F.FnMut K.cmp f self.old self.new }
        ensures keys { (h : T → K) → ActsAsAt F.FnMut f h
            → OnOk result (KeysAscend h K.cmp self.new) × KeepsTies h K.eq self.old self.new }
        ensures unchanged { OnErr result (self.new ≡ self.old) }
        ensures small { length self.old ≤ 20 → IsOk result }
    {
        self.inner.sort_by_key(f)
    }
    /// Sorts the items in ascending order, without allocating. Equal items may change their order.
    /// The Rust crate lacks it; it is `Vec`'s.
    ///
    /// ```
    /// let mut items = nev![alloc; 3, 1, 4, 1, 5, 9, 2, 6]?;
    /// items.sort_unstable(); // [1, 1, 2, 3, 4, 5, 6, 9]
    /// ```
    pub fn sort_unstable(&mut self)
    where
        T: Ord,
        ensures permutation { IsPermutation self.old self.new }
        ensures sorted { IsSorted T.cmp self.new }
    {
        self.inner.sort_unstable();
    }

    /// Sorts the items in ascending order by `f`, without allocating. Items for which `f` returns
    /// `Equal` may change their order. The Rust crate lacks it; it is `Vec`'s.
    ///
    /// `f` must be callable with any two values of the items' type. The items are sorted if the
    /// results of `f` are a total preorder; otherwise they are in some order. The clause `ordered`
    /// is of the `f` that it covers in `sort_by`.
    ///
    /// ```
    /// let mut items = nev![alloc; 3, 1, 4, 9, 5]?;
    /// items.sort_unstable_by(|x, y| y.cmp(x)); // [9, 5, 4, 3, 1]
    /// ```
    pub fn sort_unstable_by<F: FnMut(&T, &T) -> Ordering>(&mut self, f: F)
        requires { F.IsAlwaysCallable f }
        ensures permutation { IsPermutation self.old self.new }
        ensures sorted { IsSortedByClosure F.FnMut f self.new }
        ensures ordered { (order : Order T) → ComparesBy F.FnMut f order
            → ItemsAscend order self.new }
    {
        self.inner.sort_unstable_by(f);
    }

    /// Sorts the items in ascending order of their keys, as `f` returns them, without allocating.
    /// Items with equal keys may change their order. The Rust crate lacks it; it is `Vec`'s.
    ///
    /// `f` must be callable with any value of the items' type. The items are sorted if the key
    /// depends only on the item; otherwise they are in some order.
    ///
    /// ```
    /// let mut items = nev![alloc; 31, 12, 44, 23]?;
    /// items.sort_unstable_by_key(|x| *x % 10); // [31, 12, 23, 44]
    /// ```
    pub fn sort_unstable_by_key<K: Ord + Drop, F: FnMut(&T) -> K>(&mut self, f: F)
        requires { F.IsAlwaysCallable f }
        ensures permutation { IsPermutation self.old self.new }
        ensures sorted { IsSortedByKeyClosure F.FnMut K.cmp f self.new }
        ensures keys { (h : T → K) → ActsAsAt F.FnMut f h → KeysAscend h K.cmp self.new }
    {
        self.inner.sort_unstable_by_key(f);
    }
}
