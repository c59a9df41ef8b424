//! The methods of [`NEVecDeque`] that search. Those by a closure have a loop of their own, as those
//! of `NEVec`, so that the closure needs to be callable with the queue's items only. They call it
//! with the same items as std's searches do, in the same order, and return the same results.
//!
//! Their clauses `acts` and `keys` say of a closure that changes nothing what `position` and
//! `partitioned` say of any closure. They are there for the automatic proof.
ghost use Rattle.std.specs.Prelude.{◌≡◌, ◌≤◌, Bool, true, false, cond, length, map};
ghost use Rattle.std.specs.List.Sorted.{IsBinarySearchResult, IsSearchInRange, IsPartitionedBy};
ghost use Rattle.std.specs.List.Sorted.{IsPartitionPoint};
ghost use Rattle.std.specs.Fn.{CalledAt, ComputesKey, TakesAt};
ghost use Rattle.std.specs.Iterator.{ActsAsAt};
ghost use Rattle.std.specs.declared.cmp.Ordering.{Ordering};
ghost use Rattle.std.specs.declared.cmp.Ordering.TheVariants.{Less, Greater};
ghost use Rattle.ne_vec.specs.Lists.{Naming};
ghost use Rattle.ne_vec.specs.Searches.{CallableAtItems};

use super::NEVecDeque;
use std::cmp::Ordering;

impl<T> NEVecDeque<T> {
    /// Searches for an item that equals `x`. Returns `Ok` with its index. If there is none, returns
    /// `Err` with the index at which `x` can be inserted so that the items stay sorted. If several
    /// items equal `x`, the index is that of any of them.
    ///
    /// The index in `Err` has this meaning only if the queue is sorted; otherwise it is some index
    /// up to the length. An `Ok` is right in either case.
    ///
    /// ```
    /// let queue = nevd![alloc; 1, 1, 2, 3, 4, 5, 6, 9]?;
    /// let found = queue.binary_search(&5); // Ok(5)
    /// ```
    pub fn binary_search(&self, x: &T) -> Result<usize, usize>
    where
        T: Ord,
        ensures bound { IsSearchInRange result (length self.now) }
        ensures position { IsBinarySearchResult (λ y. T.cmp y x.now) self.now result }
    {
        self.inner.binary_search(x)
    }

    /// Searches for an item for which `f` returns `Equal`. Returns `Ok` with its index. If there is
    /// none, returns `Err` with the index between the items for which `f` returns `Less` and those
    /// for which it returns `Greater`. If there are several items with `Equal`, the index is that
    /// of any of them.
    ///
    /// `f` must be callable with the queue's items, in any order. The indices have this meaning if
    /// what `f` returns depends only on the item. For `Err` the queue must also be sorted by `f`:
    /// first `Less`, then `Equal`, then `Greater`.
    ///
    /// ```
    /// let queue = nevd![alloc; 500u32, 100, 10]?;
    /// let place = queue.binary_search_by(|x| (1000 / *x).cmp(&10)); // Ok(1)
    /// ```
    pub fn binary_search_by<F: FnMut(&T) -> Ordering>(&self, mut f: F) -> Result<usize, usize>
        requires { CallableAtItems F.FnMut f self.now }
        ensures bound { IsSearchInRange result (length self.now) }
        ensures position { (order : T → Ordering) → ComputesKey F.FnMut order f
            → IsBinarySearchResult order self.now result }
        ensures acts { (order : T → Ordering) → ActsAsAt F.FnMut f order
            → IsBinarySearchResult order self.now result }
    {
        let items = &self.inner;
        let mut base = 0;
        let mut size = items.len();
        while size > 1 {
            let half = size / 2;
            let mid = base + half;
            if !f(&items[mid]).is_gt() {
                base = mid;
            }
            size -= half;
        }
        match f(&items[base]) {
            Ordering::Equal => Ok(base),
            Ordering::Less => Err(base + 1),
            Ordering::Greater => Err(base),
        }
    }

    /// Searches for an item whose key, as `f` returns it, equals `b`. Returns `Ok` with its index.
    /// If there is none, returns `Err` with the index at which such an item can be inserted so that
    /// the keys stay sorted. If several keys equal `b`, the index is that of any such item.
    ///
    /// `f` must be callable with the queue's items, in any order. The indices have this meaning if
    /// the key depends only on the item. For `Err` the queue must also be sorted by the key.
    ///
    /// ```
    /// let queue = nevd![alloc; 500u32, 100, 10]?;
    /// let place = queue.binary_search_by_key(&10, |x| 1000 / *x); // Ok(1)
    /// ```
    pub fn binary_search_by_key<B: Ord + Drop, F: FnMut(&T) -> B>(
        &self,
        b: &B,
        mut f: F,
    ) -> Result<usize, usize>
        requires { CallableAtItems F.FnMut f self.now }
        ensures bound { IsSearchInRange result (length self.now) }
        ensures position { (key : T → B) → ComputesKey F.FnMut key f
            → IsBinarySearchResult (λ y. B.cmp (key y) b.now) self.now result }
        ensures keys { (key : T → B) → ActsAsAt F.FnMut f key
            → Naming (map key self.now) (λ keys.
            IsBinarySearchResult (λ k. B.cmp k b.now) keys result) }
    {
        self.binary_search_by(
            |x|
                requires { TakesAt F.FnMut f x.now }
                ensures { (key : B) × CalledAt F.FnMut f.entry x.now key f.exit
                    × (result ≡ B.cmp key b.entry.now) }
            { f(x).cmp(b) },
        )
    }

    /// Returns how many of the first items meet `pred`.
    ///
    /// `pred` must be callable with the queue's items, in any order. The result has this meaning if
    /// what `pred` returns depends only on the item, and no item that meets `pred` comes after one
    /// that does not. In any case it is at most the length.
    ///
    /// ```
    /// let queue = nevd![alloc; 1, 1, 3, 2, 4, 5, 6, 9]?;
    /// let count = queue.partition_point(|x| *x / 2 < 5); // 8
    /// ```
    pub fn partition_point<P: FnMut(&T) -> bool>(&self, mut pred: P) -> usize
        requires { CallableAtItems P.FnMut pred self.now }
        ensures bound { result ≤ length self.now }
        ensures partitioned { (meets : T → Bool) → ComputesKey P.FnMut meets pred
            → IsPartitionedBy meets self.now → IsPartitionPoint (λ y. meets y ≡ true)
            (λ y. meets y ≡ false) self.now result }
        ensures acts { (meets : T → Bool) → ActsAsAt P.FnMut pred meets
            → IsPartitionedBy meets self.now → IsPartitionPoint (λ y. meets y ≡ true)
            (λ y. meets y ≡ false) self.now result }
    {
        let found = self.binary_search_by(
            |x|
                requires { TakesAt P.FnMut pred x.now }
                ensures { (met : Bool) × CalledAt P.FnMut pred.entry x.now met pred.exit
                    × (result ≡ cond met Less Greater) }
            {
                if pred(x) {
                    Ordering::Less
                } else {
                    Ordering::Greater
                }
            },
        );
        match found {
            Ok(place) | Err(place) => place,
        }
    }
}
