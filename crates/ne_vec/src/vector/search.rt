//! The methods of [`NEVec`] that search.
//!
//! They call the closure with the same items as std's searches do, in the same order, and return
//! the same results. Their loop is written out here because std's searches need a closure that can
//! be called with any value, while these need only one that can be called with the vector's items.
ghost use Rattle.std.specs.Prelude.{◌≡◌, ◌≢◌, ◌<◌, ◌≤◌, Bool, true, false, cond, length, map};
ghost use Rattle.std.specs.Prelude.{All, MatchResult};
ghost use Rattle.std.specs.List.Sorted.{IsBinarySearchResult, IsSearchInRange, IsPartitionedBy};
ghost use Rattle.std.specs.List.Sorted.{IsPartitionPoint};
ghost use Rattle.std.specs.Fn.{CalledAt, ComputesKey, TakesAt};
ghost use Rattle.std.specs.Iterator.{ActsAsAt};
ghost use Rattle.std.specs.declared.cmp.Ordering.{Ordering};
ghost use Rattle.std.specs.declared.cmp.Ordering.TheVariants.{Less, Equal, Greater};
ghost use Rattle.ne_vec.specs.KeyOrder.{KeysAscend};
ghost use Rattle.ne_vec.specs.Lists.{Naming};
ghost use Rattle.ne_vec.specs.Searches.{CallableAtItems, HasKeyAt};

use super::NEVec;
use std::cmp::Ordering;

impl<T> NEVec<T> {
    /// Searches for an item that equals `x`. Returns `Ok` with its index. If there is none, returns
    /// `Err` with the index at which `x` can be inserted so that the items stay sorted. If several
    /// items equal `x`, the index is that of any of them.
    ///
    /// The index in `Err` has this meaning only if the vector is sorted; otherwise it is some index
    /// up to the length. An `Ok` is right in either case.
    ///
    /// ```
    /// let found = nev![alloc; 1, 1, 2, 3, 4, 5, 6, 9]?.binary_search(&5); // Ok(5)
    /// let place = nev![alloc; 0u32, 7, 7, 12, 12, 35, 4294967295]?.binary_search(&8); // Err(3)
    /// ```
    pub fn binary_search(&self, x: &T) -> Result<usize, usize>
    where
        T: Ord,
        ensures bound { IsSearchInRange result (length self.now) }
        ensures position { IsBinarySearchResult (λ y. T.cmp y x.now) self.now result }
    {
        self.inner.binary_search(x)
    }

    /// Searches for an item for which `f` returns `Equal`. Returns `Ok` with its index. If there is
    /// none, returns `Err` with the index between the items for which `f` returns `Less` and those
    /// for which it returns `Greater`. If there are several items with `Equal`, the index is that
    /// of any of them.
    ///
    /// `f` must be callable with the vector's items, in any order. The indices have this meaning if
    /// what `f` returns depends only on the item. For `Err` the vector must also be sorted by `f`:
    /// first `Less`, then `Equal`, then `Greater`.
    ///
    /// ```
    /// let items = nev![alloc; 500u32, 100, 10]?;
    /// let place = items.binary_search_by(|x| (1000 / *x).cmp(&10)); // Ok(1)
    /// ```
    pub fn binary_search_by<F: FnMut(&T) -> Ordering>(&self, mut f: F) -> Result<usize, usize>
        requires { CallableAtItems F.FnMut f self.now }
        ensures bound { IsSearchInRange result (length self.now) }
        ensures position { (order : T → Ordering) → ComputesKey F.FnMut order f
            → IsBinarySearchResult order self.now result }
    {
        let items = self.inner.as_slice();
        let mut base = 0;
        let mut size = items.len();
        while size > 1 {
            let half = size / 2;
            let mid = base + half;
            if !f(&items[mid]).is_gt() {
                base = mid;
            }
            size -= half;
        }
        match f(&items[base]) {
            Ordering::Equal => Ok(base),
            Ordering::Less => Err(base + 1),
            Ordering::Greater => Err(base),
        }
    }

    /// Searches for an item whose key, as `f` returns it, equals `b`. Returns `Ok` with its index.
    /// If there is none, returns `Err` with the index at which such an item can be inserted so that
    /// the keys stay sorted. If several keys equal `b`, the index is that of any such item.
    ///
    /// `f` must be callable with the vector's items, in any order. The indices have this meaning if
    /// the key depends only on the item. For `Err` the vector must also be sorted by the key: then
    /// no key equals `b`. Both `keys` and `ascending` say so, for contracts that name the list of
    /// the keys or that name their order.
    ///
    /// ```
    /// let items = nev![alloc; 500u32, 100, 10]?;
    /// let place = items.binary_search_by_key(&10, |x| 1000 / *x); // Ok(1)
    /// ```
    pub fn binary_search_by_key<B: Ord + Drop, F: FnMut(&T) -> B>(
        &self,
        b: &B,
        mut f: F,
    ) -> Result<usize, usize>
        requires { CallableAtItems F.FnMut f self.now }
        ensures bound { IsSearchInRange result (length self.now) }
        ensures position { (key : T → B) → ComputesKey F.FnMut key f
            → IsBinarySearchResult (λ y. B.cmp (key y) b.now) self.now result }
        ensures keys { (key : T → B) → ActsAsAt F.FnMut f key
            → Naming (map key self.now) (λ keys. MatchResult result
            (HasKeyAt key B.cmp b.now self.now)
            (λ _. KeysAscend key B.cmp self.now → All (λ k. B.cmp k b.now ≢ Equal) keys)) }
        ensures ascending { (key : T → B) → KeysAscend key B.cmp self.now
            → ActsAsAt F.FnMut f key → MatchResult result (HasKeyAt key B.cmp b.now self.now)
            (λ _. All (λ x. B.cmp (key x) b.now ≢ Equal) self.now) }
    {
        self.binary_search_by(
            |x|
                requires { TakesAt F.FnMut f x.now }
                ensures { (key : B) × CalledAt F.FnMut f.entry x.now key f.exit
                    × (result ≡ B.cmp key b.entry.now) }
            { f(x).cmp(b) },
        )
    }

    /// Returns how many of the first items meet `pred`.
    ///
    /// `pred` must be callable with the vector's items, in any order. The result has this meaning
    /// if what `pred` returns depends only on the item, and no item that meets `pred` comes after
    /// one that does not. In any case it is at most the length.
    ///
    /// ```
    /// let items = nev![alloc; 1, 1, 3, 2, 4, 5, 6, 9]?;
    /// let count = items.partition_point(|x| *x / 2 < 5); // 8
    /// ```
    pub fn partition_point<P: FnMut(&T) -> bool>(&self, mut pred: P) -> usize
        requires { CallableAtItems P.FnMut pred self.now }
        ensures bound { result ≤ length self.now }
        ensures partitioned { (meets : T → Bool) → ComputesKey P.FnMut meets pred
            → IsPartitionedBy meets self.now → IsPartitionPoint (λ y. meets y ≡ true)
            (λ y. meets y ≡ false) self.now result }
    {
        let found = self.binary_search_by(
            |x|
                requires { TakesAt P.FnMut pred x.now }
                ensures { (met : Bool) × CalledAt P.FnMut pred.entry x.now met pred.exit
                    × (result ≡ cond met Less Greater) }
            {
                if pred(x) {
                    Ordering::Less
                } else {
                    Ordering::Greater
                }
            },
        );
        match found {
            Ok(place) | Err(place) => place,
        }
    }
}
