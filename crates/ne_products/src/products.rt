//! Products of two non-empty iterators, and what is made of the items of one: whether they are
//! distinct, their texts joined, and maps by key.
ghost use Rattle.std.specs.Prelude.{◌≡◌, ◌+◌, ◌%◌, ◌^◌, ℕ, IfOk, List, MatchOption, None, []};
ghost use Rattle.std.specs.Prelude.{map, string_bytes, true};
ghost use Rattle.std.specs.HashSet.{contains};
ghost use Rattle.std.specs.Iterator.{ActsAs, ActsAsOnTwo, CallableOnAll, CallableOnAllAt, IsFinite};
ghost use Rattle.std.specs.Iterator.{MakesProgress};
ghost use Rattle.std.specs.Iterator.Runs.{CountFits};
ghost use Rattle.std.specs.List.{join_by};
ghost use Rattle.ne_vec.specs.Lists.{EachList, EachView, itself};
ghost use Rattle.ne_iter.specs.Sources.{Becomes, WholeRunOf};
ghost use Rattle.ne_iter.specs.SourceLists.{BecomesList};
ghost use Rattle.ne_products.specs.ByKey.{Adds, AddsByCall, AddsLast, AddsValue, CallableByKey};
ghost use Rattle.ne_products.specs.ByKey.{FoldsByKey, IsCounted, IsFoldedByKey, IsGroupedByKey};
ghost use Rattle.ne_products.specs.ByKey.{NamesKeys, SumFits};
ghost use Rattle.ne_products.specs.Joined.{HasTexts, IsJoined, text_of};
ghost use Rattle.ne_products.specs.Pairs.{CanRefuse};
ghost use Rattle.ne_products.specs.Product.{product_first, product_second, restart_of, PairsItems};
ghost use Rattle.ne_products.specs.Product.{PairsNext, TriesRestart, IsRowItem, is_exhausted};
ghost use Rattle.ne_products.specs.Product.{left_of, right_of, row_of};
ghost use Rattle.ne_products.specs.Restarts.{ClonesAgain, HasExactClones};
ghost use Rattle.ne_products.specs.Restarts.{NeverRefuses, PairsListed, PairsLists, YieldsPairs};
ghost use Rattle.ne_products.specs.Unique.{ChecksDistinct, ChecksUnique};

use itertools::Itertools;
use ne_iter::iter::{ItemSource, KeyedMap};
use ne_iter::{IntoNonEmptyIterator, NonEmptyIterator};
use ne_vec::NEVec;
use std::alloc::{AllocError, Global};
use std::collections::HashSet;
use std::fmt::Display;
use std::hash::Hash;

/// Further methods of non-empty iterators. Every [`NonEmptyIterator`] has them.
pub trait NonEmptyItertools: NonEmptyIterator {
    /// Returns a non-empty iterator over the pairs of each item of this iterator with each item of
    /// `other`, each pair in `Ok`. There is one row of pairs for each item of this iterator. If
    /// `other` has m items, the pair of item i here and item j there is at index i * m + j.
    ///
    /// An item of this iterator is cloned for each of its pairs. The iterator of `other` is cloned
    /// once when the product becomes an iterator, and that clone is cloned again for each row after
    /// the first; the first row uses the iterator itself. So what `other` becomes must have an
    /// iterator that can be cloned: a vector, for example, is passed by reference. If one of these
    /// clones fails, an `Err` comes in place of a pair; after it comes `None`, and nothing more is
    /// drawn.
    ///
    /// It does not allocate by itself. In the Rust crate the items are plain pairs, because clones
    /// cannot fail there, and the iterator is that of `itertools`.
    ///
    /// ```
    /// let (rows, columns) = (nev![alloc; 0, 1]?, nev![alloc; 7, 8]?);
    /// let columns = columns.nonempty_iter().copied();
    /// let pairs = rows.nonempty_iter().copied().cartesian_product(columns);
    /// // Ok((0, 7)), Ok((0, 8)), Ok((1, 7)) and Ok((1, 8))
    /// ```
    final fn cartesian_product<J: IntoNonEmptyIterator>(
        self,
        other: J,
    ) -> Product<Self, J::IntoNEIter>
    where
        Self: Sized,
        Self::Item: Clone + Drop,
        J::Item: Drop,
        <J::IntoNEIter as IntoIterator>::IntoIter: Clone,
        ensures holds { (product_first result ≡ self)
            × J.into_nonempty_iter_gives other (product_second result) }
        ensures ends { ⟦<Self as ItemSource>⟧.ends self
            → ⟦<J::IntoNEIter as ItemSource>⟧.ends (product_second result)
            → ClonesAgain J.IntoNEIter.into_iter_gives J.IntoNEIter.IntoIter.remaining
            J.IntoNEIter.IntoIter.is_clone (product_second result)
            → ⟦<Product<Self, J::IntoNEIter> as ItemSource>⟧.ends result }
        ensures gives { YieldsPairs (⟦<Self as ItemSource>⟧.reads)
            (ClonesAgain J.IntoNEIter.into_iter_gives J.IntoNEIter.IntoIter.remaining
            J.IntoNEIter.IntoIter.is_clone (product_second result))
            (J.IntoNEIter.into_iter_gives (product_second result))
            (⟦<<J::IntoNEIter as IntoIterator>::IntoIter as ItemSource>⟧.reads)
            J.IntoNEIter.IntoIter.is_clone Self.Item.is_clone Self.Item.is_infallible
            (CanRefuse J.IntoNEIter.into_iter_gives J.IntoNEIter.IntoIter.is_infallible
            (product_second result))
            (⟦<Product<Self, J::IntoNEIter> as ItemSource>⟧.reads) self result }
        ensures lists { PairsLists (⟦<Self as ItemSource>⟧.lists itself)
            (⟦<J as ItemSource>⟧.lists itself)
            (BecomesList J.into_nonempty_iter_gives J.IntoNEIter.into_iter_gives
            J.IntoNEIter.IntoIter.next_gives itself)
            (PairsListed (⟦<Product<Self, J::IntoNEIter> as IntoIterator>⟧.into_iter_gives)
            (PairsNext Self.IntoIter.next_gives J.IntoNEIter.IntoIter.next_gives
            Self.Item.is_clone Self.Item.is_infallible
            J.IntoNEIter.IntoIter.is_clone J.IntoNEIter.IntoIter.is_infallible)
            (λ xs. HasExactClones Self.Item.is_clone Self.Item.is_infallible xs
            × NeverRefuses J.IntoNEIter.into_iter_gives J.IntoNEIter.IntoIter.is_infallible
            (product_second result)
            × ClonesAgain J.IntoNEIter.into_iter_gives J.IntoNEIter.IntoIter.remaining
            J.IntoNEIter.IntoIter.is_clone (product_second result)) result)
            self other }
    {
        Product {
            a: self,
            b: other.into_nonempty_iter(),
        }
    }

    /// Returns whether no two items are equal. It stops at the first item that equals an earlier
    /// one.
    ///
    /// Returns `AllocError` if an allocation for the items seen so far fails. They are kept in
    /// std's [`HashSet`], and are then dropped.
    ///
    /// ```
    /// let unique = nev![alloc; 7]?.into_nonempty_iter().all_unique(alloc)?; // true
    /// let repeated = nev![alloc; 1, 2, 1, 2]?.into_nonempty_iter().all_unique(alloc)?; // false
    /// ```
    final fn all_unique(self, alloc: Global) -> Result<bool, AllocError>
    where
        Self: Sized,
        Self::Item: Eq + Hash + Drop,
        requires { ⟦<Self as ItemSource>⟧.ends self }
        ensures gives { IfOk result
            (ChecksUnique (⟦<Self as ItemSource>⟧.reads) Self.Item.eq self) }
        ensures lists { IfOk result (λ unique. EachList (⟦<Self as ItemSource>⟧.lists itself) self
            (λ xs.
            ChecksDistinct Self.Item.eq xs unique)) }
    {
        let items = self.into_iter();
        let most = items.size_hint().0;
        let mut seen = HashSet::new(alloc);
        for item in items {
            make_room(&mut seen, most);
            let Ok(is_new) = seen.insert(item) else {
                return Err(AllocError);
            };
            if !is_new {
                return Ok(false);
            }
        }
        Ok(true)
    }

    /// Returns the texts of the items, as `{}` shows them, with `separator` between each two. The
    /// items must come to an end.
    ///
    /// Returns `AllocError` if an allocation fails, or if an item's own `fmt` does; the items taken
    /// are then dropped. The Rust crate lacks this method; that of `itertools` cannot fail.
    ///
    /// ```
    /// let names = nev![alloc; "tree", "leaf", "bud"]?;
    /// let text: String = names.nonempty_iter().join(alloc, ", ")?; // "tree, leaf, bud"
    /// let digits: String = nev![alloc; 4, 9]?.into_nonempty_iter().join(alloc, "")?; // "49"
    /// ```
    final fn join(self, alloc: Global, separator: &str) -> Result<String, AllocError>
    where
        Self: Sized,
        Self::Item: Display + Drop,
        requires { ⟦<Self as ItemSource>⟧.ends self }
        ensures gives { IfOk result (λ text. (xs : List Self.Item)
            × ⟦<Self as ItemSource>⟧.reads true self xs
            × IsJoined Self.Item.output itself separator.now xs (string_bytes text)) }
        ensures lists { IfOk result (λ text. EachView Self.item_view
            (⟦<Self as ItemSource>⟧.lists) self (λ view xs.
            IsJoined Self.Item.output view separator.now xs (string_bytes text))) }
        ensures runs { IfOk result (λ text.
            WholeRunOf Self.into_iter_gives Self.IntoIter.next_gives self (λ p.
            HasTexts Self.Item.output → string_bytes text
            ≡ join_by (text_of Self.Item.output) separator.now p.items)) }
    {
        self.into_iter().join(alloc, separator)
    }

    /// Returns, for each key, the fold of the items with that key, in their order: `init` and the
    /// first of them make a value, that and the second the next one. `M` is a map of any of the
    /// three types; of two equal keys it keeps the first.
    ///
    /// `key` and then `f` are called once for each item, in order, `f` with the value that the
    /// item's key has so far. They must be callable with those; for most closures this is proved
    /// without a word.
    ///
    /// Returns `AllocError` if an allocation for the map fails; what was made is then dropped. The
    /// Rust crate lacks this method; `itertools` has it as `into_grouping_map_by(..).fold(..)`.
    ///
    /// ```
    /// let sales = nev![alloc; (7, 3u32), (8, 1), (7, 4)]?;
    /// let totals: NEBTreeMap<u32, u32> =
    ///     sales.nonempty_iter().fold_by_key(alloc, |s| s.0, 0, |total, s| s.1.max(total))?;
    /// // {7: 4, 8: 1}
    /// ```
    final fn fold_by_key<
        M: KeyedMap<K, B> + Drop,
        K: Drop,
        B: Copy + Drop,
        F: FnMut(&Self::Item) -> K,
        G: FnMut(B, Self::Item) -> B,
    >(self, alloc: Global, key: F, init: B, f: G) -> Result<M, AllocError>
    where
        Self: Sized,
        Self::Item: Drop,
        requires ends { ⟦<Self as ItemSource>⟧.ends self }
        requires callable { (it : Self.IntoIter) → Self.into_iter_gives self it
            → CallableByKey Self.IntoIter.next_gives F.FnMut G.FnMut M.key_view M.same it key
            init f }
        ensures gives { IfOk result (λ m. Becomes Self.into_iter_gives self (λ it.
            FoldsByKey F.FnMut (AddsByCall G.FnMut) M.key_view M.same init
            Self.IntoIter.next_gives it key f (M.value m))) }
        ensures lists { IfOk result (λ m.
            EachView Self.item_view (⟦<Self as ItemSource>⟧.lists) self (λ view xs.
            (h : view.Target → M.key_view.Target)
            → NamesKeys F.FnMut M.key_view key (λ x. h (view.of x))
            → (g : B → view.Target → B) → ActsAsOnTwo G.FnMut f (λ b x. g b (view.of x))
            → IsFoldedByKey (M.value m) M.same h g init xs)) }
    {
        let (mut key, mut f) = (key, f);
        let (first, rest) = self.next();
        let k = key(&first);
        let mut folded = M::with_entry(alloc, k, f(init, first))?;
        for x in rest {
            let k = key(&x);
            match folded.value_mut(&k) {
                Some(value) => *value = f(*value, x),
                None => folded.put_value(alloc, k, f(init, x))?,
            }
        }
        Ok(folded)
    }

    /// Returns, for each key, the sum of the values of its items. The sum of all values must be
    /// below 2^64. `M` is a map of any of the three types; of two equal keys it keeps the first.
    ///
    /// `key` and then `value` are called once for each item, in order. What `value` returns must
    /// depend on the item alone.
    ///
    /// Returns `AllocError` if an allocation for the map fails; what was made is then dropped. The
    /// Rust crate lacks this method; `itertools` has it as `into_grouping_map_by(..).sum()`. Sums
    /// that may not fit are [`fold_by_key`](Self::fold_by_key) with `checked_add`, from `Some(0)`.
    ///
    /// ```
    /// let sales = nev![alloc; (7, 3u64), (8, 1), (7, 4)]?;
    /// let totals: NEBTreeMap<u32, u64> =
    ///     sales.nonempty_iter().sum_by_key(alloc, |s| s.0, |s| s.1)?;
    /// // {7: 7, 8: 1}
    /// ```
    final fn sum_by_key<
        M: KeyedMap<K, u64> + Drop,
        K: Drop,
        F: FnMut(&Self::Item) -> K,
        G: FnMut(Self::Item) -> u64,
    >(self, alloc: Global, key: F, value: G) -> Result<M, AllocError>
    where
        Self: Sized,
        Self::Item: Drop,
        requires ends { ⟦<Self as ItemSource>⟧.ends self }
        requires callable { (it : Self.IntoIter) → Self.into_iter_gives self it
            → CallableOnAllAt Self.IntoIter.next_gives F.FnMut it key
            × CallableOnAll Self.IntoIter.next_gives G.FnMut it value }
        requires fits { SumFits Self.item_view (⟦<Self as ItemSource>⟧.lists) self G.FnMut value }
        ensures gives { IfOk result (λ m. Becomes Self.into_iter_gives self (λ it.
            FoldsByKey F.FnMut (AddsValue G.FnMut) M.key_view M.same 0 Self.IntoIter.next_gives
            it key value (M.value m))) }
        ensures lists { IfOk result (λ m.
            EachView Self.item_view (⟦<Self as ItemSource>⟧.lists) self (λ view xs.
            (h : view.Target → M.key_view.Target)
            → NamesKeys F.FnMut M.key_view key (λ x. h (view.of x))
            → (add : ℕ → view.Target → ℕ) → Adds add
            → ActsAs G.FnMut value (λ x. add 0 (view.of x))
            → IsFoldedByKey (M.value m) M.same h add 0 xs)) }
    {
        let mut value = value;
        self.fold_by_key(
            alloc,
            key,
            0,
            move |sum: u64, x|
                requires { G.pre value x }
                ensures { (n : ℕ) × G.step value.entry x n value.exit
                    × (result ≡ (sum + n) % 2 ^ 64) }
            {
                // All values together fit, so no sum wraps.
                sum.wrapping_add(value(x))
            },
        )
    }

    /// Returns, for each key, the items with that key, in their order. `M` is a map of any of the
    /// three types; of two equal keys it keeps the first.
    ///
    /// `key` is called once for each item, in order.
    ///
    /// Returns `AllocError` if an allocation for the map or a vector fails; the items taken are
    /// then dropped. The Rust crate lacks this method; that of `itertools` returns a `HashMap` of
    /// `Vec`s.
    ///
    /// ```
    /// let words = nev![alloc; "tree", "leaf", "bud"]?;
    /// let groups: NEBTreeMap<usize, NEVec<&str>> =
    ///     words.into_nonempty_iter().into_group_map_by(alloc, |word| word.len())?;
    /// let fours = groups.get(&4).map(|group| (*group.first(), *group.last()));
    /// // Some(("tree", "leaf"))
    /// ```
    final fn into_group_map_by<
        M: KeyedMap<K, NEVec<Self::Item>> + Drop,
        K: Drop,
        F: FnMut(&Self::Item) -> K,
    >(self, alloc: Global, key: F) -> Result<M, AllocError>
    where
        Self: Sized,
        Self::Item: Drop,
        requires ends { ⟦<Self as ItemSource>⟧.ends self }
        requires callable { (it : Self.IntoIter) → Self.into_iter_gives self it
            → CallableOnAllAt Self.IntoIter.next_gives F.FnMut it key }
        ensures gives { IfOk result (λ m. Becomes Self.into_iter_gives self (λ it.
            FoldsByKey F.FnMut AddsLast M.key_view M.same [] Self.IntoIter.next_gives it key tt
            (M.value m))) }
        ensures lists { IfOk result (λ m.
            EachView Self.item_view (⟦<Self as ItemSource>⟧.lists) self (λ view xs.
            (h : view.Target → M.key_view.Target)
            → NamesKeys F.FnMut M.key_view key (λ x. h (view.of x))
            → IsGroupedByKey (M.value m) M.same view h xs)) }
    {
        let mut key = key;
        let (first, rest) = self.next();
        let k = key(&first);
        let mut groups = M::with_entry(alloc, k, NEVec::new(alloc, first)?)?;
        for x in rest {
            let k = key(&x);
            match groups.value_mut(&k) {
                Some(group) => group.push(x)?,
                None => groups.put_value(alloc, k, NEVec::new(alloc, x)?)?,
            }
        }
        Ok(groups)
    }

    /// Returns the number of items equal to each item, at least 1. The number of all items must fit
    /// in a `usize`. `M` is a map of any of the three types; of equal items it keeps the first.
    ///
    /// Returns `AllocError` if an allocation for the map fails; the items taken are then dropped.
    /// The Rust crate lacks this method; that of `itertools` returns a `HashMap`.
    ///
    /// ```
    /// let letters = nev![alloc; 'b', 'a', 'b']?.into_nonempty_iter();
    /// let counts: NEBTreeMap<char, usize> = letters.counts(alloc)?; // {'a': 1, 'b': 2}
    /// ```
    final fn counts<M: KeyedMap<Self::Item, usize> + Drop>(
        self,
        alloc: Global,
    ) -> Result<M, AllocError>
    where
        Self: Sized,
        Self::Item: Drop,
        requires { (it : Self.IntoIter) → Self.into_iter_gives self it → Self.IntoIter.can_next it
            × IsFinite (Self.IntoIter.remaining it)
            × CountFits Self.IntoIter.next_gives Self.IntoIter.remaining 0 it }
        ensures gives { IfOk result (λ m. (xs : List Self.Item)
            × ⟦<Self as ItemSource>⟧.reads true self xs
            × IsCounted (M.value m) M.same (map M.key_view.of xs)) }
        ensures lists { IfOk result (λ m. EachList (⟦<Self as ItemSource>⟧.lists M.key_view) self
            (λ keys. IsCounted (M.value m) M.same keys)) }
        ensures runs { IfOk result (λ m.
            WholeRunOf Self.into_iter_gives Self.IntoIter.next_gives self (λ p.
            IsCounted (M.value m) M.same (map M.key_view.of p.items))) }
    {
        let (first, rest) = self.next();
        let mut counts = M::with_entry(alloc, first, 1)?;
        for x in rest {
            match counts.value_mut(&x) {
                // All items fit, so no count wraps.
                Some(count) => *count = count.wrapping_add(1),
                None => counts.put_value(alloc, x, 1)?,
            }
        }
        Ok(counts)
    }
}

impl<T: NonEmptyIterator> NonEmptyItertools for T {}

// Makes room in a full set for seven times as many further items and 56 more, but for no more than
// `most` items in all: so a large set is seldom built anew, and a small one is enough for an item
// that is soon repeated. Without memory for that, the set is left as it is.
fn make_room<T: Eq + Hash>(seen: &mut HashSet<T>, most: usize)
    ensures { (q : T) → contains T.eq seen.new q ≡ contains T.eq seen.old q }
{
    let len = seen.len();
    if len == seen.capacity() {
        let more = len.saturating_mul(7).saturating_add(56);
        let _has_room = seen.reserve(more.min(most.saturating_sub(len))).is_ok();
    }
}

/// The pairs of each item of one non-empty iterator with each item of another. See
/// [`NonEmptyItertools::cartesian_product`].
///
/// In the Rust crate it holds the iterators. Here it holds what they are made from, and clones
/// neither the left side's iterator nor the right side's items.
#[derive(Drop)]
pub struct Product<I, J> {
    a: I,
    b: J,
}

impl<I: NonEmptyIterator, J: NonEmptyIterator> IntoIterator for Product<I, J>
where
    I::Item: Clone + Drop,
    J::Item: Drop,
    J::IntoIter: Clone,
{
    ghost use Rattle.ne_products.specs.Product.{MakesProduct};

    type Item = Result<(I::Item, J::Item), AllocError>;

    type IntoIter = ProductIter<I::IntoIter, J::IntoIter>;

    ghost into_iter_gives = { MakesProduct I.into_iter_gives J.into_iter_gives J.IntoIter.is_clone
        J.IntoIter.is_infallible };

    fn into_iter(self) -> ProductIter<I::IntoIter, J::IntoIter> {
        let right = self.b.into_iter();
        let restart = match right.clone() {
            Ok(restart) => Some(restart),
            Err(_) => None,
        };
        ProductIter {
            left: self.a.into_iter(),
            row: None,
            right,
            restart,
            is_over: false,
        }
    }
}

impl<I: NonEmptyIterator, J: NonEmptyIterator> NonEmptyIterator for Product<I, J>
where
    I::Item: Clone + Drop,
    J::Item: Drop,
    J::IntoIter: Clone,
{
    ghost use Rattle.ne_products.specs.ProductLaws.{HasFirst-product};

    ghost not_empty = { λ s it made. HasFirst-product I.IntoIter.next_gives J.IntoIter.next_gives
        I.Item.is_clone I.Item.is_infallible J.IntoIter.is_clone J.IntoIter.is_infallible _ it
        made.3 made.4 (I.not_empty (product_first s) (left_of it) made.0)
        (J.not_empty (product_second s) (right_of it) made.1) };
}

/// The iterator of a [`Product`]. It returns the pairs, each in `Ok`, or an `Err` if a clone
/// failed. After the end, and after an `Err`, it returns `None` and draws nothing more.
///
/// If the clone that was made beforehand failed, the first call returns the `Err`. The Rust crate
/// uses the iterator of `itertools` here, whose clones cannot fail.
#[derive(Drop)]
pub struct ProductIter<I: Iterator, J>
where
    I::Item: Drop,
{
    left: I,
    // The first item of each pair of this row.
    row: Option<I::Item>,
    // The second items that are left for this row.
    right: J,
    // What each row after the first is cloned from; `None` if that clone failed.
    restart: Option<J>,
    is_over: bool,
}

impl<I: Iterator, J: Iterator + Clone> Iterator for ProductIter<I, J>
where
    I::Item: Clone + Drop,
    J::Item: Drop,
{
    ghost use Rattle.ne_products.specs.Product.{CanPair, pairs_left};

    type Item = Result<(I::Item, J::Item), AllocError>;

    ghost can_next = { CanPair I.can_next J.can_next J.remaining J.is_clone };

    ghost next_gives = { PairsNext I.next_gives J.next_gives I.Item.is_clone I.Item.is_infallible
        J.is_clone J.is_infallible };

    ghost remaining = { pairs_left I.remaining J.remaining };

    fn next(&mut self) -> Option<Result<(I::Item, J::Item), AllocError>> {
        if self.is_over {
            return None;
        }
        // The iterator continues only if a pair comes.
        self.is_over = true;
        if self.restart.is_none() {
            return Some(Err(AllocError));
        }
        let row = self.row()?;
        if let Some(right) = self.right.next() {
            return Some(self.pair(row, right));
        }
        let next_row = self.left.next()?;
        let Ok(restarted) = self.restart() else {
            return Some(Err(AllocError));
        };
        self.right = restarted;
        let right = self.right.next()?;
        Some(self.pair(next_row, right))
    }

    // The right side has an upper bound, or the number of pairs is left open.
    fn size_hint(&self) -> (usize, Option<usize>) {
        if self.is_over {
            return (0, Some(0));
        }
        let Some(restart) = &self.restart else {
            return (1, None);
        };
        let (left, held) = (self.left.size_hint().0, usize::from(self.row.is_some()));
        let (row, right) = (restart.size_hint(), self.right.size_hint());
        match (left.saturating_add(held).checked_sub(1), row.1, right.1) {
            (Some(rows), Some(_), Some(_)) => {
                (rows.saturating_mul(row.0).saturating_add(right.0), None)
            }
            _ => (0, None),
        }
    }
}

impl<I: Iterator, J: Iterator + Clone> ProductIter<I, J>
where
    I::Item: Clone + Drop,
    J::Item: Drop,
{
    // Returns the item of this row, which is drawn from the left side if none is held.
    fn row(&mut self) -> Option<I::Item>
        requires { row_of self.old ≡ None → I.can_next (left_of self.old) }
        ensures row { MatchOption result
            ((row_of self.old ≡ None) × I.next_gives (left_of self.old) None (left_of self.new))
            (λ x. IsRowItem I.next_gives self.old x (left_of self.new)
            × IsRowItem (MakesProgress I.can_next I.remaining) self.old x (left_of self.new)) }
        ensures right { right_of self.new ≡ right_of self.old }
        ensures restart { restart_of self.new ≡ restart_of self.old }
        ensures exhausted { is_exhausted self.new ≡ is_exhausted self.old }
    {
        match self.row.take() {
            Some(row) => Some(row),
            None => self.left.next(),
        }
    }

    // Returns the pair of a clone of `row` and `right`. The row continues only if the clone
    // succeeds.
    fn pair(&mut self, row: I::Item, right: J::Item) -> Result<(I::Item, J::Item), AllocError>
        ensures { PairsItems I.Item.is_clone I.Item.is_infallible self.old row right result
            self.new }
    {
        let left = row.clone()?;
        self.row = Some(row);
        self.is_over = false;
        Ok((left, right))
    }

    // Returns a clone of the right side as it was before anything was drawn from it.
    fn restart(&self) -> Result<J, AllocError>
        ensures { TriesRestart J.is_clone J.is_infallible (restart_of self.now) result }
    {
        match &self.restart {
            Some(restart) => restart.clone(),
            None => Err(AllocError),
        }
    }
}
