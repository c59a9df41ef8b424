//! [`NonEmptyIterator`]: a source that yields at least one item, with its methods.
ghost use Rattle.std.specs.Prelude.{◌≡◌, ◌+◌, Bool, true, false, List, drop, length, map};
ghost use Rattle.std.specs.Prelude.{slice_get, take, Option, Some, Ok, IfOk, IsPermutation, ◌≤◌};
ghost use Rattle.std.specs.Prelude.{Result};
ghost use Rattle.std.specs.Prelude.{IsTrue, MatchOption, OnOk, ◌++◌};
ghost use Rattle.std.specs.Result.{is_ok};
ghost use Rattle.std.specs.Iterator.Runs.{EachRunFrom, SomeRun, IsFilterRun};
ghost use Rattle.std.specs.Iterator.Runs.{IndexesMappedItems, AnyItem, CountFits, WholeRun};
ghost use Rattle.std.specs.Iterator.Runs.{IsReduceRun, AllItemsGive, AnyItemGives, NoItemPasses};
ghost use Rattle.std.specs.Iterator.Runs.{EndsAtFirstPassing, IsFilterMapRun};
ghost use Rattle.std.specs.Bool.{OnFalse};
ghost use Rattle.std.specs.List.{prefix_len, list_all, list_any};
ghost use Rattle.std.specs.List.{filter as list_filter, filter_map as list_filter_map};
ghost use Rattle.std.specs.List.{find as list_find, fold as list_fold, reduce as list_reduce};
ghost use Rattle.std.specs.List.{scan as list_scan, take_while as list_take_while};
ghost use Rattle.std.specs.Option.{option_map};
ghost use Rattle.std.specs.Iterator.{IsFinite, ActsAs, ActsAsAt, ActsAsOnTwo, AfterFirst};
ghost use Rattle.std.specs.Iterator.{CallableInFold, CallableWhile, CallableWhileAt};
ghost use Rattle.std.specs.Iterator.{CallableOnAllAt, ChecksAll, ChecksAny, FindsItem, FoldsItems};
ghost use Rattle.std.specs.Iterator.{ReducesItems, SkipsThenYields};
ghost use Rattle.std.specs.Iterator.Adapters.{enumerate_steps, filter_steps, filter_map_steps};
ghost use Rattle.std.specs.Iterator.Adapters.{skip_steps, skip_while_steps, take_while_steps};
ghost use Rattle.std.specs.Iterator.Adapters.{filter_source, filter_callee, filter_map_source};
ghost use Rattle.std.specs.Iterator.Adapters.{filter_map_callee, skip_source, skip_count};
ghost use Rattle.std.specs.Iterator.Adapters.{skip_while_source, skip_while_callee};
ghost use Rattle.std.specs.Iterator.Adapters.{skip_while_done_skipping, take_while_source};
ghost use Rattle.std.specs.Iterator.Adapters.{take_while_callee, take_while_done};
ghost use Rattle.std.specs.Int.NonZero.{non_zero_usize_get};
ghost use Rattle.std.specs.Global.{Global};
ghost use Rattle.std.specs.declared.alloc.AllocError.{AllocError};
ghost use Rattle.std.specs.List.Sorted.{IsSortedByKeyClosure, IsStableByKeyClosure};
ghost use Rattle.std.specs.Bool.{MatchBool};
ghost use Rattle.ne_vec.specs.Lists.{YieldsPrefixes, EachList, EachView, Naming, View, itself};
ghost use Rattle.ne_vec.specs.Lists.{referenced};
ghost use Rattle.ne_vec.specs.Iterators.{ListsItemsByValue};
ghost use Rattle.ne_iter.specs.Consumers.{NoKeyBeats, IsFirstGreatest, IsFirstLeast, PicksGreatest};
ghost use Rattle.ne_iter.specs.Consumers.{PicksLeast, CallableOnTwo, less_by, PicksGreatestKey};
ghost use Rattle.ne_iter.specs.Consumers.{PicksLeastKey, HasBestKey, IsBestOfList, IsBestOfRun};
ghost use Rattle.ne_iter.specs.Sources.{Becomes, IsNonEmpty, DrawsFirst, EachReading, SomeRunOf};
ghost use Rattle.ne_iter.specs.Sources.{WholeRunOf, BeginsRuns};
ghost use Rattle.ne_iter.specs.SourceLists.{BecomesList, BeginsList, EachKept, MeetsList};
ghost use Rattle.ne_iter.specs.SourceLists.{StdYields};
ghost use Rattle.ne_iter.specs.Chain.{ChainsLists, chain_first, chain_second, IsChained};
ghost use Rattle.ne_iter.specs.Flatten.{FlattensLists, flatten_source, IsFlattened};
ghost use Rattle.ne_iter.specs.Enumerate.{NumbersLists, enumerate_source, IsEnumerated};
ghost use Rattle.ne_iter.specs.FlatMap.{SpreadsLists, flat_map_source, flat_map_callee};
ghost use Rattle.ne_iter.specs.FlatMap.{IsFlatMapped, SpreadsViews};
ghost use Rattle.ne_iter.specs.Zip.{ZipsLists, zip_first, zip_second, IsZipped};
ghost use Rattle.ne_iter.specs.Intersperse.{interspersed, JoinsLists, OnlyItsValues};
ghost use Rattle.ne_iter.specs.Intersperse.{intersperse_first, intersperse_rest};
ghost use Rattle.ne_iter.specs.Intersperse.{intersperse_separator, IsInterspersed};
ghost use Rattle.ne_iter.specs.Calls.{ActsAsWithState};
ghost use Rattle.ne_iter.specs.Cloned.{TriesClone, cloned_source, IsCloned};
ghost use Rattle.ne_iter.specs.Collected.{AppendsRead, IsAllOrErrors, PrefixMakes};
ghost use Rattle.ne_iter.specs.Collected.{values_or_first_err};
ghost use Rattle.ne_iter.specs.SortedByKey.{AscendsByKey, MapsTargets, PermutesByKey};
ghost use Rattle.ne_iter.specs.Map.{map_source, map_callee, IsMapped};
ghost use Rattle.ne_iter.specs.Take.{take_source, take_count, IsTaken};
ghost use Rattle.ne_iter.specs.Copied.{copied_source, IsCopied};
ghost use Rattle.ne_iter.specs.Scan.{scan_source, scan_init, scan_callee};
ghost use Rattle.ne_iter.specs.Scan.{CallableInScan, IsScanned};
ghost use Rattle.ne_iter.specs.GroupBy.{GroupByGives, GivesRuns, GroupsThrough};
ghost use Rattle.ne_iter.specs.GroupingRuns.{YieldsRunsThrough, divided_source, divided_callee};
ghost use Rattle.ne_iter.specs.RunsBy.{CutsThrough, HasCut};
ghost use Rattle.ne_iter.specs.TryGroupBy.{by_keys};
ghost use Rattle.ne_iter.specs.Map.{MapsThrough};
ghost use Rattle.ne_iter.specs.Filter.{FilterMapsThrough, IsFiltered, IsFilterMapped, IsParted};
ghost use Rattle.ne_iter.specs.Filter.{PartsLists};
ghost use Rattle.ne_iter.specs.Skip.{IsSkipped, IsSkippedWhile};
ghost use Rattle.ne_iter.specs.TakeWhile.{IsTakenWhile};
ghost use Rattle.ne_iter.specs.Peekable.{peekable_first, peekable_rest, PeekableGives, YieldsRest};
ghost use Rattle.ne_iter.specs.Peekable.{YieldsPeeked};

use super::best::{best, best_by_key};
use super::collected::{FromNonEmptyIterator, all_or_errors, append};
use super::divided::Divided;
use super::sources::{IntoNonEmptyIterator, ItemSource};
use super::{
    Chain, Cloned, Copied, Enumerate, FlatMap, Flatten, GroupBy, Intersperse, Map, NEGroupBy,
    Peekable, RunsBy, RunsByIter, Scan, Take, TryGroupBy, TryGroupByIter, Zip,
};
use ne_vec::{NEVec, Singleton, vector};
use std::alloc::{AllocError, Global};
use std::cmp::Ordering;
use std::iter::{self, Product, Sum};
use std::marker::PhantomData;
use std::num::NonZeroUsize;

/// A source that yields at least one item. A source is a value that `into_iter` makes into an
/// iterator.
///
/// The law of this trait is `not_empty`: the iterator made from any value first returns an item. An
/// implementation proves this law and needs nothing else; all methods but `next` and `append_to`
/// are final.
///
/// In contracts, `item_view` is the view through which chains are proved: a shared reference of a
/// collection's iterator is seen as what it points to, also in the pairs of a map, of `zip` and of
/// `enumerate`; an item of any other source as itself. A source of references has the line `ghost
/// item_view = { referenced };`, and the call that makes it says which list its references point to
/// (`Listed`), as `nonempty_iter` of a vector does. The Rust crate has nothing of the kind.
///
/// ```
/// let halves = [3u32, 1, 2].into_nonempty_iter().map(|x| x / 2);
/// let halves: NEVec<u32> = halves.collect(alloc)?; // [1, 0, 1]
/// ```
pub trait NonEmptyIterator: IntoIterator {
    ghost item_view: { View Self.Item } = { itself };

    /// Returns the first item, which always exists, and the iterator over the others.
    ///
    /// This method is not final, but its contract allows no other result.
    ///
    /// ```
    /// let items = nev![alloc; 4, 6]?;
    /// let (first, mut rest) = items.nonempty_iter().next(); // &4
    /// let (second, end) = (rest.next(), rest.next()); // Some(&6) and None
    /// ```
    fn next(self) -> (Self::Item, Self::IntoIter)
    where
        Self: Sized,
        requires { ⟦<Self as ItemSource>⟧.starts self }
        ensures first { DrawsFirst Self.into_iter_gives Self.IntoIter.next_gives
            Self.IntoIter.can_next Self.IntoIter.remaining self result.0 result.1 }
        ensures lists { BeginsList (⟦<Self as ItemSource>⟧.lists itself) Self.IntoIter.next_gives
            self result.0 result.1 }
    {
        let mut it = self.into_iter();
        let first = it.next().unwrap();
        (first, it)
    }

    /// Appends the items to a vector. They must come to an end.
    ///
    /// Vectors are collected by it. The value in `Ok` is empty, and names the iterator: so a proof
    /// knows that its size is in range. The Rust crate lacks this method.
    ///
    /// Returns `AllocError` if the allocation fails; the items that came before are then appended.
    ///
    /// ```
    /// let mut items = vec![in alloc; 3u32]?;
    /// let more = nev![alloc; 1, 4]?.into_nonempty_iter();
    /// let _appended = more.append_to(alloc, &mut items)?;
    /// let (len, second) = (items.len(), items[1]); // 3 and 1
    /// ```
    fn append_to(
        self,
        alloc: Global,
        items: &mut Vec<Self::Item>,
    ) -> Result<PhantomData<Self::IntoIter>, AllocError>
    where
        Self: Sized,
        Self::Item: Drop,
        requires { ⟦<Self as ItemSource>⟧.ends self }
        ensures gives { AppendsRead (⟦<Self as ItemSource>⟧.reads (is_ok result) self)
            items.old.items items.new.items }
        ensures lists { OnOk result (EachList (⟦<Self as ItemSource>⟧.lists itself) self (λ xs.
            items.new.items ≡ items.old.items ++ xs)) }
    {
        append(alloc, items, self.into_iter())
    }

    /// Returns a source of the same items whose first item can be read and changed. The first item
    /// is taken immediately.
    ///
    /// ```
    /// let items = nev![alloc; 4, 6, 8]?.into_nonempty_iter().peekable();
    /// let first = *items.peek(); // 4
    /// ```
    final fn peekable(self) -> Peekable<Self::IntoIter>
    where
        Self: Sized,
        Self::Item: Drop,
        requires { ⟦<Self as ItemSource>⟧.starts self }
        ensures drawn { DrawsFirst Self.into_iter_gives Self.IntoIter.next_gives
            Self.IntoIter.can_next Self.IntoIter.remaining self
            (peekable_first result) (peekable_rest result) }
        ensures gives { PeekableGives (⟦<Self as ItemSource>⟧.reads)
            (⟦<Peekable<Self::IntoIter> as ItemSource>⟧.reads) self result }
        ensures lists { EachList (⟦<Self as ItemSource>⟧.lists itself) self (λ xs.
            ⟦<Peekable<Self::IntoIter> as ItemSource>⟧.yields_items result xs
            × YieldsRest Self.IntoIter.next_gives (peekable_rest result) xs)
            × OnFalse item_view.is_itself (EachList (⟦<Self as ItemSource>⟧.lists item_view) self
            (YieldsPeeked item_view Self.IntoIter.next_gives result)) }
    {
        let (first, rest) = self.next();
        Peekable { first, rest }
    }

    /// Returns whether `f` returns `true` for every item. It stops at the first item for which `f`
    /// returns `false`.
    ///
    /// ```
    /// let even = nev![alloc; 4, 6, 8]?.nonempty_iter().all(|x| *x % 2 == 0); // true
    /// ```
    final fn all<F: FnMut(Self::Item) -> bool>(self, f: F) -> bool
    where
        Self: Sized,
        requires ends { ⟦<Self as ItemSource>⟧.ends self }
        requires callable { (it : Self.IntoIter) → Self.into_iter_gives self it
            → CallableWhile Self.IntoIter.next_gives F.FnMut true it f }
        ensures gives { Becomes Self.into_iter_gives self (λ it. (t : Self.IntoIter)
            × ChecksAll Self.IntoIter.next_gives F.FnMut it f result t) }
        ensures lists { EachView item_view (⟦<Self as ItemSource>⟧.lists) self (λ view xs.
            (test : view.Target → Bool)
            → ActsAs F.FnMut f (λ x. test (view.of x))
            → result ≡ list_all test xs) }
        ensures runs { SomeRunOf Self.into_iter_gives Self.IntoIter.next_gives self (λ p.
            MatchBool result (IsTrue p.whole × AllItemsGive p F.FnMut f true)
            (AnyItemGives p F.FnMut f false)) }
    {
        self.into_iter().all(f)
    }

    /// Returns whether `f` returns `true` for any item. It stops at the first such item.
    ///
    /// ```
    /// let found = nev![alloc; 4, 6, 8]?.nonempty_iter().any(|x| *x % 5 == 0); // false
    /// ```
    final fn any<F: FnMut(Self::Item) -> bool>(self, f: F) -> bool
    where
        Self: Sized,
        requires ends { ⟦<Self as ItemSource>⟧.ends self }
        requires callable { (it : Self.IntoIter) → Self.into_iter_gives self it
            → CallableWhile Self.IntoIter.next_gives F.FnMut false it f }
        ensures gives { Becomes Self.into_iter_gives self (λ it. (t : Self.IntoIter)
            × ChecksAny Self.IntoIter.next_gives F.FnMut it f result t) }
        ensures lists { EachView item_view (⟦<Self as ItemSource>⟧.lists) self (λ view xs.
            (test : view.Target → Bool)
            → ActsAs F.FnMut f (λ x. test (view.of x))
            → result ≡ list_any test xs) }
        ensures runs { SomeRunOf Self.into_iter_gives Self.IntoIter.next_gives self (λ p.
            MatchBool result (AnyItemGives p F.FnMut f true)
            (IsTrue p.whole × AllItemsGive p F.FnMut f false)) }
    {
        self.into_iter().any(f)
    }

    /// Returns a source of the items of `self`, followed by those of `other`, which may be empty.
    ///
    /// In the Rust crate a [`Chain`] holds the iterators. Here it holds the two sources, and
    /// becomes std's iterator.
    ///
    /// ```
    /// let items = nev![alloc; 4, 6]?.into_nonempty_iter();
    /// let all: NEVec<u32> = items.chain(nev![alloc; 8, 9]?).collect(alloc)?; // [4, 6, 8, 9]
    /// ```
    final fn chain<U: IntoIterator<Item = Self::Item>>(self, other: U) -> Chain<Self, U>
    where
        Self: Sized,
        ensures holds { (chain_first result ≡ self) × (chain_second result ≡ other) }
        ensures gives { EachReading (⟦<Chain<Self, U> as ItemSource>⟧.reads) result
            (IsChained (⟦<Self as ItemSource>⟧.reads) (⟦<U as ItemSource>⟧.reads) self other) }
        ensures lists { EachView item_view (⟦<Self as ItemSource>⟧.lists) self (λ view xs.
            ChainsLists (⟦<U as ItemSource>⟧.lists view)
            (MeetsList U.into_iter_gives U.IntoIter.next_gives view) other xs
            (⟦<Chain<Self, U> as ItemSource>⟧.yields_through view result)) }
    {
        Chain { a: self, b: other }
    }

    /// Returns a source that yields, for each reference, a clone of the referenced item in `Ok`, or
    /// an `Err` if cloning it fails.
    ///
    /// What comes after an `Err` depends on the later clones. In the Rust crate the items are not
    /// in a `Result`.
    ///
    /// ```
    /// let items = nev![alloc; 1, 2]?;
    /// let clones = items.nonempty_iter().cloned(); // Ok(1) and Ok(2)
    /// ```
    final fn cloned<'a, T: Clone + 'a>(self) -> Cloned<Self>
    where
        Self: Sized + IntoIterator<Item = &'a T>,
        ensures holds { cloned_source result ≡ self }
        ensures gives { EachReading (⟦<Cloned<Self> as ItemSource>⟧.reads) result
            (IsCloned (⟦<Self as ItemSource>⟧.reads) (TriesClone T.is_clone T.is_infallible) self) }
        ensures lists { EachList (⟦<Self as ItemSource>⟧.lists referenced) self (λ xs.
            ((x : T) → T.is_infallible x) → ((x y : T) → T.is_clone x y → y ≡ x)
            → (values_or_first_err {E = AllocError} (map Ok xs) ≡ Ok xs)
            × ⟦<Cloned<Self> as ItemSource>⟧.yields_items result (map Ok xs)) }
    {
        Cloned { iter: self }
    }

    /// Collects the items: see [`FromNonEmptyIterator`].
    ///
    /// Returns `AllocError` if the allocation fails; the items taken are then dropped.
    ///
    /// ```
    /// let items = nev![alloc; 4, 6, 8]?;
    /// let same: NEVec<u32> = items.into_nonempty_iter().collect(alloc)?; // [4, 6, 8]
    /// ```
    #[inline(always)]
    final fn collect<B: FromNonEmptyIterator<Self::Item>>(
        self,
        alloc: Global,
    ) -> Result<B, AllocError>
    where
        Self: Sized,
        requires { ⟦<Self as ItemSource>⟧.ends self }
        ensures gives { IfOk result (λ c. (xs : List Self.Item)
            × ⟦<Self as ItemSource>⟧.reads (B.is_complete c) self xs × B.collected xs c) }
        ensures lists { IfOk result (λ c. EachList (⟦<Self as ItemSource>⟧.lists itself) self
            (λ xs. PrefixMakes B.collected B.is_complete xs c)) }
        ensures runs { IfOk result (λ c.
            SomeRunOf Self.into_iter_gives Self.IntoIter.next_gives self (λ p.
            (p.whole ≡ B.is_complete c) × B.collected p.items c)) }
    {
        B::from_nonempty_iter(alloc, self)
    }

    /// Returns a source of copies of the referenced items.
    ///
    /// In the Rust crate a [`Copied`] holds the iterator. Here it holds the source, and becomes
    /// std's iterator.
    ///
    /// ```
    /// let items = nev![alloc; 4, 6, 8]?;
    /// let copies: NEVec<u32> = items.nonempty_iter().copied().collect(alloc)?; // [4, 6, 8]
    /// ```
    final fn copied<'a, T: Copy + 'a>(self) -> Copied<Self>
    where
        Self: Sized + IntoIterator<Item = &'a T>,
        ensures holds { copied_source result ≡ self }
        ensures gives { EachReading (⟦<Copied<Self> as ItemSource>⟧.reads) result
            (IsCopied (⟦<Self as ItemSource>⟧.reads) self) }
        ensures lists { EachList (⟦<Self as ItemSource>⟧.lists referenced) self (λ xs.
            ⟦<Copied<Self> as ItemSource>⟧.yields_items result xs) }
    {
        Copied { iter: self }
    }

    /// Returns the number of items, which is at least 1. It must fit in a `usize`.
    ///
    /// ```
    /// let count = nev![alloc; 4, 6, 8]?.nonempty_iter().count().get(); // 3
    /// ```
    final fn count(self) -> NonZeroUsize
    where
        Self: Sized,
        Self::Item: Drop,
        requires { (it : Self.IntoIter) → Self.into_iter_gives self it → Self.IntoIter.can_next it
            × IsFinite (Self.IntoIter.remaining it)
            × CountFits Self.IntoIter.next_gives Self.IntoIter.remaining 0 it }
        ensures gives { (xs : List Self.Item) × ⟦<Self as ItemSource>⟧.reads true self xs
            × (non_zero_usize_get result ≡ length xs) }
        ensures lists { EachView item_view (⟦<Self as ItemSource>⟧.lists) self (λ view xs.
            non_zero_usize_get result ≡ length xs) }
        ensures runs { WholeRunOf Self.into_iter_gives Self.IntoIter.next_gives self (λ p.
            non_zero_usize_get result ≡ p.len) }
    {
        NonZeroUsize::new(self.into_iter().count()).unwrap()
    }

    /// Returns a source of pairs of an index, from 0, and the item at that index.
    ///
    /// ```
    /// let pairs = ['a', 'b'].into_nonempty_iter().enumerate(); // (0, 'a') and (1, 'b')
    /// ```
    final fn enumerate(self) -> Enumerate<Self>
    where
        Self: Sized,
        ensures holds { enumerate_source result ≡ self }
        ensures gives { EachReading (⟦<Enumerate<Self> as ItemSource>⟧.reads) result
            (IsEnumerated (⟦<Self as ItemSource>⟧.reads) self) }
        ensures lists { NumbersLists item_view (⟦<Self as ItemSource>⟧.lists)
            (⟦<Enumerate<Self> as ItemSource>⟧.yields_items)
            (⟦<Enumerate<Self> as ItemSource>⟧.yields_through)
            (⟦<Enumerate<Self> as IntoIterator>⟧.into_iter_gives)
            (enumerate_steps Self.IntoIter.next_gives) self result }
    {
        Enumerate { iter: self }
    }

    /// Returns an iterator over the items for which `predicate` returns `true`. There may be none,
    /// so it is std's iterator.
    ///
    /// ```
    /// let items = nev![alloc; 4, 6, 8]?.into_nonempty_iter();
    /// let fours: Vec<u32> = items.filter(|x| *x % 4 == 0).collect(alloc)?; // [4, 8]
    /// ```
    final fn filter<P: FnMut(&Self::Item) -> bool>(
        self,
        predicate: P,
    ) -> iter::Filter<Self::IntoIter, P>
    where
        Self: Sized,
        Self::Item: Drop,
        ensures holds { Self.into_iter_gives self (filter_source result)
            × (filter_callee result ≡ predicate) }
        ensures gives { EachReading (⟦<iter::Filter<Self::IntoIter, P> as ItemSource>⟧.reads) result
            (IsFiltered (⟦<Self as ItemSource>⟧.reads) P.FnMut self predicate) }
        ensures lists { EachKept item_view (⟦<Self as ItemSource>⟧.lists) self
            (filter_steps Self.IntoIter.next_gives P.FnMut) result (λ view xs gives.
            (test : view.Target → Bool) → ActsAsAt P.FnMut predicate (λ x. test (view.of x))
            → Naming (list_filter test xs) gives) }
        ensures runs { OnFalse item_view.is_itself (Becomes Self.into_iter_gives self (λ it.
            EachRunFrom (filter_steps Self.IntoIter.next_gives P.FnMut) result (λ u.
            SomeRun Self.IntoIter.next_gives it (λ q. IsFilterRun u q P.FnMut predicate)))) }
    {
        self.into_iter().filter(predicate)
    }

    /// Returns the items for which `predicate` returns `true`, and the others, each in order.
    /// Either vector may be empty.
    ///
    /// `predicate` is called once for each item, in order. Returns `AllocError` if an allocation
    /// fails; the items taken are then dropped. The Rust crate lacks this method.
    ///
    /// ```
    /// let costs = nev![alloc; 4, 9, 6]?;
    /// let (small, great) = costs.into_nonempty_iter().partition(alloc, |x| *x < 7)?;
    /// // [4, 6] and [9]
    /// ```
    final fn partition<P: FnMut(&Self::Item) -> bool>(
        self,
        alloc: Global,
        predicate: P,
    ) -> Result<(Vec<Self::Item>, Vec<Self::Item>), AllocError>
    where
        Self: Sized,
        Self::Item: Drop,
        requires ends { ⟦<Self as ItemSource>⟧.ends self }
        requires callable { (it : Self.IntoIter) → Self.into_iter_gives self it
            → CallableOnAllAt Self.IntoIter.next_gives P.FnMut it predicate }
        ensures gives { IfOk result (λ r. IsParted (⟦<Self as ItemSource>⟧.reads) P.FnMut self
            predicate r.0.items r.1.items) }
        ensures lists { IfOk result (λ r. PartsLists P.FnMut item_view
            (⟦<Self as ItemSource>⟧.lists) self predicate r.0.items r.1.items) }
    {
        let mut predicate = predicate;
        let (mut passed, mut others) = (Vec::new(alloc), Vec::new(alloc));
        for x in self {
            if predicate(&x) {
                passed.push(x)?;
            } else {
                others.push(x)?;
            }
        }
        Ok((passed, others))
    }

    /// Returns an iterator over the values that `f` returns in `Some`. There may be none, so it is
    /// std's iterator.
    ///
    /// ```
    /// let items = [2u32, 3, 4].into_nonempty_iter();
    /// let halves = items.filter_map(|x| (x % 2 == 0).then_some(x / 2)); // 1 and 2
    /// ```
    final fn filter_map<B, F: FnMut(Self::Item) -> Option<B>>(
        self,
        f: F,
    ) -> iter::FilterMap<Self::IntoIter, F>
    where
        Self: Sized,
        ensures holds { Self.into_iter_gives self (filter_map_source result)
            × (filter_map_callee result ≡ f) }
        ensures gives { EachReading (⟦<iter::FilterMap<Self::IntoIter, F> as ItemSource>⟧.reads)
            result (IsFilterMapped (⟦<Self as ItemSource>⟧.reads) F.FnMut self f) }
        ensures lists { EachView item_view (⟦<Self as ItemSource>⟧.lists) self (λ view xs.
            (h : view.Target → Option B) → ActsAs F.FnMut f (λ x. h (view.of x))
            → Naming (list_filter_map h xs) (λ ys.
            YieldsPrefixes (filter_map_steps Self.IntoIter.next_gives F.FnMut) ys result)) }
        ensures through { OnFalse item_view.is_itself
            (EachList (⟦<Self as ItemSource>⟧.lists item_view) self
            (FilterMapsThrough F.FnMut f (filter_map_steps Self.IntoIter.next_gives F.FnMut)
            result item_view)) }
        ensures runs { Becomes Self.into_iter_gives self (λ it.
            EachRunFrom (filter_map_steps Self.IntoIter.next_gives F.FnMut) result (λ p.
            SomeRun Self.IntoIter.next_gives it (λ q. IsFilterMapRun p q F.FnMut f))) }
    {
        self.into_iter().filter_map(f)
    }

    /// Returns the first item for which `predicate` returns `true`, or `None` if there is none. It
    /// stops at that item.
    ///
    /// ```
    /// let even = nev![alloc; 1, 2, 3]?.into_nonempty_iter().find(|x| *x % 2 == 0); // Some(2)
    /// ```
    final fn find<P: FnMut(&Self::Item) -> bool>(self, predicate: P) -> Option<Self::Item>
    where
        Self: Sized,
        Self::Item: Drop,
        requires ends { ⟦<Self as ItemSource>⟧.ends self }
        requires callable { (it : Self.IntoIter) → Self.into_iter_gives self it
            → CallableWhileAt Self.IntoIter.next_gives P.FnMut false it predicate }
        ensures gives { Becomes Self.into_iter_gives self (λ it. (t : Self.IntoIter)
            × FindsItem Self.IntoIter.next_gives P.FnMut it predicate result t) }
        ensures lists { EachView item_view (⟦<Self as ItemSource>⟧.lists) self (λ view xs.
            (test : view.Target → Bool)
            → ActsAsAt P.FnMut predicate (λ x. test (view.of x))
            → option_map view.of result ≡ list_find test xs) }
        ensures runs { SomeRunOf Self.into_iter_gives Self.IntoIter.next_gives self (λ u.
            MatchOption result (IsTrue u.whole × NoItemPasses u P.FnMut predicate)
            (EndsAtFirstPassing u P.FnMut predicate)) }
    {
        self.into_iter().find(predicate)
    }

    /// Returns a source of the items of the sources that `f` returns, one source after another.
    /// Each of these has at least one item.
    ///
    /// In the Rust crate a [`FlatMap`] holds the iterator. Here it holds the source, and becomes
    /// std's iterator. For a contract that says the list of arrays, `f` has an `ensures` that says
    /// what it returns.
    ///
    /// ```
    /// let items = nev![alloc; 3, 1, 4, 1, 5, 9, 2, 6]?.into_nonempty_iter();
    /// let all: NEVec<u32> = items.flat_map(|x| [x, x / 2]).collect(alloc)?;
    /// // [3, 1, 1, 0, 4, 2, 1, 0, 5, 2, 9, 4, 2, 1, 6, 3]
    /// ```
    final fn flat_map<U: IntoNonEmptyIterator, F: FnMut(Self::Item) -> U>(
        self,
        f: F,
    ) -> FlatMap<Self, U, F>
    where
        Self: Sized,
        ensures holds { (flat_map_source result ≡ self) × (flat_map_callee result ≡ f) }
        ensures gives { EachReading (⟦<FlatMap<Self, U, F> as ItemSource>⟧.reads) result
            (IsFlatMapped (⟦<Self as ItemSource>⟧.reads) (⟦<U as ItemSource>⟧.reads) F.FnMut self
            f) }
        ensures lists { SpreadsLists F.FnMut f (⟦<Self as ItemSource>⟧.lists itself)
            (BecomesList U.into_nonempty_iter_gives U.IntoNEIter.into_iter_gives
            U.IntoNEIter.IntoIter.next_gives itself)
            (⟦<FlatMap<Self, U, F> as ItemSource>⟧.yields_items) self result
            × SpreadsViews F.FnMut f item_view U.IntoNEIter.item_view (⟦<Self as ItemSource>⟧.lists)
            (BecomesList U.into_nonempty_iter_gives U.IntoNEIter.into_iter_gives
            U.IntoNEIter.IntoIter.next_gives) (⟦<FlatMap<Self, U, F> as ItemSource>⟧.yields_through)
            self result }
    {
        FlatMap {
            iter: self,
            f,
            of: PhantomData,
        }
    }

    /// Returns a source of the items of the inner sources, one source after another. Each item of
    /// `self` is an inner source, which has at least one item.
    ///
    /// It does not allocate, and takes the next inner source only when the one before it has ended.
    /// The Rust crate has no such method: it is like std's `flatten`, but stays non-empty.
    ///
    /// ```
    /// let mut lists = NEVec::new(alloc, nev![alloc; 1, 2]?)?;
    /// lists.push(nev![alloc; 3]?)?;
    /// let items = lists.into_nonempty_iter().flatten(); // 1, 2 and 3
    /// ```
    final fn flatten(self) -> Flatten<Self>
    where
        Self: Sized,
        Self::Item: IntoNonEmptyIterator,
        ensures holds { flatten_source result ≡ self }
        ensures gives { EachReading (⟦<Flatten<Self> as ItemSource>⟧.reads) result
            (IsFlattened (⟦<Self as ItemSource>⟧.reads) (⟦<Self::Item as ItemSource>⟧.reads) self) }
        ensures lists { FlattensLists (⟦<Self as ItemSource>⟧.lists itself)
            (BecomesList Self.Item.into_nonempty_iter_gives Self.Item.IntoNEIter.into_iter_gives
            Self.Item.IntoNEIter.IntoIter.next_gives itself)
            (⟦<Flatten<Self> as ItemSource>⟧.yields_items) self result }
    {
        Flatten { iter: self }
    }

    /// Folds the items into one value: starting from `init`, `f` takes the value so far and the
    /// next item, and returns the new value.
    ///
    /// ```
    /// let digits = nev![alloc; 4, 6, 8]?.into_nonempty_iter();
    /// let number = digits.fold(0, |n: u32, x| n.wrapping_mul(10).wrapping_add(x)); // 468
    /// ```
    final fn fold<B, F: FnMut(B, Self::Item) -> B>(self, init: B, f: F) -> B
    where
        Self: Sized,
        requires ends { ⟦<Self as ItemSource>⟧.ends self }
        requires callable { (it : Self.IntoIter) → Self.into_iter_gives self it
            → CallableInFold Self.IntoIter.next_gives F.FnMut it f init }
        ensures gives { Becomes Self.into_iter_gives self
            (λ it. FoldsItems Self.IntoIter.next_gives F.FnMut it f init result) }
        ensures lists { EachView item_view (⟦<Self as ItemSource>⟧.lists) self (λ view xs.
            (h : B → view.Target → B)
            → ActsAsOnTwo F.FnMut f (λ total x. h total (view.of x))
            → result ≡ list_fold h init xs) }
        ensures runs { WholeRunOf Self.into_iter_gives Self.IntoIter.next_gives self (λ p.
            (h : B → Self.Item → B) → ActsAsOnTwo F.FnMut f h
            → result ≡ list_fold h init p.items) }
    {
        self.into_iter().fold(init, f)
    }

    /// Returns a source of the runs of the items, each run as a vector in `Ok`.
    ///
    /// `f` is called once for each item taken, in order, and returns its key. The first item begins
    /// a run. Each further item continues the run if `key of the run's first item == its own key`;
    /// otherwise it begins the next run. A run is returned when the first item of the next one was
    /// taken, or when the source has ended. Nothing more is taken: if the caller stops early, at
    /// most one item after the returned runs has been taken.
    ///
    /// `f` must be callable with the items of the source, in order; it may reject any other value.
    /// For example, if all items are above 0, the key may be `|x| 100 / *x`.
    ///
    /// A key that clones, as `|e| e.service.clone()`, is a `Result`: if a clone fails, the `Err` is
    /// a key of its own, and the runs are others. [`try_group_by`](Self::try_group_by) is for such
    /// keys, and [`runs_by`](Self::runs_by) needs no clone.
    ///
    /// A run is allocated from `alloc` when it is requested; nothing is allocated for the next run
    /// yet. If an allocation for a run fails, `Err` is returned in its place. The items that were
    /// taken and not returned are then dropped, and `None` follows. In the Rust crate the runs are
    /// vectors without a `Result`.
    ///
    /// ```
    /// let runs = [3u32, 2, 1].into_nonempty_iter().group_by(alloc, |x| *x / 2);
    /// let runs: Result<NEVec<NEVec<u32>>, AllocError> = runs.collect(alloc)?; // Ok([[3, 2], [1]])
    /// ```
    final fn group_by<K: PartialEq + Drop, F: FnMut(&Self::Item) -> K + Drop>(
        self,
        alloc: Global,
        f: F,
    ) -> NEGroupBy<Self, F>
    where
        Self: Sized,
        Self::Item: Drop,
        ensures holds { (divided_source result ≡ self) × (divided_callee result ≡ f) }
        ensures ends { ⟦<Self as ItemSource>⟧.ends self
            → ((it : Self.IntoIter) → Self.into_iter_gives self it
            → CallableOnAllAt Self.IntoIter.next_gives F.FnMut it f)
            → ⟦<NEGroupBy<Self, F> as ItemSource>⟧.ends result }
        ensures gives { GroupByGives (⟦<Self as ItemSource>⟧.reads) F.FnMut K.eq
            (⟦<NEGroupBy<Self, F> as ItemSource>⟧.reads) self f result }
        ensures lists { YieldsRunsThrough item_view (⟦<Self as ItemSource>⟧.lists) self
            (⟦<NEGroupBy<Self, F> as IntoIterator>⟧.into_iter_gives)
            (⟦<GroupBy<Self::IntoIter, K, Self::Item, F> as Iterator>⟧.next_gives)
            (GroupsThrough F.FnMut K.eq item_view f) result }
    {
        Divided {
            iter: self,
            f,
            alloc,
            by: PhantomData,
        }
    }

    /// Returns a source of the runs of items that `same` puts together: each run is a vector, in
    /// `Ok`, of consecutive items. Each item is compared with the first one of its run, by
    /// `same(first, item)`: if that is `true` the item continues the run, and otherwise it begins
    /// the next one. So no item is compared with the one before it.
    ///
    /// Unlike [`group_by`](Self::group_by) it needs no key, and so no clone of a part of an item.
    /// The runs are those of [`NESlice::runs_by`](ne_vec::NESlice::runs_by) with the same closure.
    /// Nothing is taken before the first run is requested. A run is returned when the first item of
    /// the next one was taken, or when the source has ended; unless an `Err` was returned, at most
    /// one item after the returned runs has been taken.
    ///
    /// `same` must be callable with any two items of the source. A run is allocated from `alloc`
    /// when it is requested. If an allocation for it fails, `Err` is returned in its place; the
    /// items that were taken and not returned are then dropped, and `None` follows. The Rust crate
    /// has no such method.
    ///
    /// ```
    /// let runs = [3u32, 2, 1].into_nonempty_iter().runs_by(alloc, |x, y| *x / 2 == *y / 2);
    /// let runs: Result<NEVec<NEVec<u32>>, AllocError> = runs.collect(alloc)?; // Ok([[3, 2], [1]])
    /// ```
    final fn runs_by<F: Fn(&Self::Item, &Self::Item) -> bool + Drop>(
        self,
        alloc: Global,
        same: F,
    ) -> RunsBy<Self, F>
    where
        Self: Sized,
        Self::Item: Drop,
        ensures holds { (divided_source result ≡ self) × (divided_callee result ≡ same) }
        ensures ends { ⟦<Self as ItemSource>⟧.ends self
            → ((it : Self.IntoIter) → Self.into_iter_gives self it
            → CallableOnTwo Self.IntoIter.next_gives F.Fn it same)
            → ⟦<RunsBy<Self, F> as ItemSource>⟧.ends result }
        ensures gives { GivesRuns (⟦<RunsBy<Self, F> as ItemSource>⟧.reads)
            (HasCut (⟦<Self as ItemSource>⟧.reads) F.Fn self same) result }
        ensures lists { YieldsRunsThrough item_view (⟦<Self as ItemSource>⟧.lists) self
            (⟦<RunsBy<Self, F> as IntoIterator>⟧.into_iter_gives)
            (⟦<RunsByIter<Self::IntoIter, Self::Item, F> as Iterator>⟧.next_gives)
            (CutsThrough F.Fn item_view same) result }
    {
        Divided {
            iter: self,
            f: same,
            alloc,
            by: PhantomData,
        }
    }

    /// Returns a source of the runs of items with equal keys, as [`group_by`](Self::group_by) does,
    /// by a closure that may fail, as a key that clones a text does: `|e| e.service.clone()`. If
    /// `f` returns `Err`, an `Err` comes in place of the run.
    ///
    /// Nothing is taken before the first run is requested. Each item that is taken is passed to `f`
    /// once. A run is returned when the first item of the next one was taken, or when the source
    /// has ended; unless an `Err` was returned, at most one item after these runs has been taken.
    ///
    /// `f` must be callable with each item of the source. A run is allocated from `alloc` when it
    /// is requested. After an `Err`, of `f` or of an allocation for the run, the items that were
    /// taken and not returned are dropped, and `None` follows. The Rust crate has no such method.
    ///
    /// ```
    /// let key = |x: &u32| String::from_str(alloc, if *x > 1 { "many" } else { "one" });
    /// let runs = [3u32, 2, 1].into_nonempty_iter().try_group_by(alloc, key);
    /// let runs: Result<NEVec<NEVec<u32>>, AllocError> = runs.collect(alloc)?; // Ok([[3, 2], [1]])
    /// ```
    final fn try_group_by<K: PartialEq + Drop, F: Fn(&Self::Item) -> Result<K, AllocError> + Drop>(
        self,
        alloc: Global,
        f: F,
    ) -> TryGroupBy<Self, F>
    where
        Self: Sized,
        Self::Item: Drop,
        ensures holds { (divided_source result ≡ self) × (divided_callee result ≡ f) }
        ensures ends { ⟦<Self as ItemSource>⟧.ends self
            → ((it : Self.IntoIter) → Self.into_iter_gives self it
            → CallableOnTwo Self.IntoIter.next_gives (by_keys F.Fn K.eq) it f)
            → ⟦<TryGroupBy<Self, F> as ItemSource>⟧.ends result }
        ensures gives { GivesRuns (⟦<TryGroupBy<Self, F> as ItemSource>⟧.reads)
            (HasCut (⟦<Self as ItemSource>⟧.reads) (by_keys F.Fn K.eq) self f) result }
        ensures lists { YieldsRunsThrough item_view (⟦<Self as ItemSource>⟧.lists) self
            (⟦<TryGroupBy<Self, F> as IntoIterator>⟧.into_iter_gives)
            (⟦<TryGroupByIter<Self::IntoIter, K, Self::Item, F> as Iterator>⟧.next_gives)
            (CutsThrough (by_keys F.Fn K.eq) item_view f) result }
    {
        Divided {
            iter: self,
            f,
            alloc,
            by: PhantomData,
        }
    }

    /// Returns a source of the items with a clone of `separator` between each two. Each item or
    /// clone is in `Ok`; if a clone fails, an `Err` comes in its place and nothing after it. So n
    /// items become 2n - 1 if no clone fails, and no separator is first or last. One clone is made
    /// for each separator given.
    ///
    /// The first item is taken immediately. In the Rust crate `into_iter` of the result takes it,
    /// and clones the separator once more; the items there are not in a `Result`.
    ///
    /// ```
    /// let halves = [4u32, 6].into_nonempty_iter().map(|x| x / 2);
    /// let items = halves.intersperse(0); // Ok(2), Ok(0) and Ok(3)
    /// ```
    final fn intersperse(self, separator: Self::Item) -> Intersperse<Self::IntoIter>
    where
        Self: Sized,
        Self::Item: Clone + Drop,
        requires { ⟦<Self as ItemSource>⟧.starts self }
        ensures holds { (intersperse_separator result ≡ separator)
            × DrawsFirst Self.into_iter_gives Self.IntoIter.next_gives Self.IntoIter.can_next
            Self.IntoIter.remaining self (intersperse_first result) (intersperse_rest result) }
        ensures gives { EachReading (⟦<Intersperse<Self::IntoIter> as ItemSource>⟧.reads) result
            (IsInterspersed (⟦<Self as ItemSource>⟧.reads) (TriesClone Self.Item.is_clone
            Self.Item.is_infallible) self separator) }
        ensures lists { EachList (⟦<Self as ItemSource>⟧.lists itself) self (λ xs.
            (Self.Item.is_infallible separator
            → ((y : Self.Item) → Self.Item.is_clone separator y → y ≡ separator)
            → ⟦<Intersperse<Self::IntoIter> as ItemSource>⟧.yields_items result
            (map Ok (interspersed separator xs)))
            × JoinsLists separator xs × OnlyItsValues AllocError separator xs) }
        ensures runs { Becomes Self.into_iter_gives self (BeginsRuns Self.IntoIter.next_gives
            (JoinsLists separator) (intersperse_first result) (intersperse_rest result)) }
    {
        let (first, rest) = self.next();
        Intersperse {
            first,
            rest,
            separator,
        }
    }

    /// Returns a source of what `f` returns for each item.
    ///
    /// ```
    /// let items = nev![alloc; 4, 6, 8]?.into_nonempty_iter().map(|x: u32| x.wrapping_add(1));
    /// let items: NEVec<u32> = items.collect(alloc)?; // [5, 7, 9]
    /// ```
    final fn map<U, F: FnMut(Self::Item) -> U>(self, f: F) -> Map<Self, F>
    where
        Self: Sized,
        ensures holds { (map_source result ≡ self) × (map_callee result ≡ f) }
        ensures gives { EachReading (⟦<Map<Self, F> as ItemSource>⟧.reads) result
            (IsMapped (⟦<Self as ItemSource>⟧.reads) F.FnMut self f) }
        ensures lists { EachView item_view (⟦<Self as ItemSource>⟧.lists) self (λ view xs.
            (h : view.Target → U) → ActsAs F.FnMut f (λ x. h (view.of x))
            → Naming (map h xs) (⟦<Map<Self, F> as ItemSource>⟧.yields_items result)) }
        ensures through { OnFalse item_view.is_itself
            (EachList (⟦<Self as ItemSource>⟧.lists item_view) self
            (MapsThrough F.FnMut f (⟦<Map<Self, F> as IntoIterator>⟧.into_iter_gives)
            (⟦<iter::Map<Self::IntoIter, F> as Iterator>⟧.next_gives) result item_view)) }
    {
        Map { iter: self, f }
    }

    /// Returns the greatest item. If several are equally great, returns the first of them; std's
    /// `max` returns the last.
    ///
    /// ```
    /// let greatest = nev![alloc; 6, 8, 4]?.nonempty_iter().copied().max(); // 8
    /// ```
    final fn max(self) -> Self::Item
    where
        Self: Sized,
        Self::Item: Ord + Drop,
        requires { ⟦<Self as ItemSource>⟧.ends self }
        ensures gives { (xs : List Self.Item) × ⟦<Self as ItemSource>⟧.reads true self xs
            × IsFirstGreatest (less_by Self.Item.cmp) xs result }
        ensures lists { EachList (⟦<Self as ItemSource>⟧.lists itself) self (λ xs.
            IsBestOfList (λ x m. less_by Self.Item.cmp m x) xs result) }
        ensures runs { WholeRunOf Self.into_iter_gives Self.IntoIter.next_gives self (λ p.
            IsBestOfRun p (λ x m. less_by Self.Item.cmp m x) result) }
    {
        best(self, |kept, next| kept < next)
    }

    /// Returns the greatest item by `compare`. If several are equally great, returns the first of
    /// them; std's `max_by` returns the last.
    ///
    /// `compare` is called with the greatest item so far and the next one, in this order. The
    /// result is the greatest item if what `compare` returns is a total preorder; otherwise it is
    /// some item.
    ///
    /// ```
    /// let items = nev![alloc; 3, 1, 4, 1, 5, 9, 2, 6]?.into_nonempty_iter().enumerate();
    /// let greatest = items.max_by(|x, y| (x.1 / 2).cmp(&(y.1 / 2))); // (5, 9)
    /// ```
    final fn max_by<F: Fn(&Self::Item, &Self::Item) -> Ordering>(self, compare: F) -> Self::Item
    where
        Self: Sized,
        Self::Item: Drop,
        requires ends { ⟦<Self as ItemSource>⟧.ends self }
        requires callable { (it : Self.IntoIter) → Self.into_iter_gives self it
            → CallableOnTwo Self.IntoIter.next_gives F.Fn it compare }
        ensures gives { (xs : List Self.Item) × ⟦<Self as ItemSource>⟧.reads true self xs
            × PicksGreatest F.Fn compare itself xs result }
        ensures lists { EachView item_view (⟦<Self as ItemSource>⟧.lists) self (λ view xs.
            PicksGreatest F.Fn compare view xs result) }
    {
        best(
            self,
            |kept, next|
                requires { F.pre compare kept next }
            { compare(kept, next).is_lt() },
        )
    }

    /// Returns the item with the greatest key. If several keys are equally great, returns the first
    /// such item; std's `max_by_key` returns the last. `key` is called once for each item.
    ///
    /// ```
    /// let items = nev![alloc; 4, 9, 2]?.into_nonempty_iter();
    /// let greatest = items.max_by_key(|x| *x / 2); // 9
    /// ```
    final fn max_by_key<B: Ord + Drop, F: FnMut(&Self::Item) -> B>(self, key: F) -> Self::Item
    where
        Self: Sized,
        Self::Item: Drop,
        requires ends { ⟦<Self as ItemSource>⟧.ends self }
        requires callable { (it : Self.IntoIter) → Self.into_iter_gives self it
            → CallableOnAllAt Self.IntoIter.next_gives F.FnMut it key }
        ensures gives { PicksGreatestKey (⟦<Self as ItemSource>⟧.reads) F.FnMut B.cmp
            self key result }
        ensures lists { EachView item_view (⟦<Self as ItemSource>⟧.lists) self (λ view xs.
            HasBestKey F.FnMut key view result (λ j k. less_by B.cmp k j) xs) }
        ensures runs { WholeRunOf Self.into_iter_gives Self.IntoIter.next_gives self (λ p.
            AnyItem p (λ x. x ≡ result)
            × NoKeyBeats p F.FnMut key (λ j k. less_by B.cmp k j) result) }
    {
        best_by_key(self, key, |kept, next| kept < next)
    }

    /// Returns the least item. If several are equally small, returns the first of them.
    ///
    /// ```
    /// let least = nev![alloc; 6, 8, 4]?.nonempty_iter().copied().min(); // 4
    /// ```
    final fn min(self) -> Self::Item
    where
        Self: Sized,
        Self::Item: Ord + Drop,
        requires { ⟦<Self as ItemSource>⟧.ends self }
        ensures gives { (xs : List Self.Item) × ⟦<Self as ItemSource>⟧.reads true self xs
            × IsFirstLeast (less_by Self.Item.cmp) xs result }
        ensures lists { EachList (⟦<Self as ItemSource>⟧.lists itself) self (λ xs.
            IsBestOfList (less_by Self.Item.cmp) xs result) }
        ensures runs { WholeRunOf Self.into_iter_gives Self.IntoIter.next_gives self (λ p.
            IsBestOfRun p (less_by Self.Item.cmp) result) }
    {
        best(self, |kept, next| next < kept)
    }

    /// Returns the least item by `compare`. If several are equally small, returns the first of
    /// them.
    ///
    /// `compare` is called with the least item so far and the next one, in this order. The result
    /// is the least item if what `compare` returns is a total preorder; otherwise it is some item.
    ///
    /// ```
    /// let items = nev![alloc; 3, 1, 4, 1, 5, 9, 2, 6]?.into_nonempty_iter().enumerate();
    /// let least = items.min_by(|x, y| (x.1 / 2).cmp(&(y.1 / 2))); // (1, 1)
    /// ```
    final fn min_by<F: Fn(&Self::Item, &Self::Item) -> Ordering>(self, compare: F) -> Self::Item
    where
        Self: Sized,
        Self::Item: Drop,
        requires ends { ⟦<Self as ItemSource>⟧.ends self }
        requires callable { (it : Self.IntoIter) → Self.into_iter_gives self it
            → CallableOnTwo Self.IntoIter.next_gives F.Fn it compare }
        ensures gives { (xs : List Self.Item) × ⟦<Self as ItemSource>⟧.reads true self xs
            × PicksLeast F.Fn compare itself xs result }
        ensures lists { EachView item_view (⟦<Self as ItemSource>⟧.lists) self (λ view xs.
            PicksLeast F.Fn compare view xs result) }
    {
        best(
            self,
            |kept, next|
                requires { F.pre compare kept next }
            { compare(kept, next).is_gt() },
        )
    }

    /// Returns the item with the least key. If several keys are equally small, returns the first
    /// such item. `key` is called once for each item.
    ///
    /// ```
    /// let items = nev![alloc; 4, 9, 2]?.into_nonempty_iter();
    /// let least = items.min_by_key(|x| *x / 2); // 2
    /// ```
    final fn min_by_key<B: Ord + Drop, F: FnMut(&Self::Item) -> B>(self, key: F) -> Self::Item
    where
        Self: Sized,
        Self::Item: Drop,
        requires ends { ⟦<Self as ItemSource>⟧.ends self }
        requires callable { (it : Self.IntoIter) → Self.into_iter_gives self it
            → CallableOnAllAt Self.IntoIter.next_gives F.FnMut it key }
        ensures gives { PicksLeastKey (⟦<Self as ItemSource>⟧.reads) F.FnMut B.cmp
            self key result }
        ensures lists { EachView item_view (⟦<Self as ItemSource>⟧.lists) self (λ view xs.
            HasBestKey F.FnMut key view result (less_by B.cmp) xs) }
        ensures runs { WholeRunOf Self.into_iter_gives Self.IntoIter.next_gives self (λ p.
            AnyItem p (λ x. x ≡ result)
            × NoKeyBeats p F.FnMut key (less_by B.cmp) result) }
    {
        best_by_key(self, key, |kept, next| next < kept)
    }

    /// Returns the items in ascending order of their keys. Items with equal keys keep their order.
    ///
    /// `f` must be callable with any value of the items' type. The items are in order if the key
    /// depends only on the item; otherwise they are some permutation. Returns `AllocError` if the
    /// allocation for the items or for sorting them fails; the items are then dropped.
    ///
    /// ```
    /// let items = nev![alloc; 3, 1, 4, 1, 5, 9, 2, 6]?.into_nonempty_iter().enumerate();
    /// let sorted = items.sorted_by_key(alloc, |x| x.1 / 2)?;
    /// // (1, 1), (3, 1), (0, 3), (6, 2), (2, 4), (4, 5), (7, 6) and (5, 9)
    /// ```
    final fn sorted_by_key<K: Ord + Drop, F: FnMut(&Self::Item) -> K>(
        self,
        alloc: Global,
        f: F,
    ) -> Result<vector::IntoIter<Self::Item>, AllocError>
    where
        Self: Sized,
        Self::Item: Drop,
        requires ends { ⟦<Self as ItemSource>⟧.ends self }
        requires callable { F.IsAlwaysCallable f }
        ensures gives { IfOk result (λ ys. (xs : List Self.Item)
            × ⟦<Self as ItemSource>⟧.reads true self xs × IsPermutation xs ys
            × IsSortedByKeyClosure F.FnMut K.cmp f ys
            × IsStableByKeyClosure F.FnMut K.cmp f xs ys) }
        ensures lists { IfOk result (λ ys. ListsItemsByValue Global ys ys
            × AscendsByKey F.FnMut f K.cmp itself ys
            × OnFalse item_view.is_itself (AscendsByKey F.FnMut f K.cmp item_view ys
            × MapsTargets item_view ys)
            × EachView item_view (⟦<Self as ItemSource>⟧.lists) self (λ view xs.
            PermutesByKey F.FnMut f K.eq view xs ys)) }
    {
        let mut items: NEVec<Self::Item> = self.collect(alloc)?;
        items.sort_by_key(f)?;
        Ok(vector::IntoIter::from(items))
    }

    /// Returns the item at index `n`, from 0, or `None` if there is no such item.
    ///
    /// ```
    /// let items = nev![alloc; 4, 6, 8]?;
    /// let third = items.nonempty_iter().copied().nth(2); // Some(8)
    /// let fourth = items.nonempty_iter().copied().nth(3); // None
    /// ```
    final fn nth(self, n: usize) -> Option<Self::Item>
    where
        Self: Sized,
        Self::Item: Drop,
        requires { ⟦<Self as ItemSource>⟧.starts self }
        ensures gives { Becomes Self.into_iter_gives self (λ it. (t : Self.IntoIter)
            × SkipsThenYields Self.IntoIter.next_gives it n result t) }
        ensures lists { EachView item_view (⟦<Self as ItemSource>⟧.lists) self (λ view xs.
            option_map view.of result ≡ slice_get xs n) }
        ensures runs { SomeRunOf Self.into_iter_gives Self.IntoIter.next_gives self (λ p.
            MatchOption result (IsTrue p.whole × (p.len ≤ n))
            (λ x. (p.len ≡ n + 1) × (p.at n ≡ Some x))) }
    {
        self.into_iter().nth(n)
    }

    /// Returns a source of what `f` returns for each item. `f` is called once for each item, in
    /// order, with a mutable reference to a state: `init` at first, and then as the call before
    /// left it.
    ///
    /// It does not allocate. The Rust crate has no such method. It is like std's `scan`, but `f`
    /// always returns an item, so no item is lost and the iterator ends only when its source does.
    /// In std `f` returns an `Option`, and `None` ends the iterator.
    ///
    /// ```
    /// let add = |total: &mut u32, x: u32| { *total = total.wrapping_add(x); *total };
    /// let sums = nev![alloc; 1, 2, 3]?.into_nonempty_iter().scan(0, add); // 1, 3 and 6
    /// ```
    final fn scan<St: Drop, B, F: FnMut(&mut St, Self::Item) -> B>(
        self,
        init: St,
        f: F,
    ) -> Scan<Self, St, F>
    where
        Self: Sized,
        ensures holds { (scan_source result ≡ self) × (scan_init result ≡ init)
            × (scan_callee result ≡ f) }
        ensures ends { ⟦<Self as ItemSource>⟧.ends self
            → ((it : Self.IntoIter) → Self.into_iter_gives self it
            → CallableInScan Self.IntoIter.next_gives F.FnMut it f init)
            → ⟦<Scan<Self, St, F> as ItemSource>⟧.ends result }
        ensures gives { EachReading (⟦<Scan<Self, St, F> as ItemSource>⟧.reads) result
            (IsScanned (⟦<Self as ItemSource>⟧.reads) F.FnMut self init f) }
        ensures lists { EachView item_view (⟦<Self as ItemSource>⟧.lists) self (λ view xs.
            (step : St → view.Target → St) (out : St → view.Target → B)
            → ActsAsWithState F.FnMut f (λ s x. step s (view.of x))
            (λ s x. out s (view.of x))
            → Naming (list_scan step out init xs)
            (⟦<Scan<Self, St, F> as ItemSource>⟧.yields_items result)) }
    {
        Scan {
            iter: self,
            init,
            f,
        }
    }

    /// Returns an iterator over all items but the first `n`. There may be none, so it is std's
    /// iterator.
    ///
    /// ```
    /// let items = nev![alloc; 3, 1, 4, 1, 5, 9, 2, 6]?.into_nonempty_iter();
    /// let rest: Vec<u32> = items.skip(2).collect(alloc)?; // [4, 1, 5, 9, 2, 6]
    /// ```
    final fn skip(self, n: usize) -> iter::Skip<Self::IntoIter>
    where
        Self: Sized,
        Self::Item: Drop,
        ensures holds { Self.into_iter_gives self (skip_source result) × (skip_count result ≡ n) }
        ensures gives { EachReading (⟦<iter::Skip<Self::IntoIter> as ItemSource>⟧.reads) result
            (IsSkipped (⟦<Self as ItemSource>⟧.reads) n self) }
        ensures lists { EachView item_view (⟦<Self as ItemSource>⟧.lists) self (λ view xs.
            StdYields (skip_steps Self.IntoIter.next_gives) view (drop n xs) result) }
    {
        self.into_iter().skip(n)
    }

    /// Returns an iterator over the items from the first one for which `pred` returns `false`;
    /// `pred` is not called after that. There may be none, so it is std's iterator.
    ///
    /// ```
    /// let items = nev![alloc; 2, 4, 7, 8, 9]?.into_nonempty_iter();
    /// let rest: Vec<u32> = items.skip_while(|x| *x % 2 == 0).collect(alloc)?; // [7, 8, 9]
    /// ```
    final fn skip_while<P: FnMut(&Self::Item) -> bool>(
        self,
        pred: P,
    ) -> iter::SkipWhile<Self::IntoIter, P>
    where
        Self: Sized,
        Self::Item: Drop,
        ensures holds { Self.into_iter_gives self (skip_while_source result)
            × (skip_while_callee result ≡ pred) × (skip_while_done_skipping result ≡ false) }
        ensures gives { EachReading (⟦<iter::SkipWhile<Self::IntoIter, P> as ItemSource>⟧.reads)
            result (IsSkippedWhile (⟦<Self as ItemSource>⟧.reads) P.FnMut self pred) }
        ensures lists { EachKept item_view (⟦<Self as ItemSource>⟧.lists) self
            (skip_while_steps Self.IntoIter.next_gives P.FnMut) result (λ view xs gives.
            (test : view.Target → Bool) → ActsAsAt P.FnMut pred (λ x. test (view.of x))
            → Naming (prefix_len test xs) (λ n. gives (drop n xs))) }
    {
        self.into_iter().skip_while(pred)
    }

    /// Returns the sum of the items. No partial sum may leave the range of `S`.
    ///
    /// ```
    /// let sum: u32 = nev![alloc; 4, 6, 8]?.into_nonempty_iter().sum(); // 18
    /// ```
    final fn sum<S: Sum<Self::Item>>(self) -> S
    where
        Self: Sized,
        requires ends { ⟦<Self as ItemSource>⟧.ends self }
        requires fits { ⟦<Self as ItemSource>⟧.each_prefix S.can_sum self }
        ensures gives { (xs : List Self.Item)
            × (S.is_complete result → ⟦<Self as ItemSource>⟧.reads true self xs)
            × S.sum_gives xs result }
        ensures lists { EachList (⟦<Self as ItemSource>⟧.lists itself) self (λ xs.
            S.is_complete result → S.sum_gives xs result) }
        ensures runs { Becomes Self.into_iter_gives self (λ it. S.is_complete result
            → WholeRun Self.IntoIter.next_gives it (λ p. S.sum_gives p.items result)) }
    {
        self.into_iter().sum()
    }

    /// Returns a source of the first `n` items, or of all items if there are fewer.
    ///
    /// ```
    /// let n = NonZeroUsize::new(2).unwrap();
    /// let items = nev![alloc; 4, 6, 8]?.into_nonempty_iter().take(n); // 4 and 6
    /// ```
    final fn take(self, n: NonZeroUsize) -> Take<Self>
    where
        Self: Sized,
        ensures holds { (take_source result ≡ self) × (take_count result ≡ non_zero_usize_get n) }
        ensures gives { EachReading (⟦<Take<Self> as ItemSource>⟧.reads) result
            (IsTaken (⟦<Self as ItemSource>⟧.reads) (non_zero_usize_get n) self) }
        ensures lists { EachView item_view (⟦<Self as ItemSource>⟧.lists) self (λ view xs.
            ⟦<Take<Self> as ItemSource>⟧.yields_through view result
            (take (non_zero_usize_get n) xs)) }
    {
        Take { iter: self, n }
    }

    /// Returns an iterator over the items before the first one for which `pred` returns `false`;
    /// that one is taken too. There may be none, so it is std's iterator.
    ///
    /// ```
    /// let items = nev![alloc; 2, 4, 7, 8, 9]?.into_nonempty_iter();
    /// let first: Vec<u32> = items.take_while(|x| *x % 2 == 0).collect(alloc)?; // [2, 4]
    /// ```
    final fn take_while<P: FnMut(&Self::Item) -> bool>(
        self,
        pred: P,
    ) -> iter::TakeWhile<Self::IntoIter, P>
    where
        Self: Sized,
        Self::Item: Drop,
        ensures holds { Self.into_iter_gives self (take_while_source result)
            × (take_while_callee result ≡ pred) × (take_while_done result ≡ false) }
        ensures gives { EachReading (⟦<iter::TakeWhile<Self::IntoIter, P> as ItemSource>⟧.reads)
            result (IsTakenWhile (⟦<Self as ItemSource>⟧.reads) P.FnMut self pred) }
        ensures lists { EachKept item_view (⟦<Self as ItemSource>⟧.lists) self
            (take_while_steps Self.IntoIter.next_gives P.FnMut) result (λ view xs gives.
            (test : view.Target → Bool) → ActsAsAt P.FnMut pred (λ x. test (view.of x))
            → Naming (list_take_while test xs) gives) }
    {
        self.into_iter().take_while(pred)
    }

    /// Returns the product of the items. No partial product may leave the range of `P`.
    ///
    /// ```
    /// let items = nev![alloc; 4, 6]?.into_nonempty_iter().map(Wrapping);
    /// let product: Wrapping<u32> = items.product(); // Wrapping(24)
    /// ```
    final fn product<P: Product<Self::Item>>(self) -> P
    where
        Self: Sized,
        requires ends { ⟦<Self as ItemSource>⟧.ends self }
        requires fits { ⟦<Self as ItemSource>⟧.each_prefix P.can_product self }
        ensures gives { (xs : List Self.Item)
            × (P.is_complete result → ⟦<Self as ItemSource>⟧.reads true self xs)
            × P.product_gives xs result }
        ensures lists { EachList (⟦<Self as ItemSource>⟧.lists itself) self (λ xs.
            P.is_complete result → P.product_gives xs result) }
        ensures runs { Becomes Self.into_iter_gives self (λ it. P.is_complete result
            → WholeRun Self.IntoIter.next_gives it (λ p. P.product_gives p.items result)) }
    {
        self.into_iter().product()
    }

    /// Returns a source of pairs of an item of `self` and an item of `other`, as many as the
    /// shorter one has.
    ///
    /// It is not specified how many items of the longer one are taken. In the Rust crate a [`Zip`]
    /// holds the iterators. Here it holds the two sources, and becomes std's iterator.
    ///
    /// ```
    /// let (items, others) = (nev![alloc; 7, 8, 9]?, nev![alloc; 1, 2]?);
    /// let items = items.nonempty_iter().copied();
    /// let pairs = items.zip(others.nonempty_iter().copied()); // (7, 1) and (8, 2)
    /// ```
    final fn zip<U: IntoNonEmptyIterator>(self, other: U) -> Zip<Self, U::IntoNEIter>
    where
        Self: Sized,
        Self::Item: Drop,
        ensures holds { (zip_first result ≡ self)
            × U.into_nonempty_iter_gives other (zip_second result) }
        ensures gives { EachReading (⟦<Zip<Self, U::IntoNEIter> as ItemSource>⟧.reads) result
            (IsZipped (⟦<Self as ItemSource>⟧.reads) (⟦<U as ItemSource>⟧.reads) self other) }
        ensures lists { ZipsLists item_view U.IntoNEIter.item_view
            (⟦<Self as ItemSource>⟧.lists) (⟦<U as ItemSource>⟧.lists)
            (BecomesList U.into_nonempty_iter_gives U.IntoNEIter.into_iter_gives
            U.IntoNEIter.IntoIter.next_gives)
            (⟦<Zip<Self, U::IntoNEIter> as ItemSource>⟧.yields_items)
            (⟦<Zip<Self, U::IntoNEIter> as ItemSource>⟧.yields_through) self other result }
    {
        Zip {
            a: self,
            b: other.into_nonempty_iter(),
        }
    }

    /// Returns two collections: one of the first parts of the items, one of the second parts. Each
    /// begins with one item and then grows one item at a time: see [`Singleton`].
    ///
    /// Returns `AllocError` if an allocation fails; the items taken are then dropped. The Rust
    /// crate requires `Extend` as well as [`Singleton`].
    ///
    /// ```
    /// let pairs = nev![alloc; 3, 1, 4, 1, 5, 9, 2, 6]?.into_nonempty_iter().map(|x| (x / 2, x));
    /// let (halves, items): (NEVec<u32>, NEVec<u32>) = pairs.unzip(alloc)?;
    /// // [1, 0, 2, 0, 2, 4, 1, 3] and [3, 1, 4, 1, 5, 9, 2, 6]
    /// ```
    final fn unzip<
        A: Drop,
        B: Drop,
        FromA: Singleton<Item = A> + Drop,
        FromB: Singleton<Item = B> + Drop,
    >(self, alloc: Global) -> Result<(FromA, FromB), AllocError>
    where
        Self: Sized + IntoIterator<Item = (A, B)>,
        requires { ⟦<Self as ItemSource>⟧.ends self }
        ensures gives { IfOk result (λ r. (ps : List (A × B))
            × ⟦<Self as ItemSource>⟧.reads true self ps × FromA.collected (map (λ p. p.0) ps) r.0
            × FromB.collected (map (λ p. p.1) ps) r.1) }
        ensures lists { IfOk result (λ r. EachList (⟦<Self as ItemSource>⟧.lists itself) self
            (λ ps.
            FromA.collected (map (λ p. p.0) ps) r.0
            × FromB.collected (map (λ p. p.1) ps) r.1)) }
        ensures runs { IfOk result (λ r.
            WholeRunOf Self.into_iter_gives Self.IntoIter.next_gives self (λ p.
            FromA.collected (map (λ x. x.0) p.items) r.0
            × FromB.collected (map (λ x. x.1) p.items) r.1
            × IndexesMappedItems p (λ x. x.0) × IndexesMappedItems p (λ x. x.1))) }
    {
        let ((a, b), rest) = self.next();
        let mut firsts = FromA::singleton(alloc, a)?;
        let mut seconds = FromB::singleton(alloc, b)?;
        for (a, b) in rest {
            firsts.extend_one(a)?;
            seconds.extend_one(b)?;
        }
        Ok((firsts, seconds))
    }

    /// Returns all values if each item is `Ok`, and otherwise all errors, in order: so a validation
    /// reports every fault, where collecting into a `Result` keeps the first.
    ///
    /// Each item is drawn once. The values are dropped when the first error comes. The outer `Err`
    /// is `AllocError`, if an allocation fails; the items taken are then dropped. The Rust crate
    /// lacks this method.
    ///
    /// ```
    /// let items = nev![alloc; 3, 1, 4, 1]?.into_nonempty_iter();
    /// let checked = items.map(|x| if x == 1 { Err(x) } else { Ok(x) });
    /// let ones = checked.all_or_errors(alloc)?; // Err([1, 1])
    /// ```
    final fn all_or_errors<T: Drop, E: Drop>(
        self,
        alloc: Global,
    ) -> Result<Result<NEVec<T>, NEVec<E>>, AllocError>
    where
        Self: Sized + IntoIterator<Item = Result<T, E>>,
        requires { ⟦<Self as ItemSource>⟧.ends self }
        ensures gives { IfOk result (λ valid. (rs : List (Result T E))
            × ⟦<Self as ItemSource>⟧.reads true self rs × IsAllOrErrors rs valid) }
        ensures lists { IfOk result (λ valid. EachList (⟦<Self as ItemSource>⟧.lists itself) self
            (λ rs. IsAllOrErrors rs valid)) }
        ensures runs { IfOk result (λ valid.
            WholeRunOf Self.into_iter_gives Self.IntoIter.next_gives self (λ p.
            IsAllOrErrors p.items valid)) }
    {
        let (first, rest) = self.next();
        all_or_errors(alloc, first, rest)
    }

    /// Folds the items into one value: starting from the first item, `f` takes the value so far and
    /// the next item, and returns the new value.
    ///
    /// ```
    /// let digits = nev![alloc; 1u32, 2, 3]?.into_nonempty_iter();
    /// let number = digits.reduce(|n, x| n.wrapping_mul(10).wrapping_add(x)); // 123
    /// ```
    final fn reduce<F: FnMut(Self::Item, Self::Item) -> Self::Item>(self, f: F) -> Self::Item
    where
        Self: Sized,
        requires ends { ⟦<Self as ItemSource>⟧.ends self }
        requires callable { (it : Self.IntoIter) → Self.into_iter_gives self it
            → AfterFirst Self.IntoIter.next_gives it
            (λ x rest. CallableInFold Self.IntoIter.next_gives F.FnMut rest f x) }
        ensures gives { Becomes Self.into_iter_gives self
            (λ it. ReducesItems Self.IntoIter.next_gives F.FnMut it f (Some result)) }
        ensures lists { EachList (⟦<Self as ItemSource>⟧.lists itself) self (λ xs.
            (h : Self.Item → Self.Item → Self.Item) → ActsAsOnTwo F.FnMut f h
            → Some result ≡ list_reduce h xs) }
        ensures runs { WholeRunOf Self.into_iter_gives Self.IntoIter.next_gives self (λ p.
            IsReduceRun p F.FnMut f result) }
    {
        match self.into_iter().reduce(f) {
            Some(x) => x,
            None => unreachable!(),
        }
    }

    ghost not_empty: { IsNonEmpty Self.into_iter_gives Self.IntoIter.next_gives };
}
