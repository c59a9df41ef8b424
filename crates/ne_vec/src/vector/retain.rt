//! The methods of [`NEVec`] that keep what meets a test.
//!
//! They move the items that stay to the front, and then drop the others together; std's drop each
//! after its call. Their loop is written out here because std's need a closure that can be called
//! with any value, while these need only one that can be called with the vector's items.
ghost use Rattle.std.specs.Prelude.{◌≡◌, ◌<◌, ◌≤◌, ◌+◌, ◌↔◌, Bool, [], IsErr, drop, length, map};
ghost use Rattle.std.specs.Prelude.{take};
ghost use Rattle.std.specs.Bool.{OnTrue};
ghost use Rattle.std.specs.List.{filter, swap as list_swap};
ghost use Rattle.std.specs.List.Retain.{IsFiltered, RetainsInTurn};
ghost use Rattle.std.specs.Fn.{CalledAt, CalledAtMut, TakesAt};
ghost use Rattle.std.specs.Iterator.{ActsAsAt};
ghost use Rattle.ne_vec.specs.Kept.{kept_items, ActsAsAtMut};
ghost use Rattle.ne_vec.specs.Searches.{CallableAtItems, CallableAtItemsMut};

use super::NEVec;
use std::mem::{size_of_val, swap};

impl<T: Drop> NEVec<T> {
    /// Keeps the items for which `f` returns `true`, in order, or returns the empty vector as an
    /// error if there is no such item.
    ///
    /// `f` is called once for each item, in order, and must be callable with the vector's items.
    /// The clause `kept` covers an `f` whose result depends only on the item and that changes
    /// nothing; `called` covers any `f`.
    ///
    /// ```
    /// let even = nev![alloc; 4, 5, 6, 7]?.retain(|x| *x % 2 == 0); // Ok([4, 6])
    /// let none = nev![alloc; 1, 3]?.retain(|x| *x % 2 == 0); // Err([])
    /// ```
    pub fn retain<F: FnMut(&T) -> bool>(self, mut f: F) -> Result<Self, Vec<T>>
        requires { CallableAtItems F.FnMut f self }
        ensures none { IsErr result ↔ (kept_items result ≡ []) }
        ensures kept { (keeps : T → Bool) → ActsAsAt F.FnMut f keeps
            → kept_items result ≡ filter keeps self }
        ensures called { IsFiltered (CalledAt F.FnMut) f self (kept_items result) }
    {
        self.retain_mut(
            |x|
                requires { TakesAt F.FnMut f x.old }
                ensures called { CalledAt F.FnMut f.entry x.old result f.exit }
                ensures unchanged { x.new ≡ x.old }
            { f(x) },
        )
    }

    /// Keeps the items for which `f` returns `true`, in order and with the changes that `f` made to
    /// them, or returns the empty vector as an error if there is no such item.
    ///
    /// `f` is called once for each item, in order, and must be callable with the vector's items.
    /// The clause `kept` covers an `f` whose result and new item depend only on the item and that
    /// changes nothing else; `called` covers any `f`.
    ///
    /// ```
    /// let items = nev![alloc; 3, 1, 4, 1, 5, 9, 2, 6]?;
    /// let even_halves = items.retain_mut(|x| {
    ///     *x /= 2;
    ///     *x % 2 == 0
    /// }); // Ok([0, 2, 0, 2, 4])
    /// ```
    pub fn retain_mut<F: FnMut(&mut T) -> bool>(self, f: F) -> Result<Self, Vec<T>>
        requires { CallableAtItemsMut F.FnMut f self }
        ensures none { IsErr result ↔ (kept_items result ≡ []) }
        ensures kept { (keeps : T → Bool) (writes : T → T) → ActsAsAtMut F.FnMut f keeps writes
            → kept_items result ≡ map writes (filter keeps self) }
        ensures called { RetainsInTurn (CalledAtMut F.FnMut) f self (kept_items result) }
    {
        let mut inner = self.inner;
        let kept = move_kept_to_front(inner.as_mut_slice(), f);
        inner.truncate(kept);
        NEVec::try_from_kept(inner)
    }

    // Returns what was kept, as a non-empty vector, or as it is if it is empty.
    fn try_from_kept(inner: Vec<T>) -> Result<Self, Vec<T>>
        ensures none { IsErr result ↔ (kept_items result ≡ []) }
        ensures kept { kept_items result ≡ inner.items }
    {
        if inner.is_empty() {
            Err(inner)
        } else {
            Ok(NEVec { inner })
        }
    }
}

// Moves the items for which `f` returns `true` to the front, in order and with the changes that `f`
// made to them, and returns how many there are.
fn move_kept_to_front<T, F: FnMut(&mut T) -> bool>(items: &mut [T], mut f: F) -> usize
    requires { CallableAtItemsMut F.FnMut f items.old }
    ensures bound { result ≤ length items.old }
    ensures long { length items.new ≡ length items.old }
    ensures called { RetainsInTurn (CalledAtMut F.FnMut) f items.old (take result items.new) }
{
    let mut kept = 0;
    let mut seen = 0;
    // The items before the first that goes are where they stay.
    while kept == seen && seen < items.len() {
        if f(&mut items[seen]) {
            kept += 1;
        }
        seen += 1;
    }
    for i in seen..items.len() {
        let stays = f(&mut items[i]);
        sift(items, kept, i, stays);
        if stays {
            kept += 1;
        }
    }
    kept
}

// Moves the item at `i` to `kept` if it stays, in exchange for the one there. A small item is moved
// in any case: that is quicker than a branch.
fn sift<T>(items: &mut [T], kept: usize, i: usize, stays: bool)
    requires { (kept < i) × (i < length items.old) }
    ensures after { OnTrue stays (items.new ≡ list_swap items.old kept i) }
    ensures front { take kept items.new ≡ take kept items.old }
    ensures past { drop (i + 1) items.new ≡ drop (i + 1) items.old }
    ensures long { length items.new ≡ length items.old }
{
    let is_small = size_of_val(&items[i]) <= size_of_val(&i);
    if is_small || stays {
        exchange(items, kept, i);
    }
}

// Exchanges two items, the first of which stands before the other. The slice's own `swap` compares
// the places first.
fn exchange<T>(items: &mut [T], low: usize, high: usize)
    requires { (low < high) × (high < length items.old) }
    ensures { items.new ≡ list_swap items.old low high }
{
    let (front, back) = items.split_at_mut(high);
    swap(&mut front[low], &mut back[0]);
}
