//! The methods of [`NEVecDeque`] that keep what meets a test, or remove an item that does. Those
//! that keep are those of [`NEVec`], in the same memory: the items are first moved so that they are
//! in one slice.
ghost use Rattle.std.specs.Prelude.{◌≡◌, ◌-◌, ◌<◌, ◌≤◌, ◌↔◌, Bool, [], None, IfSome, IsErr};
ghost use Rattle.std.specs.Prelude.{length, map, slice_get};
ghost use Rattle.std.specs.List.{filter};
ghost use Rattle.std.specs.List.Retain.{IsFiltered, PopsFrontIf, PopsIf, RetainsInTurn};
ghost use Rattle.std.specs.Fn.{CalledAt, CalledAtMut, FnOnceTakesAtMut};
ghost use Rattle.std.specs.Iterator.{ActsAsAt};
ghost use Rattle.ne_vec.specs.Kept.{ActsAsAtMut};
ghost use Rattle.ne_vec.specs.Kept as vector;
ghost use Rattle.ne_vec.specs.Searches.{CallableAtItems, CallableAtItemsMut};
ghost use Rattle.ne_deque.specs.Kept.{kept_items};

use super::NEVecDeque;
use ne_vec::NEVec;
use std::collections::VecDeque;

impl<T: Drop> NEVecDeque<T> {
    /// Keeps the items for which `f` returns `true`, in order, or returns the empty queue as an
    /// error if there is no such item.
    ///
    /// `f` is called once for each item, in order, and must be callable with the queue's items. The
    /// clause `kept` covers an `f` whose result depends only on the item and that changes nothing;
    /// `called` covers any `f`.
    ///
    /// ```
    /// let even = nevd![alloc; 4, 5, 6, 7]?.retain(|x| *x % 2 == 0); // Ok([4, 6])
    /// let none = nevd![alloc; 1, 3]?.retain(|x| *x % 2 == 0); // Err([])
    /// ```
    pub fn retain<F: FnMut(&T) -> bool>(self, f: F) -> Result<Self, VecDeque<T>>
        requires { CallableAtItems F.FnMut f self }
        ensures none { IsErr result ↔ (kept_items result ≡ []) }
        ensures kept { (keeps : T → Bool) → ActsAsAt F.FnMut f keeps
            → kept_items result ≡ filter keeps self }
        ensures called { IsFiltered (CalledAt F.FnMut) f self (kept_items result) }
    {
        queue_of_kept(NEVec::from(self).retain(f))
    }

    /// Keeps the items for which `f` returns `true`, in order and with the changes that `f` made to
    /// them, or returns the empty queue as an error if there is no such item.
    ///
    /// `f` is called once for each item, in order, and must be callable with the queue's items. The
    /// clause `kept` covers an `f` whose result and changes depend only on the item; `called`
    /// covers any `f`.
    ///
    /// ```
    /// let items = nevd![alloc; 3, 1, 4, 1, 5, 9, 2, 6]?;
    /// let even_halves = items.retain_mut(|x| {
    ///     *x /= 2;
    ///     *x % 2 == 0
    /// }); // Ok([0, 2, 0, 2, 4])
    /// ```
    pub fn retain_mut<F: FnMut(&mut T) -> bool>(self, f: F) -> Result<Self, VecDeque<T>>
        requires { CallableAtItemsMut F.FnMut f self }
        ensures none { IsErr result ↔ (kept_items result ≡ []) }
        ensures kept { (keeps : T → Bool) (writes : T → T) → ActsAsAtMut F.FnMut f keeps writes
            → kept_items result ≡ map writes (filter keeps self) }
        ensures called { RetainsInTurn (CalledAtMut F.FnMut) f self (kept_items result) }
    {
        queue_of_kept(NEVec::from(self).retain_mut(f))
    }
}

impl<T> NEVecDeque<T> {
    /// Removes the first item and returns it if `predicate` returns `true` for it. Returns `None`
    /// if not, or if it is the only item, which then stays, and `predicate` is not called.
    ///
    /// `predicate` must be callable with the first item, unless that is the only one. The item has
    /// what `predicate` wrote, whether it stays or not.
    ///
    /// ```
    /// let mut queue = nevd![alloc; 4, 6, 7]?;
    /// let even = queue.pop_front_if(|x| *x % 2 == 0); // Some(4)
    /// let odd = queue.pop_front_if(|x| *x % 2 == 1); // None, and queue is [6, 7]
    /// ```
    pub fn pop_front_if<P: FnOnce(&mut T) -> bool>(&mut self, predicate: P) -> Option<T>
        requires { 1 < length self.old
            → IfSome (slice_get self.old 0) (FnOnceTakesAtMut P.FnOnce predicate) }
        ensures last { length self.old ≤ 1 → (result ≡ None) × (self.new ≡ self.old) }
        ensures popped { 1 < length self.old
            → PopsFrontIf P.FnOnce self.old self.new predicate result }
    {
        if self.inner.len() > 1 && predicate(&mut self.inner[0]) {
            self.inner.pop_front()
        } else {
            None
        }
    }

    /// Removes the last item and returns it if `predicate` returns `true` for it. Returns `None`
    /// if not, or if it is the only item, which then stays, and `predicate` is not called.
    ///
    /// `predicate` must be callable with the last item, unless that is the only one. The item has
    /// what `predicate` wrote, whether it stays or not.
    ///
    /// ```
    /// let mut queue = nevd![alloc; 5, 4, 6]?;
    /// let even = queue.pop_back_if(|x| *x % 2 == 0); // Some(6)
    /// let odd = queue.pop_back_if(|x| *x % 2 == 1); // None, and queue is [5, 4]
    /// ```
    pub fn pop_back_if<P: FnOnce(&mut T) -> bool>(&mut self, predicate: P) -> Option<T>
        requires { 1 < length self.old → IfSome (slice_get self.old (length self.old - 1))
            (FnOnceTakesAtMut P.FnOnce predicate) }
        ensures last { length self.old ≤ 1 → (result ≡ None) × (self.new ≡ self.old) }
        ensures popped { 1 < length self.old
            → PopsIf P.FnOnce self.old self.new predicate result }
    {
        let len = self.inner.len();
        if len > 1 && predicate(&mut self.inner[len - 1]) {
            self.inner.pop_back()
        } else {
            None
        }
    }
}

// Returns what was kept in a vector as a queue.
fn queue_of_kept<T>(kept: Result<NEVec<T>, Vec<T>>) -> Result<NEVecDeque<T>, VecDeque<T>>
    ensures none { IsErr result ↔ IsErr kept }
    ensures same { kept_items result ≡ vector.kept_items kept }
{
    match kept {
        Ok(items) => Ok(NEVecDeque::from(items)),
        Err(none) => Err(VecDeque::from_vec(none)),
    }
}
