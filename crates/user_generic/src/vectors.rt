//! Vectors in generic code, behind references, and with closures that not every value may be passed
//! to. There is no proof file.
ghost use Rattle.std.specs.Prelude.{◌≡◌, ◌+◌, ◌-◌, ◌/◌, ◌<◌, ◌≤◌, [], ◌∷◌, length};
ghost use Rattle.std.specs.Prelude.{slice_get, All, IfOk, IfSome};
ghost use Rattle.std.specs.Prelude.{filter, ltb};
ghost use Rattle.std.specs.Prelude.{Some};
ghost use Rattle.std.specs.Cmp.Lexicographic.{slice_cmp};
ghost use Rattle.std.specs.Iterator.{ExtendsWithItems, HoldsAlong, IsFinite};
ghost use Rattle.std.specs.Fn.{CalledAt, CalledAtMut};
ghost use Rattle.std.specs.List.Retain.{IsFiltered, RetainsInTurn};
ghost use Rattle.std.specs.List.Sorted.{IsSearchInRange};
ghost use Rattle.std.specs.NonZero.{non_zero_usize_get};
ghost use Rattle.ne_vec.specs.Chunks.{chunks};
ghost use Rattle.ne_vec.specs.Kept.{KeepsFirsts};

use ne_iter::Singleton;
use ne_vec::NEVec;
use ne_vec::laws::{
    always_callable_is_callable_at_items, always_callable_test_is_callable_at_items,
    always_callable_test_is_callable_at_items_mut,
};
use std::alloc::{AllocError, Global};
use std::cmp::Ordering;
use std::convert::AsSlice;
use std::num::NonZeroUsize;

/// Returns the items at the first and at the last index, which are there.
pub fn ends<T: Copy>(v: &NEVec<T>) -> (T, T)
    ensures first { slice_get v.now 0 ≡ Some result.0 }
    ensures last { slice_get v.now (length v.now - 1) ≡ Some result.1 }
{
    (v[0], v[v.len().get() - 1])
}

/// Returns what each item gets of the total.
pub fn share(v: &NEVec<u32>, total: usize) -> usize
    ensures { result ≡ total / length v.now }
{
    total / v.len().get()
}

/// Returns a collection of any kind that holds three items.
pub fn three<C: Singleton + Drop>(
    alloc: Global,
    a: C::Item,
    b: C::Item,
    c: C::Item,
) -> Result<C, AllocError>
where
    C::Item: Drop,
    ensures { IfOk result (C.collected (a ∷ b ∷ c ∷ [])) }
{
    let mut all = C::singleton(alloc, a)?;
    all.extend_one(b)?;
    all.extend_one(c)?;
    Ok(all)
}

/// Clones a value of any type.
pub fn twice<T: Clone>(x: T) -> Result<(T, T), AllocError>
    ensures { IfOk result (λ pair. (pair.0 ≡ x) × T.is_clone x pair.1) }
{
    let again = x.clone()?;
    Ok((x, again))
}

/// Clones a vector of vectors.
pub fn clone_nested(v: &NEVec<NEVec<u32>>) -> Result<NEVec<NEVec<u32>>, AllocError>
    ensures { IfOk result (λ w. w ≡ v.now) }
{
    v.clone()
}

/// Vectors in a struct that derives `Clone`.
#[derive(Clone, Drop)]
pub struct Pages<T> {
    first: NEVec<T>,
    others: Vec<NEVec<T>>,
}

/// Adds the items of any iterable to a collection of any kind.
pub fn take_all<T, C: Extend<T>, I: IntoIterator<Item = T>>(
    to: &mut C,
    items: I,
) -> Result<(), AllocError>
    requires { (it : I.IntoIter) → I.into_iter_gives items it
        → I.IntoIter.can_next it × IsFinite (I.IntoIter.remaining it)
        × HoldsAlong I.IntoIter.next_gives it (C.can_extend to.old) }
    ensures { ExtendsWithItems I.into_iter_gives I.IntoIter.next_gives C.extend_gives
        items to.old to.new result }
{
    to.extend(items)
}

/// Drops items that are equal to the last one kept, and may differ from it: the first stays.
pub fn drop_equal<T: PartialEq + Drop>(v: &mut NEVec<T>)
    ensures { KeepsFirsts T.eq v.old v.new }
{
    v.dedup();
}

/// Returns how many chunks there are at least.
pub fn least_chunks(v: &NEVec<u32>, n: NonZeroUsize) -> usize
    ensures { result ≤ length (chunks (non_zero_usize_get n) v.now) }
{
    v.nonempty_chunks(n).into_iter().size_hint().0
}

/// Returns how many items go into a number more than three times, if these come first.
pub fn large_quotients(v: &NEVec<u32>, n: u32) -> usize
    requires { All (λ x. 0 < x) v.now }
    ensures { result ≤ length v.now }
{
    v.partition_point(|x| n / *x > 3)
}

/// Searches a quotient.
pub fn place_of_quotient(v: &NEVec<u32>, wanted: u32) -> Result<usize, usize>
    requires { All (λ x. 0 < x) v.now }
    ensures { IsSearchInRange result (length v.now) }
{
    v.binary_search_by_key(&wanted, |x| 1000 / *x)
}

/// Searches a quotient, and counts the calls of the closure.
pub fn place_and_calls(v: &NEVec<u32>, wanted: u32) -> (Result<usize, usize>, u32)
    requires { All (λ x. 0 < x) v.now }
    ensures { IsSearchInRange result.0 (length v.now) }
{
    let mut calls = 0u32;
    let place = v.binary_search_by(|x| {
        calls = calls.wrapping_add(1);
        (1000 / *x).cmp(&wanted)
    });
    (place, calls)
}

/// Searches by any closure that can be called with every value.
pub fn place<T, F: FnMut(&T) -> Ordering>(v: &NEVec<T>, f: F) -> Result<usize, usize>
    requires { F.IsAlwaysCallable f }
    ensures { IsSearchInRange result (length v.now) }
{
    always_callable_is_callable_at_items::<T, Ordering, F>();
    v.binary_search_by(f)
}

/// Counts the items that meet any test that can be called with every value, if they come first.
pub fn first_ones<T, F: FnMut(&T) -> bool>(v: &NEVec<T>, f: F) -> usize
    requires { F.IsAlwaysCallable f }
    ensures { result ≤ length v.now }
{
    always_callable_test_is_callable_at_items::<T, F>();
    v.partition_point(f)
}

/// Keeps the items that meet any test that can be called with every value.
pub fn kept<T: Drop, F: FnMut(&T) -> bool>(v: NEVec<T>, f: F) -> Option<NEVec<T>>
    requires { F.IsAlwaysCallable f }
    ensures { IfSome result (λ kept. IsFiltered (CalledAt F.FnMut) f v kept) }
{
    always_callable_test_is_callable_at_items::<T, F>();
    v.retain(f).ok()
}

/// The same with a test that may change the items.
pub fn kept_and_changed<T: Drop, F: FnMut(&mut T) -> bool>(v: NEVec<T>, f: F) -> Option<NEVec<T>>
    requires { F.IsAlwaysCallable f }
    ensures { IfSome result (λ kept. RetainsInTurn (CalledAtMut F.FnMut) f v kept) }
{
    always_callable_test_is_callable_at_items_mut::<T, F>();
    v.retain_mut(f).ok()
}

/// Keeps the items that divide `n` more than three times.
pub fn small_divisors(v: NEVec<u32>, n: u32) -> Option<NEVec<u32>>
    requires { All (λ x. 0 < x) v }
    ensures { IfSome result (λ kept. kept ≡ filter (λ x. ltb 3 (n / x)) v) }
{
    v.retain(|x| n / *x > 3).ok()
}

/// Compares two vectors.
pub fn order<T: Ord>(a: &NEVec<T>, b: &NEVec<T>) -> Ordering
    ensures { result ≡ slice_cmp T.cmp a.now b.now }
{
    a.cmp(b)
}
