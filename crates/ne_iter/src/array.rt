//! Arrays of 1 to 32 items as sources.
ghost use Rattle.std.specs.Prelude.{◌≡◌, ◌<◌, List, length, IfOk};
ghost use Rattle.std.specs.Int.NonZero.{non_zero_usize_get};
ghost use Rattle.std.proofs.Common.{arith};

use crate::iter::{IntoNonEmptyIterator, NonEmptyIterator};
use ne_vec::{NESlice, NEVec, slice};
use std::alloc::{AllocError, Global};
use std::array;
use std::num::NonZeroUsize;

/// Methods of arrays of 1 to 32 items.
///
/// `items` is the list of an array's items.
pub trait NonEmptyArrayExt<T> {
    ghost items: { Self → List T };

    /// Returns the items as a slice, without copying them.
    ///
    /// ```
    /// let items = [1u32, 4, 1];
    /// let slice = items.as_nonempty_slice(); // [1, 4, 1]
    /// ```
    fn as_nonempty_slice(&self) -> NESlice<'_, T>
        ensures { result ≡ items self.now };

    /// Returns the number of items.
    ///
    /// ```
    /// let len = [4u32, 6].nonzero_len().get(); // 2
    /// ```
    fn nonzero_len(&self) -> NonZeroUsize
        ensures { non_zero_usize_get result ≡ length (items self.now) };

    /// Returns the items as a vector. Returns `AllocError` if the allocation fails; the items are
    /// then dropped.
    ///
    /// ```
    /// let items: NEVec<u32> = [4, 6].into_nonempty_vec(alloc)?; // [4, 6]
    /// ```
    fn into_nonempty_vec(self, alloc: Global) -> Result<NEVec<T>, AllocError>
        ensures { IfOk result (λ v. v ≡ items self) };
}

impl<T: Drop, const N: usize> NonEmptyArrayExt<T> for [T; N]
where
    [T; N]: NonEmptyArray<N>,
{
    ghost items = { λ a. a };

    fn as_nonempty_slice(&self) -> NESlice<'_, T> {
        NESlice::try_from_slice(self).unwrap()
    }

    fn nonzero_len(&self) -> NonZeroUsize {
        self.as_nonempty_slice().len()
    }

    fn into_nonempty_vec(self, alloc: Global) -> Result<NEVec<T>, AllocError> {
        let items = Vec::from_array(alloc, self)?;
        Ok(NEVec::try_from_vec(items).unwrap())
    }
}

/// A source of the items of an array, by value.
#[derive(Drop)]
pub struct ArrayNonEmptyIterator<T, const N: usize> {
    items: [T; N],
    ghost has_item: { 0 < N },
}

impl<T: Drop, const N: usize> IntoIterator for ArrayNonEmptyIterator<T, N> {
    ghost use Rattle.ne_iter.specs.Arrays.{array_items};

    type Item = T;

    type IntoIter = array::IntoIter<T, N>;

    ghost into_iter_gives = { λ s it. ⟦<[T; N] as IntoIterator>⟧.into_iter_gives (array_items s) it
        × (0 < N) };

    fn into_iter(self) -> array::IntoIter<T, N> {
        self.items.into_iter()
    }
}

impl<T: Drop, const N: usize> NonEmptyIterator for ArrayNonEmptyIterator<T, N> {
    ghost not_empty = { λ s it made t ended. Prim.omega (arith, made.0.1, made.1, ended.0) };
}

impl<T: Drop, const N: usize> IntoNonEmptyIterator for [T; N]
where
    [T; N]: NonEmptyArray<N>,
{
    ghost use Rattle.std.proofs.Common.{refl, subst};
    ghost use Rattle.ne_vec.specs.Lists.{Listed};
    ghost use Rattle.ne_iter.specs.SourceLaws.{SameLists-through};
    ghost use Rattle.ne_iter.specs.Arrays.{array_gives, array_items};

    type IntoNEIter = ArrayNonEmptyIterator<T, N>;

    ghost into_nonempty_iter_gives = { λ a s. (array_items s ≡ a)
        × Listed (⟦<ArrayNonEmptyIterator<T, N> as IntoIterator>⟧.into_iter_gives)
        (⟦<array::IntoIter<T, N> as Iterator>⟧.next_gives) (λ x. x) s a };

    ghost same_lists = { SameLists-through (⟦<[T; N] as IntoIterator>⟧.into_iter_gives)
        (⟦<array::IntoIter<T, N> as Iterator>⟧.next_gives)
        (⟦<[T; N] as IntoNonEmptyIterator>⟧.into_nonempty_iter_gives)
        (⟦<ArrayNonEmptyIterator<T, N> as IntoIterator>⟧.into_iter_gives)
        (λ a it made.
        let s : _ = record { items = a; has_item = ⟦<[T; N] as NonEmptyArray<N>>⟧.has_item } in (
          s,
          (refl, array_gives _ s a (λ it made. made.0.0)),
          (made, ⟦<[T; N] as NonEmptyArray<N>>⟧.has_item),
        ))
        (λ a s it same made.
        subst (λ items. ⟦<[T; N] as IntoIterator>⟧.into_iter_gives items it) same.0 made.0) };

    fn into_nonempty_iter(self) -> ArrayNonEmptyIterator<T, N> {
        ArrayNonEmptyIterator { items: self }
    }
}

/// A reference to an array becomes the iterator of its slice.
impl<'a, T, const N: usize> IntoNonEmptyIterator for &'a [T; N]
where
    [T; N]: NonEmptyArray<N>,
{
    ghost use Rattle.std.proofs.Common.{refl, subst, sym, ap, ◌∙◌};
    ghost use Rattle.ne_vec.specs.Iterators.{ListsItems};
    ghost use Rattle.ne_vec.specs.IteratorLaws.{lists_items};
    ghost use Rattle.ne_iter.specs.SourceLaws.{SameLists-through};

    type IntoNEIter = slice::Iter<'a, T>;

    ghost into_nonempty_iter_gives = { λ a s. (s ≡ a.now) × (length a.now ≡ N)
        × ListsItems s a.now };

    ghost same_lists = { SameLists-through (⟦<&'a [T; N] as IntoIterator>⟧.into_iter_gives)
        (⟦<std::slice::Iter<'a, T> as Iterator>⟧.next_gives)
        (λ a s. (s ≡ a.now) × (length a.now ≡ N) × ListsItems s a.now)
        (⟦<slice::Iter<'a, T> as IntoIterator>⟧.into_iter_gives)
        (λ a it made. (
          a.now,
          (refl, sym (ap length made.0) ∙ made.3, lists_items a.now a.now refl),
          (
            subst (λ n. 0 < n) (sym made.3 ∙ ap length made.0)
                ⟦<[T; N] as NonEmptyArray<N>>⟧.has_item,
            made.0,
            made.1,
            made.2,
          ),
        ))
        (λ a s it same made. (
          made.1 ∙ same.0,
          made.2,
          made.3,
          ap length (made.1 ∙ same.0) ∙ same.1,
        )) };

    fn into_nonempty_iter(self) -> slice::Iter<'a, T> {
        slice::Iter::from(NESlice::try_from_slice(self).unwrap())
    }
}

/// Marks the arrays of 1 to 32 items. It has no method; the implementations for arrays above
/// require it, so other arrays have none.
///
/// Its law is that there is at least one item. The Rust crate instead writes these implementations
/// for each length, with a macro.
pub trait NonEmptyArray<const N: usize> {
    ghost has_item: { 0 < N };
}

impl<T> NonEmptyArray<1> for [T; 1] {
    ghost has_item = { Prim.omega arith };
}

impl<T> NonEmptyArray<2> for [T; 2] {
    ghost has_item = { Prim.omega arith };
}

impl<T> NonEmptyArray<3> for [T; 3] {
    ghost has_item = { Prim.omega arith };
}

impl<T> NonEmptyArray<4> for [T; 4] {
    ghost has_item = { Prim.omega arith };
}

impl<T> NonEmptyArray<5> for [T; 5] {
    ghost has_item = { Prim.omega arith };
}

impl<T> NonEmptyArray<6> for [T; 6] {
    ghost has_item = { Prim.omega arith };
}

impl<T> NonEmptyArray<7> for [T; 7] {
    ghost has_item = { Prim.omega arith };
}

impl<T> NonEmptyArray<8> for [T; 8] {
    ghost has_item = { Prim.omega arith };
}

impl<T> NonEmptyArray<9> for [T; 9] {
    ghost has_item = { Prim.omega arith };
}

impl<T> NonEmptyArray<10> for [T; 10] {
    ghost has_item = { Prim.omega arith };
}

impl<T> NonEmptyArray<11> for [T; 11] {
    ghost has_item = { Prim.omega arith };
}

impl<T> NonEmptyArray<12> for [T; 12] {
    ghost has_item = { Prim.omega arith };
}

impl<T> NonEmptyArray<13> for [T; 13] {
    ghost has_item = { Prim.omega arith };
}

impl<T> NonEmptyArray<14> for [T; 14] {
    ghost has_item = { Prim.omega arith };
}

impl<T> NonEmptyArray<15> for [T; 15] {
    ghost has_item = { Prim.omega arith };
}

impl<T> NonEmptyArray<16> for [T; 16] {
    ghost has_item = { Prim.omega arith };
}

impl<T> NonEmptyArray<17> for [T; 17] {
    ghost has_item = { Prim.omega arith };
}

impl<T> NonEmptyArray<18> for [T; 18] {
    ghost has_item = { Prim.omega arith };
}

impl<T> NonEmptyArray<19> for [T; 19] {
    ghost has_item = { Prim.omega arith };
}

impl<T> NonEmptyArray<20> for [T; 20] {
    ghost has_item = { Prim.omega arith };
}

impl<T> NonEmptyArray<21> for [T; 21] {
    ghost has_item = { Prim.omega arith };
}

impl<T> NonEmptyArray<22> for [T; 22] {
    ghost has_item = { Prim.omega arith };
}

impl<T> NonEmptyArray<23> for [T; 23] {
    ghost has_item = { Prim.omega arith };
}

impl<T> NonEmptyArray<24> for [T; 24] {
    ghost has_item = { Prim.omega arith };
}

impl<T> NonEmptyArray<25> for [T; 25] {
    ghost has_item = { Prim.omega arith };
}

impl<T> NonEmptyArray<26> for [T; 26] {
    ghost has_item = { Prim.omega arith };
}

impl<T> NonEmptyArray<27> for [T; 27] {
    ghost has_item = { Prim.omega arith };
}

impl<T> NonEmptyArray<28> for [T; 28] {
    ghost has_item = { Prim.omega arith };
}

impl<T> NonEmptyArray<29> for [T; 29] {
    ghost has_item = { Prim.omega arith };
}

impl<T> NonEmptyArray<30> for [T; 30] {
    ghost has_item = { Prim.omega arith };
}

impl<T> NonEmptyArray<31> for [T; 31] {
    ghost has_item = { Prim.omega arith };
}

impl<T> NonEmptyArray<32> for [T; 32] {
    ghost has_item = { Prim.omega arith };
}
