//! Vectors as sources, and collecting into them.

use crate::iter::{FromNonEmptyIterator, IntoNonEmptyIterator, NonEmptyIterator};
use ne_vec::{NEVec, vector};
use std::alloc::{AllocError, Global};
use std::{mem, slice, vec};

impl<T: Drop> FromNonEmptyIterator<T> for NEVec<T> {
    ghost use Rattle.std.specs.Prelude.{◌≡◌};

    ghost collected = { λ xs v. v ≡ xs };

    #[inline(always)]
    fn from_nonempty_iter<I: IntoNonEmptyIterator<Item = T>>(
        alloc: Global,
        iter: I,
    ) -> Result<NEVec<T>, AllocError> {
        let mut items = Vec::new(alloc);
        let _appended = iter.into_nonempty_iter().append_to(alloc, &mut items)?;
        Ok(NEVec::try_from_vec(items).unwrap())
    }

    fn from_drained(alloc: Global, items: &mut Vec<T>) -> Result<NEVec<T>, AllocError> {
        Ok(NEVec::try_from_vec(mem::replace(items, Vec::new(alloc))).unwrap())
    }
}

impl<'a, T> NonEmptyIterator for vector::Iter<'a, T> {
    ghost use Rattle.ne_vec.specs.Lists.{referenced};
    ghost use Rattle.ne_iter.specs.FirstItemLaws.{HasFirst-iter};

    ghost item_view = { referenced };

    ghost not_empty = { λ s it made. HasFirst-iter s it made };
}

impl<'a, T> NonEmptyIterator for vector::IterMut<'a, T> {
    ghost use Rattle.ne_iter.specs.FirstItemLaws.{HasFirst-iter_mut};

    ghost not_empty = { λ s it made. HasFirst-iter_mut it made.0 };
}

impl<T: Drop> NonEmptyIterator for vector::IntoIter<T> {
    ghost use Rattle.ne_iter.specs.FirstItemLaws.{HasFirst-into_iter};

    ghost not_empty = { λ s it made. HasFirst-into_iter s it made };
}

impl<T: Drop> IntoNonEmptyIterator for NEVec<T> {
    ghost use Rattle.std.specs.Prelude.{◌≡◌};
    ghost use Rattle.std.specs.Global.{Global};
    ghost use Rattle.std.proofs.Common.{refl};
    ghost use Rattle.ne_vec.specs.Iterators.{ListsItemsByValue};
    ghost use Rattle.ne_vec.specs.IteratorLaws.{lists_items_by_value};
    ghost use Rattle.ne_iter.specs.SourceLaws.{SameLists-of};

    type IntoNEIter = vector::IntoIter<T>;

    ghost into_nonempty_iter_gives = { λ v s. (s ≡ v) × ListsItemsByValue Global s v };

    ghost same_lists = { SameLists-of (⟦<vector::IntoIter<T> as IntoIterator>⟧.into_iter_gives)
        (⟦<vec::IntoIter<T> as Iterator>⟧.next_gives) (λ v. v)
        (λ v s. ListsItemsByValue Global s v) (λ v. lists_items_by_value v v refl Global) };

    fn into_nonempty_iter(self) -> vector::IntoIter<T> {
        vector::IntoIter::from(self)
    }
}

impl<'a, T> IntoNonEmptyIterator for &'a NEVec<T> {
    ghost use Rattle.std.specs.Prelude.{◌≡◌};
    ghost use Rattle.std.proofs.Common.{refl};
    ghost use Rattle.ne_vec.specs.Iterators.{ListsItems};
    ghost use Rattle.ne_vec.specs.IteratorLaws.{lists_items};
    ghost use Rattle.ne_iter.specs.SourceLaws.{SameLists-of};

    type IntoNEIter = vector::Iter<'a, T>;

    ghost into_nonempty_iter_gives = { λ v s. (s ≡ v.now) × ListsItems s v.now };

    ghost same_lists = { SameLists-of (⟦<vector::Iter<'a, T> as IntoIterator>⟧.into_iter_gives)
        (⟦<slice::Iter<'a, T> as Iterator>⟧.next_gives) (λ v. v.now)
        (λ v s. ListsItems s v.now) (λ v. lists_items v.now v.now refl) };

    fn into_nonempty_iter(self) -> vector::Iter<'a, T> {
        self.nonempty_iter()
    }
}
