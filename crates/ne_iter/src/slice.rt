//! Slices, their iterators, their chunks and their runs as sources.

use crate::iter::{IntoNonEmptyIterator, NonEmptyIterator};
use ne_vec::{NESlice, slice};

impl<'a, T> IntoNonEmptyIterator for NESlice<'a, T> {
    ghost use Rattle.std.specs.Prelude.{◌≡◌};
    ghost use Rattle.std.proofs.Common.{refl};
    ghost use Rattle.ne_vec.specs.Iterators.{ListsItems};
    ghost use Rattle.ne_vec.specs.IteratorLaws.{lists_items};
    ghost use Rattle.ne_iter.specs.SourceLaws.{SameLists-of};

    type IntoNEIter = slice::Iter<'a, T>;

    ghost into_nonempty_iter_gives = { λ v s. (s ≡ v) × ListsItems s v };

    ghost same_lists = { SameLists-of (⟦<slice::Iter<'a, T> as IntoIterator>⟧.into_iter_gives)
        (⟦<std::slice::Iter<'a, T> as Iterator>⟧.next_gives) (λ v. v) (λ v s. ListsItems s v)
        (λ v. lists_items v v refl) };

    fn into_nonempty_iter(self) -> slice::Iter<'a, T> {
        slice::Iter::from(self)
    }
}

impl<'a, T> IntoNonEmptyIterator for &'a NESlice<'a, T> {
    ghost use Rattle.std.specs.Prelude.{◌≡◌};
    ghost use Rattle.std.proofs.Common.{refl};
    ghost use Rattle.ne_vec.specs.Iterators.{ListsItems};
    ghost use Rattle.ne_vec.specs.IteratorLaws.{lists_items};
    ghost use Rattle.ne_iter.specs.SourceLaws.{SameLists-of};

    type IntoNEIter = slice::Iter<'a, T>;

    ghost into_nonempty_iter_gives = { λ v s. (s ≡ v.now) × ListsItems s v.now };

    ghost same_lists = { SameLists-of (⟦<slice::Iter<'a, T> as IntoIterator>⟧.into_iter_gives)
        (⟦<std::slice::Iter<'a, T> as Iterator>⟧.next_gives) (λ v. v.now)
        (λ v s. ListsItems s v.now) (λ v. lists_items v.now v.now refl) };

    fn into_nonempty_iter(self) -> slice::Iter<'a, T> {
        self.nonempty_iter()
    }
}

impl<'a, T> NonEmptyIterator for slice::Iter<'a, T> {
    ghost use Rattle.ne_vec.specs.Lists.{referenced};
    ghost use Rattle.ne_iter.specs.FirstItemLaws.{HasFirst-iter};

    ghost item_view = { referenced };

    ghost not_empty = { λ s it made. HasFirst-iter s it made };
}

impl<'a, T> NonEmptyIterator for slice::NEChunks<'a, T> {
    ghost use Rattle.ne_iter.specs.FirstItemLaws.{HasFirst-chunks};

    ghost not_empty = { λ s it made. HasFirst-chunks s it made };
}

impl<'a, T, F: Fn(&T, &T) -> bool> NonEmptyIterator for slice::SliceRuns<'a, T, F> {
    ghost use Rattle.ne_vec.specs.Divisions.{by_first};
    ghost use Rattle.ne_iter.specs.FirstItemLaws.{HasFirst-cuts};

    ghost not_empty = { λ s it made. HasFirst-cuts F.Fn by_first s it made };
}

impl<'a, T, F: Fn(&T, &T) -> bool> NonEmptyIterator for slice::AdjacentRuns<'a, T, F> {
    ghost use Rattle.ne_vec.specs.Divisions.{by_previous};
    ghost use Rattle.ne_iter.specs.FirstItemLaws.{HasFirst-cuts};

    ghost not_empty = { λ s it made. HasFirst-cuts F.Fn by_previous s it made };
}
