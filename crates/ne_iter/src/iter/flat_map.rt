//! The adapter that yields the items of the sources that a closure returns, one source after
//! another.
ghost use Rattle.std.specs.Prelude.{◌≡◌};
ghost use Rattle.std.specs.Iterator.{CallableOnAll};
ghost use Rattle.std.specs.Iterator.Adapters.{InnersAreFinite};
ghost use Rattle.std.specs.Iterator.Adapters.{map_source as std_map_source};
ghost use Rattle.std.specs.Iterator.Adapters.{map_callee as std_map_callee};
ghost use Rattle.ne_iter.specs.FlatMap.{flat_map_source, flat_map_callee};

use super::flatten::append_each;
use super::{IntoNonEmptyIterator, ItemSource, NonEmptyIterator};
use std::alloc::{AllocError, Global};
use std::iter;
use std::marker::PhantomData;

/// A source of the items of the sources that a closure returns for the items of a source: see
/// [`NonEmptyIterator::flat_map`].
#[derive(Drop)]
pub struct FlatMap<I, U, F> {
    pub(super) iter: I,
    pub(super) f: F,
    pub(super) of: PhantomData<U>,
}

impl<U: IntoIterator, I: IntoIterator, F: FnMut(I::Item) -> U> IntoIterator for FlatMap<I, U, F> {
    ghost use Rattle.std.specs.Prelude.{◌≡◌, None, false};
    ghost use Rattle.std.specs.Iterator.Adapters.{map_source as std_map_source};
    ghost use Rattle.std.specs.Iterator.Adapters.{map_callee as std_map_callee};
    ghost use Rattle.std.specs.Iterator.Adapters.{flatten_source as std_flatten_source};
    ghost use Rattle.std.specs.Iterator.Adapters.{flatten_front, flatten_back, flatten_done};
    ghost use Rattle.ne_iter.specs.FlatMap.{flat_map_source, flat_map_callee, FlatMapsRuns};

    type Item = U::Item;

    type IntoIter = iter::FlatMap<I::IntoIter, U, F>;

    ghost into_iter_gives = { λ s it.
        I.into_iter_gives (flat_map_source s) (std_map_source (std_flatten_source it))
        × (std_map_callee (std_flatten_source it) ≡ flat_map_callee s) × (flatten_front it ≡ None)
        × (flatten_back it ≡ None) × (flatten_done it ≡ false)
        × FlatMapsRuns I.IntoIter.next_gives U.into_iter_gives U.IntoIter.next_gives F.FnMut
        (flat_map_callee s) (std_map_source (std_flatten_source it)) it };

    fn into_iter(self) -> iter::FlatMap<I::IntoIter, U, F> {
        self.iter.into_iter().flat_map(self.f)
    }
}

impl<U: IntoNonEmptyIterator, I: NonEmptyIterator, F: FnMut(I::Item) -> U> NonEmptyIterator
    for FlatMap<I, U, F> {
    ghost use Rattle.std.specs.Iterator.Adapters.{map_source as std_map_source};
    ghost use Rattle.std.specs.Iterator.Adapters.{flatten_source as std_flatten_source};
    ghost use Rattle.ne_iter.specs.FlatMap.{flat_map_source};
    ghost use Rattle.ne_iter.specs.Flatten.{HasFirst-flatten};
    ghost use Rattle.ne_iter.specs.SourceLaws.{IsNonEmpty-into};

    ghost item_view = { U.IntoNEIter.item_view };

    #[inline(always)]
    fn append_to(
        self,
        alloc: Global,
        items: &mut Vec<U::Item>,
    ) -> Result<PhantomData<iter::FlatMap<I::IntoIter, U, F>>, AllocError>
    where
        U::Item: Drop,
    {
        append_each(alloc, items, self.iter.into_iter().map(self.f))
    }

    ghost not_empty = { λ s it made. HasFirst-flatten
        (⟦<iter::Map<I::IntoIter, F> as Iterator>⟧.next_gives) U.into_iter_gives
        U.IntoIter.next_gives it made.2 made.4
        (λ t ended. I.not_empty (flat_map_source s) (std_map_source (std_flatten_source it)) made.0
        (std_map_source t) ended.0) (IsNonEmpty-into U.into_iter_gives U.IntoIter.next_gives
        U.into_nonempty_iter_gives U.IntoNEIter.into_iter_gives U.IntoNEIter.IntoIter.next_gives
        U.same_lists U.IntoNEIter.not_empty) };
}

/// `flat_map` ends if its source does, its closure can be called with each item that comes, and the
/// sources that it returns for them end.
pub fn flat_map_ends<S: IntoIterator, U: IntoIterator, F: FnMut(S::Item) -> U>()
    ensures { (spread : _) → ⟦<S as ItemSource>⟧.ends (flat_map_source spread)
        → ((it : S.IntoIter) → S.into_iter_gives (flat_map_source spread) it
        → CallableOnAll S.IntoIter.next_gives F.FnMut it (flat_map_callee spread))
        → ((mapped : _) → S.into_iter_gives (flat_map_source spread) (std_map_source mapped)
        → std_map_callee mapped ≡ flat_map_callee spread
        → InnersAreFinite (⟦<iter::Map<S::IntoIter, F> as Iterator>⟧.next_gives)
        U.into_iter_gives U.IntoIter.can_next U.IntoIter.remaining mapped)
        → ⟦<FlatMap<S, U, F> as ItemSource>⟧.ends spread }
{}
