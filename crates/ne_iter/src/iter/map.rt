//! The adapter that calls a closure with each item.
ghost use Rattle.std.specs.Iterator.{CallableOnAll};
ghost use Rattle.ne_iter.specs.Map.{map_source, map_callee};

use super::{ItemSource, NonEmptyIterator};
use std::iter;

/// A source of what a closure returns for the items of a source: see [`NonEmptyIterator::map`].
#[derive(Drop)]
pub struct Map<I, F> {
    pub(super) iter: I,
    pub(super) f: F,
}

impl<U, I: IntoIterator, F: FnMut(I::Item) -> U> IntoIterator for Map<I, F> {
    ghost use Rattle.std.specs.Prelude.{◌≡◌};
    ghost use Rattle.std.specs.Iterator.Adapters.{map_source as std_map_source};
    ghost use Rattle.std.specs.Iterator.Adapters.{map_callee as std_map_callee};
    ghost use Rattle.ne_iter.specs.Map.{MapsRuns, map_source, map_callee};

    type Item = U;

    type IntoIter = iter::Map<I::IntoIter, F>;

    ghost into_iter_gives = { λ s it. I.into_iter_gives (map_source s) (std_map_source it)
        × (std_map_callee it ≡ map_callee s)
        × MapsRuns I.IntoIter.next_gives F.FnMut (map_callee s) (std_map_source it) it };

    fn into_iter(self) -> iter::Map<I::IntoIter, F> {
        self.iter.into_iter().map(self.f)
    }
}

impl<U, I: NonEmptyIterator, F: FnMut(I::Item) -> U> NonEmptyIterator for Map<I, F> {
    ghost use Rattle.std.specs.Iterator.Adapters.{map_source as std_map_source};
    ghost use Rattle.ne_iter.specs.Map.{map_source};

    ghost not_empty = { λ s it made t ended. I.not_empty (map_source s) (std_map_source it) made.0
        (std_map_source t) ended.0 };
}

/// `map` ends if its source does and its closure can be called with each item.
pub fn map_ends<S: IntoIterator, B, F: FnMut(S::Item) -> B>()
    ensures { (mapped : _) → ⟦<S as ItemSource>⟧.ends (map_source mapped)
        → ((it : S.IntoIter) → S.into_iter_gives (map_source mapped) it
        → CallableOnAll S.IntoIter.next_gives F.FnMut it (map_callee mapped))
        → ⟦<Map<S, F> as ItemSource>⟧.ends mapped }
{}
