//! The adapter that numbers the items.
ghost use Rattle.std.specs.Iterator.Runs.{CountFits};
ghost use Rattle.ne_iter.specs.Enumerate.{enumerate_source};

use super::{ItemSource, NonEmptyIterator};
use std::iter;

/// A source of the items of a source with their indices: see [`NonEmptyIterator::enumerate`].
#[derive(Drop)]
pub struct Enumerate<I> {
    pub(super) iter: I,
}

impl<I: IntoIterator> IntoIterator for Enumerate<I> {
    ghost use Rattle.std.specs.Prelude.{◌≡◌};
    ghost use Rattle.std.specs.Iterator.Adapters.{enumerate_source as std_enumerate_source};
    ghost use Rattle.std.specs.Iterator.Adapters.{enumerate_count};
    ghost use Rattle.ne_iter.specs.Enumerate.{enumerate_source};

    type Item = (usize, I::Item);

    type IntoIter = iter::Enumerate<I::IntoIter>;

    ghost into_iter_gives = { λ s it.
        I.into_iter_gives (enumerate_source s) (std_enumerate_source it)
        × (enumerate_count it ≡ 0) };

    fn into_iter(self) -> iter::Enumerate<I::IntoIter> {
        self.iter.into_iter().enumerate()
    }
}

impl<I: NonEmptyIterator> NonEmptyIterator for Enumerate<I> {
    ghost use Rattle.std.specs.Iterator.Adapters.{enumerate_source as std_enumerate_source};
    ghost use Rattle.ne_vec.specs.Lists.{numbered};
    ghost use Rattle.ne_iter.specs.Enumerate.{enumerate_source};

    ghost item_view = { numbered I.item_view };

    ghost not_empty = { λ s it made t ended. I.not_empty (enumerate_source s)
        (std_enumerate_source it) made.0 (std_enumerate_source t) ended.0 };
}

/// `enumerate` ends if its source does and the indices fit in a `usize`.
pub fn enumerate_ends<S: IntoIterator>()
    ensures { (numbered : _) → ⟦<S as ItemSource>⟧.ends (enumerate_source numbered)
        → ((it : S.IntoIter) → S.into_iter_gives (enumerate_source numbered) it
        → CountFits S.IntoIter.next_gives S.IntoIter.remaining 0 it)
        → ⟦<Enumerate<S> as ItemSource>⟧.ends numbered }
{}
