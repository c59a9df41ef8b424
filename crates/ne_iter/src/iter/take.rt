//! The adapter that keeps the first items.
ghost use Rattle.ne_iter.specs.Take.{take_source};

use super::{ItemSource, NonEmptyIterator};
use std::iter;
use std::num::NonZeroUsize;

/// A source of the first items of a source: see [`NonEmptyIterator::take`].
#[derive(Drop)]
pub struct Take<I> {
    pub(super) iter: I,
    pub(super) n: NonZeroUsize,
}

impl<I: IntoIterator> IntoIterator for Take<I> {
    ghost use Rattle.std.specs.Prelude.{◌≡◌, ◌<◌};
    ghost use Rattle.std.specs.Iterator.Adapters.{take_source as std_take_source};
    ghost use Rattle.std.specs.Iterator.Adapters.{take_count as std_take_count};
    ghost use Rattle.ne_iter.specs.Take.{TakesRuns, take_source, take_count};

    type Item = I::Item;

    type IntoIter = iter::Take<I::IntoIter>;

    ghost into_iter_gives = { λ s it. I.into_iter_gives (take_source s) (std_take_source it)
        × (std_take_count it ≡ take_count s)
        × TakesRuns I.IntoIter.next_gives (take_count s) (std_take_source it) it };

    fn into_iter(self) -> iter::Take<I::IntoIter> {
        self.iter.into_iter().take(self.n.get())
    }
}

impl<I: NonEmptyIterator> NonEmptyIterator for Take<I> {
    ghost use Rattle.std.specs.Iterator.Adapters.{take_source as std_take_source};
    ghost use Rattle.std.proofs.Common.{rules};
    ghost use Rattle.ne_iter.specs.Take.{take_source};

    ghost item_view = { I.item_view };

    ghost not_empty = { λ s it made t ended. I.not_empty (take_source s) (std_take_source it) made.0
        (std_take_source t) (ended (let some = s.n.ok in let count = made.1 in
        Prim.search rules)) };
}

/// `take` ends if its first item may be taken, whether or not its source ends.
pub fn take_ends<S: IntoIterator>()
    ensures { (taken : _) → ⟦<S as ItemSource>⟧.starts (take_source taken)
        → ⟦<Take<S> as ItemSource>⟧.ends taken }
{}
