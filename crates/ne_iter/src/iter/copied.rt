//! The adapter over references that copies the referenced items.
ghost use Rattle.ne_iter.specs.Copied.{copied_source};

use super::{ItemSource, NonEmptyIterator};
use std::iter;

/// A source of copies of the items that a source references: see [`NonEmptyIterator::copied`].
#[derive(Drop)]
pub struct Copied<I> {
    pub(super) iter: I,
}

impl<'a, T: Copy + 'a, I: IntoIterator<Item = &'a T>> IntoIterator for Copied<I> {
    ghost use Rattle.std.specs.Iterator.Adapters.{copied_source as std_copied_source};
    ghost use Rattle.ne_iter.specs.Copied.{copied_source};

    type Item = T;

    type IntoIter = iter::Copied<I::IntoIter>;

    ghost into_iter_gives = { λ s it. I.into_iter_gives (copied_source s) (std_copied_source it) };

    fn into_iter(self) -> iter::Copied<I::IntoIter> {
        self.iter.into_iter().copied()
    }
}

impl<'a, T: Copy + 'a, I: NonEmptyIterator<Item = &'a T>> NonEmptyIterator for Copied<I> {
    ghost use Rattle.std.specs.Iterator.Adapters.{copied_source as std_copied_source};
    ghost use Rattle.ne_iter.specs.Copied.{copied_source, none_copied};

    ghost not_empty = { λ s it made t ended.
        I.not_empty (copied_source s) (std_copied_source it) made (std_copied_source t)
        (none_copied I.IntoIter.next_gives (std_copied_source it) (std_copied_source t)
        ended.0 ended.1 ended.2) };
}

/// `copied` ends if its source does.
pub fn copied_ends<'a, T: Copy + 'a, S: IntoIterator<Item = &'a T>>()
    ensures { (copied : _) → ⟦<S as ItemSource>⟧.ends (copied_source copied)
        → ⟦<Copied<S> as ItemSource>⟧.ends copied }
{}
