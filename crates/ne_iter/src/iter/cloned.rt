//! The adapter over references that clones the referenced items.
ghost use Rattle.ne_iter.specs.Cloned.{cloned_source};

use super::{ItemSource, NonEmptyIterator};
use std::alloc::AllocError;

/// A source of clones of the items that a source references: see [`NonEmptyIterator::cloned`].
#[derive(Drop)]
pub struct Cloned<I> {
    pub(super) iter: I,
}

impl<'a, T: Clone + 'a, I: IntoIterator<Item = &'a T>> IntoIterator for Cloned<I> {
    ghost use Rattle.ne_iter.specs.Cloned.{cloned_source, cloned_iterator};

    type Item = Result<T, AllocError>;

    type IntoIter = ClonedIter<I::IntoIter>;

    ghost into_iter_gives = { λ s it. I.into_iter_gives (cloned_source s) (cloned_iterator it) };

    fn into_iter(self) -> ClonedIter<I::IntoIter> {
        ClonedIter {
            iter: self.iter.into_iter(),
        }
    }
}

impl<'a, T: Clone + 'a, I: NonEmptyIterator<Item = &'a T>> NonEmptyIterator for Cloned<I> {
    ghost use Rattle.ne_iter.specs.Cloned.{cloned_source, cloned_iterator, TriesClone, none_cloned};

    ghost not_empty = { λ s it made t ended. I.not_empty (cloned_source s) (cloned_iterator it) made
        (cloned_iterator t) (none_cloned I.IntoIter.next_gives _
        (TriesClone T.is_clone T.is_infallible) (cloned_iterator it) (cloned_iterator t) ended.0
        ended.1 ended.2) };
}

/// The iterator of a [`Cloned`]. It returns a clone of each referenced item, or an `Err` if cloning
/// the item fails.
///
/// The Rust crate has std's `Cloned` here, whose clones cannot fail.
#[derive(Drop)]
pub struct ClonedIter<I> {
    iter: I,
}

impl<'a, T: Clone + 'a, I: Iterator<Item = &'a T>> Iterator for ClonedIter<I> {
    ghost use Rattle.ne_iter.specs.Cloned.{cloned_iterator, ClonesNext, TriesClone};

    type Item = Result<T, AllocError>;

    ghost can_next = { λ s. I.can_next (cloned_iterator s) };

    ghost next_gives = { λ s r t. ClonesNext I.next_gives (TriesClone T.is_clone T.is_infallible)
        (cloned_iterator s) r (cloned_iterator t) };

    ghost remaining = { λ s. I.remaining (cloned_iterator s) };

    fn next(&mut self) -> Option<Result<T, AllocError>> {
        match self.iter.next() {
            Some(x) => Some(x.clone()),
            None => None,
        }
    }

    fn size_hint(&self) -> (usize, Option<usize>) {
        self.iter.size_hint()
    }
}

/// `cloned` ends if its source does.
pub fn cloned_ends<'a, T: Clone + 'a, S: IntoIterator<Item = &'a T>>()
    ensures { (cloned : _) → ⟦<S as ItemSource>⟧.ends (cloned_source cloned)
        → ⟦<Cloned<S> as ItemSource>⟧.ends cloned }
{}
