//! The adapter that puts a separator between the items.

use super::NonEmptyIterator;
use std::alloc::AllocError;

/// A source whose first item was already taken, with clones of a separator between the items: see
/// [`NonEmptyIterator::intersperse`].
#[derive(Drop)]
pub struct Intersperse<I: Iterator>
where
    I::Item: Drop,
{
    pub(super) first: I::Item,
    pub(super) rest: I,
    pub(super) separator: I::Item,
}

impl<I: Iterator> IntoIterator for Intersperse<I>
where
    I::Item: Clone + Drop,
{
    ghost use Rattle.std.specs.Prelude.{◌≡◌, Some, false};
    ghost use Rattle.ne_iter.specs.Intersperse.{intersperse_first, intersperse_rest};
    ghost use Rattle.ne_iter.specs.Intersperse.{intersperse_separator, drawn_from, clones_of};
    ghost use Rattle.ne_iter.specs.Intersperse.{in_hand, is_over, IntersperseRuns};

    type Item = Result<I::Item, AllocError>;

    type IntoIter = RawIntersperse<I>;

    ghost into_iter_gives = { λ s it. (in_hand it ≡ Some (intersperse_first s))
        × (drawn_from it ≡ intersperse_rest s) × (clones_of it ≡ intersperse_separator s)
        × (is_over it ≡ false)
        × IntersperseRuns I.next_gives I.Item.is_clone I.Item.is_infallible
        (intersperse_separator s) (intersperse_first s) (intersperse_rest s) it };

    /// Returns the iterator. It moves the separator; the Rust crate clones it once more here.
    fn into_iter(self) -> RawIntersperse<I> {
        RawIntersperse {
            iter: self.rest,
            separator: self.separator,
            next: Some(self.first),
            is_over: false,
        }
    }
}

impl<I: Iterator> NonEmptyIterator for Intersperse<I>
where
    I::Item: Clone + Drop,
{
    ghost use Rattle.ne_iter.specs.Intersperse.{intersperse_first, HasFirst-interspersed};
    ghost use Rattle.ne_iter.specs.Cloned.{TriesClone};

    ghost not_empty = { λ s it made. HasFirst-interspersed I.next_gives
        (TriesClone I.Item.is_clone I.Item.is_infallible) it (intersperse_first s) made.0 made.3 };
}

/// The iterator of an [`Intersperse`]. It returns each item in `Ok`, and between each two a clone
/// of the separator, or an `Err` if that clone fails. After an `Err` it returns `None`, and takes
/// nothing more.
///
/// It takes the item after a separator before it clones the separator. After its end each `next`
/// calls its source again. In the Rust crate the items are not in a `Result`, as clones cannot fail
/// there.
#[derive(Drop)]
pub struct RawIntersperse<I: Iterator>
where
    I::Item: Drop,
{
    iter: I,
    separator: I::Item,
    // An item that was taken and is returned before the next one is taken.
    next: Option<I::Item>,
    // Whether a clone has failed.
    is_over: bool,
}

impl<I: Iterator> Iterator for RawIntersperse<I>
where
    I::Item: Clone + Drop,
{
    ghost use Rattle.std.specs.Prelude.{◌≡◌, false};
    ghost use Rattle.ne_iter.specs.Cloned.{TriesClone};
    ghost use Rattle.ne_iter.specs.Intersperse.{drawn_from, is_over, interspersed_left};
    ghost use Rattle.ne_iter.specs.Intersperse.{InterspersesNext};

    type Item = Result<I::Item, AllocError>;

    ghost can_next = { λ s. is_over s ≡ false → I.can_next (drawn_from s) };

    ghost next_gives = { InterspersesNext I.next_gives
        (TriesClone I.Item.is_clone I.Item.is_infallible) };

    ghost remaining = { interspersed_left I.remaining };

    fn next(&mut self) -> Option<Result<I::Item, AllocError>> {
        if self.is_over {
            return None;
        }
        if let Some(item) = self.next.take() {
            return Some(Ok(item));
        }
        let item = self.iter.next()?;
        match self.separator.clone() {
            Ok(separator) => {
                self.next = Some(item);
                Some(Ok(separator))
            }
            Err(refused) => {
                self.is_over = true;
                Some(Err(refused))
            }
        }
    }

    fn size_hint(&self) -> (usize, Option<usize>) {
        if self.is_over {
            return (0, Some(0));
        }
        let held = usize::from(self.next.is_some());
        let (low, high) = self.iter.size_hint();
        let high = match high {
            Some(n) => n.checked_mul(2).and_then(|twice| twice.checked_add(held)),
            None => None,
        };
        (low.saturating_mul(2).saturating_add(held), high)
    }
}
