//! The adapter that pairs the items of two sources.
ghost use Rattle.ne_iter.specs.Zip.{zip_first, zip_second};

use super::{ItemSource, NonEmptyIterator};
use std::iter;

/// A source of pairs of an item of one source and an item of another: see
/// [`NonEmptyIterator::zip`].
#[derive(Drop)]
pub struct Zip<A, B> {
    pub(super) a: A,
    pub(super) b: B,
}

impl<A: IntoIterator, B: IntoIterator> IntoIterator for Zip<A, B>
where
    A::Item: Drop,
{
    ghost use Rattle.std.specs.Iterator.Adapters.{zip_first as std_zip_first};
    ghost use Rattle.std.specs.Iterator.Adapters.{zip_second as std_zip_second};
    ghost use Rattle.ne_iter.specs.Zip.{zip_first, zip_second};

    type Item = (A::Item, B::Item);

    type IntoIter = iter::Zip<A::IntoIter, B::IntoIter>;

    ghost into_iter_gives = { λ s it. A.into_iter_gives (zip_first s) (std_zip_first it)
        × B.into_iter_gives (zip_second s) (std_zip_second it) };

    fn into_iter(self) -> iter::Zip<A::IntoIter, B::IntoIter> {
        self.a.into_iter().zip(self.b)
    }
}

impl<A: NonEmptyIterator, B: NonEmptyIterator> NonEmptyIterator for Zip<A, B>
where
    A::Item: Drop,
{
    ghost use Rattle.std.specs.Iterator.Adapters.{zip_first as std_zip_first};
    ghost use Rattle.std.specs.Iterator.Adapters.{zip_second as std_zip_second};
    ghost use Rattle.ne_vec.specs.Lists.{in_pairs};
    ghost use Rattle.ne_iter.specs.Zip.{zip_first, zip_second, HasFirst-zip};

    ghost item_view = { in_pairs A.item_view B.item_view };

    ghost not_empty = { λ s it made. HasFirst-zip A.IntoIter.next_gives B.IntoIter.next_gives it
        (A.not_empty (zip_first s) (std_zip_first it) made.0)
        (B.not_empty (zip_second s) (std_zip_second it) made.1) };
}

/// `zip` ends if both its sources do.
pub fn zip_ends<S: IntoIterator, U: IntoIterator>()
where
    S::Item: Drop,
    ensures { (zipped : _) → ⟦<S as ItemSource>⟧.ends (zip_first zipped)
        → ⟦<U as ItemSource>⟧.ends (zip_second zipped)
        → ⟦<Zip<S, U> as ItemSource>⟧.ends zipped }
{}
