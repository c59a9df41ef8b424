//! [`Once`]: a source of one item.

use super::{ItemSource, NonEmptyIterator};
use std::iter;

/// A source of one item: see [`once`](super::once).
#[derive(Drop)]
pub struct Once<T> {
    pub(super) item: T,
}

impl<T: Drop> IntoIterator for Once<T> {
    ghost use Rattle.std.specs.Prelude.{◌≡◌, Some};
    ghost use Rattle.std.specs.Iterator.Adapters.{once_item as std_once_item, OnceYieldsItsItem};
    ghost use Rattle.ne_iter.specs.Once.{once_item};

    type Item = T;

    type IntoIter = iter::Once<T>;

    ghost into_iter_gives = { λ s it. (std_once_item it ≡ Some (once_item s))
        × OnceYieldsItsItem T };

    fn into_iter(self) -> iter::Once<T> {
        iter::once(self.item)
    }
}

impl<T: Drop> NonEmptyIterator for Once<T> {
    ghost use Rattle.ne_iter.specs.Once.{HasFirst-once, once_item};

    ghost not_empty = { λ s it made. HasFirst-once it (once_item s) made.0 };
}

/// A source of one item ends.
pub fn once_ends<T: Drop>()
    ensures { (s : _) → ⟦<Once<T> as ItemSource>⟧.ends s }
{}
