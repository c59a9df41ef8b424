//! Sources that give at least one item: the traits, and the adapters that keep a source non-empty.
ghost use Rattle.std.specs.Prelude.{◌≡◌, ◌∷◌, []};
ghost use Rattle.ne_iter.specs.Once.{once_item};

mod best;
pub(crate) mod chain;
pub(crate) mod cloned;
mod collected;
pub(crate) mod copied;
pub(crate) mod divided;
pub(crate) mod enumerate;
pub(crate) mod flat_map;
pub(crate) mod flatten;
pub(crate) mod group_by;
mod held;
mod intersperse;
mod keyed_map;
pub(crate) mod map;
mod non_empty;
pub(crate) mod one_item;
pub(crate) mod peekable;
pub(crate) mod runs_by;
pub(crate) mod scan;
mod sources;
pub(crate) mod take;
pub(crate) mod try_group_by;
mod try_into;
pub(crate) mod zip;

pub use chain::Chain;
pub use cloned::{Cloned, ClonedIter};
pub use collected::FromNonEmptyIterator;
pub use copied::Copied;
pub use enumerate::Enumerate;
pub use flat_map::FlatMap;
pub use flatten::Flatten;
pub use group_by::{GroupBy, NEGroupBy};
pub use held::{ClonedIterator, HeldIterator, NonEmptyIter};
pub use intersperse::{Intersperse, RawIntersperse};
pub use keyed_map::KeyedMap;
pub use map::Map;
pub use non_empty::NonEmptyIterator;
pub use one_item::Once;
pub use peekable::Peekable;
pub use runs_by::{RunsBy, RunsByIter};
pub use scan::{Scan, ScanIter};
pub use sources::{IntoNonEmptyIterator, ItemSource};
pub use take::Take;
pub use try_group_by::{TryGroupBy, TryGroupByIter};
pub use try_into::{IntoIteratorExt, NonEmptyIterAdapter, PeeksAhead};
pub use zip::Zip;

/// Returns a source of one item, `value`.
///
/// ```
/// let one: NEVec<u32> = once(5).collect(alloc)?; // [5]
/// ```
pub fn once<T: Drop>(value: T) -> Once<T>
    ensures holds { once_item result ≡ value }
    ensures lists { ⟦<Once<T> as ItemSource>⟧.yields_items result (value ∷ []) }
{
    Once { item: value }
}
