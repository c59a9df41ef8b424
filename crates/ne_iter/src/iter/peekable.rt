//! The adapter that gives access to the first item.
ghost use Rattle.ne_iter.specs.Peekable.{peekable_first, peekable_rest};
ghost use Rattle.ne_iter.specs.Sources.{DrawsFirst};

use super::collected::{append, push_first};
use super::{ItemSource, NonEmptyIterator};
use std::alloc::{AllocError, Global};
use std::iter;
use std::marker::PhantomData;

/// A source whose first item was already taken and can be read and changed: see
/// [`NonEmptyIterator::peekable`].
#[derive(Drop)]
pub struct Peekable<I: Iterator>
where
    I::Item: Drop,
{
    pub(super) first: I::Item,
    pub(super) rest: I,
}

impl<I: Iterator> Peekable<I>
where
    I::Item: Drop,
{
    ghost use Rattle.std.specs.Prelude.{◌≡◌};
    ghost use Rattle.std.specs.Borrow.{sem};
    ghost use Rattle.ne_iter.specs.Peekable.{peekable_first};
    ghost use Rattle.ne_iter.specs.PeekLends.{lends_first};

    /// Returns the first item. It always exists, so unlike std's `peek` this returns no `Option`.
    ///
    /// ```
    /// let items = nev![alloc; 4, 6, 8]?.into_nonempty_iter().peekable();
    /// let first = *items.peek(); // 4
    /// ```
    pub fn peek(&self) -> &I::Item
        ensures { result.now ≡ peekable_first self.now }
    {
        &self.first
    }

    /// Returns a mutable reference to the first item. The source yields the item as it was last
    /// changed.
    ///
    /// ```
    /// let mut items = nev![alloc; 3, 1, 4, 1, 5, 9, 2, 6]?.into_nonempty_iter().peekable();
    /// *items.peek_mut() = 5;
    /// let items: NEVec<u32> = items.collect(alloc)?; // [5, 1, 4, 1, 5, 9, 2, 6]
    /// ```
    pub fn peek_mut(&mut self) -> &mut I::Item
        ensures* writes_back { sem 𝓛 (lends_first I.row I.Item.row self.entry result) }
        ensures value { result.now ≡ peekable_first self.old }
    {
        &mut self.first
    }
}

impl<I: Iterator> IntoIterator for Peekable<I>
where
    I::Item: Drop,
{
    ghost use Rattle.ne_iter.specs.Peekable.{peekable_first, peekable_rest, PutsFirst};

    type Item = I::Item;

    type IntoIter = iter::Chain<iter::Once<I::Item>, I>;

    ghost into_iter_gives = { λ s it.
        PutsFirst (peekable_first s) (peekable_rest s) it };

    fn into_iter(self) -> iter::Chain<iter::Once<I::Item>, I> {
        iter::once(self.first).chain(self.rest)
    }
}

impl<I: Iterator> NonEmptyIterator for Peekable<I>
where
    I::Item: Drop,
{
    ghost use Rattle.std.specs.Iterator.Adapters.{chain_first};
    ghost use Rattle.ne_iter.specs.Peekable.{peekable_first};
    ghost use Rattle.ne_iter.specs.Chain.{HasFirst-chain};
    ghost use Rattle.ne_iter.specs.Once.{HasFirst-once};

    #[inline(always)]
    fn append_to(
        self,
        alloc: Global,
        items: &mut Vec<I::Item>,
    ) -> Result<PhantomData<iter::Chain<iter::Once<I::Item>, I>>, AllocError> {
        push_first(items, self.first, self.rest.size_hint().0)?;
        let _rest = append(alloc, items, self.rest)?;
        Ok(PhantomData)
    }

    ghost not_empty = { λ s it made. HasFirst-chain (⟦<iter::Once<I::Item> as Iterator>⟧.next_gives)
        I.next_gives it made.2 (HasFirst-once (chain_first it) (peekable_first s) made.0) };
}

/// `peekable` ends if its source does. What is before the last arrow is its clause `drawn`.
pub fn peekable_ends<S: IntoIterator>()
where
    S::Item: Drop,
    ensures { (source : S) (peeked : _) → ⟦<S as ItemSource>⟧.ends source
        → DrawsFirst S.into_iter_gives S.IntoIter.next_gives S.IntoIter.can_next
        S.IntoIter.remaining source (peekable_first peeked) (peekable_rest peeked)
        → ⟦<Peekable<S::IntoIter> as ItemSource>⟧.ends peeked }
{}
