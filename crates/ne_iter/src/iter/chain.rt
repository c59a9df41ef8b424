//! The adapter that appends the items of a second source.
ghost use Rattle.ne_iter.specs.Chain.{chain_first, chain_second};

use super::collected::append;
use super::{ItemSource, NonEmptyIterator};
use std::alloc::{AllocError, Global};
use std::iter;
use std::marker::PhantomData;

/// A source of the items of two sources, one after the other: see [`NonEmptyIterator::chain`].
#[derive(Drop)]
pub struct Chain<A, B> {
    pub(super) a: A,
    pub(super) b: B,
}

impl<A: IntoIterator, B: IntoIterator<Item = A::Item>> IntoIterator for Chain<A, B> {
    ghost use Rattle.std.specs.Prelude.{◌≡◌, false};
    ghost use Rattle.std.specs.Iterator.Adapters.{chain_first as std_chain_first};
    ghost use Rattle.std.specs.Iterator.Adapters.{chain_second as std_chain_second};
    ghost use Rattle.std.specs.Iterator.Adapters.{chain_first_done, chain_second_done};
    ghost use Rattle.ne_iter.specs.Chain.{ChainsRuns, chain_first, chain_second};

    type Item = A::Item;

    type IntoIter = iter::Chain<A::IntoIter, B::IntoIter>;

    ghost into_iter_gives = { λ s it. A.into_iter_gives (chain_first s) (std_chain_first it)
        × B.into_iter_gives (chain_second s) (std_chain_second it) × (chain_first_done it ≡ false)
        × (chain_second_done it ≡ false)
        × ChainsRuns A.IntoIter.next_gives B.IntoIter.next_gives
        (std_chain_first it) (std_chain_second it) it };

    fn into_iter(self) -> iter::Chain<A::IntoIter, B::IntoIter> {
        self.a.into_iter().chain(self.b)
    }
}

impl<A: NonEmptyIterator, B: IntoIterator<Item = A::Item>> NonEmptyIterator for Chain<A, B> {
    ghost use Rattle.std.specs.Iterator.Adapters.{chain_first as std_chain_first};
    ghost use Rattle.ne_iter.specs.Chain.{chain_first, HasFirst-chain};

    ghost item_view = { A.item_view };

    #[inline(always)]
    fn append_to(
        self,
        alloc: Global,
        items: &mut Vec<A::Item>,
    ) -> Result<PhantomData<iter::Chain<A::IntoIter, B::IntoIter>>, AllocError>
    where
        A::Item: Drop,
    {
        let second = self.b.into_iter();
        let _first = self.a.append_to(alloc, items)?;
        let _second = append(alloc, items, second)?;
        Ok(PhantomData)
    }

    ghost not_empty = { λ s it made. HasFirst-chain A.IntoIter.next_gives B.IntoIter.next_gives it
        made.2 (A.not_empty (chain_first s) (std_chain_first it) made.0) };
}

/// `chain` ends if both its sources do.
pub fn chain_ends<S: IntoIterator, U: IntoIterator<Item = S::Item>>()
    ensures { (chained : _) → ⟦<S as ItemSource>⟧.ends (chain_first chained)
        → ⟦<U as ItemSource>⟧.ends (chain_second chained)
        → ⟦<Chain<S, U> as ItemSource>⟧.ends chained }
{}
