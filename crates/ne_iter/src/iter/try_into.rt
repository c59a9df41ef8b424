//! Any iterator as a non-empty source, if it has an item.
ghost use Rattle.std.specs.Prelude.{◌≡◌, Bool, Option, true};
ghost use Rattle.std.specs.Iterator.{IsFiniteIterable};
ghost use Rattle.std.specs.Iterator.Adapters.{peekable_steps};
ghost use Rattle.ne_vec.specs.Lists.{itself};
ghost use Rattle.ne_iter.specs.Peeked.{has_peeked, HasFirst-peeked};

use super::{ItemSource, NonEmptyIterator};
use std::iter;

/// An iterator that knows whether it holds an item that it has already taken. It is used in
/// contracts only, and has no method.
pub trait PeeksAhead {
    ghost has_peeked: { Self → Bool };
}

impl<I, X> PeeksAhead for iter::Ahead<I, X> {
    ghost has_peeked = { has_peeked };
}

/// An iterator that was found to have an item: see [`IntoIteratorExt::try_into_nonempty_iter`].
#[derive(Drop)]
pub struct NonEmptyIterAdapter<I: PeeksAhead> {
    inner: I,
    ghost looked: { I.has_peeked inner ≡ true },
}

impl<I: Iterator> IntoIterator for NonEmptyIterAdapter<iter::Peekable<I>>
where
    I::Item: Drop,
{
    ghost use Rattle.ne_iter.specs.TryInto.{peeked_iterator};

    type Item = I::Item;

    type IntoIter = iter::Peekable<I>;

    ghost into_iter_gives = { λ s it. (it ≡ peeked_iterator s) × (has_peeked it ≡ true) };

    fn into_iter(self) -> iter::Peekable<I> {
        self.inner
    }
}

impl<I: Iterator> NonEmptyIterator for NonEmptyIterAdapter<iter::Peekable<I>>
where
    I::Item: Drop,
{
    ghost not_empty = { λ s it made t ended. HasFirst-peeked I.next_gives it made.1 t ended };
}

/// Sources that may be empty.
pub trait IntoIteratorExt {
    /// The type of its items.
    type Item;

    /// The non-empty source that it becomes if it has an item.
    type IntoIter: NonEmptyIterator<Item = Self::Item>;

    ghost can_peek: { Self → Type 0 };

    ghost peeks: { Self → Option Self.IntoIter → Type 0 };

    ghost peeks_lists: { Self → Option Self.IntoIter → Type 0 };

    ghost peeks_runs: { Self → Option Self.IntoIter → Type 0 };

    ghost peeks_ends: { Self → Option Self.IntoIter → Type 0 };

    /// Takes the first item to see whether there is one, and returns a non-empty source of all
    /// items, with the one that was taken; returns `None` if there is no item.
    ///
    /// ```
    /// let some = vec![in alloc; 5, 9, 2]?.try_into_nonempty_iter(); // Some: 5, 9 and 2
    /// let none = Vec::<u8>::new(alloc).try_into_nonempty_iter(); // None
    /// ```
    fn try_into_nonempty_iter(self) -> Option<Self::IntoIter>
        requires { can_peek self }
        ensures gives { peeks self result }
        ensures lists { peeks_lists self result }
        ensures runs { peeks_runs self result }
        ensures ends { peeks_ends self result };
}

impl<T: IntoIterator> IntoIteratorExt for T
where
    T::Item: Drop,
    T::IntoIter: Drop,
{
    ghost use Rattle.ne_iter.specs.TryInto.{PeeksLists, PeeksEnds, PeeksRuns, PeeksWhole};
    ghost use Rattle.ne_iter.specs.TryInto.{peeked_iterator};

    type Item = T::Item;

    type IntoIter = NonEmptyIterAdapter<iter::Peekable<T::IntoIter>>;

    ghost can_peek = { λ s. (it : T.IntoIter) → T.into_iter_gives s it → T.IntoIter.can_next it };

    ghost peeks = { PeeksWhole (⟦<T as ItemSource>⟧.reads)
        (⟦<NonEmptyIterAdapter<iter::Peekable<T::IntoIter>> as ItemSource>⟧.reads) };

    ghost peeks_lists = { PeeksLists (⟦<T as ItemSource>⟧.lists itself)
        (⟦<NonEmptyIterAdapter<iter::Peekable<T::IntoIter>> as ItemSource>⟧.yields_items) };

    ghost peeks_runs = { PeeksRuns T.into_iter_gives T.IntoIter.next_gives
        (peekable_steps T.IntoIter.next_gives)
        peeked_iterator };

    ghost peeks_ends = { PeeksEnds (IsFiniteIterable T.into_iter_gives T.IntoIter.can_next
        T.IntoIter.remaining) (IsFiniteIterable
        (⟦<NonEmptyIterAdapter<iter::Peekable<T::IntoIter>> as IntoIterator>⟧.into_iter_gives)
        (⟦<iter::Peekable<T::IntoIter> as Iterator>⟧.can_next)
        (⟦<iter::Peekable<T::IntoIter> as Iterator>⟧.remaining)) };

    fn try_into_nonempty_iter(self) -> Option<NonEmptyIterAdapter<iter::Peekable<T::IntoIter>>> {
        let mut iter = self.into_iter().peekable();
        if iter.peek().is_some() {
            Some(NonEmptyIterAdapter { inner: iter })
        } else {
            None
        }
    }
}
