//! A user's own sources: a plain one, one with a model, a borrowed and a boxed one, and a value
//! that becomes one.
//!
//! Each but the last implements [`NonEmptyIterator`] by its law, and has all the methods.
ghost use Rattle.std.specs.Prelude.{◌≡◌, ◌<◌, List, [], ◌∷◌, length, reverse, IfOk, IfErr};
ghost use Rattle.std.specs.Iterator.{YieldsFirst, YieldsFirstRef, at_most, item_count};
ghost use Rattle.std.specs.Int.NonZero.{non_zero_u32_get};
ghost use Rattle.ne_vec.specs.Lists.{Listed};
ghost use Rattle.user_generic.specs.OwnSources.{counted_down, start_of, left_of, seconds_of};
ghost use Rattle.user_generic.specs.OwnSources.{in_box};
ghost use Rattle.user_generic.specs.OwnSources.{IteratesStack};

use ne_iter::{IntoNonEmptyIterator, NonEmptyIterator};
use std::alloc::{AllocError, Global};
use std::marker::Model;
use std::num::NonZeroU32;

/// The numbers from a first one down to 1.
#[derive(Drop)]
pub struct Countdown {
    from: NonZeroU32,
}

impl Countdown {
    /// Returns the countdown from `from` down to 1.
    pub fn new(from: NonZeroU32) -> Countdown
        ensures { start_of result ≡ non_zero_u32_get from }
    {
        Countdown { from }
    }
}

/// The numbers of a [`Countdown`] that are left.
#[derive(Drop)]
pub struct CountdownIter {
    left: u32,
}

impl Iterator for CountdownIter {
    type Item = u32;

    ghost next_gives = { YieldsFirst (λ it. counted_down (left_of it)) };

    ghost remaining = { λ it. at_most (left_of it) };

    fn next(&mut self) -> Option<u32> {
        if self.left == 0 {
            return None;
        }
        let number = self.left;
        self.left -= 1;
        Some(number)
    }
}

impl IntoIterator for Countdown {
    type Item = u32;

    type IntoIter = CountdownIter;

    ghost into_iter_gives = { λ s it. left_of it ≡ start_of s };

    fn into_iter(self) -> CountdownIter {
        CountdownIter {
            left: self.from.get(),
        }
    }
}

impl NonEmptyIterator for Countdown {
    ghost use Rattle.user_generic.specs.OwnSourceLaws.{some_counted};

    ghost not_empty = { λ s it made t ended. some_counted (left_of it) (start_of s) s.from.ok made
        ended.0 };
}

/// A start, which becomes a [`Countdown`] when it is passed as a source.
#[derive(Drop)]
pub struct Start {
    seconds: NonZeroU32,
}

impl Start {
    /// Returns a start with this number of seconds.
    pub fn new(seconds: NonZeroU32) -> Start
        ensures { seconds_of result ≡ non_zero_u32_get seconds }
    {
        Start { seconds }
    }
}

impl IntoIterator for Start {
    type Item = u32;

    type IntoIter = CountdownIter;

    ghost into_iter_gives = { λ s it. left_of it ≡ seconds_of s };

    fn into_iter(self) -> CountdownIter {
        Countdown::new(self.seconds).into_iter()
    }
}

impl IntoNonEmptyIterator for Start {
    ghost use Rattle.std.proofs.Common.{refl, ◌∙◌};

    type IntoNEIter = Countdown;

    ghost into_nonempty_iter_gives = { λ s c. start_of c ≡ seconds_of s };

    ghost same_lists = { λ s whole xs. (
      (λ h. (
        record { from = s.seconds },
        refl,
        record { it = h.it; made = h.made; given = h.given },
      )),
      (λ c same h. record { it = h.it; made = h.made ∙ same; given = h.given }),
    ) };

    fn into_nonempty_iter(self) -> Countdown {
        Countdown::new(self.seconds)
    }
}

/// A stack that has an item. In contracts its value is the list of its items, the newest first.
#[derive(Drop)]
pub struct Stack<T> {
    items: Vec<T>,
}

impl<T> Model for Stack<T> {
    ghost use Rattle.std.specs.Prelude.{◌<◌, List, length, reverse};

    ghost Value = { List T };

    ghost view = { λ s. reverse s.items.items };

    ghost invariant = { λ s. 0 < length s.items.items };
}

impl<T: Drop> Stack<T> {
    /// Returns a stack of one item. Returns `AllocError` if the allocation fails; the item is then
    /// dropped.
    pub fn new(alloc: Global, item: T) -> Result<Stack<T>, AllocError>
        ensures { IfOk result (λ s. s ≡ item ∷ []) }
    {
        let mut items = Vec::new(alloc);
        items.push(item)?;
        Ok(Stack { items })
    }

    /// Puts an item on top. Returns `AllocError` if the allocation fails; the stack is then
    /// unchanged, and the item is dropped.
    pub fn push(&mut self, item: T) -> Result<(), AllocError>
        ensures added { IfOk result (λ _. self.new ≡ item ∷ self.old) }
        ensures unchanged { IfErr result (λ _. self.new ≡ self.old) }
    {
        self.items.push(item)?;
        Ok(())
    }
}

impl<T> Stack<T> {
    /// Returns a source of references to the items, the newest first. Its contract names their
    /// list, so the contract of a chain over it is proved automatically.
    pub fn nonempty_iter(&self) -> &Stack<T>
        ensures { Listed IteratesStack (YieldsFirstRef (λ left. left)) (λ y. y.now) result
            self.now }
    {
        self
    }
}

/// An iterator over the items of a [`Stack`], by value. In contracts its value is the list of the
/// items that are left.
#[derive(Drop)]
pub struct StackIntoIter<T> {
    items: Vec<T>,
}

impl<T> Model for StackIntoIter<T> {
    ghost use Rattle.std.specs.Prelude.{List, reverse};

    ghost Value = { List T };

    ghost view = { λ it. reverse it.items.items };
}

impl<T: Drop> Iterator for StackIntoIter<T> {
    type Item = T;

    ghost next_gives = { YieldsFirst (λ left. left) };

    ghost remaining = { item_count (λ left. left) };

    fn next(&mut self) -> Option<T> {
        self.items.pop()
    }
}

impl<T: Drop> IntoIterator for Stack<T> {
    type Item = T;

    type IntoIter = StackIntoIter<T>;

    ghost into_iter_gives = { λ s it. (0 < length s) × (it ≡ s) };

    fn into_iter(self) -> StackIntoIter<T> {
        StackIntoIter { items: self.items }
    }
}

impl<T: Drop> NonEmptyIterator for Stack<T> {
    ghost use Rattle.user_generic.specs.OwnSourceLaws.{some_left};

    ghost not_empty = { λ s it made t ended. some_left s it made.0 made.1 ended.0 };
}

/// An iterator over references to the items of a [`Stack`]. In contracts its value is the list of
/// the items that are left.
#[derive(Drop)]
pub struct StackIter<'a, T> {
    items: &'a [T],
}

impl<'a, T> Model for StackIter<'a, T> {
    ghost use Rattle.std.specs.Prelude.{List, reverse};

    ghost Value = { List T };

    ghost view = { λ it. reverse it.items.now };
}

impl<'a, T> Iterator for StackIter<'a, T> {
    type Item = &'a T;

    ghost next_gives = { YieldsFirstRef (λ left. left) };

    ghost remaining = { item_count (λ left. left) };

    fn next(&mut self) -> Option<&'a T> {
        let (last, others) = self.items.split_last()?;
        self.items = others;
        Some(last)
    }
}

impl<'a, T> IntoIterator for &'a Stack<T> {
    type Item = &'a T;

    type IntoIter = StackIter<'a, T>;

    ghost into_iter_gives = { IteratesStack };

    fn into_iter(self) -> StackIter<'a, T> {
        StackIter {
            items: self.items.as_slice(),
        }
    }
}

impl<'a, T> NonEmptyIterator for &'a Stack<T> {
    ghost use Rattle.user_generic.specs.OwnSourceLaws.{some_left};
    ghost use Rattle.ne_vec.specs.Lists.{referenced};

    ghost item_view = { referenced };

    ghost not_empty = { λ s it made t ended. some_left s.now it made.0 made.1 ended.0 };
}

/// A source in a box.
#[derive(Drop)]
pub struct Boxed<I> {
    inner: Box<I>,
}

impl<I: NonEmptyIterator> Boxed<I> {
    /// Puts a source into a box. Returns `AllocError` if the allocation fails; the source is then
    /// dropped.
    pub fn new(alloc: Global, inner: I) -> Result<Boxed<I>, AllocError>
    where
        I: Drop,
        ensures { IfOk result (λ b. in_box b ≡ inner) }
    {
        Ok(Boxed {
            inner: Box::new(alloc, inner)?,
        })
    }
}

impl<I: NonEmptyIterator> IntoIterator for Boxed<I> {
    type Item = I::Item;

    type IntoIter = I::IntoIter;

    ghost into_iter_gives = { λ b it. I.into_iter_gives (in_box b) it };

    fn into_iter(self) -> I::IntoIter {
        Box::into_inner(self.inner).into_iter()
    }
}

impl<I: NonEmptyIterator> NonEmptyIterator for Boxed<I> {
    ghost item_view = { I.item_view };

    ghost not_empty = { λ b. I.not_empty (in_box b) };
}
