//! The adapter that yields the items of inner sources, one source after another. The inner sources
//! are the items themselves.
ghost use Rattle.std.specs.Prelude.{◌≡◌, ◌+◌, ◌≤◌, ◌⊎◌, ◌++◌, ◌∷◌, [], false, true};
ghost use Rattle.std.specs.Prelude.{vec_capacity, vec_len};
ghost use Rattle.std.specs.Bool.{OnTrue};
ghost use Rattle.std.specs.Iterator.{DrainsIf, IsFinite};
ghost use Rattle.std.specs.Iterator.Adapters.{InnersAreFinite};
ghost use Rattle.std.specs.Result.{is_ok};
ghost use Rattle.ne_iter.specs.Collected.{AppendsRead};
ghost use Rattle.ne_iter.specs.Flatten.{flatten_source, IsFlattened};
ghost use Rattle.ne_iter.specs.Sources.{Reads};

use super::collected::{append, push_first};
use super::{IntoNonEmptyIterator, ItemSource, NonEmptyIterator};
use std::alloc::{AllocError, Global};
use std::marker::PhantomData;
use std::{iter, mem};

/// A source of the items of a source's items, which are sources: see [`NonEmptyIterator::flatten`].
#[derive(Drop)]
pub struct Flatten<I> {
    pub(super) iter: I,
}

impl<U: IntoIterator, I: IntoIterator<Item = U>> IntoIterator for Flatten<I> {
    ghost use Rattle.std.specs.Prelude.{◌≡◌, None, false};
    ghost use Rattle.std.specs.Iterator.Adapters.{flatten_source as std_flatten_source};
    ghost use Rattle.std.specs.Iterator.Adapters.{flatten_front, flatten_back, flatten_done};
    ghost use Rattle.ne_iter.specs.Flatten.{flatten_source};

    type Item = U::Item;

    type IntoIter = iter::Flatten<I::IntoIter, U::IntoIter>;

    ghost into_iter_gives = { λ s it. I.into_iter_gives (flatten_source s) (std_flatten_source it)
        × (flatten_front it ≡ None) × (flatten_back it ≡ None) × (flatten_done it ≡ false) };

    fn into_iter(self) -> iter::Flatten<I::IntoIter, U::IntoIter> {
        self.iter.into_iter().flatten()
    }
}

impl<U: IntoNonEmptyIterator, I: NonEmptyIterator<Item = U>> NonEmptyIterator for Flatten<I> {
    ghost use Rattle.std.specs.Iterator.Adapters.{flatten_source as std_flatten_source};
    ghost use Rattle.ne_iter.specs.Flatten.{flatten_source, HasFirst-flatten};
    ghost use Rattle.ne_iter.specs.SourceLaws.{IsNonEmpty-into};

    #[inline(always)]
    fn append_to(
        self,
        alloc: Global,
        items: &mut Vec<U::Item>,
    ) -> Result<PhantomData<iter::Flatten<I::IntoIter, U::IntoIter>>, AllocError>
    where
        U::Item: Drop,
    {
        append_each(alloc, items, self.iter.into_iter())
    }

    ghost not_empty = { λ s it made.
        HasFirst-flatten I.IntoIter.next_gives U.into_iter_gives U.IntoIter.next_gives it
        made.1 made.3
        (I.not_empty (flatten_source s) (std_flatten_source it) made.0)
        (IsNonEmpty-into U.into_iter_gives U.IntoIter.next_gives U.into_nonempty_iter_gives
        U.IntoNEIter.into_iter_gives U.IntoNEIter.IntoIter.next_gives
        U.same_lists U.IntoNEIter.not_empty) };
}

// Appends the items of each source that comes, one source after another.
#[inline(always)]
pub(super) fn append_each<T: Drop, U: IntoIterator<Item = T>, I: Iterator<Item = U>>(
    alloc: Global,
    items: &mut Vec<T>,
    sources: I,
) -> Result<PhantomData<iter::Flatten<I, U::IntoIter>>, AllocError>
    requires { I.can_next sources × IsFinite (I.remaining sources)
        × InnersAreFinite I.next_gives U.into_iter_gives U.IntoIter.can_next U.IntoIter.remaining
        sources }
    ensures { AppendsRead (IsFlattened (λ whole. DrainsIf I.next_gives (whole ≡ true))
        (Reads U.into_iter_gives U.IntoIter.next_gives) sources (is_ok result))
        items.old.items items.new.items }
{
    let mut sources = sources;
    while let Some(source) = sources.next() {
        let begun = mem::replace(items, Vec::new(alloc));
        let (appended, is_whole) = append_source(alloc, begun, source);
        *items = appended;
        if !is_whole {
            return Err(AllocError);
        }
    }
    Ok(PhantomData)
}

// Appends the items of a source. Returns whether the memory sufficed.
//
// As many items as its iterator promises are taken by a loop of so many turns, which the compiler
// unrolls for an array, as long as it sees this function, with the call of `into_iter`, before its
// caller. It keeps a vector in registers if that is passed by value.
fn append_source<T: Drop, U: IntoIterator<Item = T>>(
    alloc: Global,
    items: Vec<T>,
    source: U,
) -> (Vec<T>, bool)
    requires { ⟦<U as ItemSource>⟧.ends source }
    ensures { AppendsRead (⟦<U as ItemSource>⟧.reads result.1 source)
        items.items result.0.items }
{
    let mut rest = source.into_iter();
    let promised = rest.size_hint().0;
    let (mut items, has_room) = with_room(items, promised);
    if !has_room {
        return append_rest(alloc, items, rest);
    }
    for _ in 0..promised {
        let Some(item) = rest.next() else {
            return (items, true);
        };
        items.push_reserved(item);
    }
    append_rest(alloc, items, rest)
}

// Makes room for further items. Returns whether there is room.
#[inline(always)]
fn with_room<T: Drop>(items: Vec<T>, more: usize) -> (Vec<T>, bool)
    ensures items { result.0.items ≡ items.items }
    ensures room { OnTrue result.1 (vec_len result.0 + more ≤ vec_capacity result.0) }
{
    if more <= items.capacity() - items.len() {
        (items, true)
    } else {
        reserve(items, more)
    }
}

// Makes room that is lacking.
#[inline(never)]
fn reserve<T: Drop>(mut items: Vec<T>, more: usize) -> (Vec<T>, bool)
    ensures items { result.0.items ≡ items.items }
    ensures room { OnTrue result.1 (vec_len result.0 + more ≤ vec_capacity result.0) }
{
    let has_room = items.reserve(more).is_ok();
    (items, has_room)
}

// Appends the items that are left of an iterator, mostly none. Returns whether the memory sufficed.
#[inline(always)]
fn append_rest<T: Drop, I: Iterator<Item = T>>(
    alloc: Global,
    items: Vec<T>,
    mut rest: I,
) -> (Vec<T>, bool)
    requires { I.can_next rest × IsFinite (I.remaining rest) }
    ensures { AppendsRead (DrainsIf I.next_gives (result.1 ≡ true) rest)
        items.items result.0.items }
{
    match rest.next() {
        Some(item) => append_from(alloc, items, item, rest),
        None => (items, true),
    }
}

// Appends an item and those that follow. If the item found no memory, nothing is appended.
fn append_from<T: Drop, I: Iterator<Item = T>>(
    alloc: Global,
    mut items: Vec<T>,
    item: T,
    rest: I,
) -> (Vec<T>, bool)
    requires { I.can_next rest × IsFinite (I.remaining rest) }
    ensures { ((result.1 ≡ false) × (result.0.items ≡ items.items))
        ⊎ AppendsRead (DrainsIf I.next_gives (result.1 ≡ true) rest)
        (items.items ++ item ∷ []) result.0.items }
{
    if push_first(&mut items, item, rest.size_hint().0).is_err() {
        return (items, false);
    }
    let is_whole = append(alloc, &mut items, rest).is_ok();
    (items, is_whole)
}

/// `flatten` ends if its source does and so do the inner sources that come.
pub fn flatten_ends<U: IntoIterator, S: IntoIterator<Item = U>>()
    ensures { (flat : _) → ⟦<S as ItemSource>⟧.ends (flatten_source flat)
        → ((it : S.IntoIter) → S.into_iter_gives (flatten_source flat) it
        → InnersAreFinite S.IntoIter.next_gives U.into_iter_gives U.IntoIter.can_next
        U.IntoIter.remaining it)
        → ⟦<Flatten<S> as ItemSource>⟧.ends flat }
{}
