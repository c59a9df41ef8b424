//! Collecting: the trait [`FromNonEmptyIterator`], and the standard library's types that implement
//! it: `()`, vectors and results here, texts and paths in `texts`, and maps and sets in the crate's
//! module `keys`.
ghost use Rattle.std.specs.Prelude.{◌≡◌, ◌<◌, ◌++◌, Bool, true, List, [], IfOk, vec_len, map, Ok};
ghost use Rattle.std.specs.Prelude.{Result, Err, MatchOption, MatchResult, None, OnOk, OnSome, ◌∷◌};
ghost use Rattle.std.specs.Iterator.{DrainsIf, IsFinite, IsFiniteIterable, IsNearerEnd, Yields};
ghost use Rattle.std.specs.Iterator.{YieldsThen};
ghost use Rattle.std.specs.Result.{is_ok};
ghost use Rattle.ne_iter.specs.Collected.{AppendsRead, IsAllOrErrors, PrefixMakes, ResultsMake};

mod texts;

use super::{IntoNonEmptyIterator, ItemSource, NonEmptyIterator};
use ne_vec::NEVec;
use std::alloc::{AllocError, Global};
use std::marker::PhantomData;
use std::mem;

/// A type that can be made from one item or more.
///
/// `collected xs c` says that `c` is what the items `xs` make. `is_complete c` says that `c` was
/// made from all items of its source; it is false if collecting may have stopped early, for example
/// at a first `Err`.
///
/// ```
/// let list: Vec<u32> = [1u32, 1, 2].into_nonempty_iter().collect(alloc)?; // [1, 1, 2]
/// let text: String = ["ab", "", "c"].into_nonempty_iter().collect(alloc)?; // "abc"
/// ```
pub trait FromNonEmptyIterator<T>: Sized {
    ghost collected: { List T → Self → Type 0 };

    ghost is_complete: { Self → Bool } = { λ _. true };

    /// Collects the items. They must come to an end.
    ///
    /// Returns `AllocError` if the allocation fails; the items taken are then dropped.
    ///
    /// ```
    /// let items = NEVec::from_nonempty_iter(alloc, [1u32, 2])?; // [1, 2]
    /// ```
    fn from_nonempty_iter<I: IntoNonEmptyIterator<Item = T>>(
        alloc: Global,
        iter: I,
    ) -> Result<Self, AllocError>
        requires { (source : I.IntoNEIter) → I.into_nonempty_iter_gives iter source
            → IsFiniteIterable I.IntoNEIter.into_iter_gives I.IntoNEIter.IntoIter.can_next
            I.IntoNEIter.IntoIter.remaining source }
        ensures { IfOk result (λ c. (xs : List T)
            × ⟦<I as ItemSource>⟧.reads (is_complete c) iter xs × collected xs c) };

    /// Collects the items of a vector, which must have one, and leaves it empty. If vectors are
    /// collected, they keep its memory, and nothing is allocated. The Rust crate lacks this method.
    ///
    /// Returns `AllocError` if the allocation fails; the items are then dropped.
    ///
    /// ```
    /// let mut items = vec![in alloc; 3u32, 1, 4]?;
    /// let list: NEVec<u32> = FromNonEmptyIterator::from_drained(alloc, &mut items)?; // [3, 1, 4]
    /// let len = items.len(); // 0
    /// ```
    fn from_drained(alloc: Global, items: &mut Vec<T>) -> Result<Self, AllocError>
    where
        T: Drop,
        requires { 0 < vec_len items.old }
        ensures made { IfOk result (PrefixMakes collected is_complete items.old.items) }
        ensures drained { items.new.items ≡ [] }
    {
        let items = NEVec::try_from_vec(mem::replace(items, Vec::new(alloc))).unwrap();
        Self::from_nonempty_iter(alloc, items)
    }
}

/// Makes nothing, but takes every item.
impl FromNonEmptyIterator<()> for () {
    ghost use Rattle.std.specs.Prelude.{⊤};

    ghost collected = { λ _ _. ⊤ };

    fn from_nonempty_iter<I: IntoNonEmptyIterator<Item = ()>>(
        alloc: Global,
        iter: I,
    ) -> Result<(), AllocError> {
        for () in iter.into_nonempty_iter() {}
        Ok(())
    }
}

/// Makes a vector of the items, in order.
///
/// ```
/// let list: Vec<u32> = [1u32, 1, 2].into_nonempty_iter().collect(alloc)?; // [1, 1, 2]
/// ```
impl<T: Drop> FromNonEmptyIterator<T> for Vec<T> {
    ghost use Rattle.std.specs.Prelude.{◌≡◌};

    ghost collected = { λ xs v. v.items ≡ xs };

    #[inline(always)]
    fn from_nonempty_iter<I: IntoNonEmptyIterator<Item = T>>(
        alloc: Global,
        iter: I,
    ) -> Result<Vec<T>, AllocError> {
        let mut items = Vec::new(alloc);
        let _appended = iter.into_nonempty_iter().append_to(alloc, &mut items)?;
        Ok(items)
    }

    fn from_drained(alloc: Global, items: &mut Vec<T>) -> Result<Vec<T>, AllocError> {
        Ok(mem::replace(items, Vec::new(alloc)))
    }
}

/// Makes `Ok` of what the values make, or the first `Err`; no item after that is taken.
///
/// The values are first collected in a vector, which is then passed to `from_drained`. So a
/// `Result<NEVec<T>, E>` or `Result<Vec<T>, E>` is collected in one vector only.
///
/// ```
/// let items = nev![alloc; 3, 1, 4, 1, 5, 9, 2, 6]?.into_nonempty_iter();
/// let checked = items.map(|x| if x / 2 % 2 == 0 { Ok(x) } else { Err(x) });
/// let first_err: Result<NEVec<u32>, u32> = checked.collect(alloc)?; // Err(3)
/// ```
impl<T: Drop, E: Drop, V: FromNonEmptyIterator<T>> FromNonEmptyIterator<Result<T, E>>
    for Result<V, E> {
    ghost collected = { ResultsMake V.collected V.is_complete };

    ghost is_complete = { is_ok };

    fn from_nonempty_iter<I: IntoNonEmptyIterator<Item = Result<T, E>>>(
        alloc: Global,
        iter: I,
    ) -> Result<Result<V, E>, AllocError> {
        let (first, rest) = iter.into_nonempty_iter().next();
        let (mut values, _rest, err) = values_until_err(alloc, first, rest)?;
        match err {
            Some(e) => Ok(Err(e)),
            None => Ok(Ok(V::from_drained(alloc, &mut values)?)),
        }
    }
}

// Collects the values of the first item and of those that are left, up to the first `Err`, which is
// returned beside what is left then. It is inlined for the sake of a vector's own iterator: see
// `append`.
#[inline(always)]
fn values_until_err<T: Drop, E: Drop, I: Iterator<Item = Result<T, E>>>(
    alloc: Global,
    first: Result<T, E>,
    rest: I,
) -> Result<(Vec<T>, I, Option<E>), AllocError>
    requires { I.can_next rest × IsFinite (I.remaining rest) }
    ensures { IfOk result (λ r. (taken : List (Result T E)) × MatchOption r.2
        (YieldsThen I.next_gives rest taken None r.1 × (first ∷ taken ≡ map Ok r.0.items)
        × (0 < vec_len r.0))
        (λ e. Yields I.next_gives rest taken r.1 × I.can_next r.1 × IsFinite (I.remaining r.1)
        × (first ∷ taken ≡ map Ok r.0.items ++ Err e ∷ []))) }
{
    let mut values = Vec::new(alloc);
    match first {
        Ok(value) => push_first(&mut values, value, rest.size_hint().0)?,
        Err(e) => return Ok((values, rest, Some(e))),
    }
    let mut rest = rest;
    loop {
        let (filled, left, over) = fill_with_ok(values, rest);
        values = filled;
        rest = left;
        match over {
            Some(Ok(value)) => values.push(value)?,
            Some(Err(e)) => return Ok((values, rest, Some(e))),
            None => return Ok((values, rest, None)),
        }
    }
}

// Moves values into the places of `values` that are left. Returns the item that found no place, or
// the first `Err`, if one came.
#[inline(always)]
fn fill_with_ok<T: Drop, E: Drop, I: Iterator<Item = Result<T, E>>>(
    mut values: Vec<T>,
    mut rest: I,
) -> (Vec<T>, I, Option<Result<T, E>>)
    requires { I.can_next rest × IsFinite (I.remaining rest) }
    ensures { (taken : List (Result T E)) × (map Ok result.0.items ≡ map Ok values.items ++ taken)
        × YieldsThen I.next_gives rest taken result.2 result.1
        × OnSome result.2 (IsNearerEnd I.can_next I.remaining rest result.1) }
{
    while let Some(item) = rest.next() {
        match item {
            Ok(value) => {
                if values.len() == values.capacity() {
                    return (values, rest, Some(Ok(value)));
                }
                values.push_reserved(value);
            }
            Err(e) => return (values, rest, Some(Err(e))),
        }
    }
    (values, rest, None)
}

// Returns all values of the first item and of those that are left, or all errors. The values are
// dropped at the first error, and those after it as they come.
#[inline(always)]
pub(super) fn all_or_errors<T: Drop, E: Drop, I: Iterator<Item = Result<T, E>>>(
    alloc: Global,
    first: Result<T, E>,
    rest: I,
) -> Result<Result<NEVec<T>, NEVec<E>>, AllocError>
    requires { I.can_next rest × IsFinite (I.remaining rest) }
    ensures { IfOk result (λ valid. (rs : List (Result T E)) × (end : I)
        × YieldsThen I.next_gives rest rs None end × IsAllOrErrors (first ∷ rs) valid) }
{
    let (values, rest, err) = values_until_err(alloc, first, rest)?;
    let Some(e) = err else {
        return Ok(Ok(NEVec::try_from_vec(values).unwrap()));
    };
    drop(values);
    let mut errors = NEVec::new(alloc, e)?;
    for item in rest {
        match item {
            Ok(_value) => {}
            Err(e) => errors.push(e)?,
        }
    }
    Ok(Err(errors))
}

// Appends the items that are left of an iterator. It is inlined, and so is most of what collects
// into a vector, so that the compiler sees how a vector's own iterator was made.
#[inline(always)]
pub(super) fn append<T: Drop, I: Iterator<Item = T>>(
    alloc: Global,
    items: &mut Vec<T>,
    rest: I,
) -> Result<PhantomData<I>, AllocError>
    requires { I.can_next rest × IsFinite (I.remaining rest) }
    ensures { AppendsRead (DrainsIf I.next_gives (is_ok result ≡ true) rest)
        items.old.items items.new.items }
{
    let mut rest = rest;
    loop {
        let (filled, left, over) = fill(mem::replace(items, Vec::new(alloc)), rest);
        *items = filled;
        rest = left;
        let Some(item) = over else {
            return Ok(PhantomData);
        };
        push_first(items, item, rest.size_hint().0)?;
    }
}

// Pushes an item before `more` others. Without memory for all, the vector grows as they come.
pub(super) fn push_first<T: Drop>(
    items: &mut Vec<T>,
    item: T,
    more: usize,
) -> Result<(), AllocError>
    ensures items { MatchResult result (λ _. items.new.items ≡ items.old.items ++ item ∷ [])
        (λ _. items.new.items ≡ items.old.items) }
    ensures len { OnOk result (0 < vec_len items.new) }
{
    let _has_room = items.reserve(more.saturating_add(1)).is_ok();
    items.push(item)?;
    Ok(())
}

// Moves items into the places of `items` that are left. Returns the item that found no place.
#[inline(always)]
fn fill<T: Drop, I: Iterator<Item = T>>(mut items: Vec<T>, mut rest: I) -> (Vec<T>, I, Option<T>)
    requires { I.can_next rest × IsFinite (I.remaining rest) }
    ensures { (taken : List T) × (result.0.items ≡ items.items ++ taken)
        × YieldsThen I.next_gives rest taken result.2 result.1
        × OnSome result.2 (IsNearerEnd I.can_next I.remaining rest result.1) }
{
    while let Some(item) = rest.next() {
        if items.len() == items.capacity() {
            return (items, rest, Some(item));
        }
        items.push_reserved(item);
    }
    (items, rest, None)
}
