//! The non-empty iterators over an [`NEVec`], and the conversions of them and of a vector into
//! std's iterators.

ghost use Rattle.std.specs.Prelude.{◌≡◌, ◌<◌, length, ⊤};
ghost use Rattle.std.specs.Slice.Iter.{iter_mut_rest};

use super::NEVec;
use std::alloc::AllocError;
use std::marker::Model;
use std::{slice, vec};

/// An iterator over the items of an [`NEVec`], of which there is at least one. In contracts its
/// value is the list of them.
#[derive(Drop)]
pub struct Iter<'a, T> {
    pub(super) inner: &'a [T],
}

impl<'a, T> Model for Iter<'a, T> {
    ghost use Rattle.std.specs.Prelude.{◌<◌, List, length};

    ghost Value = { List T };

    ghost view = { λ w. w.inner.now };

    ghost invariant = { λ w. 0 < length w.inner.now };
}

impl<'a, T> IntoIterator for Iter<'a, T> {
    ghost use Rattle.ne_vec.specs.Iterators.{IteratesOver};

    type Item = &'a T;

    type IntoIter = slice::Iter<'a, T>;

    ghost into_iter_gives = { λ v it. IteratesOver v it };

    fn into_iter(self) -> slice::Iter<'a, T> {
        self.inner.iter()
    }
}

impl<'a, T> Clone for Iter<'a, T> {
    ghost is_clone = { λ v w. w ≡ v };

    ghost is_infallible = { λ _. ⊤ };

    fn clone(&self) -> Result<Iter<'a, T>, AllocError> {
        Ok(Iter { inner: self.inner })
    }
}

/// A mutable iterator over the items of an [`NEVec`], of which there is at least one. Contracts
/// describe it by the std iterator inside, `std_iterator`.
#[derive(Drop)]
pub struct IterMut<'a, T> {
    pub(super) inner: slice::IterMut<'a, T>,
    ghost nonempty: { 0 < length (iter_mut_rest inner) },
}

impl<'a, T> IntoIterator for IterMut<'a, T> {
    ghost use Rattle.ne_vec.specs.VectorLends.{std_iterator};

    type Item = &'a mut T;

    type IntoIter = slice::IterMut<'a, T>;

    ghost into_iter_gives = { λ w it. (0 < length (iter_mut_rest it)) × (it ≡ std_iterator w) };

    fn into_iter(self) -> slice::IterMut<'a, T> {
        self.inner
    }
}

/// The items of an [`NEVec`], at least one, by value. In contracts its value is the list of them.
#[derive(Drop)]
pub struct IntoIter<T> {
    inner: NEVec<T>,
}

impl<T> Model for IntoIter<T> {
    ghost use Rattle.std.specs.Prelude.{List};

    ghost Value = { List T };

    ghost view = { λ w. w.inner };
}

impl<T> From<NEVec<T>> for IntoIter<T> {
    ghost from_gives = { λ v w. w ≡ v };

    fn from(value: NEVec<T>) -> IntoIter<T> {
        IntoIter { inner: value }
    }
}

impl<T: Drop> IntoIterator for IntoIter<T> {
    ghost use Rattle.ne_vec.specs.Iterators.{IteratesByValue};

    type Item = T;

    type IntoIter = vec::IntoIter<T>;

    ghost into_iter_gives = { λ v it. IteratesByValue v it };

    fn into_iter(self) -> vec::IntoIter<T> {
        self.inner.into_iter()
    }
}

impl<T: Drop> IntoIterator for NEVec<T> {
    ghost use Rattle.ne_vec.specs.Iterators.{IteratesByValue};

    type Item = T;

    type IntoIter = vec::IntoIter<T>;

    ghost into_iter_gives = { λ v it. IteratesByValue v it };

    fn into_iter(self) -> vec::IntoIter<T> {
        self.inner.into_iter()
    }
}

impl<'a, T> IntoIterator for &'a NEVec<T> {
    ghost use Rattle.ne_vec.specs.Iterators.{IteratesOver};

    type Item = &'a T;

    type IntoIter = slice::Iter<'a, T>;

    ghost into_iter_gives = { λ v it. IteratesOver v.now it };

    fn into_iter(self) -> slice::Iter<'a, T> {
        self.inner.iter()
    }
}

impl<'a, T> IntoIterator for &'a mut NEVec<T> {
    ghost use Rattle.std.specs.Borrow.{sem};
    ghost use Rattle.ne_vec.specs.VectorLends.{LendsIterator};
    ghost use Rattle.ne_vec.specs.Iterators.{IteratesOverMut};

    type Item = &'a mut T;

    type IntoIter = slice::IterMut<'a, T>;

    fn into_iter(self) -> slice::IterMut<'a, T>
        ensures* writes_back { sem 𝓛 (LendsIterator T.row self.entry result) }
        ensures into_iter_gives { IteratesOverMut self.old result }
    {
        self.inner.iter_mut()
    }
}
