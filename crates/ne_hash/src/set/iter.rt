//! The non-empty iterators over an [`NESet`] and over a union, and how a set is turned into one of
//! them or into std's iterators.
ghost use Rattle.std.specs.Prelude.{◌≡◌, length};
ghost use Rattle.std.specs.HashSet.{IsUnique};
ghost use Rattle.std.specs.Map.Iter.{deref};
ghost use Rattle.ne_vec.specs.Lists.{view_by};
ghost use Rattle.ne_iter.specs.Keyed.Iterators.{IteratesEntries, IteratesEntriesByValue};
ghost use Rattle.ne_iter.specs.Keyed.Iterators.{KnownByReference, KnownByValue};
ghost use Rattle.ne_iter.specs.Keyed.IteratorLaws.{HasFirst-entries};

use super::NESet;
use ne_iter::IntoNonEmptyIterator;
use ne_iter::iter::{HeldIterator, NonEmptyIter};
use std::collections::hash_set;
use std::hash::{BuildHasher, Hash};

impl<T: Eq + Hash + Drop, S: BuildHasher + Drop> IntoNonEmptyIterator for NESet<T, S> {
    ghost use Rattle.std.specs.Prelude.{◌≡◌};
    ghost use Rattle.std.specs.HashSet.{IsUnique};
    ghost use Rattle.ne_iter.specs.Keyed.Iterators.{ListsEntriesByValue, KnownByValue};
    ghost use Rattle.ne_iter.specs.Keyed.IteratorLaws.{SameLists-entries};

    type IntoNEIter = IntoIter<T>;

    ghost into_nonempty_iter_gives = { λ s w. (w ≡ s.keys) × IsUnique T.eq s
        × ListsEntriesByValue KnownByValue w s.keys };

    ghost same_lists = { SameLists-entries KnownByValue (λ x. x) (λ s. s.keys) (IsUnique T.eq) };

    fn into_nonempty_iter(self) -> IntoIter<T> {
        NonEmptyIter::new(self.into_iter())
    }
}

impl<'a, T: Eq + Hash, S: BuildHasher> IntoNonEmptyIterator for &'a NESet<T, S> {
    ghost use Rattle.std.specs.Prelude.{◌≡◌};
    ghost use Rattle.std.specs.HashSet.{IsUnique};
    ghost use Rattle.std.specs.Map.Iter.{deref};
    ghost use Rattle.ne_iter.specs.Keyed.Iterators.{ListsEntries, KnownByReference};
    ghost use Rattle.ne_iter.specs.Keyed.IteratorLaws.{SameLists-entries};

    type IntoNEIter = Iter<'a, T>;

    ghost into_nonempty_iter_gives = { λ s w. (w ≡ s.now.keys) × IsUnique T.eq s.now
        × ListsEntries (deref {X = T}) w s.now.keys };

    ghost same_lists = { SameLists-entries (KnownByReference 63 deref) deref (λ s. s.now.keys)
        (λ s. IsUnique T.eq s.now) };

    fn into_nonempty_iter(self) -> Iter<'a, T> {
        self.nonempty_iter()
    }
}

impl<T: Eq + Hash + Drop, S: BuildHasher + Drop> IntoIterator for NESet<T, S> {
    type Item = T;

    type IntoIter = hash_set::IntoIter<T>;

    ghost into_iter_gives = { λ s it. IteratesEntriesByValue s.keys it × IsUnique T.eq s };

    fn into_iter(self) -> hash_set::IntoIter<T> {
        let NESet { inner } = self;
        inner.into_iter()
    }
}

impl<'a, T: Eq + Hash, S: BuildHasher> IntoIterator for &'a NESet<T, S> {
    type Item = &'a T;

    type IntoIter = hash_set::Iter<'a, T>;

    ghost into_iter_gives = { λ s it. IteratesEntries (deref {X = T}) s.now.keys it
        × IsUnique T.eq s.now };

    fn into_iter(self) -> hash_set::Iter<'a, T> {
        self.inner.iter()
    }
}

/// What contracts know of the iterators that these types hold.
#[derive(Drop)]
pub struct Held;

/// A non-empty iterator over the items of an [`NESet`], in an unspecified order. In contracts it is
/// the list of the items.
pub type Iter<'a, T> = NonEmptyIter<hash_set::Iter<'a, T>, Held>;

impl<'a, T> HeldIterator<hash_set::Iter<'a, T>> for Held {
    ghost item_view = { view_by (deref {X = T}) };

    ghost items_left = { length };

    ghost known = { KnownByReference 63 (deref {X = T}) };

    ghost has_first = { HasFirst-entries deref };
}

/// A non-empty iterator over the items of an [`NESet`] by value, in an unspecified order. In
/// contracts it is the list of the items.
pub type IntoIter<T> = NonEmptyIter<hash_set::IntoIter<T>, Held>;

impl<T: Drop> HeldIterator<hash_set::IntoIter<T>> for Held {
    ghost items_left = { length };

    ghost known = { KnownByValue };

    ghost has_first = { HasFirst-entries (λ x. x) };
}

/// A non-empty iterator over the items of two sets, each once, in an unspecified order. In
/// contracts it is the list of the items.
pub type Union<'a, T, S> = NonEmptyIter<hash_set::Union<'a, T, S>, Held>;

impl<'a, T: Eq + Hash, S: BuildHasher> HeldIterator<hash_set::Union<'a, T, S>> for Held {
    ghost item_view = { view_by (deref {X = T}) };

    ghost items_left = { length };

    ghost known = { KnownByReference 64 (deref {X = T}) };

    ghost has_first = { HasFirst-entries deref };
}
