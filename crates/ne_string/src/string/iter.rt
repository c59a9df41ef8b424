//! The non-empty iterators over the characters and over the bytes of an [`NEString`].
//!
//! [`NEString`]: super::NEString
ghost use Rattle.std.specs.Prelude.{◌<◌, ◌^◌, length};
ghost use Rattle.std.specs.Str.{IsUtf8};
ghost use Rattle.std.specs.Str.Iter.{bytes_rest, chars_rest};
ghost use Rattle.ne_string.specs.CharacterLaws.{HasFirst-bytes, HasFirst-chars};

use ne_iter::iter::{HeldIterator, NonEmptyIter};
use std::str;

/// What contracts know of the iterators that these types hold.
#[derive(Drop)]
pub struct Held;

/// A non-empty iterator over the characters of an [`NEString`](super::NEString), in order. In
/// contracts it is std's iterator: `chars_rest` of it is the text that it has left.
pub type Chars<'a> = NonEmptyIter<str::Chars<'a>, Held>;

impl<'a> HeldIterator<str::Chars<'a>> for Held {
    ghost items_left = { λ it. length (chars_rest it) };

    ghost known = { λ it. IsUtf8 (chars_rest it) };

    ghost has_first = { HasFirst-chars };
}

/// A non-empty iterator over the bytes of an [`NEString`](super::NEString), in order. In contracts
/// it is std's iterator: `bytes_rest` of it is the list of the bytes that it has left.
pub type Bytes<'a> = NonEmptyIter<str::Bytes<'a>, Held>;

impl<'a> HeldIterator<str::Bytes<'a>> for Held {
    ghost items_left = { λ it. length (bytes_rest it) };

    ghost known = { λ it. length (bytes_rest it) < 2 ^ 64 };

    ghost has_first = { HasFirst-bytes };
}
