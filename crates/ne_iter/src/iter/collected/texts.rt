//! Collecting into texts and paths. In contracts a text is the list of its bytes.
ghost use Rattle.std.specs.Prelude.{◌≡◌, [], IfSome};
ghost use Rattle.std.specs.Char.{encode_utf8};
ghost use Rattle.std.specs.Cow.{cow_str_bytes};
ghost use Rattle.std.specs.List.{flat_map};
ghost use Rattle.std.specs.Path.{path_buf_bytes, path_join_all};
ghost use Rattle.std.specs.Str.{encode_utf8_all};
ghost use Rattle.std.specs.String.{string_bytes};

use crate::iter::{FromNonEmptyIterator, IntoNonEmptyIterator, NonEmptyIterator};
use std::alloc::{AllocError, Global};
use std::borrow::CowStr;
use std::path::{AsPath, PathBuf};

/// Makes a text of the texts joined in order.
impl FromNonEmptyIterator<String> for String {
    ghost collected = { λ xs s. string_bytes s ≡ flat_map string_bytes xs };

    fn from_nonempty_iter<I: IntoNonEmptyIterator<Item = String>>(
        alloc: Global,
        iter: I,
    ) -> Result<String, AllocError> {
        iter.into_nonempty_iter().into_iter().collect(alloc)
    }
}

/// Makes a text of the texts joined in order.
///
/// ```
/// let text: String = ["ab", "", "c"].into_nonempty_iter().collect(alloc)?; // "abc"
/// ```
impl<'a> FromNonEmptyIterator<&'a str> for String {
    ghost collected = { λ xs s. string_bytes s ≡ flat_map (λ x. x.now) xs };

    fn from_nonempty_iter<I: IntoNonEmptyIterator<Item = &'a str>>(
        alloc: Global,
        iter: I,
    ) -> Result<String, AllocError> {
        iter.into_nonempty_iter().into_iter().collect(alloc)
    }
}

/// Makes a text of the texts joined in order, whether they are borrowed or owned.
impl<'a> FromNonEmptyIterator<CowStr<'a>> for String {
    ghost collected = { λ xs s. string_bytes s ≡ flat_map cow_str_bytes xs };

    fn from_nonempty_iter<I: IntoNonEmptyIterator<Item = CowStr<'a>>>(
        alloc: Global,
        iter: I,
    ) -> Result<String, AllocError> {
        iter.into_nonempty_iter().into_iter().collect(alloc)
    }
}

/// Makes a text of the characters in order.
///
/// ```
/// let text: String = ['x', 'y'].into_nonempty_iter().collect(alloc)?; // "xy"
/// ```
impl FromNonEmptyIterator<char> for String {
    ghost collected = { λ xs s. string_bytes s ≡ encode_utf8_all xs };

    fn from_nonempty_iter<I: IntoNonEmptyIterator<Item = char>>(
        alloc: Global,
        iter: I,
    ) -> Result<String, AllocError> {
        iter.into_nonempty_iter().into_iter().collect(alloc)
    }
}

/// Makes a text of the characters in order.
impl<'a> FromNonEmptyIterator<&'a char> for String {
    ghost collected = { λ xs s. string_bytes s ≡ flat_map (λ x. encode_utf8 x.now) xs };

    fn from_nonempty_iter<I: IntoNonEmptyIterator<Item = &'a char>>(
        alloc: Global,
        iter: I,
    ) -> Result<String, AllocError> {
        iter.into_nonempty_iter().into_iter().collect(alloc)
    }
}

/// Makes a path: the empty path, with each part pushed in turn. An absolute part replaces what came
/// before it.
///
/// The contract covers parts whose text is known, as it is for each of the standard library's
/// types.
///
/// ```
/// let path: PathBuf = ["a", "b"].into_nonempty_iter().collect(alloc)?; // a/b
/// ```
impl<P: AsPath> FromNonEmptyIterator<P> for PathBuf {
    ghost collected = { λ xs p. IfSome (path_join_all P.path_text [] xs)
        (λ joined. path_buf_bytes p ≡ joined) };

    fn from_nonempty_iter<I: IntoNonEmptyIterator<Item = P>>(
        alloc: Global,
        iter: I,
    ) -> Result<PathBuf, AllocError> {
        iter.into_nonempty_iter().into_iter().collect(alloc)
    }
}
