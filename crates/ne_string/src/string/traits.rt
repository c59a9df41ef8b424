//! The traits that [`NEString`] implements: conversions, collecting, comparison as a text, and
//! printing.
ghost use Rattle.std.specs.Prelude.{◌≡◌, ◌<◌, ◌++◌, [], Some, MatchResult, length, refl};
ghost use Rattle.std.specs.Prelude.{string_bytes};
ghost use Rattle.std.specs.Cmp.{partial_equiv_from_equiv};
ghost use Rattle.std.specs.Cmp.Lexicographic.{nat_list_cmp_total, nat_list_eq_equiv};
ghost use Rattle.std.specs.Cmp.Lexicographic.{slice_cmp, texts_po, texts_ties};
ghost use Rattle.std.specs.Fmt.{debug_str, styled_text};
ghost use Rattle.std.specs.Hash as fed;
ghost use Rattle.std.specs.List.{flat_map};
ghost use Rattle.std.specs.Ordering.{nat_cmp};
ghost use Rattle.std.specs.Str.{bytes_eq, chars, encode_utf8_all};
ghost use Rattle.ne_string.specs.CharacterLaws.{alike};

use super::NEString;
use ne_iter::{Error, FromNonEmptyIterator, IntoNonEmptyIterator, Singleton};
use ne_vec::NEVec;
use std::alloc::{AllocError, Global};
use std::cmp::Ordering;
use std::convert::AsStr;
use std::fmt;
use std::fmt::{Debug, Display};
use std::hash::{Hash, Hasher};
use std::ops::DerefStr;

/// Returns the inner `String`, which no longer guarantees a character.
///
/// ```
/// let text: String = NEString::new(alloc, 'A', "da")?.into(); // "Ada"
/// ```
impl From<NEString> for String {
    ghost from_gives = { λ v s. (string_bytes s ≡ v) × (0 < length v) };

    fn from(value: NEString) -> String {
        value.into_string()
    }
}

/// Returns the text that `try_from_string` returns, or `Error::Empty` if `text` is empty. It
/// does not allocate.
///
/// ```
/// let some = NEString::try_from(String::from_str(alloc, "Ada")?); // Ok("Ada")
/// ```
impl TryFrom<String> for NEString {
    ghost use Rattle.std.specs.Prelude.{Result};
    ghost use Rattle.ne_vec.specs.declared.Error.{Error};

    type Error = Error;

    ghost try_from_gives = { λ text r.
        MatchResult r (λ s. s ≡ string_bytes text) (λ _. string_bytes text ≡ []) };

    fn try_from(text: String) -> Result<NEString, Error> {
        match NEString::try_from_string(text) {
            Some(made) => Ok(made),
            None => Err(Error::Empty),
        }
    }
}

/// Returns the inner `String`, for the methods that only `String` has. It cannot be changed through
/// this reference.
impl AsRef<String> for NEString {
    fn as_ref(&self) -> &String
        ensures same { string_bytes result.now ≡ self.now }
        ensures nonempty { 0 < length self.now }
    {
        &self.inner
    }
}

/// Returns the text, for functions that take any text. It stands where Rust has `AsRef<str>`.
impl AsStr for NEString {
    ghost text = { λ s. s };

    fn as_str(&self) -> &str {
        self.inner.as_str()
    }
}

/// Lets the methods of `&str` be called on the text.
///
/// ```
/// let name = NEString::new(alloc, 'A', "da")?;
/// let starts = name.starts_with("Ad"); // true
/// ```
impl DerefStr for NEString {
    ghost deref_gives = { λ s bs. bs ≡ s };

    fn deref(&self) -> &str
        ensures { result.now ≡ self.now }
    {
        self.inner.as_str()
    }
}

/// Calls the inherent method `clone`.
impl Clone for NEString {
    ghost is_clone = { λ s t. t ≡ s };

    fn clone(&self) -> Result<NEString, AllocError> {
        NEString::clone(self)
    }
}

/// Appends the characters, in order.
///
/// Returns `AllocError` if the text has to grow and the allocation fails; the characters before
/// that are then appended.
///
/// ```
/// let mut name = NEString::new(alloc, 'A', "")?;
/// name.extend("da".chars())?; // "Ada"
/// ```
impl Extend<char> for NEString {
    ghost extend_gives = { λ s cs t. t ≡ s ++ encode_utf8_all cs };

    fn extend<I: IntoIterator<Item = char>>(&mut self, iter: I) -> Result<(), AllocError> {
        self.inner.extend(iter)
    }
}

/// Appends the texts, in order. They may be empty.
///
/// Returns `AllocError` if the text has to grow and the allocation fails; the texts before that are
/// then appended.
///
/// ```
/// let mut name = NEString::new(alloc, 'A', "")?;
/// name.extend(["d", "", "a"])?; // "Ada"
/// ```
impl<'a> Extend<&'a str> for NEString {
    ghost extend_gives = { λ s xs t. t ≡ s ++ flat_map (λ x. x.now) xs };

    fn extend<I: IntoIterator<Item = &'a str>>(&mut self, iter: I) -> Result<(), AllocError> {
        self.inner.extend(iter)
    }
}

/// Makes a text of the characters, in order.
///
/// ```
/// let name = NEString::new(alloc, 'A', "da")?;
/// let upper: NEString = name.chars().map(|c| c.to_ascii_uppercase()).collect(alloc)?; // "ADA"
/// ```
impl FromNonEmptyIterator<char> for NEString {
    ghost collected = { λ cs s. (s ≡ encode_utf8_all cs) × (chars s ≡ cs) };

    fn from_nonempty_iter<I: IntoNonEmptyIterator<Item = char>>(
        alloc: Global,
        iter: I,
    ) -> Result<NEString, AllocError> {
        let inner: String = String::from_nonempty_iter(alloc, iter)?;
        Ok(NEString { inner })
    }
}

/// Makes a text of the texts joined in order, which are first collected into a vector.
///
/// ```
/// let (first, second) = (NEString::new(alloc, 'A', "d")?, NEString::new(alloc, 'a', "")?);
/// let name: NEString = [first, second].into_nonempty_iter().collect(alloc)?; // "Ada"
/// ```
impl FromNonEmptyIterator<NEString> for NEString {
    ghost collected = { λ texts s. s ≡ flat_map (λ x. x) texts };

    fn from_nonempty_iter<I: IntoNonEmptyIterator<Item = NEString>>(
        alloc: Global,
        iter: I,
    ) -> Result<NEString, AllocError> {
        let texts: NEVec<NEString> = NEVec::from_nonempty_iter(alloc, iter)?;
        let (mut made, rest) = texts.into_first_and_rest();
        for text in rest {
            made.push_str(text.as_str())?;
        }
        Ok(made)
    }
}

/// Starts with one character, and adds each further one by `push`.
impl Singleton for NEString {
    type Item = char;

    ghost collected = { λ cs s. (s ≡ encode_utf8_all cs) × (chars s ≡ cs) };

    fn singleton(alloc: Global, item: char) -> Result<NEString, AllocError> {
        let made = NEString::new(alloc, item, "")?;
        Ok(made)
    }

    fn extend_one(&mut self, item: char) -> Result<(), AllocError> {
        self.push(item)?;
        Ok(())
    }
}

impl PartialEq for NEString {
    ghost eq = { bytes_eq };

    ghost laws = { partial_equiv_from_equiv nat_list_eq_equiv };

    fn eq(&self, other: &NEString) -> bool {
        self.inner == other.inner
    }
}

impl Eq for NEString {
    ghost laws = { nat_list_eq_equiv };
}

/// Feeds the hasher what the `&str` feeds it.
impl Hash for NEString {
    ghost hash_input = { fed.str };

    ghost respects_eq = { alike };

    fn hash<H: Hasher>(&self, state: &mut H) {
        self.inner.hash(state);
    }
}

impl PartialOrd for NEString {
    ghost partial_cmp = { λ s t. Some (slice_cmp nat_cmp s t) };

    ghost laws = { texts_po };

    fn partial_cmp(&self, other: &NEString) -> Option<Ordering> {
        self.inner.partial_cmp(&other.inner)
    }
}

/// Compares the texts as std does: by their bytes, in order, which is the order of their
/// characters' codes.
impl Ord for NEString {
    ghost cmp = { slice_cmp nat_cmp };

    ghost total = { nat_list_cmp_total };

    ghost matches_partial_cmp = { λ s t. refl };

    ghost matches_eq = { texts_ties };

    fn cmp(&self, other: &NEString) -> Ordering {
        self.inner.cmp(&other.inner)
    }
}

/// Prints the text, padded as a `&str` is.
impl Display for NEString {
    ghost output = { λ s. Some s };

    ghost styled_output = { λ s spec. Some (styled_text spec s) };

    fn fmt<W: fmt::Write>(&self, f: &mut fmt::Formatter<W>) -> fmt::Result {
        Display::fmt(&self.inner, f)
    }
}

/// Prints the text in quotes, with escapes, as a `&str`.
impl Debug for NEString {
    ghost debug_output = { debug_str };

    fn fmt<W: fmt::Write>(&self, f: &mut fmt::Formatter<W>) -> fmt::Result {
        Debug::fmt(&self.inner, f)
    }
}
