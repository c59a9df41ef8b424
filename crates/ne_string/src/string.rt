//! [`NEString`], a text that is never empty, and its iterators.
//!
//! Most methods have the names of std's `String` and `str`, with those that always have a value in
//! place of those that return an `Option`, in the order of the methods of `NEVec`. `iter` has the
//! non-empty iterators, `traits` the implementations of traits, `lookups` those by which a `&str`
//! looks up a text in a map or set, and `serialized` those of serde.
//!
//! A method that removes characters never removes the only one. A method that allocates returns
//! `AllocError` if the allocation fails, and its comment says what holds after that. Indices and
//! `len` count bytes, as std's do; `char_count` counts characters.
ghost use Rattle.std.specs.Prelude.{◌≡◌, ◌-◌, ◌<◌, ◌≤◌, ◌↔◌, ℕ, List, [], ◌∷◌, ◌++◌};
ghost use Rattle.std.specs.Prelude.{false, length, take, drop, map, Some, None, IfOk, IfSome};
ghost use Rattle.std.specs.Prelude.{IsTrue, MatchBool, OnOk, OnErr, slice_get, slice_index};
ghost use Rattle.std.specs.Prelude.{Bool, IsErr, string_bytes};
ghost use Rattle.std.specs.Bound.{start_index, end_index};
ghost use Rattle.std.specs.Char.{encode_utf8, to_ascii_lowercase, to_ascii_uppercase};
ghost use Rattle.std.specs.Iterator.{ActsAs};
ghost use Rattle.std.specs.List.{filter, insert_slice, replace_range};
ghost use Rattle.std.specs.NonZero.{non_zero_usize_get};
ghost use Rattle.std.specs.Str.{chars, encode_utf8_all};
ghost use Rattle.std.specs.Str.Iter.{bytes_rest, chars_rest};
ghost use Rattle.std.specs.String.{RetainsChars};
ghost use Rattle.std.specs.String.Boundary.{IsSplitPoint};
ghost use Rattle.ne_string.specs.Characters.{ListsBytes, ListsChars, ReplacesUnlessAll};
ghost use Rattle.ne_string.specs.Characters.{TakesUnlessLastChar, kept_text};

mod iter;
mod lookups;
mod serialized;
mod traits;

pub use iter::{Bytes, Chars, Held};
use ne_iter::NonEmptyIterator;
use ne_iter::iter::NonEmptyIter;
use ne_vec::NEVec;
use std::alloc::{AllocError, Global};
use std::marker::Model;
use std::num::NonZeroUsize;
use std::ops::RangeBounds;
use std::slice;

/// A text of at least one character, in UTF-8.
///
/// It takes the place of std's `String`, and grows at the end like it. Its first and last
/// characters always exist. In contracts its value is the list of its bytes, as that of a `&str`,
/// and `chars` of it is the list of its characters. Methods that do not mention allocation do not
/// allocate. A map or set of texts looks up a `&str`, as in `map.get("Ada")`.
///
/// ```
/// let mut name = NEString::new(alloc, 'A', "da")?;
/// name.push('m')?;
/// let (first, last) = (name.first(), name.last()); // 'A' and 'm'
/// ```
#[derive(Drop)]
pub struct NEString {
    inner: String,
}

impl Model for NEString {
    ghost use Rattle.std.specs.Prelude.{◌<◌, List, ℕ, length, string_bytes};

    ghost Value = { List ℕ };

    ghost view = { λ s. string_bytes s.inner };

    ghost invariant = { λ s. 0 < length (string_bytes s.inner) };
}

impl NEString {
    /// Returns the text of the character `first`, followed by `rest`.
    ///
    /// Returns `AllocError` if the allocation fails.
    ///
    /// ```
    /// let name = NEString::new(alloc, 'A', "da")?; // "Ada"
    /// ```
    pub fn new(alloc: Global, first: char, rest: &str) -> Result<Self, AllocError>
        ensures bytes { IfOk result (λ s. s ≡ encode_utf8 first ++ rest.now) }
        ensures characters { IfOk result (λ s. chars s ≡ first ∷ chars rest.now) }
    {
        let mut inner = String::new(alloc);
        inner.push(first)?;
        inner.push_str(rest)?;
        Ok(NEString { inner })
    }

    /// Returns the text of the character `first`, with room for `capacity` bytes from the start.
    ///
    /// Returns `AllocError` if the allocation fails. The capacity of the result is not specified.
    ///
    /// ```
    /// let capacity = NonZeroUsize::new(5).unwrap();
    /// let name = NEString::with_capacity(alloc, capacity, 'A')?; // "A"
    /// ```
    pub fn with_capacity(
        alloc: Global,
        capacity: NonZeroUsize,
        first: char,
    ) -> Result<Self, AllocError>
        ensures bytes { IfOk result (λ s. s ≡ encode_utf8 first) }
        ensures characters { IfOk result (λ s. chars s ≡ first ∷ []) }
    {
        let mut inner = String::with_capacity(alloc, capacity.get())?;
        inner.push(first)?;
        Ok(NEString { inner })
    }

    /// Returns the first character.
    ///
    /// ```
    /// let name = NEString::new(alloc, 'Ö', "sterreich")?;
    /// let first = name.first(); // 'Ö'
    /// ```
    pub fn first(&self) -> char
        ensures first { slice_get (chars self.now) 0 ≡ Some result }
        // As a function of the text: for a list of the first characters of texts.
        ensures code { result ≡ slice_index (chars self.now) 0 }
    {
        self.split_first().0
    }

    /// Appends the character `c` to the end of the text.
    ///
    /// Returns `AllocError` if the text has to grow and the allocation fails; the text is then
    /// unchanged.
    ///
    /// ```
    /// let mut name = NEString::new(alloc, 'A', "d")?;
    /// name.push('a')?; // "Ada"
    /// ```
    pub fn push(&mut self, c: char) -> Result<(), AllocError>
        ensures added { OnOk result (self.new ≡ self.old ++ encode_utf8 c) }
        ensures characters { OnOk result (chars self.new ≡ chars self.old ++ c ∷ []) }
        ensures unchanged { OnErr result (self.new ≡ self.old) }
    {
        self.inner.push(c)?;
        Ok(())
    }

    /// Appends the text `string`, which may be empty, to the end.
    ///
    /// Returns `AllocError` if the text has to grow and the allocation fails; the text is then
    /// unchanged.
    ///
    /// ```
    /// let mut name = NEString::new(alloc, 'A', "da")?;
    /// name.push_str(" L.")?; // "Ada L."
    /// ```
    pub fn push_str(&mut self, string: &str) -> Result<(), AllocError>
        ensures added { OnOk result (self.new ≡ self.old ++ string.now) }
        ensures characters { OnOk result (chars self.new ≡ chars self.old ++ chars string.now) }
        ensures unchanged { OnErr result (self.new ≡ self.old) }
    {
        self.inner.push_str(string)?;
        Ok(())
    }

    /// Removes the last character and returns it, or returns `None` if it is the only one, which
    /// then stays.
    ///
    /// ```
    /// let mut name = NEString::new(alloc, 'a', "ß")?;
    /// let popped = name.pop(); // Some('ß')
    /// let none = name.pop(); // None: the only character stays
    /// ```
    pub fn pop(&mut self) -> Option<char>
        ensures taken { TakesUnlessLastChar self.old self.new result
            (λ c. self.old ≡ self.new ++ encode_utf8 c) }
        ensures characters { IfSome result (λ c. chars self.old ≡ chars self.new ++ c ∷ []) }
    {
        if self.is_one_char() {
            None
        } else {
            self.inner.pop()
        }
    }

    /// Removes the character that begins at byte `idx` and returns it, or returns `None` if there
    /// is only one character, which then stays, whatever `idx` is.
    ///
    /// If there is more than one character, `idx` must be less than the length and where a
    /// character begins; std's `String` panics otherwise.
    ///
    /// ```
    /// let mut name = NEString::new(alloc, 'ß', "a")?;
    /// let removed = name.remove(0); // Some('ß'), and name is "a"
    /// ```
    pub fn remove(&mut self, idx: usize) -> Option<char>
        requires within { 1 < length (chars self.old) → idx < length self.old }
        requires boundary { 1 < length (chars self.old) → IsSplitPoint self.old idx }
        ensures { TakesUnlessLastChar self.old self.new result (λ c. (rest : List ℕ)
            × (drop idx self.old ≡ encode_utf8 c ++ rest)
            × (self.new ≡ take idx self.old ++ rest)) }
    {
        if self.is_one_char() {
            None
        } else {
            Some(self.inner.remove(idx))
        }
    }

    /// Inserts the character `c` at byte `idx`, and moves the text from there on to the right.
    ///
    /// `idx` must be at most the length, and where a character begins or the text ends; std's
    /// `String` panics otherwise. Returns `AllocError` if the text has to grow and the allocation
    /// fails; the text is then unchanged.
    ///
    /// ```
    /// let mut name = NEString::new(alloc, 'A', "a")?;
    /// name.insert(1, 'd')?; // "Ada"
    /// ```
    pub fn insert(&mut self, idx: usize, c: char) -> Result<(), AllocError>
        requires { IsSplitPoint self.old idx }
        ensures added { OnOk result (self.new ≡ insert_slice self.old idx (encode_utf8 c)) }
        ensures unchanged { OnErr result (self.new ≡ self.old) }
    {
        self.inner.insert(idx, c)
    }

    /// Inserts the text `string` at byte `idx`, and moves the text from there on to the right.
    ///
    /// `idx` must be at most the length, and where a character begins or the text ends; std's
    /// `String` panics otherwise. Returns `AllocError` if the text has to grow and the allocation
    /// fails; the text is then unchanged.
    ///
    /// ```
    /// let mut name = NEString::new(alloc, 'A', " L.")?;
    /// name.insert_str(1, "da")?; // "Ada L."
    /// ```
    pub fn insert_str(&mut self, idx: usize, string: &str) -> Result<(), AllocError>
        requires { IsSplitPoint self.old idx }
        ensures added { OnOk result (self.new ≡ insert_slice self.old idx string.now) }
        ensures unchanged { OnErr result (self.new ≡ self.old) }
    {
        self.inner.insert_str(idx, string)
    }

    /// Replaces the bytes in `range` by the text `replace_with` and returns `true`, or returns
    /// `false` if nothing would be left; the text is then unchanged, where std's `String` is empty.
    ///
    /// `range` must be in order and within the length, and begin and end where a character begins
    /// or the text ends; std's `String` panics otherwise. Returns `AllocError` if the text has to
    /// grow and the allocation fails; the text is then unchanged.
    ///
    /// ```
    /// let mut name = NEString::new(alloc, 'E', "da L.")?;
    /// let is_replaced = name.replace_range(..1, "A")?; // true, and name is "Ada L."
    /// let is_emptied = name.replace_range(.., "")?; // false
    /// ```
    pub fn replace_range<R: RangeBounds<usize>>(
        &mut self,
        range: R,
        replace_with: &str,
    ) -> Result<bool, AllocError>
        requires bounds { R.has_bounds range }
        requires order { start_index (R.start_bound range)
            ≤ end_index (R.end_bound range) (length self.old) }
        requires within { end_index (R.end_bound range) (length self.old) ≤ length self.old }
        requires start { IsSplitPoint self.old (start_index (R.start_bound range)) }
        requires end { IsSplitPoint self.old (end_index (R.end_bound range) (length self.old)) }
        ensures replaced { IfOk result (λ replaced. ReplacesUnlessAll self.old self.new replaced
            (replace_range self.old (start_index (R.start_bound range))
            (end_index (R.end_bound range) (length self.old)) replace_with.now)) }
        ensures unchanged { OnErr result (self.new ≡ self.old) }
    {
        let len = self.inner.len();
        let part = slice::range(range, ..len);
        if replace_with.is_empty() && part.start == 0 && part.end == len {
            return Ok(false);
        }
        self.inner.replace_range(part, replace_with)?;
        Ok(true)
    }

    /// Returns the number of bytes.
    ///
    /// ```
    /// let len = NEString::new(alloc, 'A', "da")?.len().get(); // 3
    /// ```
    pub fn len(&self) -> NonZeroUsize
        ensures { non_zero_usize_get result ≡ length self.now }
    {
        NonZeroUsize::new(self.inner.len()).unwrap()
    }

    /// Returns the number of characters. It takes time in proportion to the length. Std has no such
    /// method; it is the count of `chars`.
    ///
    /// ```
    /// let count = NEString::new(alloc, 'ß', "a")?.char_count().get(); // 2
    /// ```
    pub fn char_count(&self) -> NonZeroUsize
        ensures { non_zero_usize_get result ≡ length (chars self.now) }
    {
        self.chars().count()
    }

    /// Returns whether a character begins at byte `index`, or the text ends there. It is the test
    /// for what `insert`, `insert_str` and `split_off` require of an index, and `truncate` of one
    /// up to the length; `remove` also requires that it is less than the length.
    ///
    /// ```
    /// let name = NEString::new(alloc, 'A', "da")?;
    /// let (within, beyond) = (name.is_char_boundary(1), name.is_char_boundary(7));
    /// // true and false
    /// ```
    pub fn is_char_boundary(&self, index: usize) -> bool
        ensures { IsTrue result ↔ IsSplitPoint self.now index }
    {
        self.inner.is_char_boundary(index)
    }

    /// Returns `false`, as there is always a character.
    ///
    /// It exists for code that is written for `String` too.
    ///
    /// ```
    /// let is_empty = NEString::new(alloc, 'a', "")?.is_empty(); // false
    /// ```
    pub fn is_empty(&self) -> bool
        ensures never { result ≡ false }
        ensures nonempty { 0 < length self.now }
    {
        let _ = &self.inner; // the invariant is known once a field is used
        false
    }

    /// Returns how many bytes the text can hold before it has to grow, which is at least the
    /// length.
    ///
    /// ```
    /// let name = NEString::new(alloc, 'A', "da")?;
    /// let has_room = name.capacity().get() >= 3; // true
    /// ```
    pub fn capacity(&self) -> NonZeroUsize
        ensures { length self.now ≤ non_zero_usize_get result }
    {
        NonZeroUsize::new(self.inner.capacity().max(self.inner.len())).unwrap()
    }

    /// Makes room for at least `additional` more bytes. The text stays as it is.
    ///
    /// Returns `AllocError` if the allocation fails.
    ///
    /// ```
    /// let mut name = NEString::new(alloc, 'A', "da")?;
    /// name.reserve(8)?; // "Ada"
    /// ```
    pub fn reserve(&mut self, additional: usize) -> Result<(), AllocError>
        ensures { self.new ≡ self.old }
    {
        self.inner.reserve(additional)
    }

    /// Gives back memory that the text does not need, if that is possible. The text stays as it is.
    /// If the smaller memory cannot be allocated, the text keeps what it has.
    ///
    /// ```
    /// let mut name = NEString::new(alloc, 'A', "da")?;
    /// name.shrink_to_fit(); // "Ada"
    /// ```
    pub fn shrink_to_fit(&mut self)
        ensures { self.new ≡ self.old }
    {
        self.inner.shrink_to_fit();
    }

    /// Returns the last character, which is also the first one if it is the only one.
    ///
    /// ```
    /// let name = NEString::new(alloc, 'a', "ß")?;
    /// let last = name.last(); // 'ß'
    /// ```
    pub fn last(&self) -> char
        ensures { slice_get (chars self.now) (length (chars self.now) - 1) ≡ Some result }
    {
        self.split_last().1
    }

    /// Returns the text as a `&str`, for the methods that only a `&str` has.
    ///
    /// ```
    /// let name = NEString::new(alloc, 'A', "da")?;
    /// let starts = name.as_str().starts_with("Ad"); // true
    /// ```
    pub fn as_str(&self) -> &str
        ensures value { result.now ≡ self.now }
        ensures nonempty { 0 < length self.now }
    {
        self.inner.as_str()
    }

    /// Returns a non-empty iterator over the characters, in order.
    ///
    /// ```
    /// let name = NEString::new(alloc, 'A', "da")?;
    /// let characters: NEVec<char> = name.chars().collect(alloc)?; // ['A', 'd', 'a']
    /// ```
    pub fn chars(&self) -> Chars<'_>
        ensures rest { chars_rest result ≡ self.now }
        // As the source of a chain, it yields these characters.
        ensures lists { ListsChars result (chars self.now) }
        // The bytes of these characters are the text.
        ensures spelled { encode_utf8_all (chars self.now) ≡ self.now }
    {
        NonEmptyIter::new(self.inner.as_str().chars())
    }

    /// Returns a non-empty iterator over the bytes, in order.
    ///
    /// ```
    /// let name = NEString::new(alloc, 'A', "da")?;
    /// let bytes: NEVec<u8> = name.bytes().collect(alloc)?; // [65, 100, 97]
    /// ```
    pub fn bytes(&self) -> Bytes<'_>
        ensures rest { bytes_rest result ≡ self.now }
        // As the source of a chain, it yields these bytes.
        ensures lists { ListsBytes result self.now }
    {
        NonEmptyIter::new(self.inner.as_str().bytes())
    }

    /// Keeps the first `len` bytes, or keeps all if there are fewer. As `len` is not 0, a character
    /// stays.
    ///
    /// If `len` is at most the length, a character must begin there or the text end; std's `String`
    /// panics otherwise.
    ///
    /// ```
    /// let mut name = NEString::new(alloc, 'A', "da")?;
    /// name.truncate(NonZeroUsize::new(2).unwrap()); // "Ad"
    /// ```
    pub fn truncate(&mut self, len: NonZeroUsize)
        requires { non_zero_usize_get len ≤ length self.old
            → IsSplitPoint self.old (non_zero_usize_get len) }
        ensures { self.new ≡ take (non_zero_usize_get len) self.old }
    {
        self.inner.truncate(len.get());
    }

    /// Keeps the first `at` bytes, and returns the text after them, which may be empty, as a
    /// `String` with the same allocator. As `at` is not 0, a character stays.
    ///
    /// `at` must be at most the length, and where a character begins or the text ends; std's
    /// `String` panics otherwise. Returns `AllocError` if the allocation fails; the text is then
    /// unchanged.
    ///
    /// ```
    /// let mut name = NEString::new(alloc, 'A', "da")?;
    /// let rest = name.split_off(NonZeroUsize::new(1).unwrap())?; // "da", and name is "A"
    /// ```
    pub fn split_off(&mut self, at: NonZeroUsize) -> Result<String, AllocError>
        requires { IsSplitPoint self.old (non_zero_usize_get at) }
        ensures kept { OnOk result (self.new ≡ take (non_zero_usize_get at) self.old) }
        ensures rest { IfOk result (λ rest.
            string_bytes rest ≡ drop (non_zero_usize_get at) self.old) }
        ensures unchanged { OnErr result (self.new ≡ self.old) }
    {
        self.inner.split_off(at.get())
    }

    /// Returns a copy of `text`, or `Ok(None)` if `text` is empty.
    ///
    /// Returns `AllocError` if the allocation fails.
    ///
    /// ```
    /// let some = NEString::try_from_str(alloc, "Ada")?; // Some("Ada")
    /// let none = NEString::try_from_str(alloc, "")?; // None
    /// ```
    pub fn try_from_str(alloc: Global, text: &str) -> Result<Option<Self>, AllocError>
        ensures empty { IfOk result (λ made. (made ≡ None) ↔ (text.now ≡ [])) }
        ensures same { IfOk result (λ made. IfSome made (λ s. s ≡ text.now)) }
    {
        if text.is_empty() {
            return Ok(None);
        }
        let inner = String::from_str(alloc, text)?;
        Ok(Some(NEString { inner }))
    }

    /// Returns the text `text` in the same memory, or `None` if `text` is empty. It does not
    /// allocate.
    ///
    /// ```
    /// let some = NEString::try_from_string(String::from_str(alloc, "Ada")?); // Some("Ada")
    /// let none = NEString::try_from_string(String::new(alloc)); // None
    /// ```
    pub fn try_from_string(text: String) -> Option<Self>
        ensures empty { (result ≡ None) ↔ (string_bytes text ≡ []) }
        ensures same { IfSome result (λ s. s ≡ string_bytes text) }
    {
        if text.is_empty() {
            None
        } else {
            Some(NEString { inner: text })
        }
    }

    /// Returns the text as a `String`, in the same memory. Its type no longer guarantees a
    /// character. It does not allocate.
    ///
    /// ```
    /// let text = NEString::new(alloc, 'A', "da")?.into_string(); // "Ada"
    /// ```
    pub fn into_string(self) -> String
        ensures { string_bytes result ≡ self }
    {
        self.inner
    }

    /// Returns the bytes of the text, in the same memory. It does not allocate.
    ///
    /// ```
    /// let bytes = NEString::new(alloc, 'A', "da")?.into_bytes(); // [65, 100, 97]
    /// ```
    pub fn into_bytes(self) -> NEVec<u8>
        ensures { result ≡ self }
    {
        NEVec::try_from_vec(self.inner.into_bytes()).unwrap()
    }

    /// Keeps the characters for which `f` returns `true`, in order and in the same memory, or
    /// returns the empty text as an error if there is no such character.
    ///
    /// `f` is called once for each character, in order. The clause `kept` covers an `f` whose
    /// result depends only on the character and that changes nothing; `called` covers any `f`.
    ///
    /// ```
    /// let lower = NEString::new(alloc, 'A', "da")?.retain(|c| c.is_lowercase()); // Ok("da")
    /// let none = NEString::new(alloc, 'A', "")?.retain(|c| c.is_lowercase()); // Err("")
    /// ```
    pub fn retain<F: FnMut(char) -> bool>(self, f: F) -> Result<Self, String>
        requires { F.IsAlwaysCallable f }
        ensures none { IsErr result ↔ (chars (kept_text result) ≡ []) }
        ensures kept { (keeps : ℕ → Bool) → ActsAs F.FnMut f keeps
            → chars (kept_text result) ≡ filter keeps (chars self) }
        ensures called { RetainsChars F.FnMut f self (kept_text result) }
    {
        let mut inner = self.inner;
        inner.retain(f);
        if inner.is_empty() {
            Err(inner)
        } else {
            Ok(NEString { inner })
        }
    }

    /// Returns a copy of the text, with the same allocator.
    ///
    /// Returns `AllocError` if the allocation fails. `Clone` calls this method.
    ///
    /// ```
    /// let name = NEString::new(alloc, 'A', "da")?;
    /// let same = name.clone()?; // "Ada"
    /// ```
    pub fn clone(&self) -> Result<Self, AllocError>
        ensures { IfOk result (λ s. s ≡ self.now) }
    {
        let inner = self.inner.clone()?;
        Ok(NEString { inner })
    }

    /// Returns the first character, and the text after it, which may be empty.
    ///
    /// ```
    /// let name = NEString::new(alloc, 'A', "da")?;
    /// let (first, rest) = name.split_first(); // 'A' and "da"
    /// ```
    pub fn split_first(&self) -> (char, &str)
        ensures bytes { self.now ≡ encode_utf8 result.0 ++ result.1.now }
        ensures characters { chars self.now ≡ result.0 ∷ chars result.1.now }
    {
        let mut rest = self.inner.as_str().chars();
        let first = rest.next().unwrap();
        (first, rest.as_str())
    }

    /// Returns the last character, and before it the text up to it, which may be empty.
    ///
    /// ```
    /// let name = NEString::new(alloc, 'A', "da")?;
    /// let (front, last) = name.split_last(); // "Ad" and 'a'
    /// ```
    pub fn split_last(&self) -> (&str, char)
        ensures bytes { self.now ≡ result.0.now ++ encode_utf8 result.1 }
        ensures characters { chars self.now ≡ chars result.0.now ++ result.1 ∷ [] }
    {
        let mut front = self.inner.as_str().chars();
        let last = front.next_back().unwrap();
        (front.as_str(), last)
    }

    /// Turns the ASCII letters into upper case, in place.
    ///
    /// ```
    /// let mut name = NEString::new(alloc, 'A', "da")?;
    /// name.make_ascii_uppercase(); // "ADA"
    /// ```
    pub fn make_ascii_uppercase(&mut self)
        ensures { self.new ≡ map to_ascii_uppercase self.old }
    {
        self.inner.make_ascii_uppercase();
    }

    /// Turns the ASCII letters into lower case, in place.
    ///
    /// ```
    /// let mut name = NEString::new(alloc, 'A', "da")?;
    /// name.make_ascii_lowercase(); // "ada"
    /// ```
    pub fn make_ascii_lowercase(&mut self)
        ensures { self.new ≡ map to_ascii_lowercase self.old }
    {
        self.inner.make_ascii_lowercase();
    }

    /// Returns a copy with the ASCII letters in upper case.
    ///
    /// Returns `AllocError` if the allocation fails.
    ///
    /// ```
    /// let name = NEString::new(alloc, 'A', "da")?;
    /// let upper = name.to_ascii_uppercase(alloc)?; // "ADA"
    /// ```
    pub fn to_ascii_uppercase(&self, alloc: Global) -> Result<Self, AllocError>
        ensures { IfOk result (λ s. s ≡ map to_ascii_uppercase self.now) }
    {
        let inner = self.inner.as_str().to_ascii_uppercase(alloc)?;
        Ok(NEString { inner })
    }

    /// Returns a copy with the ASCII letters in lower case.
    ///
    /// Returns `AllocError` if the allocation fails.
    ///
    /// ```
    /// let name = NEString::new(alloc, 'A', "da")?;
    /// let lower = name.to_ascii_lowercase(alloc)?; // "ada"
    /// ```
    pub fn to_ascii_lowercase(&self, alloc: Global) -> Result<Self, AllocError>
        ensures { IfOk result (λ s. s ≡ map to_ascii_lowercase self.now) }
    {
        let inner = self.inner.as_str().to_ascii_lowercase(alloc)?;
        Ok(NEString { inner })
    }

    // Returns whether there is one character and no more.
    fn is_one_char(&self) -> bool
        ensures { MatchBool result (length (chars self.now) ≡ 1) (1 < length (chars self.now)) }
    {
        // a character takes at most four bytes
        if self.inner.len() > 4 {
            return false;
        }
        self.split_first().1.is_empty()
    }
}
