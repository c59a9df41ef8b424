//! Laws of texts. Each law is the contract of a function that does nothing. A caller calls the
//! function to use what it ensures.
ghost use Rattle.std.specs.Prelude.{◌≡◌, ◌↔◌, ℕ, List, [], true, MatchOption, Ok, Option, Result};
ghost use Rattle.std.specs.Prelude.{Some, string_bytes};
ghost use Rattle.std.specs.Cmp.Lexicographic.{slice_cmp};
ghost use Rattle.std.specs.Ordering.{nat_cmp};
ghost use Rattle.std.specs.Str.{bytes_eq};
ghost use Rattle.ne_vec.specs.declared.Error.{Error};

use crate::NEString;
use crate::string::{Bytes, Chars};
use ne_iter::iter::ItemSource;
use ne_iter::{FromNonEmptyIterator, Singleton};
use std::hash::Hash;

/// The iterators over the characters and over the bytes of a text end.
pub fn texts_end<'a>()
    ensures characters { (s : _) → ⟦<Chars<'a> as ItemSource>⟧.ends s }
    ensures bytes { (s : _) → ⟦<Bytes<'a> as ItemSource>⟧.ends s }
{}

/// A text that is converted into std's `String` and back, by `try_from` or `try_from_string`, is
/// the same text, and the conversion back never fails.
pub fn texts_come_back()
    ensures by_try_from_string { (s : List ℕ) (inner : _) (r : Option (List ℕ))
        → ⟦<String as From<NEString>>⟧.from_gives s inner
        → MatchOption r (string_bytes inner ≡ []) (λ t. t ≡ string_bytes inner) → r ≡ Some s }
    ensures by_try_from { (s : List ℕ) (inner : _) (r : Result (List ℕ) Error)
        → ⟦<String as From<NEString>>⟧.from_gives s inner
        → ⟦<NEString as TryFrom<String>>⟧.try_from_gives inner r → r ≡ Ok s }
{}

/// Characters that are added one by one, by `singleton` and then `extend_one`, make what they make
/// when they are collected. Two texts made from the same characters are the same.
pub fn texts_one_by_one_are_collected()
    ensures same_word { (characters s : List ℕ)
        → ⟦<NEString as Singleton>⟧.collected characters s
        ↔ ⟦<NEString as FromNonEmptyIterator<char>>⟧.collected characters s }
    ensures same_text { (characters s t : List ℕ)
        → ⟦<NEString as Singleton>⟧.collected characters s
        → ⟦<NEString as FromNonEmptyIterator<char>>⟧.collected characters t
        → s ≡ t }
{}

/// Texts compare as the lists of their bytes do.
pub fn texts_compare_as_lists()
    ensures equal { (s t : List ℕ) → ⟦<NEString as PartialEq>⟧.eq s t ≡ bytes_eq s t }
    ensures ordered { (s t : List ℕ) → ⟦<NEString as Ord>⟧.cmp s t ≡ slice_cmp nat_cmp s t }
    ensures partly_ordered { (s t : List ℕ)
        → ⟦<NEString as PartialOrd>⟧.partial_cmp s t ≡ Some (slice_cmp nat_cmp s t) }
{}

/// Equal texts have equal hashes.
pub fn equal_texts_have_equal_hashes()
    ensures { (s t : List ℕ) → ⟦<NEString as PartialEq>⟧.eq s t ≡ true
        → ⟦<NEString as Hash>⟧.hash_input s ≡ ⟦<NEString as Hash>⟧.hash_input t }
{}
