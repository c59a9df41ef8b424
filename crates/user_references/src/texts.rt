//! Texts (`&str`): adapters and consumers over items that are references.
//!
//! In contracts a `&str` is a reference to the list of its bytes: `t.now` is that list.
ghost use Rattle.std.specs.Prelude.{◌≡◌, ◌<◌, ◌≤◌, map, drop, length};
ghost use Rattle.std.specs.Prelude.{slice_get, nat_eq, IfOk, Some};
ghost use Rattle.std.specs.Prelude.{Ok, Err, ltb, max, cond, false};
ghost use Rattle.std.specs.List.{All, Contains, find};
ghost use Rattle.std.specs.List.{enumerate_from, zip, flat_map, fold};
ghost use Rattle.std.specs.List.{reduce as list_reduce};
ghost use Rattle.std.specs.Cmp.Lexicographic.{pointwise, slice_cmp};
ghost use Rattle.std.specs.Ordering.{is_lt, nat_cmp};
ghost use Rattle.std.specs.String.{string_bytes};
ghost use Rattle.ne_iter.specs.Collected.{IsMapOfPairs, IsSetOf, values_or_first_err};

use ne_iter::{IntoIteratorExt, IntoNonEmptyIterator, NonEmptyIterator};
use ne_vec::NEVec;
use std::alloc::{AllocError, Global};
use std::collections::{BTreeMap, BTreeSet};

/// Returns clones of the texts of a borrowed vector. Clones of references never fail.
pub fn cloned<'a>(
    alloc: Global,
    texts: &NEVec<&'a str>,
) -> Result<Result<NEVec<&'a str>, AllocError>, AllocError>
    ensures { IfOk result (λ r. r ≡ Ok texts.now) }
{
    texts.nonempty_iter().cloned().collect(alloc)
}

/// Returns the texts with their indices.
pub fn numbered<'a>(
    alloc: Global,
    texts: NEVec<&'a str>,
) -> Result<NEVec<(usize, &'a str)>, AllocError>
    ensures { IfOk result (λ v. v ≡ enumerate_from 0 texts.entry) }
{
    texts.into_nonempty_iter().enumerate().collect(alloc)
}

/// Returns the texts in pairs.
pub fn paired<'a>(
    alloc: Global,
    texts: &NEVec<&'a str>,
    others: &NEVec<&'a str>,
) -> Result<NEVec<(&'a str, &'a str)>, AllocError>
    ensures { IfOk result (λ v. v ≡ zip texts.now others.now) }
{
    texts
        .nonempty_iter()
        .copied()
        .zip(others.nonempty_iter().copied())
        .collect(alloc)
}

/// Returns the texts of several vectors.
pub fn flattened<'a>(
    alloc: Global,
    texts: NEVec<NEVec<&'a str>>,
) -> Result<NEVec<&'a str>, AllocError>
    ensures { IfOk result (λ v. v ≡ flat_map (λ some. some) texts.entry) }
{
    texts.into_nonempty_iter().flatten().collect(alloc)
}

/// Returns the last text in the order of bytes.
pub fn greatest<'a>(texts: NEVec<&'a str>) -> &'a str
    ensures among { Contains texts.entry result }
    ensures bound { All (λ t. is_lt (slice_cmp nat_cmp result.now t.now) ≡ false) texts.entry }
{
    texts.into_nonempty_iter().max()
}

/// Returns the first text in the order of bytes.
pub fn least<'a>(texts: NEVec<&'a str>) -> &'a str
    ensures among { Contains texts.entry result }
    ensures bound { All (λ t. is_lt (slice_cmp nat_cmp t.now result.now) ≡ false) texts.entry }
{
    texts.into_nonempty_iter().min()
}

/// Returns the longest text.
pub fn longest<'a>(texts: NEVec<&'a str>) -> &'a str
    ensures among { Contains texts.entry result }
    ensures bound { All (λ n. n ≤ length result.now) (map (λ t. length t.now) texts.entry) }
{
    texts.into_nonempty_iter().max_by_key(|t| t.len())
}

/// Returns the last text, by a fold from the first.
pub fn reduced<'a>(texts: NEVec<&'a str>) -> &'a str
    ensures { Some result ≡ list_reduce (λ a t. t) texts.entry }
{
    texts.into_nonempty_iter().reduce(|_, t| t)
}

/// Returns the first text that is shorter than 10 bytes.
pub fn some_short<'a>(texts: NEVec<&'a str>) -> Option<&'a str>
    ensures { result ≡ find (λ t. ltb (length t.now) 10) texts.entry }
{
    texts.into_nonempty_iter().find(|t| t.len() < 10)
}

/// Returns the text at index `n`.
pub fn text_at<'a>(texts: NEVec<&'a str>, n: usize) -> Option<&'a str>
    ensures { result ≡ slice_get texts.entry n }
{
    texts.into_nonempty_iter().nth(n)
}

/// Returns the first text.
pub fn first_of<'a>(texts: NEVec<&'a str>) -> &'a str
    ensures { slice_get texts.entry 0 ≡ Some result }
{
    texts.into_nonempty_iter().next().0
}

/// Returns all texts but the first two.
pub fn rest<'a>(alloc: Global, texts: NEVec<&'a str>) -> Result<Vec<&'a str>, AllocError>
    ensures { IfOk result (λ v. v.items ≡ drop 2 texts.entry) }
{
    texts.into_nonempty_iter().skip(2).collect(alloc)
}

/// Returns the texts, and their lengths.
pub fn parted<'a>(
    alloc: Global,
    texts: NEVec<&'a str>,
) -> Result<(NEVec<&'a str>, NEVec<usize>), AllocError>
    ensures { IfOk result (λ r. r.1 ≡ map (λ t. length t.now) texts.entry) }
{
    texts
        .into_nonempty_iter()
        .map(|t| (t, t.len()))
        .unzip(alloc)
}

/// Returns the texts joined into one.
pub fn one_text(alloc: Global, texts: NEVec<&str>) -> Result<String, AllocError>
    ensures { IfOk result (λ s. string_bytes s ≡ flat_map (λ t. t.now) texts.entry) }
{
    texts.into_nonempty_iter().collect(alloc)
}

/// Returns the texts, or the length of the first one that has 10 bytes or more.
pub fn checked<'a>(
    alloc: Global,
    texts: NEVec<&'a str>,
) -> Result<Result<NEVec<&'a str>, usize>, AllocError>
    ensures { IfOk result (λ r. r ≡ values_or_first_err (map
        (λ t. cond (ltb (length t.now) 10) (Ok t) (Err (length t.now))) texts.entry)) }
{
    texts
        .into_nonempty_iter()
        .map(|t| if t.len() < 10 { Ok(t) } else { Err(t.len()) })
        .collect(alloc)
}

/// Returns a map from each text to its length.
pub fn table<'a>(
    alloc: Global,
    texts: NEVec<&'a str>,
) -> Result<BTreeMap<&'a str, usize>, AllocError>
    ensures { IfOk result (λ m. IsMapOfPairs (λ s t. pointwise nat_eq s.now t.now)
        (map (λ t. (t, length t.now)) texts.entry) m.entries) }
{
    texts
        .into_nonempty_iter()
        .map(|t| (t, t.len()))
        .collect(alloc)
}

/// Returns the texts, each once.
pub fn each_once<'a>(alloc: Global, texts: NEVec<&'a str>) -> Result<BTreeSet<&'a str>, AllocError>
    ensures { IfOk result (λ s. IsSetOf (λ s t. pointwise nat_eq s.now t.now) texts.entry s.keys) }
{
    texts.into_nonempty_iter().collect(alloc)
}
