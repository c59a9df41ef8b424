//! What a user of texts writes first.
ghost use Rattle.std.specs.Prelude.{◌≡◌, ◌-◌, ◌++◌, filter, map, length, IfOk, string_bytes};
ghost use Rattle.std.specs.Prelude.{MatchBool, MatchOption, Some, [], drop, slice_get, slice_index};
ghost use Rattle.std.specs.Char.{is_ascii_alphanumeric, is_ascii_digit, to_ascii_uppercase};
ghost use Rattle.std.specs.List.{flat_map, list_all};
ghost use Rattle.std.specs.Str.{chars};
ghost use Rattle.std.specs.String.Boundary.{IsSplitPoint};

use ne_iter::{IntoNonEmptyIterator, NonEmptyIterator};
use ne_string::NEString;
use ne_vec::NEVec;
use std::alloc::{AllocError, Global};

/// Returns the characters, in upper case if they are ASCII letters.
pub fn upper_characters(alloc: Global, name: &NEString) -> Result<NEVec<char>, AllocError>
    ensures { IfOk result (λ v. v ≡ map to_ascii_uppercase (chars name.now)) }
{
    name.chars().map(|c| c.to_ascii_uppercase()).collect(alloc)
}

/// Returns the ASCII digits of a name.
pub fn digits(alloc: Global, name: &NEString) -> Result<Vec<char>, AllocError>
    ensures { IfOk result (λ v. v.items ≡ filter is_ascii_digit (chars name.now)) }
{
    name.chars().filter(|c| c.is_ascii_digit()).collect(alloc)
}

/// Returns whether a table's name has ASCII letters and digits only.
pub fn is_table_name(name: &NEString) -> bool
    ensures { result ≡ list_all is_ascii_alphanumeric (chars name.now) }
{
    name.chars().all(|c| c.is_ascii_alphanumeric())
}

/// Returns the first character of each name.
pub fn initials(alloc: Global, names: &NEVec<NEString>) -> Result<NEVec<char>, AllocError>
    ensures { IfOk result (λ v. v ≡ map (λ s. slice_index (chars s) 0) names.now) }
{
    names
        .nonempty_iter()
        .map(|name| name.first())
        .collect(alloc)
}

/// Returns the number of characters of a name, and the last one.
pub fn count_and_last(name: &NEString) -> (usize, char)
    ensures count { result.0 ≡ length (chars name.now) }
    ensures last { slice_get (chars name.now) (length (chars name.now) - 1) ≡ Some result.1 }
{
    (name.char_count().get(), name.last())
}

/// Returns the number of bytes of each name.
pub fn lengths(alloc: Global, names: &NEVec<NEString>) -> Result<NEVec<usize>, AllocError>
    ensures { IfOk result (λ v. v ≡ map length names.now) }
{
    names
        .nonempty_iter()
        .map(|name| name.len().get())
        .collect(alloc)
}

/// Returns the name with its ASCII letters in upper case, character by character.
pub fn upper_name(alloc: Global, name: &NEString) -> Result<NEString, AllocError>
    ensures { IfOk result (λ s. chars s ≡ map to_ascii_uppercase (chars name.now)) }
{
    name.chars().map(|c| c.to_ascii_uppercase()).collect(alloc)
}

/// Returns the name as a plain text.
pub fn plain(alloc: Global, name: &NEString) -> Result<String, AllocError>
    ensures { IfOk result (λ s. string_bytes s ≡ name.now) }
{
    name.chars().collect(alloc)
}

/// Returns the characters of two names as one.
pub fn joined(alloc: Global, first: &NEString, second: &NEString) -> Result<NEString, AllocError>
    ensures { IfOk result (λ s. chars s ≡ chars first.now ++ chars second.now) }
{
    first.chars().chain(second.chars()).collect(alloc)
}

/// Returns the digits of a name, if it has any.
pub fn number_of(name: NEString) -> Option<NEString>
    ensures { MatchOption result (filter is_ascii_digit (chars name) ≡ [])
        (λ s. chars s ≡ filter is_ascii_digit (chars name)) }
{
    name.retain(|c| c.is_ascii_digit()).ok()
}

/// Puts a text in place of the first byte of a name.
pub fn with_prefix(name: &mut NEString, prefix: &str) -> Result<bool, AllocError>
    requires { IsSplitPoint name.old 1 }
    ensures { IfOk result (λ replaced. MatchBool replaced
        (name.new ≡ prefix.now ++ drop 1 name.old) (name.new ≡ name.old)) }
{
    name.replace_range(..1, prefix)
}

/// Joins the names.
pub fn whole_name(alloc: Global, names: NEVec<NEString>) -> Result<NEString, AllocError>
    ensures { IfOk result (λ s. s ≡ flat_map (λ name. name) names) }
{
    names.into_nonempty_iter().collect(alloc)
}
