//! A form whose fields have a name and a number: its fields, or a fault for each that is wrong.
ghost use Rattle.std.specs.Prelude.{◌≡◌, ◌≢◌, [], IfOk, MatchResult, map, Ok, Some, string_bytes};
ghost use Rattle.nonempty_collections.specs.Collected.{values_or_first_err};
ghost use Rattle.user_programs.specs.Fields.{name_text, number_text, number_of};
ghost use Rattle.user_programs.specs.Fields.{reading, readings, faults_of, fault_text};

use ne_string::NEString;
use nonempty_collections::{IntoNonEmptyIterator, NEVec, NonEmptyIterator};
use std::alloc::{AllocError, Global};
use std::fmt;

/// A field of a form.
#[derive(Debug, Drop, PartialEq, Eq)]
pub struct Field {
    pub name: NEString,
    pub number: u32,
}

/// What is wrong with the field at a place, counted from 0.
#[derive(Clone, Copy, Debug, PartialEq, Eq)]
pub enum Fault {
    /// It has no name.
    NoName(usize),
    /// It has a name, but no number below 2^32.
    NoNumber(usize),
}

impl fmt::Display for Fault {
    ghost output = { λ fault. Some (fault_text fault) };

    fn fmt<W: fmt::Write>(&self, f: &mut fmt::Formatter<W>) -> fmt::Result {
        // people count from 1; no index is the greatest `usize`
        match self {
            Fault::NoName(place) => write!(f, "field {} has no name", place.saturating_add(1)),
            Fault::NoNumber(place) => {
                write!(
                    f,
                    "field {} has no number below 2^32",
                    place.saturating_add(1)
                )
            }
        }
    }
}

/// Returns the number below 2^32 that a text writes in decimal, or `None` if it writes none such.
pub fn number(text: &str) -> Option<u32>
    ensures { result ≡ number_of text.now }
{
    text.parse::<u32>().ok()
}

/// Returns what stands before the first `=` of a line, or the line if there is none.
pub fn name_in(mut line: String) -> String
    ensures { string_bytes result ≡ name_text (string_bytes line) }
{
    if let Some((name, _)) = line.as_str().split_once('=') {
        let end = name.len();
        line.truncate(end);
    }
    line
}

/// Returns the number below 2^32 that a line writes after the first `=`, or `None` if none is
/// there.
pub fn number_in(line: &str) -> Option<u32>
    ensures { result ≡ number_of (number_text line.now) }
{
    let (_, text) = line.split_once('=')?;
    number(text)
}

/// Returns the field that a line writes as `NAME=NUMBER`, with its name in the memory of the line,
/// or what is wrong with it.
pub fn read(place: usize, line: String) -> Result<Field, Fault>
    ensures { result ≡ reading place (string_bytes line) }
{
    let number = number_in(line.as_str());
    let name = NEString::try_from_string(name_in(line)).ok_or(Fault::NoName(place))?;
    let number = number.ok_or(Fault::NoNumber(place))?;
    Ok(Field { name, number })
}

/// Returns the fields that all lines write, or the first fault.
pub fn fields(
    alloc: Global,
    lines: NEVec<String>,
) -> Result<Result<NEVec<Field>, Fault>, AllocError>
    ensures { IfOk result (λ valid. valid ≡ values_or_first_err (readings lines)) }
{
    lines
        .into_nonempty_iter()
        .enumerate()
        .map(|(place, line)| read(place, line))
        .collect(alloc)
}

/// Returns the fields that all lines write, or all faults if any line writes none.
pub fn validate(
    alloc: Global,
    lines: NEVec<String>,
) -> Result<Result<NEVec<Field>, NEVec<Fault>>, AllocError>
    ensures { IfOk result (λ valid. MatchResult valid
        (λ fields. readings lines ≡ map Ok fields)
        (λ faults. (faults ≡ faults_of lines) × (faults ≢ []))) }
{
    lines
        .into_nonempty_iter()
        .enumerate()
        .map(|(place, line)| read(place, line))
        .all_or_errors(alloc)
}
