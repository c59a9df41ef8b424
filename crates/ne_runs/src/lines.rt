//! The lines of an input, and the numbers that they write.
ghost use Rattle.std.specs.Prelude.{◌≡◌, ℕ, ◌+◌, ◌^◌, ◌==◌, ◌<◌, ◌≤◌, ◌⊎◌, List, ◌∷◌, length, sum};
ghost use Rattle.std.specs.Prelude.{position, None, Some, IfOk, MatchOption, MatchResult, true};
ghost use Rattle.std.specs.Prelude.{false};
ghost use Rattle.std.specs.Fmt.{decimal};
ghost use Rattle.ne_runs.specs.Faults.{bad_line};
ghost use Rattle.ne_runs.specs.Lines.{AreLines, lines_of, is_number, number_of, numbers_of};
ghost use Rattle.ne_runs.specs.Lines.{place_value};
ghost use Rattle.ne_runs.specs.declared.whole_run.TheConstants.{LIMIT};

use crate::fault::Fault;
use std::alloc::Global;

/// Each text has exactly one list of lines: the two definitions of lines agree.
pub fn lines_are_one()
    ensures there { (text : List ℕ) → AreLines text (lines_of text) }
    ensures only { (text : List ℕ) (lines : List (List ℕ)) → AreLines text lines
        → lines ≡ lines_of text }
{}

/// The number that a good line writes is the sum of its digits, each times the weight of its place.
/// The digits of a number of at most nine digits are a good line that writes it.
pub fn numbers_are_decimal()
    ensures weighed { (line : List ℕ) → is_number line ≡ true → number_of line ≡ place_value line }
    ensures good { (n : ℕ) → n < 10 ^ 9 → is_number (decimal n) ≡ true }
    ensures printed { (n : ℕ) → n < 10 ^ 9 → number_of (decimal n) ≡ n }
{}

// Returns where the first line of a text ends, if a line feed ends it.
fn line_end(text: &[u8]) -> Option<usize>
    ensures { result ≡ position (λ byte. byte == 10) text.now }
{
    text.iter().position(|byte| *byte == b'\n')
}

// Returns the first line of a text, and what follows it.
fn first_line(text: &[u8]) -> (&[u8], &[u8])
    requires { 0 < length text.now }
    ensures lines { lines_of text.now ≡ result.0.now ∷ lines_of result.1.now }
    ensures shorter { length result.1.now < length text.now }
{
    match line_end(text) {
        Some(end) => (&text[..end], &text[end + 1..]),
        None => (text, &[]),
    }
}

// Returns the number that a line of one to nine digits writes, or `None` for any other line.
fn number(line: &[u8]) -> Option<u32>
    ensures { MatchOption result (is_number line.now ≡ false)
        (λ number. (is_number line.now ≡ true) × (number ≡ number_of line.now)) }
{
    if line.is_empty() || line.len() > 9 {
        return None;
    }
    let mut value = 0u32;
    for byte in line {
        if !byte.is_ascii_digit() {
            return None;
        }
        value = value * 10 + u32::from(*byte - b'0');
    }
    Some(value)
}

/// Returns the numbers of all lines of a text, in order, or `BadLine` with the place of the first
/// bad line. Returns `Memory` if an allocation fails before that line.
///
/// The sum of the numbers fits in 64 bits: there are no more numbers than bytes, and each number
/// fits in 32 bits.
pub fn numbers(alloc: Global, text: &[u8]) -> Result<Vec<u32>, Fault>
    requires { length text.now ≤ LIMIT }
    ensures fits { IfOk result (λ numbers. sum numbers.items < 2 ^ 64) }
    ensures lines { MatchResult result
        (λ numbers. (bad_line (lines_of text.now) ≡ None) × (numbers.items ≡ numbers_of text.now))
        (λ fault. (fault ≡ Fault.Memory) ⊎ (bad_line (lines_of text.now) ≡ Some fault)) }
{
    let mut numbers = Vec::new(alloc);
    let mut rest = text;
    while !rest.is_empty() {
        let (line, next) = first_line(rest);
        match number(line) {
            Some(number) => numbers.push(number)?,
            None => return Err(Fault::BadLine(numbers.len() as u32 + 1)),
        }
        rest = next;
    }
    Ok(numbers)
}
