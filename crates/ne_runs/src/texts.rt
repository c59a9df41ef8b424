//! The rows that each [`Mode`] makes of numbers, and the text that they are written as.
//!
//! The laws of the library that are called here do nothing. The proofs use what they ensure.
ghost use Rattle.std.specs.Prelude.{◌≡◌, ◌^◌, ◌<◌, ◌∷◌, ◌++◌, OnOk, IfOk, string_bytes, List, ℕ};
ghost use Rattle.std.specs.Prelude.{Bool, length, sum, true};
ghost use Rattle.std.specs.Iterator.{IsFiniteIterable};
ghost use Rattle.nonempty_collections.specs.Divisions.{IsDivision, by_first, by_previous};
ghost use Rattle.nonempty_collections.specs.SliceRuns.{ActsAsAtPair, CallableAtPairs};
ghost use Rattle.ne_runs.specs.Modes.{row_text, AreRows, IsText, IsLeast, IsGreatest};
ghost use Rattle.ne_runs.specs.declared.mode.Mode.{Mode};

use crate::mode::Mode;
use nonempty_collections::iter::ItemSource;
use nonempty_collections::laws::{
    has_one_division, numbers_have_one_greatest, numbers_have_one_least,
    slice_runs_are_the_division,
};
use nonempty_collections::{NEIndexSet, NESlice, NEVec, NonEmptyIterator};
use std::alloc::{AllocError, Global};
use std::convert::AsSlice;

/// Each mode makes exactly one list of rows of numbers, if there is at least one number.
pub fn rows_are_one()
    ensures there { (mode : Mode) (numbers : List ℕ) → 0 < length numbers
        → (rows : List (List ℕ)) × AreRows mode numbers rows }
    ensures only { (mode : Mode) (numbers : List ℕ) (rows others : List (List ℕ))
        → AreRows mode numbers rows → AreRows mode numbers others → rows ≡ others }
{
    has_one_division::<u32>();
    numbers_have_one_least();
    numbers_have_one_greatest();
}

impl Mode {
    /// Returns the text that the mode writes for the numbers, or `AllocError` if an allocation
    /// fails.
    ///
    /// The sum of the numbers must fit in 64 bits, whichever mode it is.
    pub fn text(&self, alloc: Global, numbers: &NEVec<u32>) -> Result<String, AllocError>
        requires { sum numbers.now < 2 ^ 64 }
        ensures { IfOk result (λ text. IsText (AreRows self.now numbers.now) (string_bytes text)) }
    {
        match self {
            Mode::Ends => ends_text(alloc, numbers),
            Mode::Stats => stats_text(alloc, numbers),
            Mode::Equal => equal_text(alloc, numbers),
            Mode::Parity => parity_text(alloc, numbers),
            Mode::Distinct => distinct_text(alloc, numbers),
            Mode::Near => near_text(alloc, numbers),
            Mode::Chain => chain_text(alloc, numbers),
        }
    }
}

// How many numbers there are, the first and the last.
fn ends_text(alloc: Global, numbers: &NEVec<u32>) -> Result<String, AllocError>
    ensures { IfOk result (λ text. IsText (AreRows Mode.Ends numbers.now) (string_bytes text)) }
{
    let mut text = String::new(alloc);
    let count = numbers.len().get() as u64;
    let first = u64::from(*numbers.first());
    let last = u64::from(*numbers.last());
    push_row(&mut text, count, &[first, last])?;
    Ok(text)
}

// The least number, the greatest and the sum of all.
fn stats_text(alloc: Global, numbers: &NEVec<u32>) -> Result<String, AllocError>
    requires { sum numbers.now < 2 ^ 64 }
    ensures { IfOk result (λ text. IsText (AreRows Mode.Stats numbers.now) (string_bytes text)) }
{
    let mut text = String::new(alloc);
    let least = u64::from(least(numbers));
    let greatest = u64::from(greatest(numbers));
    push_row(&mut text, least, &[greatest, sum(numbers)])?;
    Ok(text)
}

// The runs of equal numbers.
fn equal_text(alloc: Global, numbers: &NEVec<u32>) -> Result<String, AllocError>
    ensures { IfOk result (λ text. IsText (AreRows Mode.Equal numbers.now) (string_bytes text)) }
{
    text_by_first(alloc, numbers, |a, b| *a == *b)
}

// The runs of numbers that are all even or all odd.
fn parity_text(alloc: Global, numbers: &NEVec<u32>) -> Result<String, AllocError>
    ensures { IfOk result (λ text. IsText (AreRows Mode.Parity numbers.now) (string_bytes text)) }
{
    text_by_first(alloc, numbers, |a, b| (*a % 2 == 0) == (*b % 2 == 0))
}

// Each number once, in the order in which they first appear.
fn distinct_text(alloc: Global, numbers: &NEVec<u32>) -> Result<String, AllocError>
    ensures { IfOk result (λ text. IsText (AreRows Mode.Distinct numbers.now) (string_bytes text)) }
{
    let distinct: NEIndexSet<u32> = numbers.nonempty_iter().copied().collect(alloc)?;
    let mut text = String::new(alloc);
    push_set(&mut text, &distinct)?;
    Ok(text)
}

// The runs of numbers that differ from their run's first by at most 1.
fn near_text(alloc: Global, numbers: &NEVec<u32>) -> Result<String, AllocError>
    ensures { IfOk result (λ text. IsText (AreRows Mode.Near numbers.now) (string_bytes text)) }
{
    text_by_first(alloc, numbers, |a, b| a.abs_diff(*b) <= 1)
}

// The runs of numbers that differ from the one before by at most 1.
fn chain_text(alloc: Global, numbers: &NEVec<u32>) -> Result<String, AllocError>
    ensures { IfOk result (λ text. IsText (AreRows Mode.Chain numbers.now) (string_bytes text)) }
{
    text_by_previous(alloc, numbers, |a, b| a.abs_diff(*b) <= 1)
}

// The runs of numbers that are the same, by `same`, as their run's first, one line each.
fn text_by_first<F: Fn(&u32, &u32) -> bool>(
    alloc: Global,
    numbers: &NEVec<u32>,
    same: F,
) -> Result<String, AllocError>
    requires { CallableAtPairs F.Fn same numbers.now }
    ensures { IfOk result (λ text. (h : ℕ → ℕ → Bool) → ActsAsAtPair F.Fn same h
        → IsText (IsDivision (by_first h) numbers.now) (string_bytes text)) }
{
    slice_runs_are_the_division::<u32, F>();
    let items = numbers.as_nonempty_slice();
    text_of_runs(alloc, items.runs_by(same))
}

// The runs of numbers that are the same, by `same`, as the one before, one line each.
fn text_by_previous<F: Fn(&u32, &u32) -> bool>(
    alloc: Global,
    numbers: &NEVec<u32>,
    same: F,
) -> Result<String, AllocError>
    requires { CallableAtPairs F.Fn same numbers.now }
    ensures { IfOk result (λ text. (h : ℕ → ℕ → Bool) → ActsAsAtPair F.Fn same h
        → IsText (IsDivision (by_previous h) numbers.now) (string_bytes text)) }
{
    slice_runs_are_the_division::<u32, F>();
    let items = numbers.as_nonempty_slice();
    text_of_runs(alloc, items.adjacent_runs(same))
}

// The text with each run as a row.
fn text_of_runs<'a, R: NonEmptyIterator<Item = NESlice<'a, u32>>>(
    alloc: Global,
    runs: R,
) -> Result<String, AllocError>
    requires { IsFiniteIterable R.into_iter_gives R.IntoIter.can_next R.IntoIter.remaining runs }
    ensures { IfOk result (λ text. IsText (⟦<R as ItemSource>⟧.reads true runs)
        (string_bytes text)) }
{
    let mut text = String::new(alloc);
    for run in runs {
        push_run(&mut text, &run)?;
    }
    Ok(text)
}

// The least number.
fn least(numbers: &NEVec<u32>) -> u32
    ensures { IsLeast numbers.now result }
{
    numbers.nonempty_iter().copied().min()
}

// The greatest number.
fn greatest(numbers: &NEVec<u32>) -> u32
    ensures { IsGreatest numbers.now result }
{
    numbers.nonempty_iter().copied().max()
}

// The sum of all numbers.
fn sum(numbers: &NEVec<u32>) -> u64
    requires { sum numbers.now < 2 ^ 64 }
    ensures { result ≡ sum numbers.now }
{
    numbers.nonempty_iter().copied().map(u64::from).sum()
}

// Adds numbers to a text, as a row: the first, and each of the rest after a space.
macro_rules! push_numbers {
    ($text:expr, $first:expr, $rest:expr) => {{
        write!($text, "{}", $first)?;
        for number in $rest {
            write!($text, " {number}")?;
        }
        $text.push('\n')
    }};
}

// Adds a number and those after it to a text, as a row.
fn push_row(text: &mut String, first: u64, rest: &[u64]) -> Result<(), AllocError>
    ensures { OnOk result (string_bytes text.new ≡ string_bytes text.old
        ++ row_text (first ∷ rest.now)) }
{
    push_numbers!(text, first, rest)
}

// Adds the numbers of a set to a text, as a row in their order.
fn push_set(text: &mut String, numbers: &NEIndexSet<u32>) -> Result<(), AllocError>
    ensures { OnOk result (string_bytes text.new ≡ string_bytes text.old
        ++ row_text numbers.now.keys) }
{
    let (first, rest) = numbers.nonempty_iter().next();
    push_numbers!(text, first, rest)
}

// Adds a run to a text, as a row.
fn push_run(text: &mut String, run: &NESlice<'_, u32>) -> Result<(), AllocError>
    ensures { OnOk result (string_bytes text.new ≡ string_bytes text.old ++ row_text run.now) }
{
    let first = run.first();
    let rest = &run.as_slice()[1..];
    push_numbers!(text, first, rest)
}
