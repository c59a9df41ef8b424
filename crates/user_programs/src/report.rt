//! A report about rows: a summary of the rows of each key.
ghost use Rattle.std.specs.Prelude.{◌≡◌, ◌<◌, ◌^◌, All, fold, ltb, sum, nat_eq, IfOk, Some};
ghost use Rattle.std.specs.Prelude.{IsPermutation};
ghost use Rattle.std.specs.Ordering.{nat_cmp};
ghost use Rattle.nonempty_collections.specs.KeyOrder.{KeepsTies, KeysAscend};
ghost use Rattle.nonempty_collections.specs.Keys.{IsDividedBy};
ghost use Rattle.user_programs.specs.Reports.{values, line_text, IsLeast, IsGreatest, IsSummary};
ghost use Rattle.user_programs.specs.Reports.{plus, AreSummaries, IsReport};

use nonempty_collections::{IntoNonEmptyIterator, NEVec, NonEmptyIterator};
use std::alloc::{AllocError, Global};
use std::fmt;

/// A row of a table.
#[derive(Clone, Copy, Debug, PartialEq, Eq)]
pub struct Row {
    pub key: u32,
    pub value: u32,
}

/// A line of the report.
#[derive(Clone, Copy, Debug, PartialEq, Eq)]
pub struct Summary {
    pub key: u32,
    pub count: usize,
    pub least: u32,
    pub greatest: u32,
    pub total: u64,
}

impl fmt::Display for Summary {
    ghost output = { λ s. Some (line_text s) };

    fn fmt<W: fmt::Write>(&self, f: &mut fmt::Formatter<W>) -> fmt::Result {
        write!(
            f,
            "{} {} {} {} {}",
            self.key, self.count, self.least, self.greatest, self.total
        )
    }
}

/// Returns the rows in ascending order of their keys. Rows with the same key keep their order.
pub fn sorted(alloc: Global, rows: NEVec<Row>) -> Result<NEVec<Row>, AllocError>
    ensures same { IfOk result (λ sorted. IsPermutation rows sorted) }
    ensures ascending { IfOk result (KeysAscend (λ r. r.key) nat_cmp) }
    ensures stable { IfOk result (KeepsTies (λ r. r.key) nat_eq rows) }
{
    rows.into_nonempty_iter()
        .sorted_by_key(alloc, |row| row.key)?
        .collect(alloc)
}

/// Returns the groups of the rows. A group is a run of rows with the same key.
pub fn groups(alloc: Global, rows: &NEVec<Row>) -> Result<NEVec<NEVec<Row>>, AllocError>
    ensures { IfOk result (IsDividedBy (λ r. r.key) nat_eq rows.now) }
{
    rows.nonempty_iter()
        .copied()
        .group_by(alloc, |row| row.key)
        .collect::<Result<NEVec<NEVec<Row>>, AllocError>>(alloc)?
}

/// Returns the least value of the rows.
pub fn least(rows: &NEVec<Row>) -> u32
    ensures { IsLeast (values rows.now) result }
{
    rows.nonempty_iter().map(|row| row.value).min()
}

/// Returns the greatest value of the rows.
pub fn greatest(rows: &NEVec<Row>) -> u32
    ensures { IsGreatest (values rows.now) result }
{
    rows.nonempty_iter().map(|row| row.value).max()
}

/// Returns the sum of the values of the rows, which must fit in a `u64`.
pub fn total(rows: &NEVec<Row>) -> u64
    requires { sum (values rows.now) < 2 ^ 64 }
    ensures { result ≡ sum (values rows.now) }
{
    rows.nonempty_iter().map(|row| u64::from(row.value)).sum()
}

/// Returns whether the sum of the values of the rows fits in a `u64`, as a report requires.
pub fn fits(rows: &NEVec<Row>) -> bool
    ensures { result ≡ ltb (sum (values rows.now)) (2 ^ 64) }
{
    checked_total(rows).is_some()
}

// Returns the sum of the values of the rows, or `None` once it does not fit in a `u64`.
fn checked_total(rows: &NEVec<Row>) -> Option<u64>
    ensures { result ≡ fold plus (Some 0) (values rows.now) }
{
    rows.nonempty_iter()
        .map(|row| u64::from(row.value))
        .fold(Some(0), |total: Option<u64>, value| {
            total?.checked_add(value)
        })
}

/// Returns the summary of rows. The sum of their values must fit in a `u64`.
pub fn summary_of(rows: &NEVec<Row>) -> Summary
    requires { sum (values rows.now) < 2 ^ 64 }
    ensures { IsSummary rows.now result }
{
    Summary {
        key: rows.first().key,
        count: rows.len().get(),
        least: least(rows),
        greatest: greatest(rows),
        total: total(rows),
    }
}

/// Returns the summaries of groups, in order. The sum of the values of each group must fit in a
/// `u64`.
pub fn summaries(alloc: Global, groups: &NEVec<NEVec<Row>>) -> Result<NEVec<Summary>, AllocError>
    requires { All (λ group. sum (values group) < 2 ^ 64) groups.now }
    ensures { IfOk result (AreSummaries groups.now) }
{
    groups
        .nonempty_iter()
        .map(|group| summary_of(group))
        .collect(alloc)
}

/// Returns the report about rows: for each key, in ascending order, the summary of the rows with
/// that key. The sum of the values of all rows must fit in a `u64`, as [`fits`] tests.
pub fn report(alloc: Global, rows: NEVec<Row>) -> Result<NEVec<Summary>, AllocError>
    requires { sum (values rows) < 2 ^ 64 }
    ensures { IfOk result (IsReport rows) }
{
    let rows = sorted(alloc, rows)?;
    let groups = groups(alloc, &rows)?;
    summaries(alloc, &groups)
}
