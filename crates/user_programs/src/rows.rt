//! The rows that a text writes, one a line.
use crate::report::Row;
use anyhow::{Context, Result};
use std::alloc::Global;

/// Returns the rows of a text, in order, or an error that names the first line that is no row.
pub fn read(alloc: Global, text: &str) -> Result<Vec<Row>> {
    let mut rows = Vec::new(alloc);
    for (place, line) in text.lines().enumerate() {
        let row = row(line).context(format_args!("line {} is no row", place + 1))?;
        rows.push(row)?;
    }
    Ok(rows)
}

// Returns the row that a line writes: two numbers with a space between them.
fn row(line: &str) -> Option<Row> {
    let (key, value) = line.split_once(' ')?;
    let key = key.parse().ok()?;
    let value = value.parse().ok()?;
    Some(Row { key, value })
}
