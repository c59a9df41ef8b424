//! Reads a query as JSON, `{"table": "t", "columns": ["a", "b"]}`, perhaps with `"conditions"`,
//! which is a list or `null`. It prints the query's text, and that of its summary: how many rows
//! there are, and the greatest value of each column.
//!
//! Another text is refused, also one with an empty list, name or condition, and the error says why
//! and where.

use crate::builder::Query;
use anyhow::{Context, Result};
use ne_string::NEString;
use std::alloc::Global;
use std::io;

/// Runs the program.
pub fn run(rt: &HostRuntime) -> Result<()> {
    let alloc = rt.alloc();
    let text = io::read_to_string(alloc, rt.reader())?;
    let query: Query = serde_json::from_str(alloc, text.as_str())?;
    rt.println(query.to_text(alloc)?)?;
    rt.println(summary(alloc, query)?.to_text(alloc)?)?;
    Ok(())
}

// Returns the query of how many rows there are, and of the greatest value of each column.
fn summary(alloc: Global, query: Query) -> Result<Query> {
    let count = NEString::try_from_str(alloc, "count(*)")?.context("the text is empty")?;
    let mut found = Query::select(alloc, query.table, count)?;
    for column in query.columns {
        let mut greatest = column;
        greatest.insert_str(0, "max(")?;
        greatest.push(')')?;
        found = found.column(greatest)?;
    }
    if let Some(conditions) = query.conditions {
        for condition in conditions {
            found = found.filter(alloc, condition)?;
        }
    }
    Ok(found)
}
