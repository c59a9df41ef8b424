//! Reads rows `KEY VALUE`, one a line, and prints a line for each key, in ascending order: the key,
//! how many rows it has, and the least, the greatest and the total of their values.
//!
//! A key and a value are numbers below 2^32. If a line is no row, nothing is printed but an error
//! that names the first such line.

use crate::report::{fits, report};
use crate::rows;
use anyhow::{Context, Result, ensure};
use nonempty_collections::NEVec;
use std::io;

/// Runs the program.
pub fn run(rt: &HostRuntime) -> Result<()> {
    let alloc = rt.alloc();
    let text = io::read_to_string(alloc, rt.reader())?;
    let rows = rows::read(alloc, text.as_str())?;
    let rows = NEVec::try_from_vec(rows).context("there is no row")?;
    ensure!(fits(&rows), "the total of the values is 2^64 or more");
    for line in report(alloc, rows)?.iter() {
        println!(rt; "{line}")?;
    }
    Ok(())
}
