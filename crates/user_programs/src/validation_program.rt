//! Reads a form, one field `NAME=NUMBER` a line, in which each name has a character and each number
//! is below 2^32. It prints the fields, or each fault with the place of its field, counted from 1.

use crate::validation::validate;
use anyhow::{Context, Result};
use nonempty_collections::NEVec;
use std::io;

/// Runs the program.
pub fn run(rt: &HostRuntime) -> Result<()> {
    let alloc = rt.alloc();
    let text = io::read_to_string(alloc, rt.reader())?;
    let mut lines = Vec::new(alloc);
    for line in text.lines() {
        lines.push(String::from_str(alloc, line)?)?;
    }
    let lines = NEVec::try_from_vec(lines).context("there is no field")?;
    match validate(alloc, lines)? {
        Ok(fields) => {
            for field in fields.iter() {
                println!(rt; "{}: {}", field.name, field.number)?;
            }
        }
        Err(faults) => {
            for fault in faults.iter() {
                println!(rt; "{fault}")?;
            }
        }
    }
    Ok(())
}
