//! Reads commands about a set of numbers, one a line, and prints what they return. The first line
//! is `add START END`, and so may others be: it adds the numbers from START to before END. The
//! others are `covers X`, which prints whether X is in the set; `remove START`, which removes the
//! interval of the set that starts there, unless it is the only one, and prints its end; and
//! `total`, which prints how many numbers are in the set.

use crate::commands;
use crate::commands::Command;
use crate::intervals::Intervals;
use anyhow::{Context, Result, bail, ensure};
use std::io;

/// Runs the program.
pub fn run(rt: &HostRuntime) -> Result<()> {
    let alloc = rt.alloc();
    let text = io::read_to_string(alloc, rt.reader())?;
    let mut lines = text.lines();
    let first = lines.next().and_then(|line| commands::read(line));
    let Some(Command::Add(start, end)) = first else {
        bail!("line 1 is not `add START END`");
    };
    ensure!(start < end, "line 1 adds no number");
    let mut set = Intervals::new(alloc, start, end)?;
    for (place, line) in lines.enumerate() {
        let command = commands::read(line).context(format_args!(
            "line {} is no command",
            place + 2
        ))?;
        step(rt, &mut set, command)?;
    }
    Ok(())
}

// Carries out a command, and prints what it returns.
fn step(rt: &HostRuntime, set: &mut Intervals, command: Command) -> Result<()> {
    match command {
        Command::Add(start, end) => set.insert(start, end)?,
        Command::Covers(point) => println!(rt; "{}", set.covers(point))?,
        Command::Remove(start) => match set.remove(start) {
            Some(end) => println!(rt; "{end}")?,
            None => println!(rt; "none")?,
        },
        Command::Total => println!(rt; "{}", set.total())?,
    }
    Ok(())
}
