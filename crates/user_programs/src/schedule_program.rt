//! Reads jobs and prints the first turns. The first line is the number of turns, and each further
//! line a job, `NAME PERIOD`: two numbers, the period above 0. A job is first due after its period,
//! and then once in each period. Of jobs that are due at once, the one that was named first comes
//! first. Each turn is printed as a line: the time and the name of the job.
//!
//! A line `finish NAME`, below the second, finishes a job after these turns, and as many turns of
//! the others follow. The last job cannot be finished.

use crate::jobs;
use crate::schedule::Schedule;
use anyhow::{Context, Result};
use std::io;

/// Runs the program.
pub fn run(rt: &HostRuntime) -> Result<()> {
    let alloc = rt.alloc();
    let text = io::read_to_string(alloc, rt.reader())?;
    let (turns, mut schedule, finished) = jobs::read(alloc, text.as_str())?;
    step(rt, &mut schedule, turns)?;
    for name in finished {
        schedule
            .finish(name)
            .context(format_args!("there is no job {name}, or it is the last"))?;
        step(rt, &mut schedule, turns)?;
    }
    Ok(())
}

// Prints the next turns.
fn step(rt: &HostRuntime, schedule: &mut Schedule, turns: u32) -> Result<()> {
    for _ in 0..turns {
        let (name, job) = schedule.run_next().context("the time is up")?;
        println!(rt; "{} {name}", job.due)?;
    }
    Ok(())
}
