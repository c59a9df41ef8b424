//! Reads a configuration of jobs, in JSON or TOML: the number of turns, and for each job its name,
//! its period, above 0, and its priority, from 1, the most urgent, to 9. It prints each fault with
//! the number of its job, or the turns: first those of a round robin, in which the jobs take turns,
//! and then those by due time, each with its time. A job is first due after its period, and then
//! once in each period. Of jobs that are due at once the most urgent comes first, and of those the
//! one that was named first.

use crate::configuration::{self, Configuration};
use crate::queue::{DueFirst, Job, RoundRobin};
use anyhow::{Context, Result};
use nonempty_collections::NEVec;
use std::io;

/// Runs the program.
pub fn run(rt: &HostRuntime) -> Result<()> {
    let alloc = rt.alloc();
    let text = io::read_to_string(alloc, rt.reader())?;
    let read = configuration::read(alloc, text.as_str())?;
    match configuration::validate(alloc, &read.jobs)? {
        Ok(jobs) => plan(rt, &read, jobs),
        Err(faults) => {
            for fault in faults.iter() {
                println!(rt; "{fault}")?;
            }
            Ok(())
        }
    }
}

// Prints the turns of these jobs.
fn plan(rt: &HostRuntime, read: &Configuration, jobs: NEVec<Job>) -> Result<()> {
    let mut by_time = DueFirst::new(rt.alloc(), &jobs)?;
    let mut round = RoundRobin::new(jobs);
    for _ in 0..read.turns {
        println!(rt; "{}", name(read, round.next_turn())?)?;
    }
    for _ in 0..read.turns {
        let due = by_time.run_next().context("the time is up")?;
        println!(rt; "{} {}", due.time, name(read, due.job)?)?;
    }
    Ok(())
}

// Returns the name of a job of the configuration.
fn name(read: &Configuration, job: Job) -> Result<&str> {
    let entry = read.jobs.get(job.place).context("there is no such job")?;
    Ok(entry.name.as_str())
}
