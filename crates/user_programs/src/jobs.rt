//! The number of turns, the jobs and the names of finished jobs that a text writes.
use crate::schedule::{Job, Schedule};
use anyhow::{Context, Result, ensure};
use std::alloc::Global;

/// Returns the number of turns, the jobs and the names of those that are finished, in order, or an
/// error that says what is wrong with the text.
pub fn read(alloc: Global, text: &str) -> Result<(u32, Schedule, Vec<u32>)> {
    let mut lines = text.lines();
    let turns = lines.next().context("there is no line")?;
    let turns = turns.parse().context("line 1 is not the number of turns")?;
    let (name, job) = lines
        .next()
        .and_then(|line| named_job(line))
        .context("line 2 is no job")?;
    let mut schedule = Schedule::new(alloc, name, job)?;
    let mut finished = Vec::new(alloc);
    for (place, line) in lines.enumerate() {
        if let Some(name) = line.strip_prefix("finish ") {
            let name = name
                .parse()
                .context(format_args!("line {} names no job", place + 3))?;
            finished.push(name)?;
            continue;
        }
        let (name, job) = named_job(line).context(format_args!("line {} is no job", place + 3))?;
        ensure!(
            schedule.add(name, job)?,
            "line {}: there is a job {name} already",
            place + 3
        );
    }
    Ok((turns, schedule, finished))
}

// Returns the job that a line writes, with its name: two numbers, of which the period is not 0. It
// is first due after its period.
fn named_job(line: &str) -> Option<(u32, Job)> {
    let (name, period) = line.split_once(' ')?;
    let name = name.parse().ok()?;
    let period = period.parse().ok()?;
    if period == 0 {
        return None;
    }
    let due = u64::from(period);
    Some((name, Job { period, due }))
}
