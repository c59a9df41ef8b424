//! A configuration of jobs, in JSON or TOML: the jobs, or everything that is wrong with them.
ghost use Rattle.std.specs.Prelude.{◌≡◌, ◌≢◌, [], IfOk, MatchResult, Ok, Some, map};
ghost use Rattle.std.specs.List.{filter_map};
ghost use Rattle.std.specs.Result.{result_err};
ghost use Rattle.user_programs.specs.Configurations.{fault_text, job_of, jobs_of, wrong};

use crate::queue::Job;
use anyhow::Result as Read;
use ne_string::NEString;
use nonempty_collections::{NEVec, NonEmptyIterator};
use serde::Deserialize;
use std::alloc::{AllocError, Global};
use std::fmt;

/// How many turns are to be planned, and for which jobs.
#[derive(Debug, Drop, Deserialize)]
pub struct Configuration {
    pub turns: usize,
    pub jobs: NEVec<Entry>,
}

/// A job as it is written.
#[derive(Debug, Drop, Deserialize)]
pub struct Entry {
    pub name: NEString,
    pub period: u32,
    pub priority: u32,
}

/// Says what is wrong with the job at index `place`, from 0.
#[derive(Clone, Copy, Debug, PartialEq, Eq)]
pub struct Fault {
    pub place: usize,
    /// The period is 0.
    pub no_period: bool,
    /// The priority is not from 1 to 9.
    pub bad_priority: bool,
}

impl fmt::Display for Fault {
    ghost output = { λ fault. Some (fault_text fault) };

    fn fmt<W: fmt::Write>(&self, f: &mut fmt::Formatter<W>) -> fmt::Result {
        // people count from 1; no index is the greatest `usize`
        let number = self.place.saturating_add(1);
        let wrong = wrong_text(self.no_period, self.bad_priority);
        write!(f, "job {number}: {wrong}")
    }
}

// Says what is wrong, of which there is something.
fn wrong_text(no_period: bool, bad_priority: bool) -> &'static str
    ensures { result.now ≡ wrong no_period bad_priority }
{
    match (no_period, bad_priority) {
        (true, true) => "the period is 0, and the priority is not from 1 to 9",
        (true, false) => "the period is 0",
        (false, _) => "the priority is not from 1 to 9",
    }
}

/// Returns the configuration that a text writes, in JSON if its first character but white space is
/// `{`, and else in TOML.
pub fn read(alloc: Global, text: &str) -> Read<Configuration> {
    if text.trim_start().starts_with('{') {
        Ok(serde_json::from_str(alloc, text)?)
    } else {
        Ok(toml::from_str(alloc, text)?)
    }
}

/// Returns the job that the entry at index `place` describes, or all that is wrong with it.
pub fn job(place: usize, entry: &Entry) -> Result<Job, Fault>
    ensures { result ≡ job_of place entry.now }
{
    let no_period = entry.period == 0;
    let bad_priority = entry.priority == 0 || entry.priority > 9;
    if no_period || bad_priority {
        return Err(Fault {
            place,
            no_period,
            bad_priority,
        });
    }
    Ok(Job {
        priority: entry.priority,
        place,
        period: entry.period,
    })
}

/// Returns the jobs of all entries, or all faults if anything is wrong.
pub fn validate(
    alloc: Global,
    entries: &NEVec<Entry>,
) -> Result<Result<NEVec<Job>, NEVec<Fault>>, AllocError>
    ensures { IfOk result (λ valid. MatchResult valid
        (λ jobs. jobs_of entries.now ≡ map Ok jobs)
        (λ faults. (faults ≡ filter_map result_err (jobs_of entries.now)) × (faults ≢ []))) }
{
    entries
        .nonempty_iter()
        .enumerate()
        .map(|(place, entry)| job(place, entry))
        .all_or_errors(alloc)
}
