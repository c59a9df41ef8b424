//! A schedule of jobs that are done again and again. There is always a job that comes next.
ghost use Rattle.std.specs.Prelude.{◌≡◌, ◌≤◌, ◌^◌, ◌++◌, ◌∷◌, [], ℕ, IfOk, MatchBool};
ghost use Rattle.std.specs.Prelude.{MatchOption, OnErr, None, Some, true, is_some, nat_eq};
ghost use Rattle.std.specs.List.{reduce};
ghost use Rattle.std.specs.Map.{lookup, set_value};
ghost use Rattle.nonempty_collections.specs.Taken.{TakesFoundUnlessLast};
ghost use Rattle.user_programs.specs.Turns.{ComesNext, after_turn, due_again, earlier, without};

use nonempty_collections::{NEIndexMap, NonEmptyIterator};
use std::alloc::{AllocError, Global};
use std::marker::Model;

/// A job that is due once in each period.
#[derive(Clone, Copy, Debug, PartialEq, Eq)]
pub struct Job {
    pub period: u32,
    /// When the job is due next.
    pub due: u64,
}

/// Jobs by their names, in the order in which they were added. In contracts it is the list of the
/// names with their jobs.
#[derive(Drop)]
pub struct Schedule {
    jobs: NEIndexMap<u32, Job>,
}

impl Model for Schedule {
    ghost use Rattle.std.specs.Prelude.{List, ℕ};
    ghost use Rattle.user_programs.specs.declared.schedule.Job.{Job};

    ghost Value = { List (ℕ × Job) };

    ghost view = { λ s. s.jobs.entries };
}

impl Schedule {
    /// Returns a schedule of one job.
    pub fn new(alloc: Global, name: u32, job: Job) -> Result<Schedule, AllocError>
        ensures { IfOk result (λ s. s ≡ (name, job) ∷ []) }
    {
        let jobs = NEIndexMap::new(alloc, name, job)?;
        Ok(Schedule { jobs })
    }

    /// Adds a job after all others, and returns whether its name is new. If it is not, the schedule
    /// stays as it is.
    pub fn add(&mut self, name: u32, job: Job) -> Result<bool, AllocError>
        ensures added { IfOk result (λ new. MatchBool new
            (self.new ≡ self.old ++ (name, job) ∷ []) (self.new ≡ self.old)) }
        ensures new { IfOk result (λ new. MatchBool new
            (lookup (nat_eq name) self.old ≡ None)
            (is_some (lookup (nat_eq name) self.old) ≡ true)) }
        ensures refused { OnErr result (self.new ≡ self.old) }
    {
        if self.jobs.contains_key(&name) {
            return Ok(false);
        }
        self.jobs.insert(name, job)?;
        Ok(true)
    }

    /// Returns the job that comes next, with its name: the one that is due first, and of several
    /// the one that was added first.
    pub fn next(&self) -> (u32, Job)
        ensures { ComesNext self.now result }
    {
        self.earliest()
    }

    // Returns what is left if, of two jobs in turn, the later one is discarded.
    fn earliest(&self) -> (u32, Job)
        ensures { Some result ≡ reduce (λ p q. earlier p q) self.now }
    {
        self.jobs
            .nonempty_iter()
            .map(|(name, job)| (*name, *job))
            .reduce(|p: (u32, Job), q: (u32, Job)| if q.1.due < p.1.due { q } else { p })
    }

    /// Returns the job that comes next, with its name, which is then due a period later. Returns
    /// `None` if that time does not fit in a `u64`; the schedule then stays as it is.
    pub fn run_next(&mut self) -> Option<(u32, Job)>
        ensures { MatchOption result
            ((self.new ≡ self.old)
            × ((next : ℕ × Job) × ComesNext self.old next × (2 ^ 64 ≤ due_again next.1)))
            (λ next. ComesNext self.old next × (self.new ≡ after_turn self.old next)) }
    {
        let (name, job) = self.next();
        let due = job.due.checked_add(u64::from(job.period))?;
        put(&mut self.jobs, name, Job { due, ..job });
        Some((name, job))
    }

    /// Removes the job of this name and returns it. The others keep their order. Returns `None` if
    /// there is no such job, or if it is the only one, which then stays.
    pub fn finish(&mut self, name: u32) -> Option<Job>
        ensures { TakesFoundUnlessLast (lookup (nat_eq name) self.old ≡ None) self.old self.new
            result (λ job. (lookup (nat_eq name) self.old ≡ Some job)
            × (self.new ≡ without name self.old)) }
    {
        self.jobs.shift_remove(&name)
    }
}

// Puts a job in place of the one of this name, if there is one.
fn put(jobs: &mut NEIndexMap<u32, Job>, name: u32, job: Job)
    ensures { jobs.new.entries ≡ set_value (nat_eq name) jobs.old.entries job }
{
    if let Some(place) = jobs.get_mut(&name) {
        *place = job;
    }
}
