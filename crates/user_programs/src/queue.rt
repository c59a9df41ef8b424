//! Jobs that wait for their turn. There is always one that comes next.
ghost use Rattle.std.specs.Prelude.{◌≡◌, ◌≤◌, ◌^◌, ◌+◌, ◌∷◌, IfOk, MatchOption, Some, map};
ghost use Rattle.std.specs.Prelude.{slice_get};
ghost use Rattle.std.specs.List.Sorted.{IsPermutation};
ghost use Rattle.user_programs.specs.Rounds.{IsDueFirst, TakesTurn, due_again, first_due, reversed};

use ne_deque::NEVecDeque;
use ne_heap::NEBinaryHeap;
use nonempty_collections::{NEVec, NonEmptyIterator};
use std::alloc::{AllocError, Global};
use std::cmp::Reverse;
use std::marker::Model;

/// A job that is due once in each period. Of two jobs the lesser one is the more urgent.
#[derive(Clone, Copy, Debug, PartialEq, Eq, PartialOrd, Ord)]
pub struct Job {
    /// How urgent the job is: 1 is the most urgent.
    pub priority: u32,
    /// Which job it is, counted from 0.
    pub place: usize,
    pub period: u32,
}

/// A job, and when it is due.
#[derive(Clone, Copy, Debug, PartialEq, Eq, PartialOrd, Ord)]
pub struct Due {
    pub time: u64,
    pub job: Job,
}

/// Jobs that take turns: the first one has the next turn, and then stands last. In contracts it is
/// the list of the jobs.
#[derive(Drop)]
pub struct RoundRobin<T> {
    jobs: NEVecDeque<T>,
}

impl<T> Model for RoundRobin<T> {
    ghost use Rattle.std.specs.Prelude.{List};

    ghost Value = { List T };

    ghost view = { λ r. r.jobs };
}

impl<T: Copy> RoundRobin<T> {
    /// Returns a queue of these jobs.
    pub fn new(jobs: NEVec<T>) -> RoundRobin<T>
        ensures { result ≡ jobs }
    {
        let jobs = NEVecDeque::from(jobs);
        RoundRobin { jobs }
    }

    /// Returns the job that has the next turn, which then stands last.
    pub fn next_turn(&mut self) -> T
        ensures { TakesTurn self.old result self.new }
    {
        let job = *self.jobs.front();
        self.jobs.rotate_left(1);
        job
    }
}

/// Jobs of which the one that is due first comes next. In contracts it is the list of the jobs,
/// each in a `Reverse`.
#[derive(Drop)]
pub struct DueFirst {
    jobs: NEBinaryHeap<Reverse<Due>>,
}

impl Model for DueFirst {
    ghost use Rattle.std.specs.Prelude.{List};
    ghost use Rattle.std.specs.declared.cmp.Reverse.{Reverse};
    ghost use Rattle.user_programs.specs.declared.queue.Due.{Due};

    ghost Value = { List (Reverse Due) };

    ghost view = { λ d. d.jobs };
}

impl DueFirst {
    /// Returns a queue of these jobs, each of which is first due after its period.
    pub fn new(alloc: Global, jobs: &NEVec<Job>) -> Result<DueFirst, AllocError>
        ensures { IfOk result (IsPermutation (map (λ job. reversed (first_due job)) jobs.now)) }
    {
        let jobs = jobs
            .nonempty_iter()
            .map(|job| Reverse(Due {
                time: u64::from(job.period),
                job: *job,
            }))
            .collect(alloc)?;
        Ok(DueFirst { jobs })
    }

    // Returns the job at the top of the heap, which is the one that is due first.
    fn top(&self) -> Due
        ensures first { IsDueFirst self.now result }
        ensures top { slice_get self.now 0 ≡ Some (reversed result) }
    {
        self.jobs.peek().0
    }

    /// Returns the job that is due first, which is then due a period later. Returns `None` if that
    /// time does not fit in a `u64`; nothing then changes.
    pub fn run_next(&mut self) -> Option<Due>
        ensures { MatchOption result
            ((self.new ≡ self.old)
            × ((due : Due) × IsDueFirst self.old due × (2 ^ 64 ≤ due.time + due.job.period)))
            (λ due. IsDueFirst self.old due
            × IsPermutation (reversed (due_again due) ∷ self.old) (reversed due ∷ self.new)) }
    {
        let due = self.top();
        let time = due.time.checked_add(u64::from(due.job.period))?;
        self.jobs.replace_greatest(Reverse(Due { time, ..due }));
        Some(due)
    }
}
