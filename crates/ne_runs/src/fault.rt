//! [`Fault`]: why a run did not end by writing its text. There are seven faults, each with its text
//! and its exit status.
ghost use Rattle.std.specs.Prelude.{◌≡◌, Some};
ghost use Rattle.ne_runs.specs.Faults.{fault_text, fault_status};
ghost use Rattle.ne_runs.specs.declared.fault.Fault.TheVariants.{Memory};

use std::alloc::{AllocError, AllocFailed};
use std::error::Error;
use std::fmt;

/// Why a run ended without writing its whole text and flushing it.
#[derive(Clone, Copy, Debug, PartialEq, Eq)]
pub enum Fault {
    /// The input has no line.
    Empty,
    /// A line of the input is bad. The number is that of the first bad line, counted from 1.
    BadLine(u32),
    /// The input has more than [`LIMIT`](crate::whole_run::LIMIT) bytes.
    TooLong,
    /// There is not exactly one word, or it names no mode. Nothing was read.
    Usage,
    /// A read failed.
    Read,
    /// A write or the flush failed.
    Write,
    /// An allocation failed.
    Memory,
}

impl Fault {
    /// Returns the exit status: 1 for no line, 2 for a bad input or word, 3 for a failed device, 4
    /// for a failed allocation.
    pub fn status(&self) -> u8
        ensures { result ≡ fault_status self.now }
    {
        match self {
            Fault::Empty => 1,
            Fault::BadLine(_) | Fault::TooLong | Fault::Usage => 2,
            Fault::Read | Fault::Write => 3,
            Fault::Memory => 4,
        }
    }
}

impl fmt::Display for Fault {
    ghost output = { λ fault. Some (fault_text fault) };

    fn fmt<W: fmt::Write>(&self, f: &mut fmt::Formatter<W>) -> fmt::Result {
        match self {
            Fault::Empty => write!(f, "Given collection was empty"),
            Fault::BadLine(line) => write!(f, "bad line {line}"),
            Fault::TooLong => write!(f, "input too long"),
            Fault::Usage => write!(f, "usage: ne_runs MODE"),
            Fault::Read => write!(f, "read failed"),
            Fault::Write => write!(f, "write failed"),
            Fault::Memory => write!(f, "out of memory"),
        }
    }
}

impl Error for Fault {}

impl From<AllocError> for Fault {
    ghost from_gives = { λ _ fault. fault ≡ Memory };

    fn from(_error: AllocError) -> Fault {
        Fault::Memory
    }
}

impl<T: Drop> From<AllocFailed<T>> for Fault {
    ghost from_gives = { λ _ fault. fault ≡ Memory };

    fn from(_error: AllocFailed<T>) -> Fault {
        Fault::Memory
    }
}
