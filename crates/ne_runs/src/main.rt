//! Reads numbers, one per line, and writes what a mode makes of them.
//!
//! `ne_runs MODE` reads standard input and writes standard output. A fault is reported on standard
//! error and by the exit status.
#![tactic(auto)]

ghost use Rattle.std.specs.Prelude.{◌≡◌, ◌⊎◌, IfErr};

mod device;
mod fault;
mod lines;
mod mode;
mod texts;
mod whole_run;

use device::StdIo;
use fault::Fault;
use mode::LONGEST_WORD;
use std::env::{Env, FillError};
use std::process::ExitCode;
use std::str;
use whole_run::{one_word, run};

fn main(rt: HostRuntime) -> ExitCode {
    match start(&rt) {
        Ok(()) => ExitCode::SUCCESS,
        Err(fault) => {
            let status = fault.status();
            // if the fault cannot be printed, the exit status still reports it
            let _ = rt.eprintln(fault);
            ExitCode::from(status)
        }
    }
}

// Runs the mode that the command line names, on the standard streams.
fn start(rt: &HostRuntime) -> Result<(), Fault> {
    let words = arguments(rt)?;
    let mode = one_word(words.as_slice())?;
    run(
        rt.alloc(),
        mode,
        &mut StdIo::new(rt.stdin()),
        &mut StdIo::new(rt.stdout()),
    )
}

// Returns the words after the program's name. The name is ignored, because a path can be any bytes.
// A word that is not UTF-8, or longer than the word of any mode, is `Usage`.
fn arguments(rt: &HostRuntime) -> Result<Vec<String>, Fault>
    ensures { IfErr result (λ fault. (fault ≡ Fault.Usage) ⊎ (fault ≡ Fault.Memory)) }
{
    let mut words = Vec::new(rt.alloc());
    let mut bytes = [0u8; LONGEST_WORD];
    for place in 1..usize::MAX {
        match rt.arg(place, &mut bytes) {
            Ok(length) => {
                let word = str::from_utf8(&bytes[..length]).map_err(|_| Fault::Usage)?;
                words.push(String::from_str(rt.alloc(), word)?)?;
            }
            Err(FillError::TooLong) => return Err(Fault::Usage),
            Err(FillError::NotPresent) => break,
        }
    }
    Ok(words)
}
