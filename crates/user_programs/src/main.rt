//! Small programs over the library. `user_programs NAME` reads standard input and writes standard
//! output; the comment of the module `NAME_program` says what.
#![tactic(auto)]

mod builder;
mod commands;
mod configuration;
mod configuration_program;
mod intervals;
mod intervals_program;
mod jobs;
mod queries_program;
mod queue;
mod report;
mod report_program;
mod rows;
mod schedule;
mod schedule_program;
mod validation;
mod validation_program;

use anyhow::{Result, bail};
use std::convert::AsSlice;
use std::env;

fn main(rt: HostRuntime) -> Result<()> {
    let words: Vec<String> = env::args(&rt)?.skip(1).collect(rt.alloc())?;
    let [name] = words.as_slice() else {
        bail!("usage: user_programs NAME");
    };
    match name.as_str() {
        "configuration" => configuration_program::run(&rt),
        "intervals" => intervals_program::run(&rt),
        "queries" => queries_program::run(&rt),
        "report" => report_program::run(&rt),
        "schedule" => schedule_program::run(&rt),
        "validation" => validation_program::run(&rt),
        _ => bail!("usage: user_programs NAME"),
    }
}
