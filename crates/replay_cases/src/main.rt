//! Replays the day of standard input by many command lines: over each sort of store, with little
//! room, and with each mistake.
#![tactic(auto)]

mod commands;
mod running;
#[cfg(test)]
mod tests;

use commands::COMMANDS;
use running::run;
use std::io::{BufWriter, Read};
use std::process::ExitCode;
use words::arguments::arguments;
use words::named::Named;
use words::program::{Failure, ended, no_words};

fn main(rt: HostRuntime) -> ExitCode {
    ended(&rt, "replay_cases", replay_all(&rt))
}

fn replay_all(rt: &HostRuntime) -> Result<(), Failure> {
    no_words(arguments(rt)?)?;
    let heap = rt.alloc();
    let mut input = Named::new("standard input", heap, rt.stdin());
    let mut day = Vec::new(heap);
    input.read_to_end(&mut day)?;
    let mut output = BufWriter::new(heap, Named::new("standard output", heap, rt.stdout()))?;
    Ok(run(heap, &COMMANDS, day.as_slice(), &mut output)?)
}
