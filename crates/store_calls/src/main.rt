// Answers calls of a store: reads them from standard input, one a line, and prints an answer to each.
#![tactic(auto)]

mod opening;
mod running;
mod serving;
mod showing;
#[cfg(test)]
mod tests;

use running::run;
use std::io::{BufReader, BufWriter};
use std::process::ExitCode;
use words::arguments::arguments;
use words::named::Named;
use words::program::{Failure, ended, no_words};

fn main(rt: HostRuntime) -> ExitCode {
    ended(&rt, "store_calls", answer(&rt))
}

fn answer(rt: &HostRuntime) -> Result<(), Failure> {
    no_words(arguments(rt)?)?;
    let heap = rt.alloc();
    let mut input = BufReader::new(heap, Named::new("standard input", heap, rt.stdin()))?;
    let mut output = BufWriter::new(heap, Named::new("standard output", heap, rt.stdout()))?;
    Ok(run(heap, &mut input, &mut output)?)
}
