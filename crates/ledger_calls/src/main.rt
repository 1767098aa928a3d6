// Puts lines and questions to a ledger: reads them from standard input, and prints an answer to each.
#![tactic(auto)]

mod asking;
mod opening;
mod parse;
mod running;
mod shown;
#[cfg(test)]
mod tests;
mod verb;

use running::run;
use std::io::{BufReader, BufWriter};
use std::process::ExitCode;
use words::arguments::arguments;
use words::named::Named;
use words::program::{Failure, ended, no_words};

fn main(rt: HostRuntime) -> ExitCode {
    ended(&rt, "ledger_calls", answer(&rt))
}

fn answer(rt: &HostRuntime) -> Result<(), Failure> {
    no_words(arguments(rt)?)?;
    let heap = rt.alloc();
    let mut input = BufReader::new(heap, Named::new("standard input", heap, rt.stdin()))?;
    let mut output = BufWriter::new(heap, Named::new("standard output", heap, rt.stdout()))?;
    Ok(run(heap, &mut input, &mut output)?)
}
