//! Lists a capture of the feed: a form for each line of standard input, and then the totals.
#![tactic(auto)]

mod listing;
mod rewriting;
mod running;
#[cfg(test)]
mod tests;
mod totals;

use running::run;
use std::io::{BufReader, BufWriter};
use std::process::ExitCode;
use words::arguments::arguments;
use words::named::Named;
use words::program::{Failure, ended, no_words};

// At most so many bytes are read and written at a time, whatever the length of the lines.
const CHUNK: usize = 65_536;

fn main(rt: HostRuntime) -> ExitCode {
    ended(&rt, "lines", list(&rt))
}

fn list(rt: &HostRuntime) -> Result<(), Failure> {
    no_words(arguments(rt)?)?;
    let heap = rt.alloc();
    let input = Named::new("standard input", heap, rt.stdin());
    let mut input = BufReader::with_capacity(heap, CHUNK, input)?;
    let output = Named::new("standard output", heap, rt.stdout());
    let mut output = BufWriter::with_capacity(heap, CHUNK, output)?;
    Ok(run(&mut input, &mut output)?)
}
