//! The worked examples: those of reading, of values and of a day are a table of the definitions,
//! proved; those of writing are run and printed.
#![tactic(auto)]

mod examples;
mod writes;

use std::io::LineWriter;
use std::mem::forget;
use std::process::ExitCode;
use words::arguments::arguments;
use words::named::Named;
use words::program::{Failure, ended, no_words};

fn main(rt: HostRuntime) -> ExitCode {
    ended(&rt, "cases", show(&rt))
}

fn show(rt: &HostRuntime) -> Result<(), Failure> {
    no_words(arguments(rt)?)?;
    examples::hold();
    let output = Named::new("standard output", rt.alloc(), rt.stdout());
    // A line is written at once and whole.
    let mut output = LineWriter::new(rt.alloc(), output)?;
    let outcome = writes::show(&mut output);
    // Dropped, the writer would try a line again that could not be written.
    forget(output);
    Ok(outcome?)
}
