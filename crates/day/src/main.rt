// Keeps a day: reads the feed's lines from standard input, prints what each did to the book or why it is refused, and at the end what has traded of each symbol.
#![tactic(auto)]

mod running;

use running::run;
use std::io::{BufReader, BufWriter};
use std::process::ExitCode;
use words::arguments::arguments;
use words::named::Named;
use words::program::{Failure, ended, no_words};

fn main(rt: HostRuntime) -> ExitCode {
    ended(&rt, "day", keep(&rt))
}

fn keep(rt: &HostRuntime) -> Result<(), Failure> {
    no_words(arguments(rt)?)?;
    let heap = rt.alloc();
    let mut input = BufReader::new(heap, Named::new("standard input", heap, rt.stdin()))?;
    let mut output = BufWriter::new(heap, Named::new("standard output", heap, rt.stdout()))?;
    Ok(run(&mut input, &mut output)?)
}
