// Replays a day of the feed's lines, from a file or standard input, and prints its report; progress goes to standard error.
#![tactic(auto)]

mod failure;
mod running;

use running::run;
use std::process::ExitCode;
use words::arguments::arguments;
use words::program::ended;

fn main(rt: HostRuntime) -> ExitCode {
    match arguments(&rt) {
        Ok(words) => ended(&rt, "replay", run(&rt, words.as_slice())),
        Err(error) => ended(&rt, "replay", Err(error)),
    }
}
