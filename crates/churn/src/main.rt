//! Runs loads of adds and removes over a store, and prints what was counted; how long each part
//! took where that is asked.
//!
//! churn STORE LOAD SLOTS LIVE PAIRS [time]
#![tactic(auto)]

mod arguments;
mod counts;
mod even;
mod feed;
mod load;
mod mistake;
mod orders;
mod random;
mod run;
mod stores;
#[cfg(test)]
mod tests;
mod watch;

use run::run;
use std::process::ExitCode;
use words::arguments::arguments;
use words::program::ended;

fn main(rt: HostRuntime) -> ExitCode {
    match arguments(&rt) {
        Ok(words) => ended(&rt, "churn", run(&rt, words.as_slice())),
        Err(error) => ended(&rt, "churn", Err(error)),
    }
}
