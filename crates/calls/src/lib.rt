// Calls of a store, written as lines: what a line asks for, what any store answers, and how an answer is shown.
#![tactic(auto)]

pub mod answers;
pub mod call;
pub mod parse;
pub mod reply;
mod verb;
