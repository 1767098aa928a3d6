// A day replayed: kept over stores of the sort and the size that were asked for, and reported.
#![tactic(auto)]

pub mod replay;
mod report;
pub mod slots;
