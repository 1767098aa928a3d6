// Tallies: what is said of many records by joining what each of them gives, in any order.
#![tactic(auto)]

pub mod both;
pub mod measure;
mod pairs;
pub mod sum;
pub mod tally;
pub mod total;
