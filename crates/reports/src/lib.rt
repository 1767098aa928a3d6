// What a day's report says of it: average prices, totals, and how often lines were refused.
#![tactic(auto)]

pub mod average;
pub mod dollars;
pub mod side;
pub mod totals;
pub mod traded;
