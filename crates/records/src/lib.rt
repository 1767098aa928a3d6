// What is kept of a day's trading.
#![tactic(auto)]

mod arithmetic;
pub mod execution;
pub mod order;
mod sum;
pub mod symbol_row;
pub mod value;
