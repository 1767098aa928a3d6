// What rests and what has traded, told by tallies: the depth of a symbol's side and its best price, and the turnover of all symbols.
#![tactic(auto)]

pub mod best;
pub mod book;
pub mod depth;
mod measures;
mod picks;
pub mod queries;
mod tallies;
pub mod turnover;
