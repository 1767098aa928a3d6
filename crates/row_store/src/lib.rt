// A store of records that stand one after another in rows lent by the caller.
#![tactic(auto)]

mod change;
pub mod meaning;
pub mod row;
mod seek;
mod shift;
mod sweep;
