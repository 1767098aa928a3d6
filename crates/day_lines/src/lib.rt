// A day kept from an input: its lines put to a ledger, what they are answered shown and counted, and the rows that it leaves shown.
#![tactic(auto)]

pub mod refusals;
pub mod rows;
pub mod seen;
pub mod taking;
