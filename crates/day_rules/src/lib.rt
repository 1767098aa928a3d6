//! The rules of a day: what each message does, why it is refused, and what a log of messages and
//! questions adds up to.
#![tactic(auto)]

pub mod answer;
pub mod call;
pub mod fault;
pub mod first_rows;
pub mod laws;
pub mod outcome;
pub mod question;
pub mod reply;
