//! The kinds of messages that change the book of orders.
#![tactic(auto)]

pub mod add;
pub mod cancel;
pub mod clear;
pub mod executed;
