//! The kinds whose lines give the terms of an order: read, checked and written once for the adds
//! and the trades, in the short and in the long form.
#![tactic(auto)]

pub mod line;
pub mod termed;
