// How far a long input is, told while it is read.
#![tactic(auto)]

pub mod form;
pub mod metered;
pub mod pace;
