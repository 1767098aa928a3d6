// The day ledger: one trading day, kept from the feed's lines over three stores.
#![tactic(auto)]

pub mod calls;
mod checks;
mod events;
pub mod ledger;
mod making;
pub mod open;
pub mod questions;
mod rows;
pub mod runs;
pub mod session;
mod take;
