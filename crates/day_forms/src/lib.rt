// How a day's answers, records and totals are shown: bracketed forms, as those of messages.
#![tactic(auto)]

pub mod answer;
pub mod numbered;
pub mod record;
pub mod total;
