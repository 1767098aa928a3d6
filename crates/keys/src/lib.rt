// The words that records and sides are named by, outside the feed's lines.
#![tactic(auto)]

pub mod key;
