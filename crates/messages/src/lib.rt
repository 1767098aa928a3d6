//! What the feed's messages are: their kinds, what each says, and how a line lays it out.
#![tactic(auto)]

pub mod code;
pub mod fault;
pub mod kind;
pub mod message;
pub mod record;
