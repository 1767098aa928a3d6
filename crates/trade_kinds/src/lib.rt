//! The kinds of messages that tell of trades and of their breaks.
#![tactic(auto)]

pub mod trade;
pub mod trade_break;
