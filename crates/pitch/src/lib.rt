//! Messages of the feed: read from a line, and written into a buffer.
#![tactic(auto)]

pub mod reader;
pub mod writer;
