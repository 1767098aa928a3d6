// What the command line of a replay asks for.
#![tactic(auto)]

pub mod complaint;
pub mod meaning;
pub mod mistake;
pub mod options;
pub mod reading;
pub mod request;
pub mod setting;
pub mod usage;
