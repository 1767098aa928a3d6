// What a field of a line is, which bytes spell which value, and the laws of both.
#![tactic(auto)]

pub mod byte_class;
pub mod class;
pub mod fault;
