//! How messages and refusals are shown: bracketed forms, one word before each value.
#![tactic(auto)]

mod field;
pub mod message;
pub mod refusal;
pub mod text;
mod trim;
