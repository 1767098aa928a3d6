//! The fields of a line: read, checked and written, each pinned by the definitions of `layout`.
#![tactic(auto)]

pub mod field;
pub mod letter;
pub mod mark;
pub mod number;
pub mod numeral;
pub mod padded;
pub mod place;
mod put;
pub mod reading;
pub mod table;
pub mod text;
