// Lines of a capture: cut at their ends, and gathered piece by piece where one comes in several.
#![tactic(auto)]

pub mod buffer;
pub mod count;
pub mod input;
pub mod split;
