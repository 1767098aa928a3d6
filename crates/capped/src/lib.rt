// A cap on any store: fewer records than the memory below has room for.
#![tactic(auto)]

pub mod capped;
pub mod meaning;
