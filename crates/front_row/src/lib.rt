// Orders touched lately, in front of a store of orders: they are found with no search in the store.
#![tactic(auto)]

mod front;
pub mod front_row;
pub mod meaning;
pub mod open;
