// What a store of records is, for every representation: the records' meaning, the store's calls, and what is done by them alone.
#![tactic(auto)]

pub mod clients;
pub mod pick;
pub mod picked;
pub mod record;
pub mod refusal;
pub mod rules;
pub mod store;
pub mod visit;
pub mod walk;
