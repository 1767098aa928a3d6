//! A store over slots lent by the caller, hashed by key: linear probing from a key's home, with
//! removal that leaves no marks.
#![tactic(auto)]

mod close;
pub mod hashed;
pub mod home;
mod least;
mod mixing;
pub mod modulo;
mod place;
mod round;
mod slots;
pub mod spread;
mod sweep;
pub mod uneven_slots;
mod way;
