// How much rests.
use tally::total::Total;

#[derive(Clone, Copy, PartialEq, Eq, Debug)]
pub struct Depth {
    pub orders: Total,
    pub shares: Total,
}
