// How a day is to be replayed.

pub use words::kind::Kind;

#[derive(Clone, Copy, PartialEq, Eq, Debug)]
pub struct Stores {
    pub kind: Kind,
    // a front row before the orders
    pub front: bool,
}

// The most that is held of each, and the most messages that are accepted.
#[derive(Clone, Copy, PartialEq, Eq, Debug)]
pub struct Room {
    pub orders: u64,
    pub executions: u64,
    pub symbols: u64,
    pub day_limit: u64,
}

#[derive(Clone, Copy, PartialEq, Eq, Debug)]
pub struct Shown {
    // what each line is answered
    pub answers: bool,
    // the book of this symbol
    pub book: Option<u64>,
    // no progress
    pub quiet: bool,
    // the usage alone, and nothing is replayed
    pub help: bool,
}

#[derive(Clone, Copy, PartialEq, Eq, Debug)]
pub struct Options {
    pub stores: Stores,
    pub room: Room,
    pub shown: Shown,
}
