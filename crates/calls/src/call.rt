// What a line can ask for.

use words::kind::Kind;

// A store to open: its kind, with a front before it or none, over memory for so many records.
#[derive(Clone, Copy, PartialEq, Eq, Debug)]
pub struct Opening {
    pub front: bool,
    pub kind: Kind,
    pub limit: u64,
}

// A call of the open store, with an order's key and shares where it takes them.
#[derive(Clone, Copy, PartialEq, Eq, Debug)]
pub enum Call {
    Insert(u64, u64),
    Find(u64),
    From(u64),
    Replace(u64, u64),
    Remove(u64),
    Stands(u64),
    Count,
    Limit,
    Empty,
}

#[derive(Clone, Copy, PartialEq, Eq, Debug)]
pub enum Request {
    Open(Opening),
    Ask(Call),
}
