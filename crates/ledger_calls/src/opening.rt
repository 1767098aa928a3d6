// The line that opens a ledger.

// So many records of each kind at most, and the day limit.
#[derive(Clone, Copy, PartialEq, Eq, Debug)]
pub struct Opening {
    pub orders: u64,
    pub executions: u64,
    pub symbols: u64,
    pub day_limit: u64,
}
