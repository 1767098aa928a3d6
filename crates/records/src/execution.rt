// An execution: shares that traded.
ghost use Rattle.std.specs.Prelude.{◌%◌, ◌^◌};
ghost use Rattle.records.specs.KeysLemmas as Keys;

use store::record::Record;

#[derive(Clone, Copy, PartialEq, Eq, Debug)]
pub struct Execution {
    // its Execution ID
    pub id: u64,
    // its symbol's number
    pub symbol: u64,
    // in ten-thousandths of a dollar
    pub price: u64,
    pub shares: u64,
    // broken since
    pub broken: bool,
}

impl Execution {
    // Nothing said of an execution: what new memory for executions holds until the store over it is emptied.
    pub const BLANK: Execution = Execution {
        id: 0,
        symbol: 0,
        price: 0,
        shares: 0,
        broken: false,
    };
}

// Kept by Execution ID.
impl Record for Execution {
    ghost key = { λ e. e.id % 2 ^ 64 };

    ghost narrow = { λ e. Keys.narrow e.id };

    fn key(&self) -> u64 {
        self.id
    }
}
