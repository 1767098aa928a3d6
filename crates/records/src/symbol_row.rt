// What has traded of one symbol.
ghost use Rattle.std.specs.Prelude.{◌≡◌, ◌+◌, ◌*◌, ◌%◌, ◌^◌};
ghost use Rattle.records.specs.Values.{stopped, valued, Parts};
ghost use Rattle.records.specs.KeysLemmas as Keys;

use crate::value::Value;
use store::record::Record;

// The value is held as two plain numbers, since lent memory may hold any.
#[derive(Clone, Copy, PartialEq, Eq, Debug)]
pub struct SymbolRow {
    // its number
    pub symbol: u64,
    // shares traded
    pub volume: u64,
    pub value_high: u64,
    pub value_low: u64,
}

impl SymbolRow {
    // Nothing said of a symbol: what new memory for rows holds until the store over it is emptied.
    pub const BLANK: SymbolRow = SymbolRow {
        symbol: 0,
        volume: 0,
        value_high: 0,
        value_low: 0,
    };

    // What the shares traded for.
    #[tactic(auto, using(crate::specs::ValuesLemmas::is_valued))]
    pub fn value(&self) -> Value
        ensures parts { Parts result (stopped (self.now.value_high * 10 ^ 16 + self.now.value_low)) }
        ensures is { result ≡ valued (self.now.value_high * 10 ^ 16 + self.now.value_low) }
    {
        Value::of_parts(self.value_high, self.value_low)
    }
}

// Kept by the symbol's number.
impl Record for SymbolRow {
    ghost key = { λ r. r.symbol % 2 ^ 64 };

    ghost narrow = { λ r. Keys.narrow r.symbol };

    fn key(&self) -> u64 {
        self.symbol
    }
}
