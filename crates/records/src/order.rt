// An order that stands in the book.
ghost use Rattle.std.specs.Prelude.{◌%◌, ◌^◌};
ghost use Rattle.records.specs.KeysLemmas as Keys;

use messages::code::{Display, Side};
use store::record::Record;

#[derive(Clone, Copy, PartialEq, Eq, Debug)]
pub struct Order {
    // its Order ID
    pub id: u64,
    // its symbol's number
    pub symbol: u64,
    // in ten-thousandths of a dollar
    pub price: u64,
    // left on it
    pub shares: u64,
    // the two bytes last, so that an order takes 40 bytes
    pub side: Side,
    pub display: Display,
}

impl Order {
    // Nothing said of an order: what new memory for orders holds until the store over it is emptied, and what fields that are not given are.
    pub const BLANK: Order = Order {
        id: 0,
        symbol: 0,
        price: 0,
        shares: 0,
        side: Side::Buy,
        display: Display::Quoted,
    };
}

// Kept by Order ID.
impl Record for Order {
    ghost key = { λ o. o.id % 2 ^ 64 };

    ghost narrow = { λ o. Keys.narrow o.id };

    fn key(&self) -> u64 {
        self.id
    }
}
