//! What each kind of message says. An ID, a symbol and a participant go by their numbers: an ID's
//! in base 36, a text's in base 256 with its bytes filled up with spaces (a symbol to eight, a
//! participant to four), the first byte highest.
use crate::code::{Customer, Display, Side, TradeSide};

/// All orders of the symbol leave the book.
#[derive(Clone, Copy, PartialEq, Eq, Debug)]
pub struct ClearSymbol {
    /// Milliseconds past midnight, as in every record.
    pub time: u64,
    pub symbol: u64,
}

/// The terms of an order, which an add and a trade give alike.
#[derive(Clone, Copy, PartialEq, Eq, Debug)]
pub struct Terms<S> {
    pub time: u64,
    pub order: u64,
    pub side: S,
    pub shares: u64,
    pub symbol: u64,
    /// Ten-thousandths of a dollar.
    pub price: u64,
}

/// An order comes to rest on the book.
#[derive(Clone, Copy, PartialEq, Eq, Debug)]
pub struct AddOrder {
    pub terms: Terms<Side>,
    pub display: Display,
}

/// The same of a symbol of up to eight bytes. It may name a market participant, and tell that the
/// order is a retail customer's.
#[derive(Clone, Copy, PartialEq, Eq, Debug)]
pub struct LongAdd {
    pub add: AddOrder,
    pub participant: u64,
    pub customer: Customer,
}

/// Shares of a resting order that an add told of were executed.
#[derive(Clone, Copy, PartialEq, Eq, Debug)]
pub struct OrderExecution {
    pub time: u64,
    pub order: u64,
    pub shares: u64,
    pub execution: u64,
}

/// Shares of a resting order were cancelled.
#[derive(Clone, Copy, PartialEq, Eq, Debug)]
pub struct Cancel {
    pub time: u64,
    pub order: u64,
    pub shares: u64,
}

/// An execution that takes no shares off an order that an add told of: of hidden orders or reserve
/// shares on the book, or of orders routed to another venue.
#[derive(Clone, Copy, PartialEq, Eq, Debug)]
pub struct Trade {
    pub terms: Terms<TradeSide>,
    pub execution: u64,
}

/// An execution or a trade was broken.
#[derive(Clone, Copy, PartialEq, Eq, Debug)]
pub struct Break {
    pub time: u64,
    pub execution: u64,
}
