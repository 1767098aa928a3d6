//! What a ledger is asked.
use messages::code::Side;

/// A question. None changes anything.
#[derive(Clone, Copy, PartialEq, Eq, Debug)]
pub enum Question {
    /// The order that rests under an Order ID.
    Order(u64),
    /// The execution or trade with an Execution ID, broken or not.
    Execution(u64),
    /// What has traded of a symbol.
    Row(u64),
    /// The row with the least symbol number at or above one.
    RowFrom(u64),
    /// The first so many rows by rising symbol number, of which a reply holds 64 at most.
    Rows(u64),
    /// What rests of a symbol on a side.
    Book(u64, Side),
    /// What has traded of all symbols.
    Market,
    /// How many messages were accepted.
    Accepted,
}
