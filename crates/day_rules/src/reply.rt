//! What a question is replied.
use crate::first_rows::FirstRows;
use book::book::Book;
use book::turnover::Turnover;
use records::execution::Execution;
use records::order::Order;
use records::symbol_row::SymbolRow;

/// The reply to a question: none where no order, execution or row is found.
#[derive(Clone, Copy, PartialEq, Eq, Debug)]
pub enum Reply {
    Order(Option<Order>),
    Execution(Option<Execution>),
    /// To both questions for one row.
    Row(Option<SymbolRow>),
    Rows(FirstRows),
    Book(Book),
    Market(Turnover),
    Accepted(u64),
}
