//! What a call is answered.
use crate::fault::LedgerFault;
use crate::outcome::Outcome;
use crate::reply::Reply;

/// The answer to a call.
#[derive(Clone, Copy, PartialEq, Eq, Debug)]
pub enum Answer {
    /// To a line: what it did to the book, or why it is refused.
    Line(Result<Outcome, LedgerFault>),
    /// To a question.
    Question(Reply),
}
