//! What is done to a ledger.
use crate::question::Question;

/// A call to a ledger.
#[derive(Clone, Copy, Debug)]
pub enum Call<'a> {
    /// A line is put to it, of any length and any bytes.
    Line(&'a [u8]),
    /// It is asked a question.
    Question(Question),
}
