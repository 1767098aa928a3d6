//! What an accepted message answers.
#[derive(Clone, Copy, PartialEq, Eq, Debug)]
pub struct Outcome {
    /// orders taken off the book
    pub orders: u64,
    /// of the order left, of the orders cleared, or of the symbol traded so far
    pub shares: u64,
}
