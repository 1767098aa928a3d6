// What rests of one symbol on one side.
use crate::depth::Depth;

#[derive(Clone, Copy, PartialEq, Eq, Debug)]
pub struct Book {
    pub depth: Depth,
    // in ten-thousandths of a dollar; none where no order rests
    pub best: Option<u64>,
}
