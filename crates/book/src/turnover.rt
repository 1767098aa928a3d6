// How much has traded.
use records::value::Value;
use tally::total::Total;

#[derive(Clone, Copy, PartialEq, Eq, Debug)]
pub struct Turnover {
    // shares
    pub volume: Total,
    // what they traded for
    pub value: Value,
}
