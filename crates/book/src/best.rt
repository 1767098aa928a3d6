// The best of some prices, or none of no prices: the greatest to buy, the least to sell.
#[derive(Clone, Copy, PartialEq, Eq, Debug)]
pub struct Best<const BUYS: bool> {
    pub price: Option<u64>,
}
