// Tests of orders.
ghost use Rattle.book.specs.Books.{is_of, rests_on};

use messages::code::Side;
use records::order::Order;
use store::pick::Pick;

// Whether an order is of a symbol.
#[derive(Clone, Copy, Drop)]
pub(crate) struct OfSymbol {
    pub symbol: u64,
}

impl Pick<Order> for OfSymbol {
    ghost picked = { λ pick o. is_of pick.symbol o };

    fn picks(&self, item: Order) -> bool {
        item.symbol == self.symbol
    }
}

// Whether an order is of a symbol and a side.
#[derive(Clone, Copy, Drop)]
pub(crate) struct RestsOn {
    pub symbol: u64,
    pub side: Side,
}

impl Pick<Order> for RestsOn {
    ghost picked = { λ pick o. rests_on pick.symbol pick.side o };

    fn picks(&self, item: Order) -> bool {
        let of = OfSymbol {
            symbol: self.symbol,
        };
        of.picks(item) && item.side == self.side
    }
}
