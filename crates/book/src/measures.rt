// What orders and rows give.
ghost use Rattle.std.specs.Prelude.{◌≡◌, Some};
ghost use Rattle.tally.specs.Totals.{total_of};
ghost use Rattle.records.specs.Keys.{row_worth};
ghost use Rattle.records.specs.Values.{valued};

use crate::best::Best;
use crate::depth::Depth;
use crate::turnover::Turnover;
use records::order::Order;
use records::symbol_row::SymbolRow;
use tally::measure::Measure;
use tally::total::Total;

// The depth of one order: itself, and its shares.
#[derive(Clone, Copy, Drop)]
pub(crate) struct DepthOf;

impl Measure<Order> for DepthOf {
    type Out = Depth;

    ghost given = { λ _ o. record { orders = total_of 1; shares = total_of o.shares } };

    fn of(&self, item: Order) -> Depth {
        Depth {
            orders: Total::of(1),
            shares: Total::of(item.shares),
        }
    }
}

// Its price.
#[derive(Clone, Copy, Drop)]
pub(crate) struct PriceOf<const BUYS: bool>;

impl<const BUYS: bool> Measure<Order> for PriceOf<BUYS> {
    type Out = Best<BUYS>;

    ghost given = { λ _ o. record { price = Some o.price } };

    fn of(&self, item: Order) -> Best<BUYS> {
        Best {
            price: Some(item.price),
        }
    }
}

// The turnover of one symbol: its row's volume and value.
#[derive(Clone, Copy, Drop)]
pub(crate) struct TurnoverOf;

impl Measure<SymbolRow> for TurnoverOf {
    type Out = Turnover;

    ghost given = { λ _ r. record { volume = total_of r.volume; value = valued (row_worth r) } };

    fn of(&self, item: SymbolRow) -> Turnover {
        Turnover {
            volume: Total::of(item.volume),
            value: item.value(),
        }
    }
}
