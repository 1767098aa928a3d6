// What is asked of the stores of orders and of symbols' rows, whatever the stores are.
ghost use Rattle.std.specs.Prelude.{◌≡◌, map};
ghost use Rattle.store.specs.Lists.{those};
ghost use Rattle.store.specs.Models.{sweeping};
ghost use Rattle.book.specs.Books.{side_of, is_of, rests_on, depth_of, book_of, turnover_of, IsBest};

use crate::best::Best;
use crate::book::Book;
use crate::depth::Depth;
use crate::measures::{DepthOf, PriceOf, TurnoverOf};
use crate::picks::{OfSymbol, RestsOn};
use crate::turnover::Turnover;
use messages::code::Side;
use records::order::Order;
use records::symbol_row::SymbolRow;
use store::picked::Picked;
use store::store::Store;
use store::walk::walk;
use tally::both::Both;

// What rests of a symbol on a side.
pub fn book<S: Store<Order>>(orders: &S, symbol: u64, side: Side) -> Book
    ensures says { S.Store.ready orders.now → result ≡ book_of symbol side (S.Store.model orders.now).rows }
    ensures best { S.Store.ready orders.now → IsBest side (map (λ o. o.price) (those (rests_on symbol side) (S.Store.model orders.now).rows)) result.best }
{
    match side {
        Side::Buy => book_on::<S, true>(orders, symbol),
        Side::Sell => book_on::<S, false>(orders, symbol),
    }
}

// The same, for the side that a constant names, in one walk.
fn book_on<S: Store<Order>, const BUYS: bool>(orders: &S, symbol: u64) -> Book
    ensures says { S.Store.ready orders.now → result ≡ book_of symbol (side_of BUYS) (S.Store.model orders.now).rows }
    ensures best { S.Store.ready orders.now → IsBest (side_of BUYS) (map (λ o. o.price) (those (rests_on symbol (side_of BUYS)) (S.Store.model orders.now).rows)) result.best }
{
    let resting = Picked {
        pick: RestsOn {
            symbol,
            side: side::<BUYS>(),
        },
        measure: Both {
            first: DepthOf,
            second: PriceOf::<BUYS>,
        },
    };
    let seen = walk(orders, &resting);
    Book {
        depth: seen.first,
        best: seen.second.price,
    }
}

// The side that the best price is of.
fn side<const BUYS: bool>() -> Side
    ensures { result ≡ side_of BUYS }
{
    if BUYS { Side::Buy } else { Side::Sell }
}

/// Takes all orders of a symbol off the book, and answers how many they were and their shares:
/// the walk tells what they come to, and then they are removed.
pub fn clear<S: Store<Order>>(orders: &mut S, symbol: u64) -> Depth
    ensures says { S.Store.ready orders.old
        → result ≡ depth_of (those (is_of symbol) (S.Store.model orders.old).rows) }
    ensures leaves { S.Store.ready orders.old
        → S.Store.model orders.new ≡ sweeping (is_of symbol) (S.Store.model orders.old) }
    ensures still { S.Store.ready orders.old → S.Store.ready orders.new }
{
    let cleared = measure_depth(orders, symbol);
    orders.sweep(&OfSymbol { symbol });
    cleared
}

// How many orders of a symbol there are, and their shares, by the walk.
fn measure_depth<S: Store<Order>>(orders: &S, symbol: u64) -> Depth
    ensures { S.Store.ready orders.now
        → result ≡ depth_of (those (is_of symbol) (S.Store.model orders.now).rows) }
{
    let resting = Picked {
        pick: OfSymbol { symbol },
        measure: DepthOf,
    };
    walk(orders, &resting)
}

// What all symbols have traded.
pub fn market<S: Store<SymbolRow>>(rows: &S) -> Turnover
    ensures { S.Store.ready rows.now → result ≡ turnover_of (S.Store.model rows.now).rows }
{
    traded(rows)
}

// The same, by the walk.
fn traded<S: Store<SymbolRow>>(rows: &S) -> Turnover
    ensures { S.Store.ready rows.now → result ≡ turnover_of (S.Store.model rows.now).rows }
{
    walk(rows, &TurnoverOf)
}
