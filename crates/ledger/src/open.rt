//! Opening a ledger.
ghost use Rattle.std.specs.Prelude.{◌≡◌, []};
ghost use Rattle.day_rules.specs.Days.{opening};
ghost use Rattle.day_rules.specs.Log.{Logged};

use crate::ledger::Ledger;
use records::execution::Execution;
use records::order::Order;
use records::symbol_row::SymbolRow;
use store::store::Store;

/// The greatest day limit.
pub const GREATEST_LIMIT: u64 = 1_000_000_000;

impl<O: Store<Order>, E: Store<Execution>, S: Store<SymbolRow>> Ledger<O, E, S> {
    /// Over three stores, which are emptied, whatever they held.
    pub fn open(orders: O, executions: E, symbols: S, day_limit: u64) -> Ledger<O, E, S>
        ensures opened { result ≡ opening (O.Store.model orders) (E.Store.model executions) (S.Store.model symbols) day_limit }
        ensures logged { Logged [] result }
    {
        let mut orders = orders;
        let mut executions = executions;
        let mut symbols = symbols;
        orders.empty();
        executions.empty();
        symbols.empty();
        Ledger {
            orders,
            executions,
            symbols,
            day_limit: day_limit.clamp(1, GREATEST_LIMIT),
            accepted: 0,
        }
    }
}
