//! What a ledger is.
ghost use Rattle.std.specs.Prelude.{ℕ};

use records::execution::Execution;
use records::order::Order;
use records::symbol_row::SymbolRow;
use std::marker::Model;
use store::store::Store;

/// Three stores, whichever suit the memory, a day limit, and how many messages were accepted.
/// Contracts see the day that it keeps; the stores are in order from the opening on.
#[derive(Drop)]
pub struct Ledger<O: Store<Order>, E: Store<Execution>, S: Store<SymbolRow>> {
    pub(crate) orders: O,
    pub(crate) executions: E,
    pub(crate) symbols: S,
    pub(crate) day_limit: u64,
    pub(crate) accepted: u64,
}

impl<O: Store<Order>, E: Store<Execution>, S: Store<SymbolRow>> Model for Ledger<O, E, S> {
    ghost use Rattle.day_rules.specs.Days.{Day};

    ghost Value = { Day };

    ghost view = { λ a. record { orders = O.Store.model a.orders; executions = E.Store.model a.executions; symbols = S.Store.model a.symbols; day_limit = a.day_limit; accepted = a.accepted } };

    ghost invariant = { λ a. O.Store.ready a.orders × E.Store.ready a.executions × S.Store.ready a.symbols };
}
