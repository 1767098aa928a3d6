// Why a message is refused. All of this comes before the first change, so that a refusal leaves every store as it was.
ghost use Rattle.std.specs.Prelude.{◌≡◌};
ghost use Rattle.day_rules.specs.Rules.{order_in, execution_in, lacks_row, may_rest, shares_at_hand, may_trade, unbroken};

use crate::ledger::Ledger;
use crate::rows::is_full;
use day_rules::fault::{LedgerFault, StoreName};
use records::execution::Execution;
use records::order::Order;
use records::symbol_row::SymbolRow;
use store::store::Store;

impl<O: Store<Order>, E: Store<Execution>, S: Store<SymbolRow>> Ledger<O, E, S> {
    // Whether a row is needed for the symbol, and none fits. While there is room nothing is searched for.
    pub(crate) fn lacks_row(&self, symbol: u64) -> bool
        ensures { result ≡ lacks_row symbol self.now }
    {
        is_full(&self.symbols) && self.symbols.find(symbol).is_none()
    }

    // Whether an order may come to rest.
    #[inline(always)]
    pub(crate) fn may_rest(&self, order: &Order) -> Result<(), LedgerFault>
        ensures { result ≡ may_rest order.now self.now }
    {
        if self.orders.find(order.id).is_some() {
            return Err(LedgerFault::Resting);
        }
        if is_full(&self.orders) {
            return Err(LedgerFault::Full(StoreName::Order));
        }
        if self.lacks_row(order.symbol) {
            return Err(LedgerFault::Full(StoreName::Symbol));
        }
        Ok(())
    }

    // The order, if so many shares can be taken off it.
    pub(crate) fn shares_at_hand(&self, id: u64, shares: u64) -> Result<Order, LedgerFault>
        ensures { result ≡ shares_at_hand shares (order_in id self.now) }
    {
        let Some(order) = self.orders.find(id) else {
            return Err(LedgerFault::Absent);
        };
        if order.shares < shares {
            return Err(LedgerFault::Excess);
        }
        Ok(order)
    }

    // Whether an execution of the symbol may be stored under the Execution ID.
    #[inline(always)]
    pub(crate) fn may_trade(&self, execution: u64, symbol: u64) -> Result<(), LedgerFault>
        ensures { result ≡ may_trade execution symbol self.now }
    {
        if self.executions.find(execution).is_some() {
            return Err(LedgerFault::Repeated);
        }
        if is_full(&self.executions) {
            return Err(LedgerFault::Full(StoreName::Execution));
        }
        if self.lacks_row(symbol) {
            return Err(LedgerFault::Full(StoreName::Symbol));
        }
        Ok(())
    }

    // The execution, if it can be broken.
    pub(crate) fn unbroken(&self, id: u64) -> Result<Execution, LedgerFault>
        ensures { result ≡ unbroken (execution_in id self.now) }
    {
        let Some(execution) = self.executions.find(id) else {
            return Err(LedgerFault::Unmatched);
        };
        if execution.broken {
            return Err(LedgerFault::Broken);
        }
        Ok(execution)
    }
}
