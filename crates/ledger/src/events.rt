// What each message does. Its checks leave the stores nothing to refuse, but a row that stands already.
//
// Here and in the checks, what most messages pass is inlined: a record or an answer that a call hands on is cleared, written and copied in memory (docs/PERFORMANCE.md).
ghost use Rattle.std.specs.Prelude.{◌≡◌, ◌≤◌, Some};
ghost use Rattle.messages.specs.declared.message.Message.TheVariants.{OrderExecuted, OrderCancel};
ghost use Rattle.day_rules.specs.Events.{clears, adds, trades, breaks, event_of};
ghost use Rattle.day_rules.specs.Rules.{outcome, after, reduced, filled, row_after, leaving};
ghost use Rattle.ledger.specs.Steps.{answered, followed};

use crate::ledger::Ledger;
use crate::rows::{new_row, with_execution, without_execution};
use book::queries::clear;
use day_rules::fault::LedgerFault;
use day_rules::outcome::Outcome;
use messages::record;
use records::execution::Execution;
use records::order::Order;
use records::symbol_row::SymbolRow;
use store::store::Store;

impl<O: Store<Order>, E: Store<Execution>, S: Store<SymbolRow>> Ledger<O, E, S> {
    // All orders of a symbol leave the book.
    pub(crate) fn clear(&mut self, symbol: u64) -> Outcome
        ensures says { result ≡ outcome (clears symbol) self.old }
        ensures leaves { self.new ≡ after (clears symbol) self.old }
    {
        let cleared = clear(&mut self.orders, symbol);
        Outcome {
            orders: cleared.orders.number,
            shares: cleared.shares.number,
        }
    }

    // An order comes to rest.
    #[inline(always)]
    pub(crate) fn add(&mut self, order: Order) -> Result<Outcome, LedgerFault>
        ensures says { result ≡ answered (adds order) self.old }
        ensures leaves { self.new ≡ followed (adds order) self.old }
    {
        self.may_rest(&order)?;
        let _ = self.orders.insert(order);
        let _ = self.symbols.insert(new_row(order.symbol));
        Ok(Outcome {
            orders: 0,
            shares: order.shares,
        })
    }

    // Shares of an order are executed, at the price that the order has now.
    pub(crate) fn execute(&mut self, said: &record::OrderExecution) -> Result<Outcome, LedgerFault>
        ensures says { result ≡ answered (event_of (OrderExecuted said.now)) self.old }
        ensures leaves { self.new ≡ followed (event_of (OrderExecuted said.now)) self.old }
    {
        let order = self.shares_at_hand(said.order, said.shares)?;
        self.may_trade(said.execution, order.symbol)?;
        let outcome = self.reduce(order, said.shares);
        self.fill(Execution {
            id: said.execution,
            symbol: order.symbol,
            price: order.price,
            shares: said.shares,
            broken: false,
        });
        Ok(outcome)
    }

    // Shares of an order are cancelled.
    pub(crate) fn cancel(&mut self, said: &record::Cancel) -> Result<Outcome, LedgerFault>
        ensures says { result ≡ answered (event_of (OrderCancel said.now)) self.old }
        ensures leaves { self.new ≡ followed (event_of (OrderCancel said.now)) self.old }
    {
        let order = self.shares_at_hand(said.order, said.shares)?;
        Ok(self.reduce(order, said.shares))
    }

    // Shares are traded; no order is looked up, whatever rests under the Order ID.
    #[inline(always)]
    pub(crate) fn trade(&mut self, execution: Execution) -> Result<Outcome, LedgerFault>
        ensures says { result ≡ answered (trades execution) self.old }
        ensures leaves { self.new ≡ followed (trades execution) self.old }
    {
        self.may_trade(execution.id, execution.symbol)?;
        let shares = self.fill(execution);
        Ok(Outcome { orders: 0, shares })
    }

    // An execution or a trade is broken; it is kept, marked as broken.
    pub(crate) fn break_execution(&mut self, id: u64) -> Result<Outcome, LedgerFault>
        ensures says { result ≡ answered (breaks id) self.old }
        ensures leaves { self.new ≡ followed (breaks id) self.old }
    {
        let execution = self.unbroken(id)?;
        let marked = Execution {
            broken: true,
            ..execution
        };
        let _ = self.executions.replace(marked);
        let Some(row) = self.symbols.find(execution.symbol) else {
            return Ok(Outcome {
                orders: 0,
                shares: 0,
            });
        };
        let row = without_execution(&row, &execution);
        let _ = self.symbols.replace(row);
        Ok(Outcome {
            orders: 0,
            shares: row.volume,
        })
    }

    // Takes shares off an order that rests, and the order off the book with the last of them.
    #[inline(always)]
    fn reduce(&mut self, order: Order, shares: u64) -> Outcome
        requires { shares ≤ order.shares }
        ensures says { result ≡ leaving shares (Some order) }
        ensures leaves { self.new ≡ reduced shares order self.old }
    {
        let left = order.shares - shares;
        if left == 0 {
            let _ = self.orders.remove(order.id);
            return Outcome {
                orders: 1,
                shares: 0,
            };
        }
        let _ = self.orders.replace(Order {
            shares: left,
            ..order
        });
        Outcome {
            orders: 0,
            shares: left,
        }
    }

    // Stores an execution, with its shares and value on the row of its symbol, and answers the row's volume.
    #[inline(always)]
    fn fill(&mut self, execution: Execution) -> u64
        ensures says { result ≡ (row_after execution self.old).volume }
        ensures leaves { self.new ≡ filled execution self.old }
    {
        let _ = self.executions.insert(execution);
        match self.symbols.find(execution.symbol) {
            Some(row) => {
                let row = with_execution(&row, &execution);
                let _ = self.symbols.replace(row);
                row.volume
            }
            None => {
                let row = with_execution(&new_row(execution.symbol), &execution);
                let _ = self.symbols.insert(row);
                row.volume
            }
        }
    }
}
