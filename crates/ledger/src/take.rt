//! The message call.
ghost use Rattle.std.specs.Prelude.{◌≡◌, ℕ, ◌↔◌, List, ◌∷◌, OnErr};
ghost use Rattle.messages.specs.Telling.{line_message};
ghost use Rattle.day_rules.specs.Due.{LineDue, Refuses};
ghost use Rattle.day_rules.specs.Events.{event_of};
ghost use Rattle.day_rules.specs.Faults.{Carried};
ghost use Rattle.day_rules.specs.Laws.{SharesBalance, OrdersAddUp, TurnoverAddsUp};
ghost use Rattle.day_rules.specs.Laws.{AnswersAddUp, NoneBrokenTwice};
ghost use Rattle.day_rules.specs.Log.{Log, Logged, line_put};
ghost use Rattle.day_rules.specs.Rules.{event_answer, event_after, answer, next};
ghost use Rattle.ledger.specs.Steps.{answered, followed, or_unread};

use crate::ledger::Ledger;
use crate::making::{order_of, trade_of};
use day_rules::fault::LedgerFault;
use day_rules::outcome::Outcome;
use messages::message::Message;
use pitch::reader::read;
use records::execution::Execution;
use records::order::Order;
use records::symbol_row::SymbolRow;
use store::store::Store;

impl<O: Store<Order>, E: Store<Execution>, S: Store<SymbolRow>> Ledger<O, E, S> {
    /// Takes a line, any bytes: what it did to the book, or why it is refused. A refusal changes
    /// nothing.
    pub fn put(&mut self, line: &[u8]) -> Result<Outcome, LedgerFault>
        ensures says { result ≡ answer line.now self.old }
        ensures leaves { self.new ≡ next line.now self.old }
        // Each refusal is given in its own case, and in that case only.
        ensures due { (n : ℕ) (c : Carried) → Refuses result n c ↔ LineDue line.now self.old n c }
        ensures refused { OnErr result (self.new ≡ self.old) }
        // Whatever log led to the day before, with this line it leads to the day after.
        ensures logged { (log : Log) → Logged log self.old
            → Logged (line_put line.now result ∷ log) self.new }
        ensures shares_balance { (log : Log) → Logged log self.old
            → SharesBalance (line_put line.now result ∷ log) self.new }
        ensures orders_add_up { (log : Log) → Logged log self.old
            → OrdersAddUp (line_put line.now result ∷ log) self.new }
        ensures turnover_adds_up { (log : Log) → Logged log self.old
            → TurnoverAddsUp (line_put line.now result ∷ log) self.new }
        ensures answers_add_up { (log : Log) → Logged log self.old
            → AnswersAddUp (line_put line.now result ∷ log) }
        ensures none_broken_twice { (log : Log) → Logged log self.old
            → NoneBrokenTwice (line_put line.now result ∷ log) }
    {
        self.take_line(line)
    }

    #[tactic(auto, unfolding(day_rules::specs::Rules::answer, day_rules::specs::Rules::next))]
    fn take_line(&mut self, line: &[u8]) -> Result<Outcome, LedgerFault>
        ensures says { result ≡ answer line.now self.old }
        ensures leaves { self.new ≡ next line.now self.old }
    {
        self.take_message(&message_of(line)?)
    }

    // The day limit comes first, and accepted messages are counted.
    fn take_message(&mut self, message: &Message) -> Result<Outcome, LedgerFault>
        ensures says { result ≡ event_answer (event_of message.now) self.old }
        ensures leaves { self.new ≡ event_after (event_of message.now) self.old }
    {
        if self.accepted >= self.day_limit {
            return Err(LedgerFault::Closed);
        }
        let accepted = self.accepted + 1;
        let outcome = self.apply(message)?;
        self.accepted = accepted;
        Ok(outcome)
    }

    // The short and the long form of a message do the same.
    fn apply(&mut self, message: &Message) -> Result<Outcome, LedgerFault>
        ensures says { result ≡ answered (event_of message.now) self.old }
        ensures leaves { self.new ≡ followed (event_of message.now) self.old }
    {
        match message {
            Message::SymbolClear(clear) => Ok(self.clear(clear.symbol)),
            Message::AddShort(add) => self.add(order_of(add)),
            Message::AddLong(long) => self.add(order_of(&long.add)),
            Message::OrderExecuted(executed) => self.execute(executed),
            Message::OrderCancel(cancel) => self.cancel(cancel),
            Message::TradeShort(trade) | Message::TradeLong(trade) => {
                self.trade(trade_of(trade))
            }
            Message::TradeBreak(broken) => self.break_execution(broken.execution),
        }
    }
}

// The message of a line.
#[inline(always)]
fn message_of(line: &[u8]) -> Result<Message, LedgerFault>
    ensures { result ≡ or_unread (line_message line.now) }
{
    Ok(read(line)?)
}
