//! What a ledger is asked. Questions change nothing; what they answer of shares, volume and value
//! is what the log adds up to.
ghost use Rattle.std.specs.Prelude.{◌≡◌, ℕ, ◌+◌, ◌≤◌, ◌∷◌, map, length, min, take};
ghost use Rattle.records.specs.Keys.{symbol_key};
ghost use Rattle.store.specs.Clients.{Listed};
ghost use Rattle.store.specs.Lists.{lookup, those};
ghost use Rattle.book.specs.Books.{rests_on, IsBest};
ghost use Rattle.day_rules.specs.declared.question.Question.TheVariants as question;
ghost use Rattle.day_rules.specs.declared.reply.Reply.TheVariants as replies;
ghost use Rattle.day_rules.specs.Laws.{IsBalanced, IsLeft, IsTraded, IsMarket};
ghost use Rattle.day_rules.specs.Laws.{shares_of, volume_in, value_in, other_side};
ghost use Rattle.day_rules.specs.Log.{Log, Logged, question_put};
ghost use Rattle.day_rules.specs.Places.{most_rows};
ghost use Rattle.day_rules.specs.Questions.{row_from_in, rows_in, book_in, market_in};
ghost use Rattle.day_rules.specs.Rules.{order_in, execution_in, row_in};
ghost use Rattle.day_rules.specs.Words.{history, logged_order, logged_execution, logged_row};

use crate::ledger::Ledger;
use book::book::Book;
use book::queries::{book, market};
use book::turnover::Turnover;
use day_rules::first_rows::FirstRows;
use messages::code::Side;
use records::execution::Execution;
use records::order::Order;
use records::symbol_row::SymbolRow;
use store::clients::list_into;
use store::store::Store;

impl<O: Store<Order>, E: Store<Execution>, S: Store<SymbolRow>> Ledger<O, E, S> {
    /// The order that rests under an Order ID.
    #[tactic(auto, using(crate::proofs::Adding::order_left, crate::proofs::Adding::order_told))]
    pub fn order(&self, id: u64) -> Option<Order>
        ensures says { result ≡ order_in id self.now }
        ensures logged { (log : Log) → Logged log self.now
            → Logged (question_put (question.Order id) (replies.Order result) ∷ log) self.now }
        ensures adds_up { (log : Log) → Logged log self.now
            → IsLeft (history log) id (shares_of result) }
        ensures by_log { (log : Log) → Logged log self.now
            → result ≡ logged_order id (history log) }
    {
        self.orders.find(id)
    }

    /// The execution or trade with an Execution ID, broken or not.
    #[tactic(auto, using(crate::proofs::Adding::execution_told))]
    pub fn execution(&self, id: u64) -> Option<Execution>
        ensures says { result ≡ execution_in id self.now }
        ensures logged { (log : Log) → Logged log self.now
            → Logged
            (question_put (question.Execution id) (replies.Execution result) ∷ log) self.now }
        ensures by_log { (log : Log) → Logged log self.now
            → result ≡ logged_execution id (history log) }
    {
        self.executions.find(id)
    }

    /// What has traded of a symbol.
    #[tactic(auto, using(crate::proofs::Adding::row_traded, crate::proofs::Adding::row_told))]
    pub fn row(&self, symbol: u64) -> Option<SymbolRow>
        ensures says { result ≡ row_in symbol self.now }
        ensures logged { (log : Log) → Logged log self.now
            → Logged (question_put (question.Row symbol) (replies.Row result) ∷ log) self.now }
        ensures adds_up { (log : Log) → Logged log self.now
            → IsTraded (history log) symbol (volume_in result) (value_in result) }
        ensures by_log { (log : Log) → Logged log self.now
            → result ≡ logged_row symbol (history log) }
    {
        self.symbols.find(symbol)
    }

    /// The first row from a symbol's number on.
    pub fn row_from(&self, symbol: u64) -> Option<SymbolRow>
        ensures says { result ≡ row_from_in symbol self.now }
        ensures logged { (log : Log) → Logged log self.now
            → Logged (question_put (question.RowFrom symbol) (replies.Row result) ∷ log) self.now }
    {
        self.symbols.from(symbol)
    }

    /// The rows by rising symbol number, all or as many as there are places for, and how many they
    /// are. The places behind them stay.
    #[tactic(auto, using(crate::proofs::Adding::rows_listed, crate::proofs::Adding::rows_told))]
    pub fn rows(&self, places: &mut [SymbolRow]) -> usize
        ensures says { Listed self.now.symbols.rows places.old places.new result }
        ensures logged { (log : Log) → Logged log self.now
            → Logged
            (question_put (question.Rows (length places.old))
            (replies.Rows (take result places.new)) ∷ log)
            self.now }
        ensures by_log { (log : Log) → Logged log self.now
            → length self.now.symbols.rows ≤ length places.old → (symbol : ℕ)
            → lookup symbol_key symbol (take result places.new) ≡ logged_row symbol (history log) }
    {
        list_into(&self.symbols, places)
    }

    /// The first so many rows by rising symbol number, or all where they are fewer, and 64 at most.
    pub fn first_rows(&self, most: u64) -> FirstRows
        ensures says { result ≡ rows_in (min most most_rows) self.now }
        ensures logged { (log : Log) → Logged log self.now
            → Logged
            (question_put (question.Rows (min most most_rows)) (replies.Rows result) ∷ log)
            self.now }
    {
        let mut places = [SymbolRow::BLANK; FirstRows::MOST];
        let most = most.min(FirstRows::MOST as u64);
        self.rows_by(&mut places[..most as usize])
    }

    // The rows that are listed into places, of which there are no more than a reply has.
    fn rows_by(&self, places: &mut [SymbolRow]) -> FirstRows
        ensures { length places.old ≤ most_rows
            → result ≡ rows_in (length places.old) self.now }
    {
        let count = self.rows(places);
        FirstRows::of(&places[..count])
    }

    /// What rests of a symbol on a side. With what rests on the other side, its shares are what the
    /// log's add up to.
    #[tactic(auto, using(crate::proofs::Adding::book_balances, crate::proofs::Adding::book_counts))]
    pub fn book(&self, symbol: u64, side: Side) -> Book
        ensures says { result ≡ book_in symbol side self.now }
        ensures best { IsBest side
            (map (λ o. o.price) (those (rests_on symbol side) self.now.orders.rows)) result.best }
        ensures counts { (log : Log) → Logged log self.now
            → result.depth.orders.number
            ≡ length (those (rests_on symbol side) self.now.orders.rows) }
        ensures logged { (log : Log) → Logged log self.now
            → Logged
            (question_put (question.Book symbol side) (replies.Book result) ∷ log) self.now }
        ensures balance { (log : Log) → Logged log self.now
            → IsBalanced (history log) symbol
            (result.depth.shares.number
            + (book_in symbol (other_side side) self.now).depth.shares.number) }
    {
        book(&self.orders, symbol, side)
    }

    /// What has traded of all symbols together.
    #[tactic(auto, using(crate::proofs::Adding::market_told))]
    pub fn market(&self) -> Turnover
        ensures says { result ≡ market_in self.now }
        ensures logged { (log : Log) → Logged log self.now
            → Logged (question_put question.Market (replies.Market result) ∷ log) self.now }
        ensures by_log { (log : Log) → Logged log self.now → IsMarket (history log) result }
    {
        market(&self.symbols)
    }

    /// How many messages were accepted.
    #[tactic(auto, using(crate::proofs::Adding::accepted_told))]
    pub fn accepted(&self) -> u64
        ensures says { result ≡ self.now.accepted }
        ensures logged { (log : Log) → Logged log self.now
            → Logged (question_put question.Accepted (replies.Accepted result) ∷ log) self.now }
        ensures by_log { (log : Log) → Logged log self.now → result ≡ length (history log) }
    {
        self.accepted
    }
}
