//! One call of any sort.
ghost use Rattle.std.specs.Prelude.{◌≡◌, ◌∷◌};
ghost use Rattle.day_rules.specs.Calls.{call_of, call_answer, call_left, held_back};
ghost use Rattle.day_rules.specs.Log.{Log, Logged, question_put};
ghost use Rattle.day_rules.specs.Questions.{reply};

use crate::ledger::Ledger;
use day_rules::answer::Answer;
use day_rules::call::Call;
use day_rules::question::Question;
use day_rules::reply::Reply;
use records::execution::Execution;
use records::order::Order;
use records::symbol_row::SymbolRow;
use store::store::Store;

impl<O: Store<Order>, E: Store<Execution>, S: Store<SymbolRow>> Ledger<O, E, S> {
    /// Puts a line, or replies to a question. A refused line and a question change nothing.
    pub fn call(&mut self, call: Call) -> Answer
        ensures says { result ≡ call_answer (call_of call.entry) self.old }
        ensures leaves { self.new ≡ call_left (call_of call.entry) self.old }
        ensures logged { (log : Log) → Logged log self.old
            → Logged (record { call = call_of call.entry; answer = result } ∷ log) self.new }
    {
        match call {
            Call::Line(line) => Answer::Line(self.put(line)),
            Call::Question(question) => Answer::Question(self.reply(question)),
        }
    }

    /// Replies to a question, and changes nothing. A reply holds 64 rows at most, however many are
    /// asked for.
    pub fn reply(&self, question: Question) -> Reply
        ensures says { result ≡ reply (held_back question) self.now }
        ensures logged { (log : Log) → Logged log self.now
            → Logged (question_put (held_back question) result ∷ log) self.now }
    {
        match question {
            Question::Order(id) => Reply::Order(self.order(id)),
            Question::Execution(id) => Reply::Execution(self.execution(id)),
            Question::Row(symbol) => Reply::Row(self.row(symbol)),
            Question::RowFrom(symbol) => Reply::Row(self.row_from(symbol)),
            Question::Rows(most) => Reply::Rows(self.first_rows(most)),
            Question::Book(symbol, side) => Reply::Book(self.book(symbol, side)),
            Question::Market => Reply::Market(self.market()),
            Question::Accepted => Reply::Accepted(self.accepted()),
        }
    }
}
