//! Many lines or calls, one after the other.
ghost use Rattle.std.specs.Prelude.{◌≡◌, map, length, min};
ghost use Rattle.day_rules.specs.declared.answer.Answer.TheVariants as answered;
ghost use Rattle.day_rules.specs.Calls.{line, call_of, call_answer, call_left};
ghost use Rattle.day_rules.specs.Log.{Log, Logged};
ghost use Rattle.day_rules.specs.Rules.{answer, next};
ghost use Rattle.ledger.specs.Runs.{answers_on, day_on, log_on};

use crate::ledger::Ledger;
use day_rules::answer::Answer;
use day_rules::call::Call;
use day_rules::fault::LedgerFault;
use day_rules::outcome::Outcome;
use records::execution::Execution;
use records::order::Order;
use records::symbol_row::SymbolRow;
use store::store::Store;

impl<O: Store<Order>, E: Store<Execution>, S: Store<SymbolRow>> Ledger<O, E, S> {
    /// Puts the lines one after the other, as many as there is room for answers, and answers how
    /// many they were. Each answer goes to the place of its line; the places behind them stay.
    #[tactic(auto, using(crate::proofs::Running::lines_logged))]
    pub fn put_all(
        &mut self,
        lines: &[&[u8]],
        answers: &mut [Result<Outcome, LedgerFault>],
    ) -> usize
        ensures count { result ≡ min (length lines.now) (length answers.old) }
        ensures answers { answers.new
            ≡ answers_on answer next self.old (map (λ line. line.now) lines.now) answers.old }
        ensures leaves { self.new
            ≡ day_on next self.old (map (λ line. line.now) lines.now) answers.old }
        ensures logged { (log : Log) → Logged log self.old
            → Logged
            (log_on log (map line (map (λ line. line.now) lines.now))
            (map answered.Line answers.new))
            self.new }
    {
        self.put_each(lines, answers)
    }

    fn put_each(&mut self, lines: &[&[u8]], answers: &mut [Result<Outcome, LedgerFault>]) -> usize
        ensures count { result ≡ min (length lines.now) (length answers.old) }
        ensures answers { answers.new
            ≡ answers_on answer next self.old (map (λ line. line.now) lines.now) answers.old }
        ensures leaves { self.new
            ≡ day_on next self.old (map (λ line. line.now) lines.now) answers.old }
    {
        let count = lines.len().min(answers.len());
        for (place, answer) in answers[..count].iter_mut().enumerate() {
            *answer = self.put(lines[place]);
        }
        count
    }

    /// Makes the calls one after the other, as many as there is room for answers, and answers how
    /// many they were. Each answer goes to the place of its call; the places behind them stay.
    pub fn call_all(&mut self, calls: &[Call], answers: &mut [Answer]) -> usize
        ensures count { result ≡ min (length calls.now) (length answers.old) }
        ensures answers { answers.new
            ≡ answers_on call_answer call_left self.old (map call_of calls.now) answers.old }
        ensures leaves { self.new
            ≡ day_on call_left self.old (map call_of calls.now) answers.old }
        ensures logged { (log : Log) → Logged log self.old
            → Logged (log_on log (map call_of calls.now) answers.new) self.new }
    {
        self.call_each(calls, answers)
    }

    fn call_each(&mut self, calls: &[Call], answers: &mut [Answer]) -> usize
        ensures count { result ≡ min (length calls.now) (length answers.old) }
        ensures answers { answers.new
            ≡ answers_on call_answer call_left self.old (map call_of calls.now) answers.old }
        ensures leaves { self.new
            ≡ day_on call_left self.old (map call_of calls.now) answers.old }
    {
        let count = calls.len().min(answers.len());
        for (place, answer) in answers[..count].iter_mut().enumerate() {
            *answer = self.call(calls[place]);
        }
        count
    }
}
