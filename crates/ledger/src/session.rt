//! A whole session.
ghost use Rattle.std.specs.Prelude.{◌≡◌, map};
ghost use Rattle.day_rules.specs.Calls.{call_of, call_answer, call_left};
ghost use Rattle.day_rules.specs.Days.{opening};
ghost use Rattle.day_rules.specs.Laws.{SharesBalance, OrdersAddUp, TurnoverAddsUp};
ghost use Rattle.day_rules.specs.Laws.{NoneBrokenTwice, AnswersAddUp, LogLaws};
ghost use Rattle.day_rules.specs.Log.{Logged};
ghost use Rattle.ledger.specs.Runs.{answers_on, day_on, log_of};

use crate::ledger::Ledger;
use day_rules::answer::Answer;
use day_rules::call::Call;
use records::execution::Execution;
use records::order::Order;
use records::symbol_row::SymbolRow;
use store::store::Store;

/// Keeps a session: opens a ledger over three stores, whatever they hold, and makes the calls one
/// after the other, as many as there is room for answers. Each answer goes to the place of its
/// call; the places behind them stay. Answers the ledger.
pub fn keep_session<O: Store<Order>, E: Store<Execution>, S: Store<SymbolRow>>(
    stores: (O, E, S),
    day_limit: u64,
    calls: &[Call],
    answers: &mut [Answer],
) -> Ledger<O, E, S>
    ensures answers { answers.new
        ≡ answers_on call_answer call_left
        (opening (O.Store.model stores.0) (E.Store.model stores.1)
        (S.Store.model stores.2) day_limit)
        (map call_of calls.now) answers.old }
    ensures leaves { result
        ≡ day_on call_left
        (opening (O.Store.model stores.0) (E.Store.model stores.1)
        (S.Store.model stores.2) day_limit)
        (map call_of calls.now) answers.old }
    ensures logged { Logged (log_of (map call_of calls.now) answers.new) result }
    ensures shares_balance { SharesBalance (log_of (map call_of calls.now) answers.new) result }
    ensures orders_add_up { OrdersAddUp (log_of (map call_of calls.now) answers.new) result }
    ensures turnover_adds_up { TurnoverAddsUp (log_of (map call_of calls.now) answers.new) result }
    ensures none_broken_twice { NoneBrokenTwice (log_of (map call_of calls.now) answers.new) }
    ensures answers_add_up { AnswersAddUp (log_of (map call_of calls.now) answers.new) }
    // These five, and what else every log adds up to.
    ensures laws { LogLaws (log_of (map call_of calls.now) answers.new) result }
{
    open_and_call(stores, day_limit, calls, answers)
}

fn open_and_call<O: Store<Order>, E: Store<Execution>, S: Store<SymbolRow>>(
    stores: (O, E, S),
    day_limit: u64,
    calls: &[Call],
    answers: &mut [Answer],
) -> Ledger<O, E, S>
    ensures answers { answers.new
        ≡ answers_on call_answer call_left
        (opening (O.Store.model stores.0) (E.Store.model stores.1)
        (S.Store.model stores.2) day_limit)
        (map call_of calls.now) answers.old }
    ensures leaves { result
        ≡ day_on call_left
        (opening (O.Store.model stores.0) (E.Store.model stores.1)
        (S.Store.model stores.2) day_limit)
        (map call_of calls.now) answers.old }
    ensures logged { Logged (log_of (map call_of calls.now) answers.new) result }
{
    let (orders, executions, symbols) = stores;
    let mut ledger = Ledger::open(orders, executions, symbols, day_limit);
    ledger.call_all(calls, answers);
    ledger
}
