// What a ledger may easily get wrong, and an input whose first line opens none.
use crate::running::{answer_lines, run};
use capture::count::LineCount;
use day_rules::answer::Answer;
use day_rules::call::Call;
use day_rules::fault::LedgerFault;
use day_rules::first_rows::FirstRows;
use day_rules::outcome::Outcome;
use day_rules::question::Question;
use day_rules::reply::Reply;
use front_row::front_row::FrontRow;
use hashed_store::hashed::HashedStore;
use ledger::ledger::Ledger;
use ledger::session::keep_session;
use records::execution::Execution;
use records::order::Order;
use records::symbol_row::SymbolRow;
use row_store::row::RowStore;
use std::alloc::Global;
use std::process::Abort;
use std::test::Fail;

// What is written for an input.
fn answers(rt: &impl Abort, heap: Global, input: &[u8], expected: &[u8]) -> Result<(), Fail> {
    let mut input = input;
    let mut output = Vec::new(heap);
    run(heap, &mut input, &mut output)?;
    assert!(rt; output.as_slice() == expected);
    Ok(())
}

#[test]
fn a_break_takes_off_the_price_of_its_own_execution(rt: HostRuntime) -> Result<(), Fail> {
    answers(
        &rt,
        rt.alloc(),
        b"ledger 9 9 9 9\n34200000A0000000000A1B000500ABCD  0000102500Y\n34200010E0000000000A1000200000000000001\n34200020X0000000000A1000300\n34200020A0000000000A1B000300ABCD  0000105000Y\n34200025E0000000000A1000100000000000002\n34200030B000000000001\n?row ABCD\n",
        b"(line 1 (opened 9 9 9 9))\n(line 2 (took 0 500))\n(line 3 (took 0 300))\n(line 4 (took 1 0))\n(line 5 (took 0 300))\n(line 6 (took 0 200))\n(line 7 (took 0 100))\n(line 8 (symbol ABCD (volume 100) (value 0 10500000)))\n",
    )
}

#[test]
fn an_id_that_is_executed_in_full_or_cancelled_is_added_again(rt: HostRuntime) -> Result<(), Fail> {
    answers(
        &rt,
        rt.alloc(),
        b"ledger 9 9 9 9\n34200000A0000000000A1B000500ABCD  0000102500Y\n34200010E0000000000A1000500000000000001\n34200020A0000000000A1S000300ABCD  0000105000Y\n34200030X0000000000A1000300\n34200040A0000000000A1S000100ABCD  0000106000Y\n",
        b"(line 1 (opened 9 9 9 9))\n(line 2 (took 0 500))\n(line 3 (took 1 0))\n(line 4 (took 0 300))\n(line 5 (took 1 0))\n(line 6 (took 0 100))\n",
    )
}

#[test]
fn a_broken_execution_is_kept(rt: HostRuntime) -> Result<(), Fail> {
    answers(
        &rt,
        rt.alloc(),
        b"ledger 9 9 9 9\n34200000P000000000000B000100ABCD  0000102500000000000001\n34200010B000000000001\n34200020B000000000001\n34200030B000000000002\n34200040P000000000000B000100ABCD  0000102500000000000001\n",
        b"(line 1 (opened 9 9 9 9))\n(line 2 (took 0 100))\n(line 3 (took 0 0))\n(line 4 (refused 11))\n(line 5 (refused 10))\n(line 6 (refused 9))\n",
    )
}

#[test]
fn a_trade_changes_no_order(rt: HostRuntime) -> Result<(), Fail> {
    answers(
        &rt,
        rt.alloc(),
        b"ledger 9 9 9 9\n34200000A0000000000A1B000500ABCD  0000102500Y\n34200010P0000000000A1B000100ABCD  0000102000000000000001\n?order 0000000000A1\n",
        b"(line 1 (opened 9 9 9 9))\n(line 2 (took 0 500))\n(line 3 (took 0 100))\n(line 4 (order 0000000000A1 (side B) (shares 500) (symbol ABCD) (price 102500) (display Y)))\n",
    )
}

#[test]
fn nothing_is_answered_without_a_ledger(rt: HostRuntime) -> Result<(), Fail> {
    answers(
        &rt,
        rt.alloc(),
        b"ledger 65 1 1 9\n?market\n",
        b"(line 1 (no ledger))\n",
    )
}

// The sample day over hashed stores, the orders' with a front row before it: what the row stores of the other tests answer.
#[test]
fn other_stores_answer_alike(rt: HostRuntime) -> Result<(), Fail> {
    let (mut order_tags, mut orders) = ([0; 3], [Order::BLANK; 3]);
    let (mut execution_tags, mut executions) = ([0; 5], [Execution::BLANK; 5]);
    let (mut symbol_tags, mut symbols) = ([0; 2], [SymbolRow::BLANK; 2]);
    let Ok(orders) = HashedStore::<Order>::new(&mut order_tags, &mut orders) else {
        unreachable!()
    };
    let Ok(executions) = HashedStore::<Execution>::new(&mut execution_tags, &mut executions) else {
        unreachable!()
    };
    let Ok(symbols) = HashedStore::<SymbolRow>::new(&mut symbol_tags, &mut symbols) else {
        unreachable!()
    };
    let mut ledger = Ledger::open(FrontRow::new(orders), executions, symbols, 9);
    let mut input: &[u8] =
        b"28800000sABCD    \n34200000A0000000000A1B000500ABCD  0000102500Y\n34200010E0000000000A1000200000000000001\n34200020X0000000000A1000300\n34200020A0000000000A1B000300ABCD  0000105000Y\n34200025E0000000000A1000100000000000002\n34200030B000000000001\n34200030B000000000001\n?row ABCD\n?book ABCD B\n";
    let mut output = Vec::new(rt.alloc());
    answer_lines(&mut ledger, LineCount::new(), &mut input, &mut output)?;
    let expected =
        b"(line 1 (took 0 0))\n(line 2 (took 0 500))\n(line 3 (took 0 300))\n(line 4 (took 1 0))\n(line 5 (took 0 300))\n(line 6 (took 0 200))\n(line 7 (took 0 100))\n(line 8 (refused 11))\n(line 9 (symbol ABCD (volume 100) (value 0 10500000)))\n(line 10 (book (orders 1) (shares 200) (best 105000)))\n";
    assert!(rt; output.as_slice() == &expected[..]);
    Ok(())
}

// Lines and questions in one call, and one call more than there is room for.
#[test]
fn a_session_is_kept_in_one_call(rt: HostRuntime) -> Result<(), Fail> {
    let (mut orders, mut executions) = ([Order::BLANK; 2], [Execution::BLANK; 2]);
    let mut symbols = [SymbolRow::BLANK; 2];
    let stores = (
        RowStore::new(&mut orders),
        RowStore::new(&mut executions),
        RowStore::new(&mut symbols),
    );
    let calls = [
        Call::Line(b"34200000A0000000000A1B000500ABCD  0000102500Y"),
        Call::Question(Question::Rows(65)),
        Call::Line(b"34200001sABCD    "),
        Call::Question(Question::Accepted),
        Call::Line(b"34200002X0000000000A1000300"),
    ];
    let mut answers = [Answer::Line(Err(LedgerFault::Closed)); 4];
    let ledger = keep_session(stores, 9, &calls, &mut answers);
    let row = SymbolRow {
        symbol: 4702394920804032544,
        ..SymbolRow::BLANK
    };
    let expected = [
        Answer::Line(Ok(Outcome {
            orders: 0,
            shares: 500,
        })),
        Answer::Question(Reply::Rows(FirstRows::of(&[row]))),
        Answer::Line(Ok(Outcome {
            orders: 1,
            shares: 500,
        })),
        Answer::Question(Reply::Accepted(2)),
    ];
    assert!(&rt; answers == expected);
    assert!(&rt; ledger.accepted() == 2);
    Ok(())
}
