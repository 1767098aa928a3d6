// From the first line to the last row.
ghost use Rattle.std.specs.Prelude.{◌≡◌, length, IfSome, OnOk};
ghost use Rattle.std.specs.Io.KnownBytes.{Appends};
ghost use Rattle.day_rules.specs.Days.{opened, greatest_limit};
ghost use Rattle.day.specs.Texts.{printed, day_text};

use day_lines::rows::show_rows;
use day_lines::taking::take_lines;
use ledger::ledger::Ledger;
use ledger::open::GREATEST_LIMIT;
use records::execution::Execution;
use records::order::Order;
use records::symbol_row::SymbolRow;
use row_store::row::RowStore;
use std::io;
use std::io::{BufRead, Write};
use store::store::Store;

// So many are held at most.
const ORDERS: usize = 64;

const EXECUTIONS: usize = 64;

const SYMBOLS: usize = 16;

// Keeps the day of an input, over memory of its own, and prints what is said of it and nothing else.
pub fn run<R: BufRead, W: Write>(input: &mut R, output: &mut W) -> io::Result<()>
    ensures { OnOk result (IfSome (R.remaining input.old) (λ bytes. Appends (W.contents output.old) (W.contents output.new) (day_text bytes))) }
{
    let mut orders = [Order::BLANK; ORDERS];
    let mut executions = [Execution::BLANK; EXECUTIONS];
    let mut symbols = [SymbolRow::BLANK; SYMBOLS];
    let mut places = [SymbolRow::BLANK; SYMBOLS];
    run_over(
        &mut orders,
        &mut executions,
        &mut symbols,
        &mut places,
        input,
        output,
    )
}

fn run_over<R: BufRead, W: Write>(
    orders: &mut [Order],
    executions: &mut [Execution],
    symbols: &mut [SymbolRow],
    places: &mut [SymbolRow],
    input: &mut R,
    output: &mut W,
) -> io::Result<()>
    ensures { OnOk result (IfSome (R.remaining input.old) (λ bytes. Appends (W.contents output.old) (W.contents output.new) (printed (length places.old) (opened (length orders.old) (length executions.old) (length symbols.old) greatest_limit) bytes))) }
{
    let mut ledger = Ledger::open(
        RowStore::new(orders),
        RowStore::new(executions),
        RowStore::new(symbols),
        GREATEST_LIMIT,
    );
    print(&mut ledger, places, input, output)
}

// What is answered to the lines, and the rows after them, as many as there are places for.
fn print<R: BufRead, W: Write, O: Store<Order>, E: Store<Execution>, S: Store<SymbolRow>>(
    ledger: &mut Ledger<O, E, S>,
    places: &mut [SymbolRow],
    input: &mut R,
    output: &mut W,
) -> io::Result<()>
    ensures { OnOk result (IfSome (R.remaining input.old) (λ bytes. Appends (W.contents output.old) (W.contents output.new) (printed (length places.old) ledger.old bytes))) }
{
    take_lines(ledger, true, input, output)?;
    show_rows(ledger, places, false, output)?;
    output.flush()
}
