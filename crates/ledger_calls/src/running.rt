//! From the first line to the last.
ghost use Rattle.std.specs.Prelude.{◌≡◌, IfSome, OnOk};
ghost use Rattle.std.specs.Io.KnownBytes.{Appends};
ghost use Rattle.capture.specs.Held.{held};
ghost use Rattle.capture.specs.Lines.{lines_of};
ghost use Rattle.day_forms.specs.Texts.{numbered_line};
ghost use Rattle.ledger_calls.specs.Replies.{said_to, day_left};
ghost use Rattle.ledger_calls.specs.Runs.{said_on, day_opened, opened_text, run_text, HasLaws};
ghost use Rattle.ledger_calls.specs.Texts.{said_text};

use crate::asking::say;
use crate::opening::Opening;
use crate::parse::opening;
use crate::shown::Said;
use capture::buffer::LineBuffer;
use capture::count::LineCount;
use capture::input::{next_line, too_long};
use day_forms::numbered::Numbered;
use ledger::ledger::Ledger;
use records::execution::Execution;
use records::order::Order;
use records::symbol_row::SymbolRow;
use row_store::row::RowStore;
use std::alloc::Global;
use std::io::{BufRead, Write};
use std::{fmt, io};
use store::store::Store;

/// Answers every line of the input on the output. Where the first opens no ledger, nothing more is
/// answered. Whatever is read, the calls that it makes and the answers to them are a log that adds
/// up. More lines than can be counted, 2^64 - 1 behind the first, are a file too large.
pub fn run<R: BufRead, W: Write>(heap: Global, input: &mut R, output: &mut W) -> io::Result<()>
    ensures prints { OnOk result (IfSome (R.remaining input.old) (λ bytes.
        Appends (W.contents output.old) (W.contents output.new) (run_text (lines_of bytes)))) }
    ensures laws { IfSome (R.remaining input.old) (λ bytes. HasLaws (lines_of bytes)) }
{
    answer_all(heap, input, output)
}

fn answer_all<R: BufRead, W: Write>(heap: Global, input: &mut R, output: &mut W) -> io::Result<()>
    ensures { OnOk result (IfSome (R.remaining input.old) (λ bytes.
        Appends (W.contents output.old) (W.contents output.new) (run_text (lines_of bytes)))) }
{
    let mut line = LineBuffer::new();
    if next_line(input, &mut line)? {
        answer(heap, opening(line.line()), input, output)?;
    }
    output.flush()
}

// Answers the first line, and the others if it opens a ledger.
fn answer<R: BufRead, W: Write>(
    heap: Global,
    opened: Option<Opening>,
    input: &mut R,
    output: &mut W,
) -> io::Result<()>
    ensures { OnOk result (IfSome (R.remaining input.old) (λ bytes. Appends (W.contents output.old) (W.contents output.new) (opened_text opened (lines_of bytes)))) }
{
    let mut count = LineCount::new();
    let number = count.next();
    match opened {
        None => show(output, number, &"(no ledger)"),
        Some(opened) => {
            show(output, number, &opened)?;
            serve(heap, opened, count, input, output)
        }
    }
}

// Answers the lines after the first by a ledger over new memory.
fn serve<R: BufRead, W: Write>(
    heap: Global,
    opened: Opening,
    count: LineCount,
    input: &mut R,
    output: &mut W,
) -> io::Result<()>
    ensures { OnOk result (IfSome (R.remaining input.old) (λ bytes. Appends (W.contents output.old) (W.contents output.new) (said_on count.lines (lines_of bytes) (day_opened opened)))) }
{
    let mut orders = vec![in heap; Order::BLANK; opened.orders as usize]?;
    let mut executions = vec![in heap; Execution::BLANK; opened.executions as usize]?;
    let mut symbols = vec![in heap; SymbolRow::BLANK; opened.symbols as usize]?;
    let mut ledger = Ledger::open(
        RowStore::new(orders.as_mut_slice()),
        RowStore::new(executions.as_mut_slice()),
        RowStore::new(symbols.as_mut_slice()),
        opened.day_limit,
    );
    answer_lines(&mut ledger, count, input, output)
}

pub(crate) fn answer_lines<
    R: BufRead,
    W: Write,
    O: Store<Order>,
    E: Store<Execution>,
    S: Store<SymbolRow>,
>(
    ledger: &mut Ledger<O, E, S>,
    mut count: LineCount,
    input: &mut R,
    output: &mut W,
) -> io::Result<()>
    ensures { OnOk result (IfSome (R.remaining input.old) (λ bytes. Appends (W.contents output.old) (W.contents output.new) (said_on count.lines (lines_of bytes) ledger.old))) }
{
    let mut line = LineBuffer::new();
    // Nothing says that the input ends, and no handle to wait without end is used here: so the turns are counted.
    for _ in 0..u64::MAX {
        if !next_line(input, &mut line)? {
            return Ok(());
        }
        answer_line(ledger, count.next(), &line, output)?;
    }
    Err(too_long())
}

// Says what the ledger says to a line, behind the line's number.
fn answer_line<W: Write, O: Store<Order>, E: Store<Execution>, S: Store<SymbolRow>>(
    ledger: &mut Ledger<O, E, S>,
    number: u64,
    line: &LineBuffer,
    output: &mut W,
) -> io::Result<()>
    ensures leaves { ledger.new ≡ day_left (held line.now) ledger.old }
    ensures says { OnOk result (Appends (W.contents output.old) (W.contents output.new) (numbered_line number (said_text (said_to (held line.now) ledger.old)))) }
{
    let said = say(ledger, line.line());
    show(output, number, &Said(&said))
}

// Prints what is said to a line, behind the line's number.
fn show<W: Write, D: fmt::Display>(output: &mut W, number: u64, form: &D) -> io::Result<()>
    ensures { OnOk result (IfSome (D.output form.now) (λ text. Appends (W.contents output.old) (W.contents output.new) (numbered_line number text))) }
{
    writeln!(output, "{}", Numbered { number, form })
}
