// From the first line of a day to the last line of its report.
ghost use Rattle.std.specs.Prelude.{◌≡◌, ℕ, ◌++◌, length, IfSome, OnOk};
ghost use Rattle.std.specs.Io.KnownBytes.{Appends};
ghost use Rattle.capture.specs.Lines.{lines_of};
ghost use Rattle.day_rules.specs.Lines.{day_after, answers_to};
ghost use Rattle.day_rules.specs.Questions.{rows_in};
ghost use Rattle.day_lines.specs.Seen.{IsSeen};
ghost use Rattle.day_lines.specs.Texts.{in_line};
ghost use Rattle.reports.specs.Texts.{side_report, lines_report};
ghost use Rattle.replaying.specs.Texts.{printed, closing, market_line, side_line, book_lines, counts_text, times_line};

use book::turnover::Turnover;
use day_lines::rows::show_rows;
use day_lines::seen::Seen;
use day_lines::taking::take_lines;
use ledger::ledger::Ledger;
use messages::code::Side;
use options::options::Shown;
use records::execution::Execution;
use records::order::Order;
use records::symbol_row::SymbolRow;
use reports::side::SideReport;
use reports::totals::{LinesReport, RefusedReport};
use reports::traded::MarketReport;
use std::io;
use std::io::{BufRead, Write};
use store::store::Store;

// Puts the lines to a ledger and reports the day, and holds nothing back.
pub(crate) fn report<
    R: BufRead,
    W: Write,
    O: Store<Order>,
    E: Store<Execution>,
    S: Store<SymbolRow>,
>(
    ledger: &mut Ledger<O, E, S>,
    shown: &Shown,
    places: &mut [SymbolRow],
    input: &mut R,
    output: &mut W,
) -> io::Result<()>
    ensures { OnOk result (IfSome (R.remaining input.old) (λ bytes. Appends (W.contents output.old) (W.contents output.new) (printed (length places.old) shown.now ledger.old bytes))) }
{
    tell(ledger, shown, places, input, output)?;
    output.flush()
}

// What is answered to each line if that is asked for, what has traded of each symbol, as many as there are places for, and of all, what rests of the symbol that was
// asked for, and what became of the lines.
fn tell<R: BufRead, W: Write, O: Store<Order>, E: Store<Execution>, S: Store<SymbolRow>>(
    ledger: &mut Ledger<O, E, S>,
    shown: &Shown,
    places: &mut [SymbolRow],
    input: &mut R,
    output: &mut W,
) -> io::Result<()>
    ensures { OnOk result (IfSome (R.remaining input.old) (λ bytes. Appends (W.contents output.old) (W.contents output.new) (printed (length places.old) shown.now ledger.old bytes))) }
{
    let seen = take_lines(ledger, shown.answers, input, output)?;
    close(ledger, shown.book, places, &seen, output)
}

// What the day came to.
fn close<W: Write, O: Store<Order>, E: Store<Execution>, S: Store<SymbolRow>>(
    ledger: &Ledger<O, E, S>,
    book: Option<u64>,
    places: &mut [SymbolRow],
    seen: &Seen,
    output: &mut W,
) -> io::Result<()>
    ensures { OnOk result (Appends (W.contents output.old) (W.contents output.new) (closing (rows_in (length places.old) ledger.now) book seen.now.lines.lines seen.now.refusals.counts ledger.now)) }
{
    show_rows(ledger, places, true, output)?;
    show_market(&ledger.market(), output)?;
    show_book(ledger, book, output)?;
    show_totals(seen, ledger.accepted(), output)
}

fn show_market<W: Write>(market: &Turnover, output: &mut W) -> io::Result<()>
    ensures { OnOk result (Appends (W.contents output.old) (W.contents output.new) (market_line market.now)) }
{
    writeln!(output, "{}", MarketReport(market))
}

// What rests of a symbol, if one is asked for.
fn show_book<W: Write, O: Store<Order>, E: Store<Execution>, S: Store<SymbolRow>>(
    ledger: &Ledger<O, E, S>,
    symbol: Option<u64>,
    output: &mut W,
) -> io::Result<()>
    ensures { OnOk result (Appends (W.contents output.old) (W.contents output.new) (book_lines symbol ledger.now)) }
{
    let Some(symbol) = symbol else {
        return Ok(());
    };
    show_side(ledger, symbol, Side::Buy, output)?;
    show_side(ledger, symbol, Side::Sell, output)
}

fn show_side<W: Write, O: Store<Order>, E: Store<Execution>, S: Store<SymbolRow>>(
    ledger: &Ledger<O, E, S>,
    symbol: u64,
    side: Side,
    output: &mut W,
) -> io::Result<()>
    ensures { OnOk result (Appends (W.contents output.old) (W.contents output.new) (side_line symbol side ledger.now)) }
{
    let book = &ledger.book(symbol, side);
    writeln!(output, "{}", SideReport { symbol, side, book })
}

// How many lines there were, how many messages were accepted, and how often each refusal came.
fn show_totals<W: Write>(seen: &Seen, accepted: u64, output: &mut W) -> io::Result<()>
    ensures { OnOk result (Appends (W.contents output.old) (W.contents output.new) (in_line (lines_report seen.now.lines.lines accepted) ++ counts_text 0 seen.now.refusals.counts)) }
{
    let lines = seen.lines.lines;
    writeln!(output, "{}", LinesReport { lines, accepted })?;
    show_counts(&seen.refusals.counts, output)
}

// The refusals that came, each behind its number.
fn show_counts<W: Write>(counts: &[u64], output: &mut W) -> io::Result<()>
    ensures { OnOk result (Appends (W.contents output.old) (W.contents output.new) (counts_text 0 counts.now)) }
{
    for (number, times) in counts.iter().enumerate() {
        show_times(number as u64, *times, output)?;
    }
    Ok(())
}

fn show_times<W: Write>(number: u64, times: u64, output: &mut W) -> io::Result<()>
    ensures { OnOk result (Appends (W.contents output.old) (W.contents output.new) (times_line number times)) }
{
    if times == 0 {
        return Ok(());
    }
    writeln!(output, "{}", RefusedReport { number, times })
}
