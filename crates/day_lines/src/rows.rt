// Printing what has traded of each symbol.
ghost use Rattle.std.specs.Prelude.{◌≡◌, ◌≤◌, length, OnOk};
ghost use Rattle.std.specs.Io.KnownBytes.{Appends};
ghost use Rattle.day_rules.specs.Questions.{rows_in};
ghost use Rattle.day_lines.specs.Texts.{row_line, rows_text};

use day_forms::record::RowForm;
use ledger::ledger::Ledger;
use records::execution::Execution;
use records::order::Order;
use records::symbol_row::SymbolRow;
use reports::traded::RowReport;
use std::io;
use std::io::Write;
use store::store::Store;

// Prints each row, by rising symbol number, with its average price if that is asked for. They are listed in the places, as many as there are.
pub fn show_rows<W: Write, O: Store<Order>, E: Store<Execution>, S: Store<SymbolRow>>(
    ledger: &Ledger<O, E, S>,
    places: &mut [SymbolRow],
    averaged: bool,
    output: &mut W,
) -> io::Result<()>
    ensures { OnOk result (Appends (W.contents output.old) (W.contents output.new) (rows_text averaged (rows_in (length places.old) ledger.now))) }
{
    let count = ledger.rows(places);
    show_each(&places[..count], averaged, output)
}

fn show_each<W: Write>(rows: &[SymbolRow], averaged: bool, output: &mut W) -> io::Result<()>
    ensures { OnOk result (Appends (W.contents output.old) (W.contents output.new) (rows_text averaged rows.now)) }
{
    for row in rows {
        show(row, averaged, output)?;
    }
    Ok(())
}

fn show<W: Write>(row: &SymbolRow, averaged: bool, output: &mut W) -> io::Result<()>
    ensures { OnOk result (Appends (W.contents output.old) (W.contents output.new) (row_line averaged row.now)) }
{
    if averaged {
        writeln!(output, "{}", RowReport(row))
    } else {
        writeln!(output, "{}", RowForm(row))
    }
}
