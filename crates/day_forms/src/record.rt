// How what a ledger keeps is shown: what it is kept by, and then its fields, by the words that a message's have.
ghost use Rattle.std.specs.Prelude.{Some, encode_utf8};
ghost use Rattle.day_forms.specs.Texts.{order_text, execution_text, row_text};

use fields::letter::Lettered;
use forms::text::{IdText, SymbolText};
use records::execution::Execution;
use records::order::Order;
use records::symbol_row::SymbolRow;
use std::fmt;

// An order that rests.
#[derive(Drop)]
pub struct OrderForm<'a>(pub &'a Order);

impl fmt::Display for OrderForm<'_> {
    ghost output = { λ r. Some (order_text r.0.now) };

    fn fmt<W: fmt::Write>(&self, f: &mut fmt::Formatter<W>) -> fmt::Result {
        let order = self.0;
        let id = IdText(order.id);
        let side = LetterText(order.side);
        let symbol = SymbolText(order.symbol);
        let display = LetterText(order.display);
        write!(
            f,
            "(order {id} (side {side}) (shares {}) (symbol {symbol}) (price {}) (display {display}))",
            order.shares, order.price
        )
    }
}

// An execution or a trade, with a word more where it is broken.
#[derive(Drop)]
pub struct ExecutionForm<'a>(pub &'a Execution);

impl fmt::Display for ExecutionForm<'_> {
    ghost output = { λ r. Some (execution_text r.0.now) };

    fn fmt<W: fmt::Write>(&self, f: &mut fmt::Formatter<W>) -> fmt::Result {
        let execution = self.0;
        let id = IdText(execution.id);
        let symbol = SymbolText(execution.symbol);
        let broken = if execution.broken { " (broken)" } else { "" };
        write!(
            f,
            "(execution {id} (shares {}) (symbol {symbol}) (price {}){broken})",
            execution.shares, execution.price
        )
    }
}

// What has traded of a symbol.
#[derive(Drop)]
pub struct RowForm<'a>(pub &'a SymbolRow);

impl fmt::Display for RowForm<'_> {
    ghost output = { λ r. Some (row_text r.0.now) };

    fn fmt<W: fmt::Write>(&self, f: &mut fmt::Formatter<W>) -> fmt::Result {
        let row = self.0;
        let symbol = SymbolText(row.symbol);
        let value = row.value();
        write!(
            f,
            "(symbol {symbol} (volume {}) (value {} {}))",
            row.volume, value.high, value.low
        )
    }
}

// A value as the letter that a line has for it.
#[derive(Drop)]
pub struct LetterText<L>(pub L);

impl<L: Lettered> fmt::Display for LetterText<L> {
    ghost output = { λ t. Some (encode_utf8 (L.Lettered.written t.0)) };

    fn fmt<W: fmt::Write>(&self, f: &mut fmt::Formatter<W>) -> fmt::Result {
        f.write_char(char::from(self.0.byte()))
    }
}
