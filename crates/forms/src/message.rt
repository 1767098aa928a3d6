//! How a message is shown: its letter and then its fields, in the order of the line.
ghost use Rattle.std.specs.Prelude.{◌++◌, Some, codes};
ghost use Rattle.std.specs.Fmt.{WritesOnOk};
ghost use Rattle.forms.specs.Messages.{head_said, clear_said, terms_said, add_said, long_add_said, execution_said, cancel_said, trade_said, break_said, message_text};

use crate::field::{show_id, show_letter, show_number, show_participant, show_symbol};
use fields::letter::Lettered;
use messages::kind::Kind;
use messages::message::Message;
use messages::record::{
    AddOrder, Break, Cancel, ClearSymbol, LongAdd, OrderExecution, Terms, Trade,
};
use order_kinds::add::{AddLong, AddShort};
use order_kinds::cancel::OrderCancel;
use order_kinds::clear::SymbolClear;
use order_kinds::executed::OrderExecuted;
use std::fmt;
use trade_kinds::trade::{TradeLong, TradeShort};
use trade_kinds::trade_break::TradeBreak;

/// The form of a message.
#[derive(Drop)]
pub struct Shown<'a>(pub &'a Message);

impl fmt::Display for Shown<'_> {
    ghost output = { λ s. Some (message_text s.0.now) };

    fn fmt<W: fmt::Write>(&self, f: &mut fmt::Formatter<W>) -> fmt::Result {
        match self.0 {
            Message::SymbolClear(clear) => show_clear(f, clear)?,
            Message::AddShort(add) => show_add(f, AddShort::LETTER, add)?,
            Message::AddLong(add) => show_long_add(f, add)?,
            Message::OrderExecuted(execution) => show_execution(f, execution)?,
            Message::OrderCancel(cancel) => show_cancel(f, cancel)?,
            Message::TradeShort(trade) => show_trade(f, TradeShort::LETTER, trade)?,
            Message::TradeLong(trade) => show_trade(f, TradeLong::LETTER, trade)?,
            Message::TradeBreak(broken) => show_break(f, broken)?,
        }
        f.write_str(")")
    }
}

// A bracket, the letter of the kind, and the time.
fn show_head<W: fmt::Write>(f: &mut fmt::Formatter<W>, letter: u8, time: u64) -> fmt::Result
    ensures { WritesOnOk W.write_str_gives f.old result (head_said letter time) f.new }
{
    f.write_str("(")?;
    f.write_char(char::from(letter))?;
    show_number(f, "time", time)
}

fn show_clear<W: fmt::Write>(f: &mut fmt::Formatter<W>, clear: &ClearSymbol) -> fmt::Result
    ensures { WritesOnOk W.write_str_gives f.old result (clear_said clear.now) f.new }
{
    show_head(f, SymbolClear::LETTER, clear.time)?;
    show_symbol(f, clear.symbol)
}

// The head, and the terms of the order.
#[tactic(auto, unfolding(crate::specs::Messages::terms_said))]
fn show_terms<W: fmt::Write, S: Lettered>(
    f: &mut fmt::Formatter<W>,
    letter: u8,
    terms: &Terms<S>,
) -> fmt::Result
    ensures { WritesOnOk W.write_str_gives f.old result
        (terms_said S.written letter terms.now) f.new }
{
    show_head(f, letter, terms.time)?;
    show_id(f, "order", terms.order)?;
    show_letter(f, "side", &terms.side)?;
    show_number(f, "shares", terms.shares)?;
    show_symbol(f, terms.symbol)?;
    show_number(f, "price", terms.price)
}

fn show_add<W: fmt::Write>(f: &mut fmt::Formatter<W>, letter: u8, add: &AddOrder) -> fmt::Result
    ensures { WritesOnOk W.write_str_gives f.old result (add_said letter add.now) f.new }
{
    show_terms(f, letter, &add.terms)?;
    show_letter(f, "display", &add.display)
}

fn show_long_add<W: fmt::Write>(f: &mut fmt::Formatter<W>, add: &LongAdd) -> fmt::Result
    ensures { WritesOnOk W.write_str_gives f.old result (long_add_said add.now) f.new }
{
    show_add(f, AddLong::LETTER, &add.add)?;
    show_participant(f, add.participant)?;
    show_letter(f, "customer", &add.customer)
}

fn show_execution<W: fmt::Write>(
    f: &mut fmt::Formatter<W>,
    execution: &OrderExecution,
) -> fmt::Result
    ensures { WritesOnOk W.write_str_gives f.old result (execution_said execution.now) f.new }
{
    show_head(f, OrderExecuted::LETTER, execution.time)?;
    show_id(f, "order", execution.order)?;
    show_number(f, "shares", execution.shares)?;
    show_id(f, "execution", execution.execution)
}

fn show_cancel<W: fmt::Write>(f: &mut fmt::Formatter<W>, cancel: &Cancel) -> fmt::Result
    ensures { WritesOnOk W.write_str_gives f.old result (cancel_said cancel.now) f.new }
{
    show_head(f, OrderCancel::LETTER, cancel.time)?;
    show_id(f, "order", cancel.order)?;
    show_number(f, "shares", cancel.shares)
}

// The two kinds of trades have the same fields.
fn show_trade<W: fmt::Write>(f: &mut fmt::Formatter<W>, letter: u8, trade: &Trade) -> fmt::Result
    ensures { WritesOnOk W.write_str_gives f.old result (trade_said letter trade.now) f.new }
{
    show_terms(f, letter, &trade.terms)?;
    show_id(f, "execution", trade.execution)
}

fn show_break<W: fmt::Write>(f: &mut fmt::Formatter<W>, broken: &Break) -> fmt::Result
    ensures { WritesOnOk W.write_str_gives f.old result (break_said broken.now) f.new }
{
    show_head(f, TradeBreak::LETTER, broken.time)?;
    show_id(f, "execution", broken.execution)
}
