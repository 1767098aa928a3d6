// Sums over the fields of messages and of refusals.
ghost use Rattle.std.specs.Prelude.{◌≡◌, [], ◌∷◌};
ghost use Rattle.messages.specs.Codes.{side_letter, display_letter};
ghost use Rattle.messages.specs.Faults.{number_of, carried_of};
ghost use Rattle.messages.specs.Lines.{line_read};
ghost use Rattle.messages.specs.Values.{terms_then, values_of};
ghost use Rattle.speed.specs.Checksum.{mixed, mixed_all, after_line};

use fields::letter::Lettered;
use layout::fault::FieldFault;
use messages::fault::MessageFault;
use messages::kind::Kind;
use messages::message::Message;
use messages::record::{AddOrder, Terms};
use order_kinds::add::{AddLong, AddShort};
use order_kinds::cancel::OrderCancel;
use order_kinds::clear::SymbolClear;
use order_kinds::executed::OrderExecuted;
use pitch::reader::read;
use trade_kinds::trade::{TradeLong, TradeShort};
use trade_kinds::trade_break::TradeBreak;

// The sum with what the line says, or why it is no message.
pub(crate) fn add_line(sum: u64, line: &[u8]) -> u64
    ensures { result ≡ after_line sum (line_read line.now) }
{
    match read(line) {
        Ok(message) => add_message(sum, &message),
        Err(fault) => add_fault(sum, &fault),
    }
}

// The sum with each field of the message.
fn add_message(sum: u64, message: &Message) -> u64
    ensures { result ≡ mixed_all sum (values_of message.now) }
{
    match message {
        Message::SymbolClear(m) => mix_all(sum, &[m.time, SymbolClear::LETTER as u64, m.symbol]),
        Message::AddShort(m) => add_order(sum, AddShort::LETTER, m),
        Message::AddLong(m) => {
            let sum = add_order(sum, AddLong::LETTER, &m.add);
            mix_all(sum, &[m.participant, letter_of(&m.customer)])
        }
        Message::OrderExecuted(m) => mix_all(
            sum,
            &[
                m.time,
                OrderExecuted::LETTER as u64,
                m.order,
                m.shares,
                m.execution,
            ],
        ),
        Message::OrderCancel(m) => mix_all(
            sum,
            &[m.time, OrderCancel::LETTER as u64, m.order, m.shares],
        ),
        Message::TradeShort(m) => mix(add_terms(sum, TradeShort::LETTER, &m.terms), m.execution),
        Message::TradeLong(m) => mix(add_terms(sum, TradeLong::LETTER, &m.terms), m.execution),
        Message::TradeBreak(m) => mix_all(sum, &[m.time, TradeBreak::LETTER as u64, m.execution]),
    }
}

// The sum with the fields that both forms of an add have.
fn add_order(sum: u64, letter: u8, add: &AddOrder) -> u64
    ensures { result ≡ mixed_all sum
        (terms_then side_letter letter add.now.terms (display_letter add.now.display ∷ [])) }
{
    mix(add_terms(sum, letter, &add.terms), letter_of(&add.display))
}

// The sum with the letter of the kind and the terms of the order.
fn add_terms<S: Lettered>(sum: u64, letter: u8, terms: &Terms<S>) -> u64
    ensures { result ≡ mixed_all sum (terms_then S.written letter terms.now []) }
{
    let sum = mix_all(sum, &[terms.time, letter as u64, terms.order]);
    let sum = mix(sum, letter_of(&terms.side));
    mix_all(sum, &[terms.shares, terms.symbol, terms.price])
}

fn letter_of<L: Lettered>(value: &L) -> u64
    ensures { result ≡ L.written value.now }
{
    value.byte() as u64
}

// The sum with the refusal's number and what it carries.
fn add_fault(sum: u64, fault: &MessageFault) -> u64
    ensures { result ≡ mixed_all sum (number_of fault.now ∷ carried_of fault.now) }
{
    let sum = mix(sum, fault.number() as u64);
    match fault {
        MessageFault::Cut | MessageFault::Buffer => sum,
        MessageFault::Unknown(byte) | MessageFault::Length(byte) => mix(sum, *byte as u64),
        MessageFault::Field(FieldFault::Byte(spot) | FieldFault::Range(spot)) => {
            mix_all(sum, &[spot.letter as u64, spot.offset as u64])
        }
    }
}

// The sum with each of the numbers.
fn mix_all(sum: u64, values: &[u64]) -> u64
    ensures { result ≡ mixed_all sum values.now }
{
    let mut sum = sum;
    for value in values {
        sum = mix(sum, *value);
    }
    sum
}

// The sum with one number more.
fn mix(sum: u64, value: u64) -> u64
    ensures { result ≡ mixed sum value }
{
    sum.wrapping_mul(31).wrapping_add(value)
}
