//! Reading a line. All is inlined, so that a message is put together where it is used.
ghost use Rattle.std.specs.Prelude.{◌≡◌, Some, Ok, Err, MatchResult, slice_index};
ghost use Rattle.messages.specs.Layouts.{letter_of};
ghost use Rattle.messages.specs.Lines.{line_read, kind_read, read_row, told};
ghost use Rattle.messages.specs.Promises.{Reading, SymbolsAgree};
ghost use Rattle.messages.specs.Telling.{line_message};

use layout::fault::FieldFault;
use messages::fault::MessageFault;
use messages::kind::Kind;
use messages::message::Message;
use order_kinds::add::{AddLong, AddShort};
use order_kinds::cancel::OrderCancel;
use order_kinds::clear::SymbolClear;
use order_kinds::executed::OrderExecuted;
use trade_kinds::trade::{TradeLong, TradeShort};
use trade_kinds::trade_break::TradeBreak;

/// The message that the line is, or why it is none.
#[inline(always)]
pub fn read(line: &[u8]) -> Result<Message, MessageFault>
    ensures value { MatchResult result
        (λ m. line_read line.now ≡ Ok (told m))
        (λ e. line_read line.now ≡ Err e) }
    ensures message { result ≡ line_message line.now }
    ensures promise { Reading line.now result }
    ensures symbols { SymbolsAgree }
{
    read_line(line)
}

// The checks come in the order of the refusals' numbers.
#[inline(always)]
fn read_line(line: &[u8]) -> Result<Message, MessageFault>
    ensures { MatchResult result
        (λ m. line_read line.now ≡ Ok (told m))
        (λ e. line_read line.now ≡ Err e) }
{
    if line.len() < 9 {
        return Err(MessageFault::Cut);
    }
    match line[8] {
        SymbolClear::LETTER => read_kind::<SymbolClear>(line),
        AddShort::LETTER => read_kind::<AddShort>(line),
        AddLong::LETTER => read_kind::<AddLong>(line),
        OrderExecuted::LETTER => read_kind::<OrderExecuted>(line),
        OrderCancel::LETTER => read_kind::<OrderCancel>(line),
        TradeShort::LETTER => read_kind::<TradeShort>(line),
        TradeLong::LETTER => read_kind::<TradeLong>(line),
        TradeBreak::LETTER => read_kind::<TradeBreak>(line),
        letter => Err(MessageFault::Unknown(letter)),
    }
}

// The message of the kind in a line that has the kind's letter.
#[inline(always)]
fn read_kind<K: Kind>(line: &[u8]) -> Result<Message, MessageFault>
    ensures { slice_index line.now 8 ≡ letter_of K.Kind.row → MatchResult result
        (λ m. kind_read line.now (Some K.Kind.row) ≡ Ok (told m))
        (λ e. kind_read line.now (Some K.Kind.row) ≡ Err e) }
{
    if line.len() != K::LENGTH {
        return Err(MessageFault::Length(K::LETTER));
    }
    Ok(K::message(read_record::<K>(line)?))
}

// What the line says, by the kind's row of the layout table.
#[inline(always)]
fn read_record<K: Kind>(line: &[u8]) -> Result<K::Record, FieldFault>
    ensures { MatchResult result
        (λ c. read_row K.Kind.row line.now ≡ Ok (K.values c))
        (λ e. read_row K.Kind.row line.now ≡ Err e) }
{
    K::read(line)
}
