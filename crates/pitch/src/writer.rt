//! Writing a message.
ghost use Rattle.std.specs.Prelude.{◌≡◌, ◌+◌, ◌≤◌, length, nat_le};
ghost use Rattle.layout.specs.Slots.{over};
ghost use Rattle.messages.specs.declared.message.Message.{Message};
ghost use Rattle.messages.specs.Lines.{told, checked, fitted, placed, written};
ghost use Rattle.messages.specs.Promises.{Writing};

use messages::fault::MessageFault;
use messages::kind::Kind;
use messages::message::Message;
use order_kinds::add::{AddLong, AddShort};
use order_kinds::cancel::OrderCancel;
use order_kinds::clear::SymbolClear;
use order_kinds::executed::OrderExecuted;
use trade_kinds::trade::{TradeLong, TradeShort};
use trade_kinds::trade_break::TradeBreak;

/// Writes the message's line into the buffer from the place on, and answers its length. A refusal
/// changes no byte of the buffer.
pub fn write(message: &Message, buf: &mut [u8], place: usize) -> Result<usize, MessageFault>
    ensures says { result ≡ fitted message.now place (length buf.old) (checked message.now) }
    ensures leaves { buf.new ≡ placed message.now place buf.old (checked message.now) }
    ensures promise { Writing message.now place buf.old buf.new result }
{
    write_line(message, buf, place)
}

fn write_line(message: &Message, buf: &mut [u8], place: usize) -> Result<usize, MessageFault>
    ensures says { result ≡ fitted message.now place (length buf.old) (checked message.now) }
    ensures leaves { buf.new ≡ placed message.now place buf.old (checked message.now) }
{
    match message {
        Message::SymbolClear(clear) => write_kind::<SymbolClear>(clear, buf, place),
        Message::AddShort(add) => write_kind::<AddShort>(add, buf, place),
        Message::AddLong(add) => write_kind::<AddLong>(add, buf, place),
        Message::OrderExecuted(executed) => write_kind::<OrderExecuted>(executed, buf, place),
        Message::OrderCancel(cancel) => write_kind::<OrderCancel>(cancel, buf, place),
        Message::TradeShort(trade) => write_kind::<TradeShort>(trade, buf, place),
        Message::TradeLong(trade) => write_kind::<TradeLong>(trade, buf, place),
        Message::TradeBreak(broken) => write_kind::<TradeBreak>(broken, buf, place),
    }
}

// Writes the line of the message of the kind that says what the record does. The fields are checked
// before the room, and both before the first byte is written.
fn write_kind<K: Kind>(
    said: &K::Record,
    buf: &mut [u8],
    place: usize,
) -> Result<usize, MessageFault>
    ensures says { (m : Message) → told m ≡ (K.Kind.row, K.values said.now) →
        result ≡ fitted m place (length buf.old) (checked m) }
    ensures leaves { (m : Message) → told m ≡ (K.Kind.row, K.values said.now) →
        buf.new ≡ placed m place buf.old (checked m) }
{
    K::check(said)?;
    if !has_room(buf.len(), place, K::LENGTH) {
        return Err(MessageFault::Buffer);
    }
    put_from::<K>(said, buf, place);
    Ok(K::LENGTH)
}

// Whether so many bytes fit from the place on: a sum of the two would not fit its type at a place
// near the greatest number.
fn has_room(len: usize, place: usize, size: usize) -> bool
    ensures { result ≡ nat_le (place + size) len }
{
    place <= len && size <= len - place
}

// Lends on the part of the buffer that starts at the place.
fn put_from<K: Kind>(said: &K::Record, buf: &mut [u8], place: usize)
    requires { place + K.LENGTH ≤ length buf.old }
    ensures { (m : Message) → told m ≡ (K.Kind.row, K.values said.now) →
        buf.new ≡ over place (written m) buf.old }
{
    K::put(said, &mut buf[place..]);
}
