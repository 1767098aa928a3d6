//! Trade, in its short and in its long form.
ghost use Rattle.std.specs.Prelude.{refl};
ghost use Rattle.messages.specs.Layouts.{letter_of, length_of, layout_of};
ghost use Rattle.messages.specs.Types as kind;
ghost use Rattle.messages.specs.Values.{trade_values};

use fields::padded::{LONG_SYMBOL, SHORT_SYMBOL};
use layout::fault::FieldFault;
use messages::kind::Kind;
use messages::message::Message;
use messages::record::Trade;
use terms::line::{check_terms, put_terms, read_terms};

/// The short form: P.
pub struct TradeShort;

impl Kind for TradeShort {
    const LETTER: u8 = b'P';

    ghost LETTER = { letter_of kind.TradeShort };

    const LENGTH: usize = 56;

    ghost LENGTH = { length_of kind.TradeShort };

    type Record = Trade;

    ghost row = { kind.TradeShort };

    ghost fields = { layout_of kind.TradeShort };

    ghost values = { trade_values kind.TradeShort };

    ghost lettered = { refl };

    ghost sized = { refl };

    ghost laid = { refl };

    fn message(trade: Trade) -> Message {
        Message::TradeShort(trade)
    }

    fn read(line: &[u8]) -> Result<Trade, FieldFault> {
        read_terms(line, Self::LETTER, SHORT_SYMBOL)
    }

    fn check(trade: &Trade) -> Result<(), FieldFault> {
        check_terms(trade, Self::LETTER, SHORT_SYMBOL)
    }

    fn put(trade: &Trade, room: &mut [u8]) {
        put_terms(trade, room, Self::LETTER, SHORT_SYMBOL);
    }
}

/// The long form, for symbols of up to eight bytes: r.
pub struct TradeLong;

impl Kind for TradeLong {
    const LETTER: u8 = b'r';

    ghost LETTER = { letter_of kind.TradeLong };

    const LENGTH: usize = 58;

    ghost LENGTH = { length_of kind.TradeLong };

    type Record = Trade;

    ghost row = { kind.TradeLong };

    ghost fields = { layout_of kind.TradeLong };

    ghost values = { trade_values kind.TradeLong };

    ghost lettered = { refl };

    ghost sized = { refl };

    ghost laid = { refl };

    fn message(trade: Trade) -> Message {
        Message::TradeLong(trade)
    }

    fn read(line: &[u8]) -> Result<Trade, FieldFault> {
        read_terms(line, Self::LETTER, LONG_SYMBOL)
    }

    fn check(trade: &Trade) -> Result<(), FieldFault> {
        check_terms(trade, Self::LETTER, LONG_SYMBOL)
    }

    fn put(trade: &Trade, room: &mut [u8]) {
        put_terms(trade, room, Self::LETTER, LONG_SYMBOL);
    }
}
