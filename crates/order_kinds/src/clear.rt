//! Symbol Clear: s.
ghost use Rattle.std.specs.Prelude.{refl};
ghost use Rattle.messages.specs.Layouts.{letter_of, length_of, layout_of};
ghost use Rattle.messages.specs.Types.{SymbolClear as kind};
ghost use Rattle.messages.specs.Values.{clear_values};

use fields::field::Field;
use fields::numeral::TIME;
use fields::padded::LONG_SYMBOL;
use fields::reading::Reading;
use layout::fault::FieldFault;
use messages::kind::Kind;
use messages::message::Message;
use messages::record::ClearSymbol;

pub struct SymbolClear;

impl Kind for SymbolClear {
    const LETTER: u8 = b's';

    ghost LETTER = { letter_of kind };

    const LENGTH: usize = 17;

    ghost LENGTH = { length_of kind };

    type Record = ClearSymbol;

    ghost row = { kind };

    ghost fields = { layout_of kind };

    ghost values = { clear_values };

    ghost lettered = { refl };

    ghost sized = { refl };

    ghost laid = { refl };

    fn message(clear: ClearSymbol) -> Message {
        Message::SymbolClear(clear)
    }

    fn read(line: &[u8]) -> Result<ClearSymbol, FieldFault> {
        let (time, rest) = TIME.read(line, Self::at(0))?;
        let (_, rest) = Self::mark().read(rest, Self::at(8))?;
        let (symbol, _) = LONG_SYMBOL.read(rest, Self::at(9))?;
        Ok(ClearSymbol { time, symbol })
    }

    fn check(clear: &ClearSymbol) -> Result<(), FieldFault> {
        TIME.check(&clear.time, Self::at(0))?;
        LONG_SYMBOL.check(&clear.symbol, Self::at(9))
    }

    fn put(clear: &ClearSymbol, room: &mut [u8]) {
        TIME.put(room, 0, &clear.time);
        Self::mark().put(room, 8, &());
        LONG_SYMBOL.put(room, 9, &clear.symbol);
    }
}
