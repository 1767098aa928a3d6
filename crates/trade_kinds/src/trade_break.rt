//! Trade Break: B.
ghost use Rattle.std.specs.Prelude.{refl};
ghost use Rattle.messages.specs.Layouts.{letter_of, length_of, layout_of};
ghost use Rattle.messages.specs.Types.{TradeBreak as kind};
ghost use Rattle.messages.specs.Values.{break_values};

use fields::field::Field;
use fields::numeral::{ID, TIME};
use fields::reading::Reading;
use layout::fault::FieldFault;
use messages::kind::Kind;
use messages::message::Message;
use messages::record::Break;

pub struct TradeBreak;

impl Kind for TradeBreak {
    const LETTER: u8 = b'B';

    ghost LETTER = { letter_of kind };

    const LENGTH: usize = 21;

    ghost LENGTH = { length_of kind };

    type Record = Break;

    ghost row = { kind };

    ghost fields = { layout_of kind };

    ghost values = { break_values };

    ghost lettered = { refl };

    ghost sized = { refl };

    ghost laid = { refl };

    fn message(broken: Break) -> Message {
        Message::TradeBreak(broken)
    }

    fn read(line: &[u8]) -> Result<Break, FieldFault> {
        let (time, rest) = TIME.read(line, Self::at(0))?;
        let (_, rest) = Self::mark().read(rest, Self::at(8))?;
        let (execution, _) = ID.read(rest, Self::at(9))?;
        Ok(Break { time, execution })
    }

    fn check(broken: &Break) -> Result<(), FieldFault> {
        TIME.check(&broken.time, Self::at(0))?;
        ID.check(&broken.execution, Self::at(9))
    }

    fn put(broken: &Break, room: &mut [u8]) {
        TIME.put(room, 0, &broken.time);
        Self::mark().put(room, 8, &());
        ID.put(room, 9, &broken.execution);
    }
}
