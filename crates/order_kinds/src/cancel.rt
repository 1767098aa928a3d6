//! Order Cancel: X.
ghost use Rattle.std.specs.Prelude.{refl};
ghost use Rattle.messages.specs.Layouts.{letter_of, length_of, layout_of};
ghost use Rattle.messages.specs.Types.{OrderCancel as kind};
ghost use Rattle.messages.specs.Values.{cancel_values};

use fields::field::Field;
use fields::numeral::{ID, SHARES, TIME};
use fields::reading::Reading;
use layout::fault::FieldFault;
use messages::kind::Kind;
use messages::message::Message;
use messages::record::Cancel;

pub struct OrderCancel;

impl Kind for OrderCancel {
    const LETTER: u8 = b'X';

    ghost LETTER = { letter_of kind };

    const LENGTH: usize = 27;

    ghost LENGTH = { length_of kind };

    type Record = Cancel;

    ghost row = { kind };

    ghost fields = { layout_of kind };

    ghost values = { cancel_values };

    ghost lettered = { refl };

    ghost sized = { refl };

    ghost laid = { refl };

    fn message(cancel: Cancel) -> Message {
        Message::OrderCancel(cancel)
    }

    fn read(line: &[u8]) -> Result<Cancel, FieldFault> {
        let (time, rest) = TIME.read(line, Self::at(0))?;
        let (_, rest) = Self::mark().read(rest, Self::at(8))?;
        let (order, rest) = ID.read(rest, Self::at(9))?;
        let (shares, _) = SHARES.read(rest, Self::at(21))?;
        Ok(Cancel {
            time,
            order,
            shares,
        })
    }

    fn check(cancel: &Cancel) -> Result<(), FieldFault> {
        TIME.check(&cancel.time, Self::at(0))?;
        ID.check(&cancel.order, Self::at(9))?;
        SHARES.check(&cancel.shares, Self::at(21))
    }

    fn put(cancel: &Cancel, room: &mut [u8]) {
        TIME.put(room, 0, &cancel.time);
        Self::mark().put(room, 8, &());
        ID.put(room, 9, &cancel.order);
        SHARES.put(room, 21, &cancel.shares);
    }
}
