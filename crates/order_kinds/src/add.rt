//! Add Order, in its short and in its long form.
ghost use Rattle.std.specs.Prelude.{refl};
ghost use Rattle.messages.specs.Layouts.{letter_of, length_of, layout_of};
ghost use Rattle.messages.specs.Types as kind;
ghost use Rattle.messages.specs.Values.{add_values, long_add_values};

use fields::padded::{LONG_SYMBOL, SHORT_SYMBOL};
use layout::fault::FieldFault;
use messages::kind::Kind;
use messages::message::Message;
use messages::record::{AddOrder, LongAdd};
use terms::line::{check_terms, put_terms, read_terms};

/// The short form: A.
pub struct AddShort;

impl Kind for AddShort {
    const LETTER: u8 = b'A';

    ghost LETTER = { letter_of kind.AddShort };

    const LENGTH: usize = 45;

    ghost LENGTH = { length_of kind.AddShort };

    type Record = AddOrder;

    ghost row = { kind.AddShort };

    ghost fields = { layout_of kind.AddShort };

    ghost values = { add_values };

    ghost lettered = { refl };

    ghost sized = { refl };

    ghost laid = { refl };

    fn message(add: AddOrder) -> Message {
        Message::AddShort(add)
    }

    fn read(line: &[u8]) -> Result<AddOrder, FieldFault> {
        read_terms(line, Self::LETTER, SHORT_SYMBOL)
    }

    fn check(add: &AddOrder) -> Result<(), FieldFault> {
        check_terms(add, Self::LETTER, SHORT_SYMBOL)
    }

    fn put(add: &AddOrder, room: &mut [u8]) {
        put_terms(add, room, Self::LETTER, SHORT_SYMBOL);
    }
}

/// The long form, for symbols of up to eight bytes: d.
pub struct AddLong;

impl Kind for AddLong {
    const LETTER: u8 = b'd';

    ghost LETTER = { letter_of kind.AddLong };

    const LENGTH: usize = 52;

    ghost LENGTH = { length_of kind.AddLong };

    type Record = LongAdd;

    ghost row = { kind.AddLong };

    ghost fields = { layout_of kind.AddLong };

    ghost values = { long_add_values };

    ghost lettered = { refl };

    ghost sized = { refl };

    ghost laid = { refl };

    fn message(add: LongAdd) -> Message {
        Message::AddLong(add)
    }

    fn read(line: &[u8]) -> Result<LongAdd, FieldFault> {
        read_terms(line, Self::LETTER, LONG_SYMBOL)
    }

    fn check(add: &LongAdd) -> Result<(), FieldFault> {
        check_terms(add, Self::LETTER, LONG_SYMBOL)
    }

    fn put(add: &LongAdd, room: &mut [u8]) {
        put_terms(add, room, Self::LETTER, LONG_SYMBOL);
    }
}
