//! The interface of a kind of message.
ghost use Rattle.std.specs.Prelude.{◌≡◌, ℕ, List, Ok, Err, MatchResult};
ghost use Rattle.layout.specs.Fields.{Field, read_fields, check_fields, put_fields};
ghost use Rattle.fields.specs.declared.mark.Mark.{Mark};
ghost use Rattle.fields.specs.declared.place.Place.{Place};
ghost use Rattle.messages.specs.Layouts.{letter_of, length_of, layout_of};
ghost use Rattle.messages.specs.Lines.{told};
ghost use Rattle.messages.specs.Types.{MessageType};

use crate::message::Message;
use fields::mark::Mark;
use fields::place::Place;
use layout::fault::FieldFault;

/// A kind of message: its letter, the length of its lines, and its fields, through which it goes
/// three times: to read, to check and to write them. Each step of reading answers a field and the
/// rest of the line.
pub trait Kind {
    /// Byte 8 of its lines.
    const LETTER: u8;

    ghost LETTER: { ℕ };

    const LENGTH: usize;

    ghost LENGTH: { ℕ };

    type Record;

    // Its row of the layout table, and the fields that this lays out.
    ghost row: { MessageType };

    ghost fields: { List Field };

    // What a record says, field by field.
    ghost values: { Self.Record → List ℕ };

    /// The message of this kind that says what the record does.
    fn message(said: Self::Record) -> Message
        ensures { told result ≡ (row, values said) };

    /// The fields of a line, one after the other, or the first fault.
    fn read(line: &[u8]) -> Result<Self::Record, FieldFault>
        ensures { MatchResult result
            (λ c. read_fields LETTER fields line.now ≡ Ok (values c))
            (λ e. read_fields LETTER fields line.now ≡ Err e) };

    /// The first field that no line could give, if there is one.
    fn check(said: &Self::Record) -> Result<(), FieldFault>
        ensures { result ≡ check_fields LETTER fields (values said.now) };

    /// Writes each field over the bytes at its offset.
    fn put(said: &Self::Record, room: &mut [u8])
        ensures { room.new ≡ put_fields fields (values said.now) room.old };

    /// The place of a field that starts at the offset.
    fn at(offset: u8) -> Place
        ensures { result ≡ record { letter = LETTER; offset = offset } }
    {
        Place {
            letter: Self::LETTER,
            offset,
        }
    }

    /// The field of the letter itself.
    fn mark() -> Mark
        ensures { result ≡ record { letter = LETTER } }
    {
        let letter = Self::LETTER;
        Mark { letter }
    }

    // The letter, the length and the fields are the row's.
    ghost lettered: { LETTER ≡ letter_of row };

    ghost sized: { LENGTH ≡ length_of row };

    ghost laid: { fields ≡ layout_of row };
}
