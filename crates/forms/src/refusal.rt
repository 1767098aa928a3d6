// How a refusal is shown: its number, and then what it says of the line.
ghost use Rattle.std.specs.Prelude.{Some};
ghost use Rattle.forms.specs.Texts.{fault_text};

use layout::fault::FieldFault;
use messages::fault::MessageFault;
use std::fmt;

#[derive(Drop)]
pub struct Refusal<'a>(pub &'a MessageFault);

impl fmt::Display for Refusal<'_> {
    ghost output = { λ r. Some (fault_text r.0.now) };

    fn fmt<W: fmt::Write>(&self, f: &mut fmt::Formatter<W>) -> fmt::Result {
        let number = self.0.number();
        match self.0 {
            MessageFault::Cut | MessageFault::Buffer => write!(f, "(refused {number})"),
            MessageFault::Unknown(byte) => write!(f, "(refused {number} ({byte}))"),
            MessageFault::Length(letter) => {
                let kind = char::from(*letter);
                write!(f, "(refused {number} ({kind}))")
            }
            MessageFault::Field(FieldFault::Byte(spot) | FieldFault::Range(spot)) => {
                let kind = char::from(spot.letter);
                let offset = spot.offset;
                write!(f, "(refused {number} ({kind} {offset}))")
            }
        }
    }
}
