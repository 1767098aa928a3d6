//! Why a line is no message, or a message cannot be written.
ghost use Rattle.std.specs.Prelude.{◌≡◌};
ghost use Rattle.messages.specs.declared.fault.MessageFault.TheVariants.{Field as of_field};
ghost use Rattle.messages.specs.Faults.{number_of};

use layout::fault::FieldFault;

/// Why a line is no message, or a message cannot be written.
#[derive(Clone, Copy, PartialEq, Eq, Debug)]
pub enum MessageFault {
    /// Fewer than nine bytes.
    Cut,
    /// Byte 8, which is no kind's letter.
    Unknown(u8),
    /// The letter of a kind whose lines have another length.
    Length(u8),
    /// A field's fault, whole.
    Field(FieldFault),
    /// Writing would pass the buffer's end.
    Buffer,
}

impl MessageFault {
    /// The number by which the refusal is known outside: documents and outputs go by it, and the
    /// code by the variants.
    pub fn number(&self) -> u8
        ensures { result ≡ number_of self.now }
    {
        match self {
            MessageFault::Cut => 1,
            MessageFault::Unknown(_) => 2,
            MessageFault::Length(_) => 3,
            MessageFault::Field(field) => field.number(),
            MessageFault::Buffer => 14,
        }
    }
}

impl From<FieldFault> for MessageFault {
    ghost from_gives = { λ e r. r ≡ of_field e };

    fn from(fault: FieldFault) -> MessageFault {
        MessageFault::Field(fault)
    }
}
