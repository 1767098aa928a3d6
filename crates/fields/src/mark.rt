//! The field that holds the letter of the message itself. It says nothing else, so what is read of
//! it is no value.
ghost use Rattle.std.specs.Prelude.{[], ◌∷◌};
ghost use Rattle.layout.specs.Slots.{choice};

use crate::field::Field;
use crate::put::put_byte;

#[derive(Clone, Copy)]
pub struct Mark {
    pub letter: u8,
}

impl Field for Mark {
    type Value = ();

    ghost slot = { λ m. choice (m.letter ∷ []) };

    ghost number = { λ m _. m.letter };

    fn width(self) -> u8 {
        1
    }

    fn scan(self, line: &[u8]) -> Result<(), u8> {
        let Some(byte) = line.first() else {
            return Err(0);
        };
        if *byte == self.letter { Ok(()) } else { Err(0) }
    }

    // Whatever was read is the letter, and so is what is written.
    fn allows(self, _value: &()) -> bool {
        true
    }

    fn allowed(self, value: ()) -> Option<()> {
        Some(value)
    }

    fn gives(self, _value: &()) -> bool {
        true
    }

    fn put(self, room: &mut [u8], offset: u8, _value: &()) {
        put_byte(room, offset, self.letter);
    }
}
