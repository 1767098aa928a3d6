// Fields of one byte out of some.
ghost use Rattle.std.specs.Prelude.{◌≡◌, ℕ, ⊤, true, List, Result};
ghost use Rattle.layout.specs.Slots.{choice, is_one_of};
ghost use Rattle.fields.specs.declared.letter.UnknownLetter.{UnknownLetter};
ghost use Rattle.fields.specs.Letters.{ReadAs};

#[cfg(test)]
mod tests;

use crate::field::Field;
use crate::put::put_byte;
use std::alloc::AllocError;
use std::marker::PhantomData;

// A byte that is none of a type's letters.
#[derive(Clone, Copy, PartialEq, Eq, Debug)]
pub struct UnknownLetter(pub u8);

// A type whose values are written as one byte each.
pub trait Lettered: TryFrom<u8, Error = UnknownLetter> {
    ghost letters: { List ℕ };

    ghost written: { Self → ℕ };

    ghost member: { (x : Self) → is_one_of letters (written x) ≡ true };

    // The byte that it is written as.
    fn byte(&self) -> u8
        ensures { result ≡ written self.now };

    // a byte is turned into the value that is written as it, if there is one
    ghost reads: { (b : ℕ) (r : Result Self UnknownLetter)
        → Self.TryFrom.try_from_gives b r → ReadAs letters written b r };
}

// A field that holds a value of that type.
pub struct Letter<L>(pub PhantomData<L>);

// The field is copied whether or not its values may be.
impl<L> Clone for Letter<L> {
    ghost is_clone = { λ x y. y ≡ x };

    ghost is_infallible = { λ _. ⊤ };

    fn clone(&self) -> Result<Letter<L>, AllocError> {
        Ok(*self)
    }
}

impl<L> Copy for Letter<L> {}

impl<L: Lettered> Field for Letter<L> {
    type Value = L;

    ghost slot = { λ _. choice L.letters };

    ghost number = { λ _ x. L.written x };

    fn width(self) -> u8 {
        1
    }

    fn scan(self, line: &[u8]) -> Result<L, u8> {
        let Some(byte) = line.first() else {
            return Err(0);
        };
        match L::try_from(*byte) {
            Ok(value) => Ok(value),
            Err(_) => Err(0),
        }
    }

    // Whatever was read is one of the letters, and so is whatever is written.
    fn allows(self, _value: &L) -> bool {
        true
    }

    fn allowed(self, value: L) -> Option<L> {
        Some(value)
    }

    fn gives(self, _value: &L) -> bool {
        true
    }

    fn put(self, room: &mut [u8], offset: u8, value: &L) {
        put_byte(room, offset, value.byte());
    }
}
