//! Reading any field.
ghost use Rattle.std.specs.Prelude.{◌≡◌, Ok, Err, MatchResult};
ghost use Rattle.layout.specs.Slots.{read_slot};

use crate::field::Field;
use crate::place::{Place, past};
use layout::fault::FieldFault;

/// What every field has of its own accord. It stands apart from `Field`, so that it is compiled in
/// place for each field.
pub trait Reading: Field {
    /// The value at the front of the line, and what is left of the line; or the fault, at the place
    /// of the field in the line.
    fn read(self, line: &[u8], place: Place) -> Result<(Self::Value, &[u8]), FieldFault>
        ensures { MatchResult result
            (λ p. read_slot (Self.Field.slot self) place.letter place.offset line.now
            ≡ Ok (Self.Field.number self p.0, p.1.now))
            (λ e. read_slot (Self.Field.slot self) place.letter place.offset line.now ≡ Err e) };
}

impl<F: Field> Reading for F {
    #[inline(always)]
    fn read(self, line: &[u8], place: Place) -> Result<(Self::Value, &[u8]), FieldFault> {
        match self.scan(line) {
            Err(index) => Err(FieldFault::Byte(place.spot(index))),
            Ok(value) => match self.allowed(value) {
                Some(value) => Ok((value, past(line, self.width()))),
                None => Err(FieldFault::Range(place.into())),
            },
        }
    }
}
