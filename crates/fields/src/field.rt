//! What a field of a line is to its reader and its writer, whatever it holds.
ghost use Rattle.std.specs.Prelude.{◌≡◌, ℕ, if◌then◌else◌, Some, None, Ok, Err, MatchResult};
ghost use Rattle.layout.specs.Slots.{Slot, width, check_slot, in_range, scan_slot, givable, spell, over};

use crate::place::Place;
use layout::fault::FieldFault;

pub trait Field: Copy {
    type Value;

    ghost slot: { Self → Slot };

    // the number that a value goes by
    ghost number: { Self → Self.Value → ℕ };

    // How many bytes it has.
    fn width(self) -> u8
        ensures { result ≡ width (slot self) };

    /// The value at the front of the line, or the place of the first byte that breaks the field's
    /// rule.
    fn scan(self, line: &[u8]) -> Result<Self::Value, u8>
        ensures { MatchResult result
            (λ v. scan_slot (slot self) line.now ≡ Ok (number self v))
            (λ i. scan_slot (slot self) line.now ≡ Err i) };

    // Whether a value that was read is one that the field allows.
    fn allows(self, value: &Self::Value) -> bool
        ensures { result ≡ in_range (slot self) (number self value.now) };

    // The value that was read, where the field allows it. A field that allows every value gives
    // each back, and so its values need not be of a type that is `Drop`.
    fn allowed(self, value: Self::Value) -> Option<Self::Value>
        ensures { result
            ≡ (if in_range (slot self) (number self value) then Some value else None) };

    // Whether some line gives the value.
    fn gives(self, value: &Self::Value) -> bool
        ensures { result ≡ givable (slot self) (number self value.now) };

    // Writes the value over the bytes at the offset; where it does not fit, nothing.
    fn put(self, room: &mut [u8], offset: u8, value: &Self::Value)
        ensures { room.new ≡ over offset (spell (slot self) (number self value.now)) room.old };

    // Refuses a value that no line gives.
    fn check(self, value: &Self::Value, place: Place) -> Result<(), FieldFault>
        ensures { result
            ≡ check_slot (slot self) place.letter place.offset (number self value.now) }
    {
        if self.gives(value) {
            Ok(())
        } else {
            Err(FieldFault::Range(place.into()))
        }
    }
}
