// Places in a line.
ghost use Rattle.std.specs.Prelude.{◌≡◌, take, drop};
ghost use Rattle.layout.specs.Slots.{spot, origin};

use layout::fault::Spot;

// Where a field starts in the lines of the message with that letter. An offset is a byte, so that no sum of places passes its
// type.
#[derive(Clone, Copy, PartialEq, Eq, Debug)]
pub struct Place {
    pub letter: u8,
    pub offset: u8,
}

impl Place {
    // The place of the byte `index` places into the field.
    pub(crate) fn spot(self, index: u8) -> Spot
        ensures { result ≡ spot self.letter self.offset index }
    {
        Spot {
            letter: self.letter,
            offset: usize::from(self.offset) + usize::from(index),
        }
    }
}

// The place of the field's first byte.
impl From<Place> for Spot {
    ghost from_gives = { λ p s. s ≡ origin p.letter p.offset };

    fn from(place: Place) -> Spot {
        Spot {
            letter: place.letter,
            offset: usize::from(place.offset),
        }
    }
}

// What is left of the line past so many bytes.
pub(crate) fn past(line: &[u8], count: u8) -> &[u8]
    ensures { result.now ≡ drop count line.now }
{
    line.get(usize::from(count)..).unwrap_or(&[])
}

// The first so many bytes of the line, or all where there are fewer.
pub(crate) fn front(line: &[u8], count: u8) -> &[u8]
    ensures { result.now ≡ take count line.now }
{
    &line[..line.len().min(usize::from(count))]
}
