//! Why a field cannot be read or written.
ghost use Rattle.std.specs.Prelude.{◌≡◌};
ghost use Rattle.layout.specs.Faults.{number_of};

/// A place in a line of the message with that letter.
#[derive(Clone, Copy, PartialEq, Eq, Debug)]
pub struct Spot {
    pub letter: u8,
    pub offset: usize,
}

/// Why a field cannot be read or written.
#[derive(Clone, Copy, PartialEq, Eq, Debug)]
pub enum FieldFault {
    /// The byte there breaks the field's rule.
    Byte(Spot),
    /// The number of the field that starts there is one that the field does not allow.
    Range(Spot),
}

impl FieldFault {
    /// The number by which the refusal is known outside.
    pub fn number(&self) -> u8
        ensures { result ≡ number_of self.now }
    {
        match self {
            FieldFault::Byte(_) => 4,
            FieldFault::Range(_) => 5,
        }
    }
}
