//! The kinds of stores, and the words that name them.
ghost use Rattle.std.specs.Prelude.{◌≡◌};
ghost use Rattle.words.specs.Kinds.{kind_meant};

/// What the records of a store stand in.
#[derive(Clone, Copy, PartialEq, Eq, Debug)]
pub enum Kind {
    /// A row, by rising key.
    Row,
    /// Slots, from the key modulo their number on.
    Hashed,
    /// Slots, from the mixed key on.
    Spread,
}

/// The kind that a word names.
pub fn kind_of(word: &[u8]) -> Option<Kind>
    ensures { result ≡ kind_meant word.now }
{
    match word {
        b"row" => Some(Kind::Row),
        b"hashed" => Some(Kind::Hashed),
        b"spread" => Some(Kind::Spread),
        _ => None,
    }
}
