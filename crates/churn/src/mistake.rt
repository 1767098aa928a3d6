//! What is wrong with the words, and why else nothing is run, or no more.
ghost use Rattle.std.specs.Prelude.{◌≡◌, Some};
ghost use Rattle.churn.specs.Complaints.{failure_text, mistake_text};
ghost use Rattle.churn.specs.declared.mistake.Failure.TheVariants.{Words, Other};

use std::fmt;
use std::io::Error;
use words::quoted::Quoted;

/// A word that is wrong.
#[derive(Clone, Copy, Drop, PartialEq, Eq, Debug)]
pub enum Mistake<'a> {
    /// Too few words, or too many.
    Count,
    /// No store has this name.
    Store(&'a [u8]),
    /// No load has this name.
    Load(&'a [u8]),
    /// This is no number of 64 bits.
    Size(&'a [u8]),
    /// This stands behind the sizes, and is not the word for times.
    Last(&'a [u8]),
}

impl fmt::Display for Mistake<'_> {
    ghost output = { λ mistake. Some (mistake_text mistake) };

    fn fmt<W: fmt::Write>(&self, f: &mut fmt::Formatter<W>) -> fmt::Result {
        match *self {
            Mistake::Count => f.write_str("the words are STORE LOAD SLOTS LIVE PAIRS [time]"),
            Mistake::Store(word) => write!(
                f,
                "a store is row, hashed, spread, front-row, front-hashed, front-spread or all, \
                 not {}",
                Quoted(word)
            ),
            Mistake::Load(word) => write!(
                f,
                "a load is gaps, queue, rising, scattered or all, not {}",
                Quoted(word)
            ),
            Mistake::Size(word) => write!(f, "a size is a number below 2^64, not {}", Quoted(word)),
            Mistake::Last(word) => write!(f, "the last word is time or none, not {}", Quoted(word)),
        }
    }
}

/// Why nothing is run, or no more.
#[derive(Drop)]
pub enum Failure<'a> {
    /// A word is wrong.
    Words(Mistake<'a>),
    /// The memory, the clock or the output.
    Other(Error),
}

impl<'a> From<Mistake<'a>> for Failure<'a> {
    ghost from_gives = { λ mistake failure. failure ≡ Words mistake };

    fn from(mistake: Mistake<'a>) -> Failure<'a> {
        Failure::Words(mistake)
    }
}

impl<'a> From<Error> for Failure<'a> {
    ghost from_gives = { λ error failure. failure ≡ Other error };

    fn from(error: Error) -> Failure<'a> {
        Failure::Other(error)
    }
}

impl fmt::Display for Failure<'_> {
    ghost output = { failure_text };

    fn fmt<W: fmt::Write>(&self, f: &mut fmt::Formatter<W>) -> fmt::Result {
        match self {
            Failure::Words(mistake) => write!(f, "{mistake}"),
            Failure::Other(error) => write!(f, "{error}"),
        }
    }
}
