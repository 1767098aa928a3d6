// Why nothing is replayed, or no more.
ghost use Rattle.std.specs.Prelude.{◌≡◌};
ghost use Rattle.replay.specs.Failures.{failure_text};
ghost use Rattle.replay.specs.declared.failure.Failure.TheVariants.{Other};

use options::complaint::Complaint;
use std::fmt;
use std::io::{Error, ErrorKind};
use words::quoted::Quoted;

#[derive(Drop)]
pub enum Failure<'a> {
    // The command line is wrong.
    Command(Complaint<'a>),
    // No file can be opened by such a name.
    Name(&'a [u8]),
    // The file of this name cannot be read.
    File(&'a [u8], Error),
    // Something else fails: the memory, or standard input or output, whose errors bear their names.
    Other(Error),
}

impl<'a> From<Error> for Failure<'a> {
    ghost from_gives = { λ error f. f ≡ Other error };

    fn from(error: Error) -> Failure<'a> {
        Failure::Other(error)
    }
}

impl fmt::Display for Failure<'_> {
    ghost output = { failure_text };

    fn fmt<W: fmt::Write>(&self, f: &mut fmt::Formatter<W>) -> fmt::Result {
        match self {
            Failure::Command(complaint) => write!(f, "{complaint} (--help shows the usage)"),
            Failure::Name(name) => {
                write!(
                    f,
                    "a file's name has to be UTF-8, and {} is not",
                    Quoted(*name)
                )
            }
            Failure::File(name, error) => write!(f, "{}: {error}", Quoted(*name)),
            Failure::Other(error) if error.kind() == ErrorKind::OutOfMemory => {
                f.write_str("there is no memory for so many records")
            }
            Failure::Other(error) => write!(f, "{error}"),
        }
    }
}
