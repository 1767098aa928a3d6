// How a program ends, and how it says what is wrong: in one line on standard error.
ghost use Rattle.std.specs.Prelude.{◌≡◌, None, Some, MatchResult};
ghost use Rattle.std.specs.Process.{exit_status};
ghost use Rattle.words.specs.Failures.{failure_text, refusal};
ghost use Rattle.words.specs.declared.program.Failure.TheVariants.{Other};

use crate::quoted::Quoted;
use std::fmt;
use std::io::Error;
use std::process::ExitCode;

// Why a program that takes no words fails.
#[derive(Drop)]
pub enum Failure {
    // A word was given.
    Word(Vec<u8>),
    // The memory, the input or the output.
    Other(Error),
}

impl From<Error> for Failure {
    ghost from_gives = { λ error f. f ≡ Other error };

    fn from(error: Error) -> Failure {
        Failure::Other(error)
    }
}

impl fmt::Display for Failure {
    ghost output = { failure_text };

    fn fmt<W: fmt::Write>(&self, f: &mut fmt::Formatter<W>) -> fmt::Result {
        match self {
            Failure::Word(word) => {
                let word = Quoted(word.as_slice());
                write!(f, "it takes no words, and {word} was given")
            }
            Failure::Other(other) => write!(f, "{other}"),
        }
    }
}

// Refuses the first word, if there is one.
pub fn no_words(words: Vec<Vec<u8>>) -> Result<(), Failure>
    ensures { MatchResult result (λ _. refusal words.items ≡ None) (λ failure. refusal words.items ≡ Some failure) }
{
    match words.into_iter().next() {
        Some(word) => Err(Failure::Word(word)),
        None => Ok(()),
    }
}

// Says what is wrong, if anything is, behind the program's name. The status is 1 then, and else 0.
pub fn ended<D: fmt::Display + Drop>(
    rt: &HostRuntime,
    program: &str,
    outcome: Result<(), D>,
) -> ExitCode
    ensures { MatchResult outcome (λ _. exit_status result ≡ 0) (λ _. exit_status result ≡ 1) }
{
    match outcome {
        Ok(()) => ExitCode::SUCCESS,
        Err(failure) => {
            let _ = eprintln!(rt; "{program}: {failure}");
            ExitCode::FAILURE
        }
    }
}
