// What a word means by itself.
ghost use Rattle.std.specs.Prelude.{◌≡◌};
ghost use Rattle.options.specs.Words.{name_meant, word_meant};

use crate::setting::Setting;

#[derive(Clone, Copy)]
pub enum Meaning {
    Front,
    Answers,
    Quiet,
    Help,
    // the next word sets it
    Sets(Setting),
    // begins as an option does, and is none
    Unknown,
    File,
}

pub fn meant(word: &[u8]) -> Meaning
    ensures { result ≡ word_meant word.now }
{
    match word {
        [b'-', b'-', name @ ..] => named(name),
        [b'-', ..] => Meaning::Unknown,
        _ => Meaning::File,
    }
}

// What an option's name means.
fn named(name: &[u8]) -> Meaning
    ensures { result ≡ name_meant name.now }
{
    match name {
        b"front" => Meaning::Front,
        b"answers" => Meaning::Answers,
        b"quiet" => Meaning::Quiet,
        b"help" => Meaning::Help,
        b"store" => Meaning::Sets(Setting::Store),
        b"orders" => Meaning::Sets(Setting::Orders),
        b"executions" => Meaning::Sets(Setting::Executions),
        b"symbols" => Meaning::Sets(Setting::Symbols),
        b"day-limit" => Meaning::Sets(Setting::DayLimit),
        b"book" => Meaning::Sets(Setting::Book),
        _ => Meaning::Unknown,
    }
}
