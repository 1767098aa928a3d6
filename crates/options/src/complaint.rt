// How a mistake in a command line is told.
ghost use Rattle.std.specs.Prelude.{◌≡◌, Some, codes};
ghost use Rattle.options.specs.Complaints.{setting_word, wanted, complaint_text};

use crate::mistake::Mistake;
use crate::setting::Setting;
use std::fmt;
use words::quoted::Quoted;

// Of the word where the mistake shows, if there is one there.
#[derive(Drop)]
pub struct Complaint<'a> {
    pub word: &'a [u8],
    pub mistake: Mistake,
}

impl fmt::Display for Complaint<'_> {
    ghost output = { λ c. Some (complaint_text c.word.now c.mistake) };

    fn fmt<W: fmt::Write>(&self, f: &mut fmt::Formatter<W>) -> fmt::Result {
        let word = Quoted(self.word);
        match self.mistake {
            Mistake::Unknown => write!(f, "there is no option {word}"),
            Mistake::SecondFile => write!(f, "a second file, {word}"),
            Mistake::Value(setting) => {
                let name = setting_word(setting);
                let wanted = wanted(setting);
                write!(f, "{name} takes {wanted}, not {word}")
            }
            Mistake::Missing(setting) => {
                let name = setting_word(setting);
                let wanted = wanted(setting);
                write!(f, "{name} takes {wanted}, and nothing follows it")
            }
        }
    }
}

fn setting_word(setting: Setting) -> &'static str
    ensures { result.now ≡ setting_word setting }
{
    match setting {
        Setting::Store => "--store",
        Setting::Orders => "--orders",
        Setting::Executions => "--executions",
        Setting::Symbols => "--symbols",
        Setting::DayLimit => "--day-limit",
        Setting::Book => "--book",
    }
}

// What it can be set to.
fn wanted(setting: Setting) -> &'static str
    ensures { result.now ≡ wanted setting }
{
    match setting {
        Setting::Store => "row, hashed or spread",
        Setting::Book => "a symbol of one to eight visible ASCII characters",
        _ => "a number below 2^64",
    }
}
