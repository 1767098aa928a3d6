//! How a field is shown: its word, and then its value unless it is blank.
ghost use Rattle.std.specs.Prelude.{◌≤◌, ◌∷◌, [], ◌++◌, replicate, codes};
ghost use Rattle.std.specs.Fmt.{WritesOnOk};
ghost use Rattle.layout.specs.Slots.{spell, over};
ghost use Rattle.forms.specs.Messages.{said, number_said, id_said, symbol_said, participant_said, letter_said};
ghost use Rattle.forms.specs.Texts.{without_spaces};

use crate::text::{legible, spelled};
use fields::field::Field;
use fields::letter::Lettered;
use fields::numeral::ID;
use fields::padded::{LONG_SYMBOL, PARTICIPANT, Text};
use std::fmt;

pub(crate) fn show_number<W: fmt::Write>(
    f: &mut fmt::Formatter<W>,
    word: &str,
    value: u64,
) -> fmt::Result
    ensures { WritesOnOk W.write_str_gives f.old result (number_said word.now value) f.new }
{
    show_word(f, word)?;
    f.write_str(" ")?;
    write!(f, "{value})")
}

// An ID as its twelve digits.
pub(crate) fn show_id<W: fmt::Write>(
    f: &mut fmt::Formatter<W>,
    word: &str,
    value: u64,
) -> fmt::Result
    ensures { WritesOnOk W.write_str_gives f.old result (id_said word.now value) f.new }
{
    show_field::<W, _, 12>(f, word, ID, value)
}

// A symbol's number is the same in both of its widths, so the longer one shows all of it.
pub(crate) fn show_symbol<W: fmt::Write>(f: &mut fmt::Formatter<W>, value: u64) -> fmt::Result
    ensures { WritesOnOk W.write_str_gives f.old result (symbol_said value) f.new }
{
    show_field::<W, Text, 8>(f, "symbol", LONG_SYMBOL, value)
}

pub(crate) fn show_participant<W: fmt::Write>(f: &mut fmt::Formatter<W>, value: u64) -> fmt::Result
    ensures { WritesOnOk W.write_str_gives f.old result (participant_said value) f.new }
{
    show_field::<W, Text, 4>(f, "participant", PARTICIPANT, value)
}

// A field of so many bytes, as a line would have it.
fn show_field<W: fmt::Write, F: Field<Value = u64>, const SIZE: usize>(
    f: &mut fmt::Formatter<W>,
    word: &str,
    field: F,
    value: u64,
) -> fmt::Result
    requires { SIZE ≤ 12 }
    ensures { WritesOnOk W.write_str_gives f.old result
        (said word.now (without_spaces
        (over 0 (spell (F.Field.slot field) (F.Field.number field value)) (replicate SIZE 32))))
        f.new }
{
    show_text(f, word, &spelled::<F, SIZE>(field, value))
}

// A space is a blank letter.
pub(crate) fn show_letter<W: fmt::Write, L: Lettered>(
    f: &mut fmt::Formatter<W>,
    word: &str,
    value: &L,
) -> fmt::Result
    ensures { WritesOnOk W.write_str_gives f.old result
        (letter_said word.now (L.Lettered.written value.now)) f.new }
{
    show_text(f, word, &[value.byte()])
}

// The text is written whole, and not a character at a time.
#[tactic(auto, unfolding(crate::specs::Messages::said))]
fn show_text<W: fmt::Write>(f: &mut fmt::Formatter<W>, word: &str, text: &[u8]) -> fmt::Result
    ensures { WritesOnOk W.write_str_gives f.old result
        (said word.now (without_spaces text.now)) f.new }
{
    let text = legible(text)?;
    show_word(f, word)?;
    if text.is_empty() {
        f.write_str(")")
    } else {
        f.write_str(" ")?;
        write!(f, "{text})")
    }
}

// A bracket and the word. They are written as they are: `write!` sets the form of each piece anew,
// and a line has a dozen of them.
#[inline(always)]
fn show_word<W: fmt::Write>(f: &mut fmt::Formatter<W>, word: &str) -> fmt::Result
    ensures { WritesOnOk W.write_str_gives f.old result (codes " (" ++ word.now) f.new }
{
    f.write_str(" (")?;
    f.write_str(word)
}
