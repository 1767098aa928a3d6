//! The text of a field alone, without its word: the digits of an ID, the letters of a symbol.
ghost use Rattle.std.specs.Prelude.{◌≡◌, ℕ, ◌≤◌, List, replicate, Some, IsErr, IsTrue};
ghost use Rattle.std.specs.Prelude.{Decides, MatchResult};
ghost use Rattle.std.specs.Fmt.{WritesOnOk};
ghost use Rattle.std.specs.Str.{IsUtf8};
ghost use Rattle.layout.specs.Slots.{Spells, spell, over};
ghost use Rattle.messages.specs.Layouts.{identifier, long_symbol};
ghost use Rattle.forms.specs.Texts.{without_spaces, id_text, symbol_text};

use crate::trim::trimmed;
use fields::field::Field;
use fields::numeral::ID;
use fields::padded::{LONG_SYMBOL, Text};
use std::fmt;
use std::str::from_utf8;

/// An ID as its twelve digits. Every number has such a text: an `Err` is the writer's.
#[derive(Clone, Copy, Drop)]
pub struct IdText(pub u64);

impl IdText {
    /// Whether its bytes are a text, so that it can be shown: those of every number are.
    pub fn is_legible(self) -> bool
        ensures exact { Decides result (IsUtf8 (id_text self.0)) }
        ensures ids { IsTrue result }
    {
        is_text(&self.digits())
    }

    fn digits(self) -> [u8; 12]
        ensures { result ≡ over 0 (spell identifier self.0) (replicate 12 32) }
    {
        spelled::<_, 12>(ID, self.0)
    }
}

impl fmt::Display for IdText {
    ghost output = { λ t. Some (id_text t.0) };

    fn fmt<W: fmt::Write>(&self, f: &mut fmt::Formatter<W>) -> fmt::Result
        ensures writes { WritesOnOk W.write_str_gives f.old result (id_text self.now.0) f.new }
    {
        match legible(&self.digits()) {
            Ok(text) => f.write_str(text),
            Err(_) => unreachable!(),
        }
    }
}

/// A symbol without the spaces at its end. Of a number whose bytes are no text, which `is_legible`
/// tells, the answer is an `Err`; every symbol that some line gives has one.
#[derive(Clone, Copy, Drop)]
pub struct SymbolText(pub u64);

impl SymbolText {
    /// Whether its bytes are a text, so that it can be shown: those of every symbol that some line
    /// gives are.
    pub fn is_legible(self) -> bool
        ensures exact { Decides result (IsUtf8 (symbol_text self.0)) }
        ensures symbols { (p : List ℕ) → Spells long_symbol p self.0 → IsTrue result }
    {
        is_text(&self.letters())
    }

    fn letters(self) -> [u8; 8]
        ensures { result ≡ over 0 (spell long_symbol self.0) (replicate 8 32) }
    {
        spelled::<Text, 8>(LONG_SYMBOL, self.0)
    }
}

impl fmt::Display for SymbolText {
    ghost output = { λ t. Some (symbol_text t.0) };

    fn fmt<W: fmt::Write>(&self, f: &mut fmt::Formatter<W>) -> fmt::Result
        ensures writes { WritesOnOk W.write_str_gives f.old result (symbol_text self.now.0) f.new }
        ensures refused { ¬ (IsUtf8 (symbol_text self.now.0)) → IsErr result }
    {
        if !self.is_legible() {
            return Err(fmt::Error);
        }
        match legible(&self.letters()) {
            Ok(text) => f.write_str(text),
            Err(_) => unreachable!(),
        }
    }
}

// The bytes of a field of so many, as a line would have it.
pub(crate) fn spelled<F: Field<Value = u64>, const SIZE: usize>(field: F, value: u64) -> [u8; SIZE]
    requires { SIZE ≤ 12 }
    ensures { result
        ≡ over 0 (spell (F.Field.slot field) (F.Field.number field value)) (replicate SIZE 32) }
{
    let mut text = [b' '; SIZE];
    field.put(&mut text, 0, &value);
    text
}

// Whether a field's bytes are a text, without the spaces at their end.
fn is_text(bytes: &[u8]) -> bool
    ensures { Decides result (IsUtf8 (without_spaces bytes.now)) }
{
    legible(bytes).is_ok()
}

// The text of a field's bytes, without the spaces at their end; an `Err` just where they are none.
pub(crate) fn legible(bytes: &[u8]) -> Result<&str, fmt::Error>
    ensures { MatchResult result
        (λ text. (text.now ≡ without_spaces bytes.now) × IsUtf8 (without_spaces bytes.now))
        (λ _. ¬ (IsUtf8 (without_spaces bytes.now))) }
{
    match from_utf8(trimmed(bytes)) {
        Ok(text) => Ok(text),
        Err(_) => Err(fmt::Error),
    }
}
