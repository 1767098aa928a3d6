//! The words that an order or an execution, a symbol and a side go by, read as a line's fields are.
ghost use Rattle.std.specs.Prelude.{◌≡◌, ℕ, ◌-◌, ◌≤◌, ◌↔◌, ◌++◌, length, replicate, MatchOption, None, Some};
ghost use Rattle.layout.specs.Slots.{width, Spells};
ghost use Rattle.messages.specs.Layouts.{identifier, long_symbol};
ghost use Rattle.keys.specs.Keys.{whole, id_of, symbol_of, side_of, padded};

use fields::field::Field;
use fields::numeral::ID;
use fields::padded::LONG_SYMBOL;
use messages::code::Side;

/// The ID whose twelve digits the word is; `None` just where it is no Order ID's or Execution ID's
/// field.
pub fn id(word: &[u8]) -> Option<u64>
    ensures value { result ≡ id_of word.now }
    ensures spelled { (v : ℕ) → (result ≡ Some v) ↔ Spells identifier word.now v }
{
    id_in(word)
}

fn id_in(word: &[u8]) -> Option<u64>
    ensures { result ≡ id_of word.now }
{
    read_whole(ID, word)
}

/// The symbol that the word is with spaces after it, to eight bytes; `None` just where that is no
/// symbol's field. Words that differ only in the spaces at their end are one symbol.
pub fn symbol(word: &[u8]) -> Option<u64>
    ensures value { result ≡ symbol_of word.now }
    ensures spelled { (v : ℕ) → (result ≡ Some v) ↔ Spells long_symbol (padded word.now) v }
{
    symbol_in(word)
}

fn symbol_in(word: &[u8]) -> Option<u64>
    ensures { result ≡ symbol_of word.now }
{
    if word.len() > 8 {
        return None;
    }
    read_whole(LONG_SYMBOL, &padded(word))
}

fn padded(word: &[u8]) -> [u8; 8]
    requires { length word.now ≤ 8 }
    ensures { result ≡ padded word.now }
{
    let mut text = [b' '; 8];
    text[..word.len()].copy_from_slice(word);
    text
}

// The value of a field, if the bytes are just as many as it has.
fn read_whole<F: Field<Value = u64>>(field: F, bytes: &[u8]) -> Option<u64>
    ensures { MatchOption result (whole (F.Field.slot field) bytes.now ≡ None)
        (λ v. whole (F.Field.slot field) bytes.now ≡ Some (F.Field.number field v)) }
{
    if bytes.len() != field.width() as usize {
        return None;
    }
    field.allowed(field.scan(bytes).ok()?)
}

/// The side whose letter the word is.
pub fn side(word: &[u8]) -> Option<Side>
    ensures { result ≡ side_of word.now }
{
    match word {
        [b'B'] => Some(Side::Buy),
        [b'S'] => Some(Side::Sell),
        _ => None,
    }
}
