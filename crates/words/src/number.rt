//! Numbers of decimal digits.
ghost use Rattle.std.specs.Prelude.{◌≡◌, Some, None, MatchOption};
ghost use Rattle.words.specs.Numbers.{number_of, decimal, pushed_on, one_of, first_of};
ghost use Rattle.words.specs.Words.{words, words_after};

use crate::cut::{after_space, cut};
use fields::table::look_up;

// The number behind a space, if there is one and nothing else.
pub fn one_number(rest: &[u8]) -> Option<u64>
    ensures { result ≡ one_of (words_after rest.now) }
{
    whole_number(after_space(rest)?)
}

// The number behind a space, and what stands after it.
pub fn first_number(rest: &[u8]) -> Option<(u64, &[u8])>
    ensures { MatchOption result (first_of (words_after rest.now) ≡ None) (λ p. first_of (words_after rest.now) ≡ Some (p.0, words_after p.1.now)) }
{
    let line = after_space(rest)?;
    let (word, more) = cut(line);
    Some((number(word)?, more))
}

// The number that the words are, if they are one word: a number has no space in it.
fn whole_number(line: &[u8]) -> Option<u64>
    ensures { result ≡ one_of (words line.now) }
{
    number(line)
}

// The number that the bytes spell, if they are digits, one at least, and it is below 2^64.
pub fn number(bytes: &[u8]) -> Option<u64>
    ensures { result ≡ number_of bytes.now }
{
    if bytes.is_empty() {
        return None;
    }
    digits(bytes)
}

fn digits(bytes: &[u8]) -> Option<u64>
    ensures { result ≡ decimal 0 bytes.now }
{
    let mut value = 0;
    for byte in bytes {
        value = pushed(value, *byte)?;
    }
    Some(value)
}

// A number with one more digit behind it.
#[tactic(auto, unfolding(layout::specs::Bytes::worth_of))]
fn pushed(value: u64, byte: u8) -> Option<u64>
    ensures { result ≡ pushed_on value byte }
{
    let digit = u64::from(look_up(byte).worth);
    if digit >= 10 {
        return None;
    }
    value.checked_mul(10)?.checked_add(digit)
}
