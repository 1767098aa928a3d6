// What a line asks for.
ghost use Rattle.std.specs.Prelude.{◌≡◌};
ghost use Rattle.calls.specs.Requests.{request_of, opening_of, shaped_of, two_of};
ghost use Rattle.words.specs.Words.{words, words_after};

use crate::call::{Call, Opening, Request};
use crate::verb::{Verb, verb_of};
use words::cut::{after_space, alone, cut};
use words::kind::kind_of;
use words::number::{number, one_number};

// No line opens a store of more records.
const MOST: u64 = 4096;

pub fn parse(line: &[u8]) -> Option<Request>
    ensures { result ≡ request_of line.now }
{
    let (word, rest) = cut(line);
    let call = match verb_of(word)? {
        Verb::Store => return opening(rest),
        Verb::Insert => {
            let (key, shares) = two_numbers(rest)?;
            Call::Insert(key, shares)
        }
        Verb::Find => Call::Find(one_number(rest)?),
        Verb::From => Call::From(one_number(rest)?),
        Verb::Replace => {
            let (key, shares) = two_numbers(rest)?;
            Call::Replace(key, shares)
        }
        Verb::Remove => Call::Remove(one_number(rest)?),
        Verb::Stands => Call::Stands(one_number(rest)?),
        Verb::Count => alone(Call::Count, rest)?,
        Verb::Limit => alone(Call::Limit, rest)?,
        Verb::Empty => alone(Call::Empty, rest)?,
    };
    Some(Request::Ask(call))
}

fn two_numbers(rest: &[u8]) -> Option<(u64, u64)>
    ensures { result ≡ two_of (words_after rest.now) }
{
    let line = after_space(rest)?;
    let (word, rest) = cut(line);
    Some((number(word)?, one_number(rest)?))
}

fn opening(rest: &[u8]) -> Option<Request>
    ensures { result ≡ opening_of (words_after rest.now) }
{
    let line = after_space(rest)?;
    let (word, more) = cut(line);
    match word {
        b"front" => shaped(true, after_space(more)?),
        _ => shaped(false, line),
    }
}

fn shaped(front: bool, line: &[u8]) -> Option<Request>
    ensures { result ≡ shaped_of front (words line.now) }
{
    let (word, rest) = cut(line);
    let kind = kind_of(word)?;
    let limit = one_number(rest)?;
    (limit <= MOST).then_some(Request::Open(Opening { front, kind, limit }))
}
