//! What a line says that is not put to the ledger.
ghost use Rattle.std.specs.Prelude.{◌≡◌, None, Some, MatchOption};
ghost use Rattle.words.specs.Words.{words, words_after};
ghost use Rattle.ledger_calls.specs.Openings.{opening_of, sizes_of};
ghost use Rattle.keys.specs.Keys.{id_of, symbol_of};
ghost use Rattle.ledger_calls.specs.Questions.{asked_by, question_of, key_of, rows_asked, book_of, call_made};
ghost use Rattle.words.specs.Numbers.{one_of};
ghost use Rattle.day_rules.specs.Calls.{call_of};

use crate::opening::Opening;
use crate::verb::{Verb, verb_of};
use day_rules::call::Call;
use day_rules::first_rows::FirstRows;
use day_rules::question::Question;
use keys::key::{id, side, symbol};
use words::cut::{after_space, alone, cut, one_word};
use words::number::{first_number, one_number};

// No line opens a ledger over stores of more records.
const MOST: u64 = 64;

/// The ledger that a line opens.
pub fn opening(line: &[u8]) -> Option<Opening>
    ensures { result ≡ opening_of line.now }
{
    let (word, rest) = cut(line);
    match word {
        b"ledger" => sizes(rest),
        _ => None,
    }
}

fn sizes(rest: &[u8]) -> Option<Opening>
    ensures { result ≡ sizes_of (words_after rest.now) }
{
    let (orders, rest) = first_number(rest)?;
    let (executions, rest) = first_number(rest)?;
    let (symbols, rest) = first_number(rest)?;
    let day_limit = one_number(rest)?;
    (orders <= MOST && executions <= MOST && symbols <= MOST).then_some(Opening {
        orders,
        executions,
        symbols,
        day_limit,
    })
}

/// The call that a line makes: a question, or it is put to the ledger; none where what stands
/// behind a question mark is no question.
pub fn call(line: &[u8]) -> Option<Call>
    ensures { MatchOption result (call_made line.now ≡ None)
        (λ call. call_made line.now ≡ Some (call_of call)) }
{
    match asked(line) {
        Some(text) => Some(Call::Question(question(text)?)),
        None => Some(Call::Line(line)),
    }
}

// The text of a question, if a line is one.
fn asked(line: &[u8]) -> Option<&[u8]>
    ensures { MatchOption result (asked_by line.now ≡ None) (λ text. asked_by line.now ≡ Some text.now) }
{
    line.strip_prefix(b"?")
}

// The question that a text is.
fn question(text: &[u8]) -> Option<Question>
    ensures { result ≡ question_of text.now }
{
    let (word, rest) = cut(text);
    match verb_of(word)? {
        Verb::Order => Some(Question::Order(one_id(rest)?)),
        Verb::Execution => Some(Question::Execution(one_id(rest)?)),
        Verb::Row => Some(Question::Row(one_symbol(rest)?)),
        Verb::From => Some(Question::RowFrom(one_symbol(rest)?)),
        Verb::Rows => rows(rest),
        Verb::Book => book(rest),
        Verb::Market => alone(Question::Market, rest),
        Verb::Accepted => alone(Question::Accepted, rest),
    }
}

fn one_id(rest: &[u8]) -> Option<u64>
    ensures { result ≡ key_of id_of (words_after rest.now) }
{
    id(one_word(rest)?)
}

fn one_symbol(rest: &[u8]) -> Option<u64>
    ensures { result ≡ key_of symbol_of (words_after rest.now) }
{
    symbol(one_word(rest)?)
}

// A number of rows that a reply has places for.
fn rows(rest: &[u8]) -> Option<Question>
    ensures { result ≡ rows_asked (one_of (words_after rest.now)) }
{
    let most = one_number(rest)?;
    (most <= FirstRows::MOST as u64).then_some(Question::Rows(most))
}

// A symbol and a side.
fn book(rest: &[u8]) -> Option<Question>
    ensures { result ≡ book_of (words_after rest.now) }
{
    let line = after_space(rest)?;
    let (word, more) = cut(line);
    let symbol = symbol(word)?;
    let side = side(one_word(more)?)?;
    Some(Question::Book(symbol, side))
}
