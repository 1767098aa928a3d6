// How the answer to a line is shown: what was taken, or why it is refused.
ghost use Rattle.std.specs.Prelude.{◌≡◌, Some};
ghost use Rattle.day_forms.specs.Texts.{store_word, outcome_text, refusal_text, answer_text};

use day_rules::fault::{LedgerFault, StoreName};
use day_rules::outcome::Outcome;
use forms::refusal::Refusal;
use std::fmt;

// Orders taken off the book, and shares.
#[derive(Drop)]
pub struct Taken<'a>(pub &'a Outcome);

impl fmt::Display for Taken<'_> {
    ghost output = { λ t. Some (outcome_text t.0.now) };

    fn fmt<W: fmt::Write>(&self, f: &mut fmt::Formatter<W>) -> fmt::Result {
        write!(f, "(took {} {})", self.0.orders, self.0.shares)
    }
}

// A refusal's number, and then what it carries.
#[derive(Drop)]
pub struct Refused<'a>(pub &'a LedgerFault);

impl fmt::Display for Refused<'_> {
    ghost output = { λ r. Some (refusal_text r.0.now) };

    fn fmt<W: fmt::Write>(&self, f: &mut fmt::Formatter<W>) -> fmt::Result {
        let number = self.0.number();
        match self.0 {
            LedgerFault::Message(fault) => write!(f, "{}", Refusal(fault)),
            LedgerFault::Full(name) => {
                let word = store_word(*name);
                write!(f, "(refused {number} ({word}))")
            }
            _ => write!(f, "(refused {number})"),
        }
    }
}

// The store that is at its limit.
fn store_word(name: StoreName) -> &'static str
    ensures { result.now ≡ store_word name }
{
    match name {
        StoreName::Order => "order",
        StoreName::Execution => "execution",
        StoreName::Symbol => "symbol",
    }
}

// What a line is answered.
#[derive(Drop)]
pub struct Answered<'a>(pub &'a Result<Outcome, LedgerFault>);

impl fmt::Display for Answered<'_> {
    ghost output = { λ a. Some (answer_text a.0.now) };

    fn fmt<W: fmt::Write>(&self, f: &mut fmt::Formatter<W>) -> fmt::Result {
        match self.0 {
            Ok(outcome) => write!(f, "{}", Taken(outcome)),
            Err(fault) => write!(f, "{}", Refused(fault)),
        }
    }
}
