//! How what is said to a line is shown.
ghost use Rattle.std.specs.Prelude.{Some};
ghost use Rattle.ledger_calls.specs.Texts.{reply_text, rows_text, said_text, opening_text};

use crate::opening::Opening;
use day_forms::answer::Answered;
use day_forms::record::{ExecutionForm, OrderForm, RowForm};
use day_forms::total::{BookForm, TurnoverForm};
use day_rules::answer::Answer;
use day_rules::reply::Reply;
use records::symbol_row::SymbolRow;
use std::fmt;

/// What is said to a line: the answer to its call, or that it asks nothing known.
#[derive(Drop)]
pub struct Said<'a>(pub &'a Option<Answer>);

impl fmt::Display for Said<'_> {
    ghost output = { λ s. Some (said_text s.0.now) };

    fn fmt<W: fmt::Write>(&self, f: &mut fmt::Formatter<W>) -> fmt::Result {
        match self.0 {
            Some(Answer::Line(answer)) => write!(f, "{}", Answered(answer)),
            Some(Answer::Question(reply)) => write!(f, "{}", Replied(reply)),
            None => f.write_str("(unknown question)"),
        }
    }
}

/// A reply, none where nothing was found.
#[derive(Drop)]
pub struct Replied<'a>(pub &'a Reply);

impl fmt::Display for Replied<'_> {
    ghost output = { λ r. Some (reply_text r.0.now) };

    fn fmt<W: fmt::Write>(&self, f: &mut fmt::Formatter<W>) -> fmt::Result {
        match self.0 {
            Reply::Order(Some(order)) => write!(f, "{}", OrderForm(order)),
            Reply::Execution(Some(execution)) => write!(f, "{}", ExecutionForm(execution)),
            Reply::Row(Some(row)) => write!(f, "{}", RowForm(row)),
            Reply::Order(None) | Reply::Execution(None) | Reply::Row(None) => f.write_str("none"),
            Reply::Rows(rows) => write!(f, "(rows{})", RowForms(rows.rows())),
            Reply::Book(book) => write!(f, "{}", BookForm(book)),
            Reply::Market(turnover) => write!(f, "{}", TurnoverForm(turnover)),
            Reply::Accepted(count) => write!(f, "(accepted {count})"),
        }
    }
}

// Rows, each behind a space.
#[derive(Drop)]
struct RowForms<'a>(&'a [SymbolRow]);

impl fmt::Display for RowForms<'_> {
    ghost output = { λ r. Some (rows_text r.0.now) };

    fn fmt<W: fmt::Write>(&self, f: &mut fmt::Formatter<W>) -> fmt::Result {
        for row in self.0 {
            write!(f, " {}", RowForm(row))?;
        }
        Ok(())
    }
}

// The limits of a ledger that was opened.
impl fmt::Display for Opening {
    ghost output = { λ o. Some (opening_text o) };

    fn fmt<W: fmt::Write>(&self, f: &mut fmt::Formatter<W>) -> fmt::Result {
        write!(
            f,
            "(opened {} {} {} {})",
            self.orders, self.executions, self.symbols, self.day_limit
        )
    }
}
