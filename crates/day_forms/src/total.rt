// How totals are shown: what rests of a symbol on a side, and what all symbols have traded.
ghost use Rattle.std.specs.Prelude.{Some};
ghost use Rattle.day_forms.specs.Texts.{resting_text, book_text, turnover_text};

use book::book::Book;
use book::turnover::Turnover;
use std::fmt;

// The depth, and the best price, none where no order rests.
#[derive(Drop)]
pub struct Resting<'a>(pub &'a Book);

impl fmt::Display for Resting<'_> {
    ghost output = { λ b. Some (resting_text b.0.now) };

    fn fmt<W: fmt::Write>(&self, f: &mut fmt::Formatter<W>) -> fmt::Result {
        let depth = self.0.depth;
        let orders = depth.orders.number;
        let shares = depth.shares.number;
        match self.0.best {
            Some(price) => write!(f, " (orders {orders}) (shares {shares}) (best {price})"),
            None => write!(f, " (orders {orders}) (shares {shares}) (best none)"),
        }
    }
}

#[derive(Drop)]
pub struct BookForm<'a>(pub &'a Book);

impl fmt::Display for BookForm<'_> {
    ghost output = { λ b. Some (book_text b.0.now) };

    fn fmt<W: fmt::Write>(&self, f: &mut fmt::Formatter<W>) -> fmt::Result {
        write!(f, "(book{})", Resting(self.0))
    }
}

#[derive(Drop)]
pub struct TurnoverForm<'a>(pub &'a Turnover);

impl fmt::Display for TurnoverForm<'_> {
    ghost output = { λ t. Some (turnover_text t.0.now) };

    fn fmt<W: fmt::Write>(&self, f: &mut fmt::Formatter<W>) -> fmt::Result {
        let volume = self.0.volume.number;
        let value = self.0.value;
        write!(
            f,
            "(turnover (volume {volume}) (value {} {}))",
            value.high, value.low
        )
    }
}
