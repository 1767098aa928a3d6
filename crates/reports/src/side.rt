// What rests of a symbol on a side.
ghost use Rattle.std.specs.Prelude.{Some};
ghost use Rattle.reports.specs.Texts.{side_report};

use book::book::Book;
use day_forms::record::LetterText;
use day_forms::total::Resting;
use forms::text::SymbolText;
use messages::code::Side;
use std::fmt;

#[derive(Drop)]
pub struct SideReport<'a> {
    pub symbol: u64,
    pub side: Side,
    pub book: &'a Book,
}

impl fmt::Display for SideReport<'_> {
    ghost output = { λ s. Some (side_report s.symbol s.side s.book.now) };

    fn fmt<W: fmt::Write>(&self, f: &mut fmt::Formatter<W>) -> fmt::Result {
        let symbol = SymbolText(self.symbol);
        let side = LetterText(self.side);
        let resting = Resting(self.book);
        write!(f, "(book {symbol} {side}{resting})")
    }
}
