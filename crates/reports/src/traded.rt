// What has traded, of a symbol and of all symbols together, with its average price.
ghost use Rattle.std.specs.Prelude.{Some};
ghost use Rattle.reports.specs.Texts.{traded_text, row_report, market_report};

use crate::average::average;
use crate::dollars::AverageForm;
use book::turnover::Turnover;
use forms::text::SymbolText;
use records::symbol_row::SymbolRow;
use records::value::Value;
use std::fmt;

#[derive(Clone, Copy, Drop)]
struct TradedForm {
    volume: u64,
    value: Value,
}

impl fmt::Display for TradedForm {
    ghost output = { λ t. Some (traded_text t.volume t.value) };

    fn fmt<W: fmt::Write>(&self, f: &mut fmt::Formatter<W>) -> fmt::Result {
        let volume = self.volume;
        let value = self.value;
        let average = AverageForm(average(value, volume));
        write!(
            f,
            " (volume {volume}) (value {} {}) (average {average})",
            value.high, value.low
        )
    }
}

// What has traded of a symbol.
#[derive(Drop)]
pub struct RowReport<'a>(pub &'a SymbolRow);

impl fmt::Display for RowReport<'_> {
    ghost output = { λ r. Some (row_report r.0.now) };

    fn fmt<W: fmt::Write>(&self, f: &mut fmt::Formatter<W>) -> fmt::Result {
        let symbol = SymbolText(self.0.symbol);
        let traded = TradedForm {
            volume: self.0.volume,
            value: self.0.value(),
        };
        write!(f, "(symbol {symbol}{traded})")
    }
}

// What all symbols have traded.
#[derive(Drop)]
pub struct MarketReport<'a>(pub &'a Turnover);

impl fmt::Display for MarketReport<'_> {
    ghost output = { λ m. Some (market_report m.0.now) };

    fn fmt<W: fmt::Write>(&self, f: &mut fmt::Formatter<W>) -> fmt::Result {
        let traded = TradedForm {
            volume: self.0.volume.number,
            value: self.0.value,
        };
        write!(f, "(market{traded})")
    }
}
