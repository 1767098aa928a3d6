// Prices as dollars.
ghost use Rattle.std.specs.Prelude.{Some};
ghost use Rattle.reports.specs.Texts.{dollars_text, average_text};

use std::fmt;

// Ten-thousandths of a dollar, as dollars with four decimals.
#[derive(Clone, Copy, Drop)]
pub struct Dollars(pub u128);

impl fmt::Display for Dollars {
    ghost output = { λ d. Some (dollars_text d.0) };

    fn fmt<W: fmt::Write>(&self, f: &mut fmt::Formatter<W>) -> fmt::Result {
        let n = self.0;
        write!(
            f,
            "{}.{}{}{}{}",
            n / 10_000,
            n / 1_000 % 10,
            n / 100 % 10,
            n / 10 % 10,
            n % 10
        )
    }
}

// An average price, if there is one.
#[derive(Clone, Copy, Drop)]
pub struct AverageForm(pub Option<u128>);

impl fmt::Display for AverageForm {
    ghost output = { λ a. Some (average_text a.0) };

    fn fmt<W: fmt::Write>(&self, f: &mut fmt::Formatter<W>) -> fmt::Result {
        match self.0 {
            Some(average) => write!(f, "{}", Dollars(average)),
            None => f.write_str("none"),
        }
    }
}
