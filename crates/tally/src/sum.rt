// Sums that stop at 2^64 - 1 are a tally, and any record can be counted by one.
ghost use Rattle.std.specs.Prelude.{◌≡◌};
ghost use Rattle.tally.specs.Totals.{total_of, together};
ghost use Rattle.tally.specs.TotalsLemmas as Totals;

use crate::measure::Measure;
use crate::tally::Tally;
use crate::total::Total;

impl Tally for Total {
    ghost none = { total_of 0 };

    ghost joining = { together };

    ghost associative = { Totals.associative };

    ghost commutative = { Totals.commutative };

    ghost neutral = { Totals.neutral };

    fn empty() -> Total {
        Total { number: 0 }
    }

    fn join(self, other: Total) -> Total {
        Total {
            number: self.number.saturating_add(other.number),
        }
    }
}

impl Total {
    pub fn of(number: u64) -> Total
        ensures { result ≡ total_of number }
    {
        Total { number }
    }
}

// One for each record.
#[derive(Clone, Copy, Drop)]
pub struct Counting;

impl<R: Drop> Measure<R> for Counting {
    type Out = Total;

    ghost given = { λ _ _. total_of 1 };

    fn of(&self, _item: R) -> Total {
        Total { number: 1 }
    }
}
