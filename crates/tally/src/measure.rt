//! What one record gives to a tally.
ghost use Rattle.std.specs.Prelude.{◌≡◌};

use crate::tally::Tally;

/// A measure of records, by the function that contracts name.
pub trait Measure<R> {
    type Out: Tally;

    ghost given: { Self → R → Self.Out };

    fn of(&self, item: R) -> Self::Out
        ensures { result ≡ given self.now item };
}
