// A measure of the records that a test picks.
ghost use Rattle.std.specs.Prelude.{◌≡◌, cond};

use crate::pick::Pick;
use tally::measure::Measure;
use tally::tally::Tally;

// The others give nothing.
#[derive(Clone, Copy, Drop)]
pub struct Picked<P, M> {
    pub pick: P,
    pub measure: M,
}

impl<R: Copy, P: Pick<R>, M: Measure<R>> Measure<R> for Picked<P, M> {
    type Out = M::Out;

    ghost given = { λ it r. cond (P.Pick.picked it.pick r) (M.Measure.given it.measure r) M.Out.Tally.none };

    fn of(&self, item: R) -> M::Out {
        if self.pick.picks(item) {
            self.measure.of(item)
        } else {
            M::Out::empty()
        }
    }
}
