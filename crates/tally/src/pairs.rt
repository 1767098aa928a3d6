// Two tallies side by side are a tally, and two measures give it.
ghost use Rattle.tally.specs.Pairs.{pairwise};

use crate::both::Both;
use crate::measure::Measure;
use crate::tally::Tally;

impl<A: Tally, B: Tally> Tally for Both<A, B> {
    ghost none = { record { first = A.none; second = B.none } };

    ghost joining = { pairwise A.joining B.joining };

    ghost associative = { λ x y z i. record { first = A.associative x.first y.first z.first i; second = B.associative x.second y.second z.second i } };

    ghost commutative = { λ x y i. record { first = A.commutative x.first y.first i; second = B.commutative x.second y.second i } };

    ghost neutral = { λ x i. record { first = A.neutral x.first i; second = B.neutral x.second i } };

    fn empty() -> Both<A, B> {
        Both {
            first: A::empty(),
            second: B::empty(),
        }
    }

    fn join(self, other: Both<A, B>) -> Both<A, B> {
        Both {
            first: self.first.join(other.first),
            second: self.second.join(other.second),
        }
    }
}

impl<R: Copy, A: Measure<R>, B: Measure<R>> Measure<R> for Both<A, B> {
    type Out = Both<A::Out, B::Out>;

    ghost given = { λ m r. record { first = A.Measure.given m.first r; second = B.Measure.given m.second r } };

    fn of(&self, item: R) -> Both<A::Out, B::Out> {
        Both {
            first: self.first.of(item),
            second: self.second.of(item),
        }
    }
}
