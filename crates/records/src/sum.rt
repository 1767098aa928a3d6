// Values are a tally.
ghost use Rattle.records.specs.Values.{valued, joined};
ghost use Rattle.records.specs.ValuesLemmas as Values;

use crate::value::Value;
use tally::tally::Tally;

impl Tally for Value {
    ghost none = { valued 0 };

    ghost joining = { joined };

    ghost associative = { Values.associative };

    ghost commutative = { Values.commutative };

    ghost neutral = { Values.neutral };

    fn empty() -> Value {
        Value::zero()
    }

    fn join(self, other: Value) -> Value {
        self.sum(other)
    }
}
