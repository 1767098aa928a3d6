// Values made, added and subtracted. What would pass the greatest value stops there, and a difference stops at zero.
ghost use Rattle.std.specs.Prelude.{◌+◌, ◌-◌, ◌*◌, ◌^◌, ◌<◌};
ghost use Rattle.records.specs.Values.{worth, stopped, Parts};

use crate::value::Value;

// What one of the high part stands for.
const UNIT: u64 = 10_000_000_000_000_000;

impl Value {
    pub fn zero() -> Value
        ensures { Parts result 0 }
    {
        Value { high: 0, low: 0 }
    }

    // Of two plain numbers: what the low one has past its bound is carried into the high part.
    pub fn of_parts(high: u64, low: u64) -> Value
        ensures { Parts result (stopped (high * 10 ^ 16 + low)) }
    {
        capped(u128::from(high) + u128::from(low / UNIT), low % UNIT)
    }

    pub fn product(shares: u64, price: u64) -> Value
        ensures { Parts result (stopped (shares * price)) }
    {
        let unit = u128::from(UNIT);
        let all = u128::from(shares) * u128::from(price);
        // So it is for the shares and the price of any message, and no division is done for it.
        if all < unit {
            return Value {
                high: 0,
                low: all as u64,
            };
        }
        capped(all / unit, (all % unit) as u64)
    }

    // With no division: the low parts carry at most one.
    pub fn sum(self, other: Value) -> Value
        ensures { Parts result (stopped (worth self + worth other)) }
    {
        let high = u128::from(self.high) + u128::from(other.high);
        let low = self.low + other.low;
        if low < UNIT {
            capped(high, low)
        } else {
            capped(high + 1, low - UNIT)
        }
    }

    pub fn difference(self, other: Value) -> Value
        ensures { Parts result (worth self - worth other) }
    {
        if self.low >= other.low && self.high >= other.high {
            Value {
                high: self.high - other.high,
                low: self.low - other.low,
            }
        } else if self.low < other.low && self.high > other.high {
            Value {
                high: self.high - other.high - 1,
                low: self.low + UNIT - other.low,
            }
        } else {
            Value::zero()
        }
    }
}

// The value of two parts, the greatest where the high one does not fit.
fn capped(high: u128, low: u64) -> Value
    requires { low < 10 ^ 16 }
    ensures { Parts result (stopped (high * 10 ^ 16 + low)) }
{
    match u64::try_from(high) {
        Ok(high) => Value { high, low },
        Err(_) => Value {
            high: u64::MAX,
            low: UNIT - 1,
        },
    }
}
