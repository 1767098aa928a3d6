// The average price of what has traded.
ghost use Rattle.std.specs.Prelude.{◌≡◌, ◌+◌, ◌*◌, ◌/◌, ◌^◌, ◌<◌, ◌≤◌, IfSome};
ghost use Rattle.records.specs.Values.{worth};
ghost use Rattle.reports.specs.Averages.{rounded, average_of, IsNearest};

use records::value::Value;

// Value over shares, in ten-thousandths of a dollar: the nearest whole number of them, the upper of two that are as near. None where no shares have traded.
pub fn average(value: Value, shares: u64) -> Option<u128>
    ensures says { result ≡ average_of (worth value) shares }
    ensures nearest { IfSome result (IsNearest (worth value) shares) }
{
    if shares == 0 {
        return None;
    }
    Some(rounded(whole(value), u128::from(shares)))
}

// A value as one number: it has 118 bits at most.
fn whole(value: Value) -> u128
    ensures says { result ≡ worth value }
    ensures fits { result < 2 ^ 118 }
{
    u128::from(value.high) * 10_000_000_000_000_000 + u128::from(value.low)
}

// The quotient, to the nearest whole number: a half is added before the rest is let go.
fn rounded(value: u128, shares: u128) -> u128
    requires { (0 < shares) × (shares < 2 ^ 64) × (value < 2 ^ 118) }
    ensures says { result ≡ rounded value shares }
    ensures nearest { IsNearest value shares result }
{
    (2 * value + shares) / (2 * shares)
}
