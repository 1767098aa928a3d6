// What a traded value is.
ghost use Rattle.std.specs.Prelude.{◌^◌, ◌<◌};

// Shares times price, in ten-thousandths of a dollar: high x 10^16 + low, since the sum of a day passes 64 bits.
#[derive(Clone, Copy, PartialEq, Eq, Debug)]
pub struct Value {
    pub high: u64,
    pub low: u64,
    ghost small: { low < 10 ^ 16 },
    ghost fits: { high < 2 ^ 64 },
}
