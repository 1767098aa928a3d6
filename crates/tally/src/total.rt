// A number of shares or records: a sum that stops at the greatest number held.
ghost use Rattle.std.specs.Prelude.{◌^◌, ◌<◌};

#[derive(Clone, Copy, PartialEq, Eq, Debug)]
pub struct Total {
    pub number: u64,
    ghost fits: { number < 2 ^ 64 },
}
