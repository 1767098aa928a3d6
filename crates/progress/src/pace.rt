// How much of an input has passed, and how fast.
ghost use Rattle.std.specs.Prelude.{◌≡◌};
ghost use Rattle.progress.specs.Paces.{per_second, passed_with};

// Counts stop at the most that they hold.
#[derive(Clone, Copy, Default)]
pub struct Passed {
    pub lines: u64,
    pub bytes: u64,
}

impl Passed {
    // With so many bytes more, and as many lines more as end among them.
    pub fn with(self, bytes: u64, lines: u64) -> Passed
        ensures { result ≡ passed_with bytes lines self }
    {
        Passed {
            lines: self.lines.saturating_add(lines),
            bytes: self.bytes.saturating_add(bytes),
        }
    }
}

// So many in so many nanoseconds, a second; none in no time.
pub fn per_second(count: u64, nanos: u64) -> u128
    ensures { result ≡ per_second count nanos }
{
    if nanos == 0 {
        return 0;
    }
    u128::from(count) * 1_000_000_000 / u128::from(nanos)
}
