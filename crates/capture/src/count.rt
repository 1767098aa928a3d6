// The numbers of lines.
ghost use Rattle.std.specs.Prelude.{◌≡◌};
ghost use Rattle.capture.specs.Counts.{more};

// How many lines there were. It stops at the most that it holds; no input has so many lines.
#[derive(Clone, Copy, Default)]
pub struct LineCount {
    pub lines: u64,
}

impl LineCount {
    pub fn new() -> LineCount
        ensures { result ≡ record { lines = 0 } }
    {
        LineCount::default()
    }

    // The number of the next line.
    pub fn next(&mut self) -> u64
        ensures says { result ≡ more self.old.lines }
        ensures counts { self.new ≡ record { lines = more self.old.lines } }
    {
        self.lines = self.lines.saturating_add(1);
        self.lines
    }
}
