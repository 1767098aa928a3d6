//! What is counted.
ghost use Rattle.std.specs.Prelude.{◌≡◌, if◌then◌else◌, Some};
ghost use Rattle.capture.specs.Counts.{more};
ghost use Rattle.lines.specs.Listings.{totals_text};

use std::fmt;

/// Each stops at the most that it holds; no capture has so many lines.
#[derive(Clone, Copy, Default)]
pub struct Totals {
    pub lines: u64,
    pub read: u64,
    pub refused: u64,
    pub rewritten: u64,
}

impl Totals {
    pub fn new() -> Totals
        ensures { result ≡ record { lines = 0; read = 0; refused = 0; rewritten = 0 } }
    {
        Totals::default()
    }

    /// Counts a line that is a message, and whether it came back from its message.
    pub fn count_read(&mut self, same: bool)
        ensures { self.new ≡ record self.old {
          lines = more self.old.lines;
          read = more self.old.read;
          rewritten = (if same then more self.old.rewritten else self.old.rewritten);
        } }
    {
        self.lines = self.lines.saturating_add(1);
        self.read = self.read.saturating_add(1);
        if same {
            self.rewritten = self.rewritten.saturating_add(1);
        }
    }

    /// Counts a line that is none.
    pub fn count_refused(&mut self)
        ensures { self.new ≡ record self.old {
          lines = more self.old.lines;
          refused = more self.old.refused;
        } }
    {
        self.lines = self.lines.saturating_add(1);
        self.refused = self.refused.saturating_add(1);
    }
}

impl fmt::Display for Totals {
    ghost output = { λ t. Some (totals_text t.lines t.read t.refused t.rewritten) };

    fn fmt<W: fmt::Write>(&self, f: &mut fmt::Formatter<W>) -> fmt::Result {
        write!(
            f,
            "(lines {} (read {}) (refused {}) (rewritten {}))",
            self.lines, self.read, self.refused, self.rewritten
        )
    }
}
