// How many lines there were, and what became of them.
ghost use Rattle.std.specs.Prelude.{Some};
ghost use Rattle.reports.specs.Texts.{lines_report, refused_report};

use std::fmt;

// The lines that were read, and the messages among them that were accepted.
#[derive(Clone, Copy, Drop)]
pub struct LinesReport {
    pub lines: u64,
    pub accepted: u64,
}

impl fmt::Display for LinesReport {
    ghost output = { λ l. Some (lines_report l.lines l.accepted) };

    fn fmt<W: fmt::Write>(&self, f: &mut fmt::Formatter<W>) -> fmt::Result {
        write!(f, "(lines {} (accepted {}))", self.lines, self.accepted)
    }
}

// How often a refusal came.
#[derive(Clone, Copy, Drop)]
pub struct RefusedReport {
    pub number: u64,
    pub times: u64,
}

impl fmt::Display for RefusedReport {
    ghost output = { λ r. Some (refused_report r.number r.times) };

    fn fmt<W: fmt::Write>(&self, f: &mut fmt::Formatter<W>) -> fmt::Result {
        write!(f, "(refused {} (times {}))", self.number, self.times)
    }
}
