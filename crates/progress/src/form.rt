// How progress is shown.
ghost use Rattle.std.specs.Prelude.{Some};
ghost use Rattle.progress.specs.Paces.{progress_text};

use crate::pace::{Passed, per_second};
use std::fmt;

// Lines, millions of bytes to a tenth, and lines a second.
#[derive(Clone, Copy, Drop)]
pub struct ProgressForm {
    pub passed: Passed,
    pub nanos: u64,
}

impl fmt::Display for ProgressForm {
    ghost output = { λ p. Some (progress_text p.passed.lines p.passed.bytes p.nanos) };

    fn fmt<W: fmt::Write>(&self, f: &mut fmt::Formatter<W>) -> fmt::Result {
        let Passed { lines, bytes } = self.passed;
        let pace = per_second(lines, self.nanos);
        write!(
            f,
            "{lines} lines, {}.{} MB, {pace} lines a second",
            bytes / 1_000_000,
            bytes / 100_000 % 10
        )
    }
}
