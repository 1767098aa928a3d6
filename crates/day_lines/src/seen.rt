// What became of the lines of an input.
ghost use Rattle.std.specs.Prelude.{◌≡◌};
ghost use Rattle.day_lines.specs.Seen.{none_seen, one_seen};

use crate::refusals::Refusals;
use capture::count::LineCount;
use day_rules::fault::LedgerFault;
use day_rules::outcome::Outcome;

#[derive(Clone, Copy)]
pub struct Seen {
    pub lines: LineCount,
    pub refusals: Refusals,
}

impl Seen {
    pub fn new() -> Seen
        ensures { result ≡ none_seen }
    {
        Seen {
            lines: LineCount::new(),
            refusals: Refusals::new(),
        }
    }

    // Counts a line by its answer, and gives its number.
    pub fn count(&mut self, answer: &Result<Outcome, LedgerFault>) -> u64
        ensures says { result ≡ self.new.lines.lines }
        ensures counts { self.new ≡ one_seen answer.now self.old }
    {
        if let Err(fault) = answer {
            self.refusals.count(fault);
        }
        self.lines.next()
    }
}
