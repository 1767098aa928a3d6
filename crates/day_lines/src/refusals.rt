// How often each refusal came.
ghost use Rattle.std.specs.Prelude.{◌≡◌, ◌<◌, replicate};
ghost use Rattle.day_rules.specs.Faults.{refusal_number};
ghost use Rattle.day_lines.specs.Seen.{counted};

use day_rules::fault::LedgerFault;

// One more than the greatest number of a refusal.
pub const NUMBERS: usize = 15;

// Each count stands at its refusal's number; 0 is the number of none. A count stops at the most that it holds.
#[derive(Clone, Copy)]
pub struct Refusals {
    pub counts: [u64; NUMBERS],
}

impl Refusals {
    pub fn new() -> Refusals
        ensures { result.counts ≡ replicate 15 0 }
    {
        Refusals {
            counts: [0; NUMBERS],
        }
    }

    pub fn count(&mut self, fault: &LedgerFault)
        ensures { self.new.counts ≡ counted (refusal_number fault.now) self.old.counts }
    {
        let place = place_of(fault);
        self.counts[place] = self.counts[place].saturating_add(1);
    }
}

// Where a refusal is counted.
#[tactic(auto, using(day_rules::proofs::Numbers::number_small))]
fn place_of(fault: &LedgerFault) -> usize
    ensures is { result ≡ refusal_number fault.now }
    ensures inside { result < 15 }
{
    fault.number() as usize
}
