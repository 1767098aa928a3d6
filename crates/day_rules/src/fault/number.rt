// The numbers of the faults.
ghost use Rattle.std.specs.Prelude.{◌≡◌};
ghost use Rattle.day_rules.specs.Faults.{refusal_number};

use crate::fault::LedgerFault;

impl LedgerFault {
    // The number by which the refusal is known outside: documents and outputs go by it, and the code by the variants.
    pub fn number(&self) -> u8
        ensures { result ≡ refusal_number self.now }
    {
        match self {
            LedgerFault::Message(fault) => fault.number(),
            LedgerFault::Resting => 6,
            LedgerFault::Absent => 7,
            LedgerFault::Excess => 8,
            LedgerFault::Repeated => 9,
            LedgerFault::Unmatched => 10,
            LedgerFault::Broken => 11,
            LedgerFault::Full(_) => 12,
            LedgerFault::Closed => 13,
        }
    }
}
