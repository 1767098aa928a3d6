//! What a ledger says to a line.
ghost use Rattle.std.specs.Prelude.{◌≡◌};
ghost use Rattle.ledger_calls.specs.Replies.{said_to, day_left};

use crate::parse::call;
use day_rules::answer::Answer;
use ledger::ledger::Ledger;
use records::execution::Execution;
use records::order::Order;
use records::symbol_row::SymbolRow;
use store::store::Store;

/// Makes the call that a line is, and answers it; a line that is none changes nothing.
pub fn say<O: Store<Order>, E: Store<Execution>, S: Store<SymbolRow>>(
    ledger: &mut Ledger<O, E, S>,
    line: &[u8],
) -> Option<Answer>
    ensures says { result ≡ said_to line.now ledger.old }
    ensures leaves { ledger.new ≡ day_left line.now ledger.old }
{
    Some(ledger.call(call(line)?))
}
