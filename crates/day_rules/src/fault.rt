//! Why a ledger accepts no message.
ghost use Rattle.std.specs.Prelude.{◌≡◌};
ghost use Rattle.day_rules.specs.declared.fault.LedgerFault.TheVariants.{Message as of_message};

use messages::fault::MessageFault;

mod number;

/// One of a ledger's three stores, by what it holds.
#[derive(Clone, Copy, PartialEq, Eq, Debug)]
pub enum StoreName {
    Order,
    Execution,
    Symbol,
}

#[derive(Clone, Copy, PartialEq, Eq, Debug)]
pub enum LedgerFault {
    /// The line is no message: the reader's fault, whole.
    Message(MessageFault),
    /// An add's Order ID rests.
    Resting,
    /// An execution or a cancel names no resting order.
    Absent,
    /// More shares than are left of the order.
    Excess,
    /// The Execution ID is stored.
    Repeated,
    /// A break names no stored execution.
    Unmatched,
    /// A break names a broken one.
    Broken,
    /// A record is needed, and its store is at its limit.
    Full(StoreName),
    /// The day limit is reached.
    Closed,
}

impl From<MessageFault> for LedgerFault {
    ghost from_gives = { λ e r. r ≡ of_message e };

    fn from(fault: MessageFault) -> LedgerFault {
        LedgerFault::Message(fault)
    }
}
