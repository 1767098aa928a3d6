//! What every log adds up to.
ghost use Rattle.day_rules.specs.Due.{RefusedWhenDue};
ghost use Rattle.day_rules.specs.Laws.{EveryLog, RefusedUnchanged};

/// The laws of logs, of every log and of whatever day it leaves; and that a refused line leaves the
/// day as it was.
pub fn laws_hold()
    ensures every_log { EveryLog }
    ensures refused { RefusedUnchanged }
    ensures due { RefusedWhenDue }
{}
