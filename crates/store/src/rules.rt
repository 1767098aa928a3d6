// The rules of a store in words of what is found.
ghost use Rattle.store.specs.Rules.{Rules};

use crate::record::Record;

// What the calls of every store of these records come to.
pub fn rules_hold<R: Record>()
    ensures { Rules R.Record.key }
{}
