//! What a store of records of one type is.
//!
//! Its meaning is a list of records with rising keys, and a limit. The meaning holds from the
//! first emptying on; a store that was never emptied answers anything, safely. No call changes the
//! limit, and questions and refusals change nothing.
ghost use Rattle.std.specs.Prelude.{◌≡◌, ℕ, List, length};
ghost use Rattle.store.specs.Lists.{Rising, lookup, first_from};
ghost use Rattle.store.specs.Models.{Model, insert_says, inserted, replace_says, replacing, removing, sweeping, emptied};
ghost use Rattle.store.specs.Visits.{Visited, Covers};

use crate::pick::Pick;
use crate::record::Record;
use crate::refusal::{InsertRefusal, ReplaceRefusal};
use crate::visit::Visit;

pub trait Store<R: Record> {
    // the records held, and the limit
    ghost model: { Self → Model R };

    // it has been emptied, and is in order since
    ghost ready: { Self → Type 0 };

    // the records that a visit has yet to meet, from a place on
    ghost ahead: { Self → ℕ → List R };

    /// The most records that can be held.
    fn limit(&self) -> u64
        ensures { ready self.now → result ≡ (model self.now).limit };

    /// How many are held. Their keys rise, and going through the store in its own order meets
    /// them all.
    fn count(&self) -> u64
        ensures says { ready self.now → result ≡ length (model self.now).rows }
        ensures rising { ready self.now → Rising R.Record.key (model self.now).rows }
        ensures covers { ready self.now → Covers (ahead self.now) (model self.now).rows };

    /// The record with a key.
    fn find(&self, key: u64) -> Option<R>
        ensures { ready self.now → result ≡ lookup R.Record.key key (model self.now).rows };

    /// The record with the least key at or above one.
    fn from(&self, key: u64) -> Option<R>
        ensures { ready self.now → result ≡ first_from R.Record.key key (model self.now).rows };

    /// The next record from a place on, in the store's own order; the first place is 0.
    fn visit(&self, place: u64) -> Option<Visit<R>>
        ensures { ready self.now → Visited (ahead self.now) place result };

    /// Takes a record whose key is not held. A refusal leaves the store as it was: taken if the
    /// key is held, then full if as many are held as the limit allows.
    fn insert(&mut self, item: R) -> Result<(), InsertRefusal>
        ensures says { ready self.old → result ≡ insert_says R.Record.key item (model self.old) }
        ensures leaves { ready self.old
            → model self.new ≡ inserted R.Record.key item (model self.old) }
        ensures still { ready self.old → ready self.new };

    /// Puts a record in the place of the one that has its key. A refusal leaves the store as it
    /// was: missing if the key is not held.
    fn replace(&mut self, item: R) -> Result<(), ReplaceRefusal>
        ensures says { ready self.old → result ≡ replace_says R.Record.key item (model self.old) }
        ensures leaves { ready self.old
            → model self.new ≡ replacing R.Record.key item (model self.old) }
        ensures still { ready self.old → ready self.new };

    /// Takes the record with a key out and answers it.
    fn remove(&mut self, key: u64) -> Option<R>
        ensures says { ready self.old → result ≡ lookup R.Record.key key (model self.old).rows }
        ensures leaves { ready self.old
            → model self.new ≡ removing R.Record.key key (model self.old) }
        ensures still { ready self.old → ready self.new };

    /// Leaves no record, whatever was held. From here on the store has its meaning.
    fn empty(&mut self)
        ensures leaves { model self.new ≡ emptied (model self.old) }
        ensures still { ready self.new };

    /// Takes every record out that a test picks. What they come to is asked of the walk before.
    fn sweep<P: Pick<R>>(&mut self, pick: &P)
        ensures leaves { ready self.old
            → model self.new ≡ sweeping (P.Pick.picked pick.now) (model self.old) }
        ensures still { ready self.old → ready self.new };
}
