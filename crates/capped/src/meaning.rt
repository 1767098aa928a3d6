// The capped store is a store: the records of the store below, under the lesser limit.
ghost use Rattle.capped.specs.Caps.{model_of, ready_of, ahead_of};

use crate::capped::Capped;
use store::pick::Pick;
use store::record::Record;
use store::refusal::{InsertRefusal, ReplaceRefusal};
use store::store::Store;
use store::visit::Visit;

impl<R: Record, S: Store<R>> Store<R> for Capped<S> {
    ghost model = { model_of S.Store };

    ghost ready = { ready_of S.Store };

    ghost ahead = { ahead_of S.Store };

    fn limit(&self) -> u64 {
        self.allotment.min(self.below.limit())
    }

    fn count(&self) -> u64 {
        self.below.count()
    }

    fn find(&self, key: u64) -> Option<R> {
        self.below.find(key)
    }

    fn from(&self, key: u64) -> Option<R> {
        self.below.from(key)
    }

    fn visit(&self, place: u64) -> Option<Visit<R>> {
        self.below.visit(place)
    }

    // A search of its own only at the allotment: before that the store below looks whether the key is held.
    #[inline(always)]
    fn insert(&mut self, item: R) -> Result<(), InsertRefusal> {
        if self.below.count() < self.allotment {
            self.below.insert(item)
        } else if self.below.find(item.key()).is_some() {
            Err(InsertRefusal::Taken)
        } else {
            Err(InsertRefusal::Full)
        }
    }

    fn replace(&mut self, item: R) -> Result<(), ReplaceRefusal> {
        self.below.replace(item)
    }

    #[inline(always)]
    fn remove(&mut self, key: u64) -> Option<R> {
        self.below.remove(key)
    }

    fn empty(&mut self) {
        self.below.empty();
    }

    fn sweep<P: Pick<R>>(&mut self, pick: &P) {
        self.below.sweep(pick);
    }
}
