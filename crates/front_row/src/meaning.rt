// The front row is a store: it means what the store below means.
ghost use Rattle.std.specs.Prelude.{◌≡◌, Some};
ghost use Rattle.records.specs.declared.order.Order.{Order};
ghost use Rattle.records.specs.Keys.{order_key};
ghost use Rattle.store.specs.Lists.{lookup};
ghost use Rattle.store.specs.Models.{insert_says, inserted, replace_says, replacing, removing, sweeping, emptied};
ghost use Rattle.front_row.specs.Fronts.{standing, taken, unfronted, cleared, swept};
ghost use Rattle.front_row.specs.Rows.{model_of, ahead_of, Ready};

use crate::front_row::FrontRow;
use records::order::Order;
use store::pick::Pick;
use store::refusal::{InsertRefusal, ReplaceRefusal};
use store::store::Store;
use store::visit::Visit;

impl<S: Store<Order>> Store<Order> for FrontRow<S> {
    ghost model = { model_of S.Store };

    ghost ready = { Ready S.Store };

    ghost ahead = { ahead_of S.Store };

    fn limit(&self) -> u64 {
        self.below.limit()
    }

    fn count(&self) -> u64 {
        self.below.count()
    }

    fn find(&self, key: u64) -> Option<Order>
        ensures says { Ready S.Store self.now → result ≡ lookup order_key key (model_of S.Store self.now).rows }
        ensures front { (o : Order) → Some o ≡ standing self.now.front.places key → result ≡ Some o }
    {
        self.front.get(key).or_else(|| self.below.find(key))
    }

    fn from(&self, key: u64) -> Option<Order> {
        self.below.from(key)
    }

    fn visit(&self, place: u64) -> Option<Visit<Order>> {
        self.below.visit(place)
    }

    fn insert(&mut self, item: Order) -> Result<(), InsertRefusal>
        ensures says { Ready S.Store self.old → result ≡ insert_says order_key item (model_of S.Store self.old) }
        ensures leaves { Ready S.Store self.old → model_of S.Store self.new ≡ inserted order_key item (model_of S.Store self.old) }
        ensures still { Ready S.Store self.old → Ready S.Store self.new }
        ensures front { self.new.front.places ≡ taken result item self.old.front.places }
    {
        self.below.insert(item)?;
        self.front.put(item);
        Ok(())
    }

    #[tactic(auto, using(crate::proofs::Agreement::unreplaced))]
    fn replace(&mut self, item: Order) -> Result<(), ReplaceRefusal>
        ensures says { Ready S.Store self.old → result ≡ replace_says order_key item (model_of S.Store self.old) }
        ensures leaves { Ready S.Store self.old → model_of S.Store self.new ≡ replacing order_key item (model_of S.Store self.old) }
        ensures still { Ready S.Store self.old → Ready S.Store self.new }
        ensures front { self.new.front.places ≡ taken result item self.old.front.places }
    {
        self.below.replace(item)?;
        self.front.put(item);
        Ok(())
    }

    fn remove(&mut self, key: u64) -> Option<Order>
        ensures says { Ready S.Store self.old → result ≡ lookup order_key key (model_of S.Store self.old).rows }
        ensures leaves { Ready S.Store self.old → model_of S.Store self.new ≡ removing order_key key (model_of S.Store self.old) }
        ensures still { Ready S.Store self.old → Ready S.Store self.new }
        ensures front { self.new.front.places ≡ unfronted key self.old.front.places }
    {
        let removed = self.below.remove(key);
        self.front.remove(key);
        removed
    }

    fn empty(&mut self)
        ensures leaves { model_of S.Store self.new ≡ emptied (model_of S.Store self.old) }
        ensures still { Ready S.Store self.new }
        ensures front { self.new.front.places ≡ cleared }
    {
        self.below.empty();
        self.front.clear();
    }

    fn sweep<P: Pick<Order>>(&mut self, pick: &P)
        ensures leaves { Ready S.Store self.old
            → model_of S.Store self.new
            ≡ sweeping (P.Pick.picked pick.now) (model_of S.Store self.old) }
        ensures still { Ready S.Store self.old → Ready S.Store self.new }
        ensures front { self.new.front.places
            ≡ swept (P.Pick.picked pick.now) self.old.front.places }
    {
        self.below.sweep(pick);
        self.front.sweep(pick);
    }
}
