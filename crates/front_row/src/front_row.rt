// A store of orders with a front before it.
ghost use Rattle.std.specs.Prelude.{◌≡◌, is_some};
ghost use Rattle.front_row.specs.Fronts.{standing, cleared};

use crate::front::Front;
use records::order::Order;
use store::store::Store;

#[derive(Drop)]
pub struct FrontRow<S> {
    pub(crate) below: S,
    pub(crate) front: Front,
}

impl<S: Store<Order>> FrontRow<S> {
    // With nothing in front: it means what the store below means.
    pub fn new(below: S) -> FrontRow<S>
        ensures model { ⟦<FrontRow<S> as Store<Order>>⟧.model result ≡ S.Store.model below }
        ensures below { result.below ≡ below }
        ensures front { result.front.places ≡ cleared }
    {
        FrontRow {
            below,
            front: Front::new(),
        }
    }
}

impl<S> FrontRow<S> {
    // Whether a key stands in front.
    pub fn stands(&self, key: u64) -> bool
        ensures { result ≡ is_some (standing self.now.front.places key) }
    {
        self.front.get(key).is_some()
    }
}
