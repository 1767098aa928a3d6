// A store with no front: nothing ever stands in front of it.
ghost use Rattle.std.specs.Prelude.{Some, None};

use crate::answers::{Answers, order_of};
use crate::call::Call;
use crate::reply::Reply;
use records::order::Order;
use store::store::Store;

#[derive(Drop)]
pub struct Plain<S>(pub S);

impl<S: Store<Order>> Answers for Plain<S> {
    ghost stored = { λ p. Some (record { model = S.Store.model p.0; front = None }) };

    ghost ready = { λ p. S.Store.ready p.0 };

    fn answer(&mut self, call: Call) -> Reply {
        match call {
            Call::Insert(key, shares) => self.0.insert(order_of(key, shares)).into(),
            Call::Find(key) => self.0.find(key).into(),
            Call::From(key) => self.0.from(key).into(),
            Call::Replace(key, shares) => self.0.replace(order_of(key, shares)).into(),
            Call::Remove(key) => self.0.remove(key).into(),
            Call::Stands(_) => Reply::NoFront,
            Call::Count => Reply::Counted(self.0.count()),
            Call::Limit => Reply::Limited(self.0.limit()),
            Call::Empty => {
                self.0.empty();
                Reply::Done
            }
        }
    }
}
