// A store with a front. It answers by its own calls, as they alone say how the front changes: a store's in general say nothing of one.
ghost use Rattle.std.specs.Prelude.{Some};
ghost use Rattle.front_row.specs.Rows.{model_of, Ready};

use crate::answers::{Answers, order_of};
use crate::call::Call;
use crate::reply::Reply;
use front_row::front_row::FrontRow;
use records::order::Order;
use store::store::Store;

impl<S: Store<Order>> Answers for FrontRow<S> {
    ghost stored = { λ row. Some (record { model = model_of S.Store row; front = Some row.front.places }) };

    ghost ready = { Ready S.Store };

    fn answer(&mut self, call: Call) -> Reply {
        match call {
            Call::Insert(key, shares) => self.insert(order_of(key, shares)).into(),
            Call::Find(key) => self.find(key).into(),
            Call::From(key) => self.from(key).into(),
            Call::Replace(key, shares) => self.replace(order_of(key, shares)).into(),
            Call::Remove(key) => self.remove(key).into(),
            Call::Stands(key) => Some(self.stands(key)).into(),
            Call::Count => Reply::Counted(self.count()),
            Call::Limit => Reply::Limited(self.limit()),
            Call::Empty => {
                self.empty();
                Reply::Done
            }
        }
    }
}
