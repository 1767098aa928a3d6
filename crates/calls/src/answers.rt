// What calls are answered by, from one to the next: a store with a front before it or none, or nothing while no store is open.
ghost use Rattle.std.specs.Prelude.{◌≡◌, Option, option_map};
ghost use Rattle.calls.specs.Replies.{Stored, order_of, reply_to, stored_after};

mod front;
pub mod none;
pub mod plain;

use crate::call::Call;
use crate::reply::Reply;
use records::order::Order;

pub trait Answers {
    // what the store holds and what stands in front of it, if a store is open
    ghost stored: { Self → Option Stored };

    // the store has been emptied, and is in order since
    ghost ready: { Self → Type 0 };

    fn answer(&mut self, call: Call) -> Reply
        ensures says { ready self.old → result ≡ reply_to call (stored self.old) }
        ensures leaves { ready self.old → stored self.new ≡ option_map (stored_after call) (stored self.old) }
        ensures still { ready self.old → ready self.new };
}

// The order of a call: the fields that it does not give are always the same.
fn order_of(key: u64, shares: u64) -> Order
    ensures { result ≡ order_of key shares }
{
    Order {
        id: key,
        shares,
        ..Order::BLANK
    }
}
