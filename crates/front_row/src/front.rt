// Sixteen places with an order or none each, an order at its key's remainder.
//
// The front follows the store below: what stands in front is what the store has, and goes on to be so if the front is changed after the store.
ghost use Rattle.std.specs.Prelude.{◌≡◌, ◌%◌, List, Ok};
ghost use Rattle.records.specs.declared.order.Order.{Order};
ghost use Rattle.records.specs.Keys.{order_key};
ghost use Rattle.store.specs.Models.{insert_says, inserted, replace_says, replacing, removing, sweeping};
ghost use Rattle.front_row.specs.Fronts.{standing, fronted, unfronted, cleared, swept_place, swept, Agrees, Follows, Backed};

use records::order::Order;
use store::pick::Pick;
use store::record::Record;

// A power of two, so that a place is the key's low bits.
const PLACES: usize = 16;

#[derive(Drop)]
pub struct Front {
    places: [Option<Order>; PLACES],
}

impl Front {
    // With all places empty.
    pub fn new() -> Front
        ensures { result.places ≡ cleared }
    {
        Front {
            places: [None; PLACES],
        }
    }

    // The order that stands under a key: the store's own.
    pub fn get(&self, key: u64) -> Option<Order>
        ensures says { result ≡ standing self.now.places key }
        ensures backed { (rows : List Order) → Agrees self.now.places rows → Backed rows key result }
    {
        self.places[place_of(key)].filter(|order| order.key() == key)
    }

    // Puts an order that the store has taken at its place, whatever stands there.
    pub fn put(&mut self, order: Order)
        ensures places { self.new.places ≡ fronted order self.old.places }
        ensures inserted { Follows (λ m n. (Ok tt ≡ insert_says order_key order m) × (n ≡ inserted order_key order m)) self.old.places self.new.places }
        ensures replaced { Follows (λ m n. (Ok tt ≡ replace_says order_key order m) × (n ≡ replacing order_key order m)) self.old.places self.new.places }
    {
        self.places[place_of(order.key())] = Some(order);
    }

    // Leaves the place of a key empty, if it is this key that stands there.
    pub fn remove(&mut self, key: u64)
        ensures places { self.new.places ≡ unfronted key self.old.places }
        ensures agrees { Follows (λ m n. n ≡ removing order_key key m) self.old.places self.new.places }
    {
        if self.get(key).is_some() {
            self.places[place_of(key)] = None;
        }
    }

    // Leaves all places empty.
    pub fn clear(&mut self)
        ensures places { self.new.places ≡ cleared }
        ensures agrees { (rows : List Order) → Agrees self.new.places rows }
    {
        self.places = [None; PLACES];
    }

    // Leaves the places empty of all orders that a test picks.
    pub fn sweep<P: Pick<Order>>(&mut self, pick: &P)
        ensures places { self.new.places ≡ swept (P.Pick.picked pick.now) self.old.places }
        ensures agrees { Follows (λ m n. n ≡ sweeping (P.Pick.picked pick.now) m) self.old.places self.new.places }
    {
        // A slice, since its length is known all through the loop.
        for place in &mut self.places[..] {
            *place = spared(pick, *place);
        }
    }
}

// What a place holds after a sweep.
fn spared<P: Pick<Order>>(pick: &P, place: Option<Order>) -> Option<Order>
    ensures { result ≡ swept_place (P.Pick.picked pick.now) place }
{
    place.filter(|order| !pick.picks(*order))
}

// Where a key may stand.
fn place_of(key: u64) -> usize
    ensures { result ≡ key % 16 }
{
    key as usize % PLACES
}
