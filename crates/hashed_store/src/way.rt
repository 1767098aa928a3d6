// The way of a search: from the key's home, slot by slot around the end.
ghost use Rattle.std.specs.Prelude.{◌≤◌, length};
ghost use Rattle.hashed_store.specs.Ways.{Went};

use crate::home::Home;
use crate::mixing::tag;
use crate::round::next;
use crate::slots::{Look, Slots};
use store::record::Record;

#[derive(Clone, Copy)]
pub(crate) enum Ending {
    // the key is in the slot at this place
    Here(usize),
    // the first empty slot is at this place, so many steps from the key's home
    Gap(usize, usize),
    // all slots on the way hold other keys
    Past,
}

// Looks for a key in the first `most` slots of its way.
pub(crate) fn way<R: Record, H: Home>(slots: &Slots<'_, R, H>, key: u64, most: usize) -> Ending
    requires { most ≤ length slots.now }
    ensures { Went H.Home.home R.Record.key slots.now key most result }
{
    let count = slots.len();
    if count == 0 {
        return Ending::Past;
    }
    let tag = tag(key);
    let mut place = slots.home(key);
    // The steps taken are part of the answer, and the place goes on beside them.
    for taken in 0..most {
        match slots.look(place, key, tag) {
            Look::Empty => return Ending::Gap(place, taken),
            Look::Wanted => return Ending::Here(place),
            Look::Other => place = next(place, count),
        }
    }
    Ending::Past
}
