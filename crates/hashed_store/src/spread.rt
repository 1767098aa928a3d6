//! The home of a key, mixed.
ghost use Rattle.std.specs.Prelude.{◌≡◌};
ghost use Rattle.hashed_store.specs.Homes.{point};

use crate::home::Home;
use crate::mixing::mixed;

/// Each row of 128 keys stands together, and the rows anywhere.
#[derive(Clone, Copy)]
pub struct Spread;

impl Home for Spread {
    ghost use Rattle.hashed_store.specs.Homes.{spread};
    ghost use Rattle.hashed_store.specs.HomesLemmas as lemmas;

    ghost home = { spread };

    ghost inside = { lemmas.spread_inside };

    fn new(slots: usize) -> Spread {
        let _ = slots;
        Spread
    }

    #[tactic(auto, unfolding(crate::specs::Homes::spread))]
    #[inline(always)]
    fn home(&self, key: u64, slots: usize) -> usize {
        (u128::from(point(key, slots as u64)) * slots as u128 >> 64) as usize
    }
}

// Where a key stands among all, whatever the number of slots; keys that follow one another stand
// near.
#[tactic(auto, unfolding(crate::specs::Homes::point))]
fn point(key: u64, slots: u64) -> u64
    ensures { result ≡ point slots key }
{
    let step = slots.leading_zeros().min(63);
    mixed(key / 128).wrapping_add((key % 128) << step)
}
