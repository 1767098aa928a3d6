//! The home of a key is the key modulo the number of slots.
ghost use Rattle.std.specs.Prelude.{◌≡◌, ◌%◌, ◌<◌};

use crate::home::Home;

/// Keys that follow one another have homes that do, around the end.
#[derive(Clone, Copy)]
pub struct Modulo {
    // About 2^64 divided by the number of slots: a multiplication then gives the quotient, where a
    // division takes as long as a short search. No answer rests on it.
    inverse: u64,
}

impl Home for Modulo {
    ghost use Rattle.hashed_store.specs.Homes.{modulo};
    ghost use Rattle.hashed_store.specs.HomesLemmas as lemmas;

    ghost home = { modulo };

    ghost inside = { lemmas.modulo_inside };

    fn new(slots: usize) -> Modulo {
        Modulo {
            inverse: u64::MAX / (slots as u64).max(1),
        }
    }

    #[inline(always)]
    fn home(&self, key: u64, slots: usize) -> usize {
        if slots == 0 {
            return 0;
        }
        rest(key, slots as u64, upper_half(key, self.inverse)) as usize
    }
}

#[inline(always)]
fn upper_half(key: u64, inverse: u64) -> u64 {
    (u128::from(key) * u128::from(inverse) >> 64) as u64
}

// What the division by the slots leaves of a key, by a guess at the quotient; where that is wrong,
// by a division.
#[inline(always)]
fn rest(key: u64, slots: u64, quotient: u64) -> u64
    requires { 0 < slots }
    ensures { result ≡ key % slots }
{
    let whole = u128::from(quotient) * u128::from(slots);
    if whole <= u128::from(key) {
        let left = key - whole as u64;
        if left < slots {
            return left;
        }
    }
    key % slots
}
