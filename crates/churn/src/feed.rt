//! What a load adds and removes, in turn.
ghost use Rattle.std.specs.Prelude.{◌≡◌};
ghost use Rattle.churn.specs.Loads.{begun, dead_id, death_taken, dying, exchanged, id_taken, live_after, next_id};

use crate::load::Load;
use crate::random::Random;
use std::mem;

/// A load, and how far it has come.
#[derive(Clone, Copy)]
pub struct Feed {
    load: Load,
    random: Random,
    // the ID added last
    last: u64,
    // how many died, first in first out
    turn: u64,
}

impl Feed {
    /// Nothing added and nothing removed yet.
    pub fn new(load: Load) -> Feed
        ensures { result ≡ begun load }
    {
        Feed {
            load,
            random: Random::new(),
            last: 0,
            turn: 0,
        }
    }

    /// The ID to add next.
    pub fn next_id(&mut self) -> u64
        ensures says { result ≡ next_id self.old }
        ensures leaves { self.new ≡ id_taken self.old }
    {
        self.last = match self.load {
            Load::Gaps => self
                .last
                .wrapping_add(self.random.next() % 40)
                .wrapping_add(1),
            Load::Queue | Load::Rising => self.last.wrapping_add(1),
            Load::Scattered => self.random.next(),
        };
        self.last
    }

    /// Puts an ID in the place of the one to remove next, and answers that. Where none lives, it
    /// answers the ID and changes nothing.
    pub fn exchange(&mut self, live: &mut [u64], id: u64) -> u64
        ensures says { result ≡ dead_id self.old live.old id }
        ensures lives { live.new ≡ live_after self.old live.old id }
        ensures leaves { self.new ≡ exchanged self.old live.old }
    {
        let count = live.len();
        if count == 0 {
            return id;
        }
        let place = (self.next_death() % count as u64) as usize;
        mem::replace(&mut live[place], id)
    }

    fn next_death(&mut self) -> u64
        ensures says { result ≡ dying self.old.load self.old.random self.old.turn }
        ensures leaves { self.new ≡ death_taken self.old.load self.old }
    {
        match self.load {
            Load::Queue => {
                let turn = self.turn;
                self.turn = turn.wrapping_add(1);
                turn
            }
            _ => self.random.next(),
        }
    }
}
