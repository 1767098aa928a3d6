//! The store: lent slots, and what is kept beside them.
ghost use Rattle.std.specs.Prelude.{◌≡◌, ◌↔◌, [], length, IsOk, IfOk, IfErr, drop};
ghost use Rattle.hashed_store.specs.Slots.{held};
ghost use Rattle.hashed_store.specs.Places.{model_of};
ghost use Rattle.hashed_store.specs.Stores.{InOrder};

use crate::home::Home;
use crate::least::{clear, counted, least_from, next_held};
use crate::modulo::Modulo;
use crate::place::{exchange, find_in, put, remove_from};
use crate::slots::Slots;
use crate::sweep::sweep_slots;
use crate::uneven_slots::UnevenSlots;
use store::pick::Pick;
use store::record::Record;
use store::refusal::{InsertRefusal, ReplaceRefusal};
use store::store::Store;
use store::visit::Visit;

/// A store over lent slots, which holds as many records as there are slots. The search for a key
/// starts at its home: the key modulo the number of slots, where no other home is named.
#[derive(Drop)]
pub struct HashedStore<'a, R: Record, H: Home = Modulo> {
    pub(crate) slots: Slots<'a, R, H>,
    pub(crate) count: usize,
    // no record has been farther than this from its home since the last emptying: a search need
    // not go farther
    pub(crate) reach: usize,
}

impl<'a, R: Record, H: Home> HashedStore<'a, R, H> {
    /// A store over as many slots as rows are lent, with a tag for each, and empty whatever the
    /// memory holds. Where the tags are not as many as the rows, both come back, and nothing was
    /// written.
    pub fn new(
        tags: &'a mut [u8],
        rows: &'a mut [R],
    ) -> Result<HashedStore<'a, R, H>, UnevenSlots<'a, R>>
        ensures even { IsOk result ↔ (length tags.old ≡ length rows.old) }
        ensures ready { IfOk result ⟦<HashedStore<'a, R, H> as Store<R>>⟧.ready }
        ensures empty { IfOk result (λ store. ⟦<HashedStore<'a, R, H> as Store<R>>⟧.model store
            ≡ record { rows = []; limit = length rows.old }) }
        ensures uneven { IfErr result (λ back.
            (back.tags.now ≡ tags.old) × (back.rows.now ≡ rows.old)) }
    {
        if tags.len() != rows.len() {
            return Err(UnevenSlots { tags, rows });
        }
        Ok(HashedStore {
            slots: Slots::new(tags, rows),
            count: 0,
            reach: 0,
        })
    }
}

impl<'a, R: Record, H: Home> Store<R> for HashedStore<'a, R, H> {
    ghost model = { λ s. model_of R.Record.key s.slots };

    ghost ready = { λ s. InOrder H.Home.home R.Record.key s.slots s.count s.reach };

    ghost ahead = { λ s p. held (drop p s.slots) };

    fn limit(&self) -> u64 {
        self.slots.len() as u64
    }

    fn count(&self) -> u64 {
        counted(&self.slots, self.count)
    }

    fn find(&self, key: u64) -> Option<R> {
        find_in(&self.slots, key, self.reach)
    }

    fn from(&self, key: u64) -> Option<R> {
        least_from(&self.slots, key)
    }

    fn visit(&self, place: u64) -> Option<Visit<R>> {
        next_held(&self.slots, place)
    }

    #[inline(always)]
    fn insert(&mut self, item: R) -> Result<(), InsertRefusal> {
        self.reach = put(&mut self.slots, item, self.reach)?;
        self.count = self.count.saturating_add(1);
        Ok(())
    }

    fn replace(&mut self, item: R) -> Result<(), ReplaceRefusal> {
        exchange(&mut self.slots, item, self.reach)
    }

    #[inline(always)]
    fn remove(&mut self, key: u64) -> Option<R> {
        let removed = remove_from(&mut self.slots, key, self.reach)?;
        self.count = self.count.saturating_sub(1);
        Some(removed)
    }

    fn empty(&mut self) {
        clear(&mut self.slots);
        self.count = 0;
        self.reach = 0;
    }

    fn sweep<P: Pick<R>>(&mut self, pick: &P) {
        self.count = sweep_slots(&mut self.slots, self.count, self.reach, pick);
    }
}
