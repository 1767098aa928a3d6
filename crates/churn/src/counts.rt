//! Adds and removes through the store's calls, and what came of them.
ghost use Rattle.std.specs.Prelude.{◌≡◌, ℕ, List, [], ◌∷◌, ◌++◌, Some, length};
ghost use Rattle.store.specs.Lists.{lookup};
ghost use Rattle.store.specs.Models.{insert_says, inserted, removing};
ghost use Rattle.records.specs.Keys.{order_key};
ghost use Rattle.churn.specs.Counts.{called_text, churned, come_to, counts_text, filled, insert_counted, one_churned, one_filled, order_of, remove_counted, walked_text};

use crate::feed::Feed;
use crate::orders::{mixed, order_of};
use records::order::Order;
use std::fmt;
use store::store::Store;

/// What is counted of a load. Each count starts again at 0 behind 2^64 - 1.
#[derive(Clone, Copy, Default)]
pub struct Counts {
    pub added: u64,
    pub refused: u64,
    pub removed: u64,
    pub missed: u64,
    // over all that was removed
    pub sum: u64,
    // by a walk, before and after a sweep, and after the emptying
    pub met: u64,
    pub swept: u64,
    pub kept: u64,
    pub left: u64,
}

impl Counts {
    /// Adds the orders that live at first, as many as there are places for their IDs, and leaves
    /// their IDs there.
    pub fn fill<S: Store<Order>>(&mut self, store: &mut S, feed: &mut Feed, live: &mut [u64])
        ensures leaves { S.Store.ready store.old
            → come_to self.new feed.new live.new (S.Store.model store.new)
            ≡ filled (length live.old)
            (come_to self.old feed.old [] (S.Store.model store.old)) }
        ensures still { S.Store.ready store.old → S.Store.ready store.new }
    {
        for place in live.iter_mut() {
            *place = self.add_next(store, feed);
        }
    }

    /// Removes one and adds one, so many times.
    pub fn churn<S: Store<Order>>(
        &mut self,
        store: &mut S,
        feed: &mut Feed,
        live: &mut [u64],
        pairs: u64,
    )
        ensures leaves { S.Store.ready store.old
            → come_to self.new feed.new live.new (S.Store.model store.new)
            ≡ churned pairs (come_to self.old feed.old live.old (S.Store.model store.old)) }
        ensures still { S.Store.ready store.old → S.Store.ready store.new }
    {
        for _turn in 0..pairs {
            self.exchange_next(store, feed, live);
        }
    }

    // Adds the order of the next ID, and answers the ID.
    #[tactic(auto, unfolding(crate::specs::Counts::one_filled))]
    fn add_next<S: Store<Order>>(&mut self, store: &mut S, feed: &mut Feed) -> u64
        ensures leaves { (live : List ℕ) → S.Store.ready store.old
            → come_to self.new feed.new (live ++ (result ∷ [])) (S.Store.model store.new)
            ≡ one_filled (come_to self.old feed.old live (S.Store.model store.old)) }
        ensures still { S.Store.ready store.old → S.Store.ready store.new }
    {
        let id = feed.next_id();
        self.add(store, id);
        id
    }

    // Removes one and adds one.
    #[tactic(auto, unfolding(crate::specs::Counts::one_churned))]
    fn exchange_next<S: Store<Order>>(&mut self, store: &mut S, feed: &mut Feed, live: &mut [u64])
        ensures leaves { S.Store.ready store.old
            → come_to self.new feed.new live.new (S.Store.model store.new)
            ≡ one_churned (come_to self.old feed.old live.old (S.Store.model store.old)) }
        ensures still { S.Store.ready store.old → S.Store.ready store.new }
    {
        let id = feed.next_id();
        let old = feed.exchange(live, id);
        self.remove(store, old);
        self.add(store, id);
    }

    fn add<S: Store<Order>>(&mut self, store: &mut S, id: u64)
        ensures counts { S.Store.ready store.old
            → self.new
            ≡ insert_counted (insert_says order_key (order_of id) (S.Store.model store.old))
            self.old }
        ensures leaves { S.Store.ready store.old
            → S.Store.model store.new
            ≡ inserted order_key (order_of id) (S.Store.model store.old) }
        ensures still { S.Store.ready store.old → S.Store.ready store.new }
    {
        match store.insert(order_of(id)) {
            Ok(()) => self.added = self.added.wrapping_add(1),
            Err(_) => self.refused = self.refused.wrapping_add(1),
        }
    }

    fn remove<S: Store<Order>>(&mut self, store: &mut S, id: u64)
        ensures counts { S.Store.ready store.old
            → self.new
            ≡ remove_counted (lookup order_key id (S.Store.model store.old).rows) self.old }
        ensures leaves { S.Store.ready store.old
            → S.Store.model store.new ≡ removing order_key id (S.Store.model store.old) }
        ensures still { S.Store.ready store.old → S.Store.ready store.new }
    {
        match store.remove(id) {
            Some(order) => {
                self.removed = self.removed.wrapping_add(1);
                self.sum = mixed(self.sum, &order);
            }
            None => self.missed = self.missed.wrapping_add(1),
        }
    }
}

#[tactic(auto, unfolding(crate::specs::Counts::counts_text))]
impl fmt::Display for Counts {
    ghost output = { λ counts. Some (counts_text counts) };

    fn fmt<W: fmt::Write>(&self, f: &mut fmt::Formatter<W>) -> fmt::Result {
        write!(f, "{} {}", Called(self), Walked(self))
    }
}

// What adds and removes came to.
#[derive(Clone, Copy, Drop)]
struct Called<'a>(&'a Counts);

impl fmt::Display for Called<'_> {
    ghost output = { λ called. Some (called_text called.0.now) };

    fn fmt<W: fmt::Write>(&self, f: &mut fmt::Formatter<W>) -> fmt::Result {
        let Counts {
            added,
            refused,
            removed,
            missed,
            sum,
            ..
        } = *self.0;
        write!(
            f,
            "(added {added}) (refused {refused}) (removed {removed}) (missed {missed}) (sum {sum})"
        )
    }
}

// What walks met.
#[derive(Clone, Copy, Drop)]
struct Walked<'a>(&'a Counts);

impl fmt::Display for Walked<'_> {
    ghost output = { λ walked. Some (walked_text walked.0.now) };

    fn fmt<W: fmt::Write>(&self, f: &mut fmt::Formatter<W>) -> fmt::Result {
        let Counts {
            met,
            swept,
            kept,
            left,
            ..
        } = *self.0;
        write!(f, "(met {met}) (swept {swept}) (kept {kept}) (left {left})")
    }
}
