// The one walk: what the records of a store give together, whatever the store, the record and the tally.
ghost use Rattle.std.specs.Prelude.{◌≡◌, List, map, length};
ghost use Rattle.tally.specs.Joining.{joined_all, InEveryOrder, JoinedInEveryOrder, IsReordering};

use crate::record::Record;
use crate::store::Store;
use tally::measure::Measure;
use tally::tally::Tally;

// Goes through the store in its own order, and stops when it has met as many records as are held.
pub fn walk<R: Record, S: Store<R>, M: Measure<R>>(store: &S, measure: &M) -> M::Out
    ensures says { S.Store.ready store.now → result ≡ joined_all M.Out.Tally.none M.Out.Tally.joining (map (M.Measure.given measure.now) (S.Store.model store.now).rows) }
    ensures anyhow { S.Store.ready store.now → InEveryOrder M.Out.Tally.none M.Out.Tally.joining (map (M.Measure.given measure.now) (S.Store.model store.now).rows) result }
{
    walk_on(store, measure, 0, store.count())
}

// What so many records give from a place on, where they are all that are to come.
fn walk_on<R: Record, S: Store<R>, M: Measure<R>>(
    store: &S,
    measure: &M,
    place: u64,
    count: u64,
) -> M::Out
    ensures { (rows : List R) → S.Store.ready store.now → IsReordering (S.Store.ahead store.now place) rows → count ≡ length rows → JoinedInEveryOrder M.Out.Tally.none M.Out.Tally.joining (map (M.Measure.given measure.now) rows) result }
{
    let mut met = M::Out::empty();
    let mut place = place;
    for _turn in 0..count {
        let Some(visit) = store.visit(place) else {
            return met;
        };
        met = met.join(measure.of(visit.record));
        let Some(next) = visit.next else {
            return met;
        };
        place = next;
    }
    met
}
