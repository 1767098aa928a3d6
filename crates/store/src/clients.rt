// What any store does by its meaning alone.
ghost use Rattle.std.specs.Prelude.{◌≡◌, ◌≤◌, List, length, take};
ghost use Rattle.store.specs.Clients.{Listed};
ghost use Rattle.store.specs.Lists.{Rising};
ghost use Rattle.store.specs.Visits.{Covers};
ghost use Rattle.tally.specs.Joining.{IsReordering};

use crate::record::{Record, next_key};
use crate::store::Store;

// Writes the records into a row by rising key, and answers how many: the list, or as much of it as fits.
pub fn list_into<R: Record, S: Store<R>>(store: &S, row: &mut [R]) -> usize
    ensures { S.Store.ready store.now → Listed (S.Store.model store.now).rows row.old row.new result }
{
    let count = store.count() as usize;
    if row.len() < count {
        list_by_key(store, row);
        return row.len();
    }
    list_all(store, &mut row[..count]);
    count
}

// As much of the list as fits, by going from key to key: each step may be a search through the whole store.
fn list_by_key<R: Record, S: Store<R>>(store: &S, row: &mut [R])
    ensures { let rows = (S.Store.model store.now).rows in S.Store.ready store.now → Rising R.Record.key rows → length row.old ≤ length rows → row.new ≡ take (length row.old) rows }
{
    let mut key = 0;
    for place in row.iter_mut() {
        let Some(item) = store.from(key) else {
            return;
        };
        *place = item;
        key = next_key(&item);
    }
}

// The whole list, into a row of its length: in the store's own order first, and then sorted.
fn list_all<R: Record, S: Store<R>>(store: &S, row: &mut [R])
    ensures { let rows = (S.Store.model store.now).rows in S.Store.ready store.now → Rising R.Record.key rows → Covers (S.Store.ahead store.now) rows → length row.old ≡ length rows → row.new ≡ rows }
{
    gather(store, row);
    sort(row);
}

// Every record, into a row of their number, in the store's own order.
fn gather<R: Record, S: Store<R>>(store: &S, row: &mut [R])
    ensures { let all = S.Store.ahead store.now 0 in S.Store.ready store.now → length row.old ≡ length all → row.new ≡ all }
{
    let mut next = 0;
    for place in row.iter_mut() {
        let Some(visit) = store.visit(next) else {
            return;
        };
        *place = visit.record;
        let Some(after) = visit.next else {
            return;
        };
        next = after;
    }
}

// Puts records into the order of their keys.
fn sort<R: Record>(row: &mut [R])
    ensures { (rows : List R) → IsReordering row.old rows → Rising R.Record.key rows → row.new ≡ rows }
{
    row.sort_unstable_by_key(|item| item.key());
}
