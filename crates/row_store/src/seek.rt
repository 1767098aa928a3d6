// Where a record stands among the rows, or would.
ghost use Rattle.std.specs.Prelude.{◌≡◌, length, take};
ghost use Rattle.store.specs.Lists.{Rising, lookup, first_from};
ghost use Rattle.store.specs.Visits.{Visited, Covers};
ghost use Rattle.row_store.specs.Places.{Sought};
ghost use Rattle.row_store.specs.Rows.{from};

use store::record::Record;
use store::visit::Visit;

// The rows that hold records. A count beyond the rows, which a store never emptied may have, stands for all of them.
pub(crate) fn held<R>(rows: &[R], count: usize) -> &[R]
    ensures { result.now ≡ take count rows.now }
{
    &rows[..count.min(rows.len())]
}

// The place of the record with the key, or the one where it would go. A row store searches from the first record to the last, and goes on to
// the last where the key is not held: so this is no binary search, though the keys rise.
pub(crate) fn seek<R: Record>(rows: &[R], key: u64) -> Result<usize, usize>
    ensures { Sought R.Record.key key rows.now result }
{
    let mut place = 0;
    for (i, row) in rows.iter().enumerate() {
        let here = row.key();
        if here == key {
            return Ok(i);
        }
        if here < key {
            place = i + 1;
        }
    }
    Err(place)
}

pub(crate) fn find_row<R: Record>(rows: &[R], key: u64) -> Option<R>
    ensures { Rising R.Record.key rows.now → result ≡ lookup R.Record.key key rows.now }
{
    let place = seek(rows, key).ok()?;
    rows.get(place).copied()
}

pub(crate) fn row_from<R: Record>(rows: &[R], key: u64) -> Option<R>
    ensures { Rising R.Record.key rows.now → result ≡ first_from R.Record.key key rows.now }
{
    match seek(rows, key) {
        Ok(place) | Err(place) => rows.get(place).copied(),
    }
}

// How many there are; going through the rows by their places meets them all.
pub(crate) fn counted<R: Record>(rows: &[R]) -> u64
    ensures says { result ≡ length rows.now }
    ensures covers { Covers (from rows.now) rows.now }
{
    rows.len() as u64
}

pub(crate) fn visit_row<R: Record>(rows: &[R], place: u64) -> Option<Visit<R>>
    ensures { Visited (from rows.now) place result }
{
    let record = *rows.get(place as usize)?;
    Some(Visit {
        record,
        next: Some(place + 1),
    })
}
