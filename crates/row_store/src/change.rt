// Changes to the records among the rows, by their keys.
//
// The slice and the count stay parameters of these functions, and are no struct of their own: a row store is a generic struct over the lent slice,
// whose methods pass the slice to functions.
ghost use Rattle.store.specs.Lists.{lookup};
ghost use Rattle.store.specs.Models.{insert_says, inserted, replace_says, replacing, removing};
ghost use Rattle.row_store.specs.Rows.{InOrder, Changed};

use crate::seek::{held, seek};
use crate::shift::{move_down, move_up};
use store::record::Record;
use store::refusal::{InsertRefusal, ReplaceRefusal};

// The rows from the place on move up by one.
pub(crate) fn insert_row<R: Record>(
    rows: &mut [R],
    count: &mut usize,
    item: R,
) -> Result<(), InsertRefusal>
    ensures { InOrder R.Record.key count.old rows.old → Changed R.Record.key (insert_says R.Record.key item) (inserted R.Record.key item) result count.old count.new rows.old rows.new }
{
    let n = *count;
    let Err(place) = seek(held(rows, n), item.key()) else {
        return Err(InsertRefusal::Taken);
    };
    if n >= rows.len() {
        return Err(InsertRefusal::Full);
    }
    move_up(rows, place, n);
    rows[place] = item;
    *count = n + 1;
    Ok(())
}

pub(crate) fn replace_row<R: Record>(
    rows: &mut [R],
    count: usize,
    item: R,
) -> Result<(), ReplaceRefusal>
    ensures { InOrder R.Record.key count rows.old → Changed R.Record.key (replace_says R.Record.key item) (replacing R.Record.key item) result count count rows.old rows.new }
{
    let Ok(place) = seek(held(rows, count), item.key()) else {
        return Err(ReplaceRefusal::Missing);
    };
    rows[place] = item;
    Ok(())
}

// The rows behind the place move down by one.
pub(crate) fn remove_row<R: Record>(rows: &mut [R], count: &mut usize, key: u64) -> Option<R>
    ensures { InOrder R.Record.key count.old rows.old → Changed R.Record.key (λ m. lookup R.Record.key key m.rows) (removing R.Record.key key) result count.old count.new rows.old rows.new }
{
    let records = held(rows, *count);
    let n = records.len();
    let place = seek(records, key).ok()?;
    let out = rows[place];
    move_down(rows, place, n);
    *count = n - 1;
    Some(out)
}
