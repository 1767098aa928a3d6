//! Taking out every record that a test picks, in one pass.
ghost use Rattle.store.specs.Models.{sweeping};
ghost use Rattle.row_store.specs.Rows.{InOrder, Left};

use store::pick::Pick;
use store::record::Record;

// The rows that stay move down over those that go, place by place.
pub(crate) fn sweep_rows<R: Record, P: Pick<R>>(rows: &mut [R], count: &mut usize, pick: &P)
    ensures { InOrder R.Record.key count.old rows.old
        → Left R.Record.key (sweeping (P.Pick.picked pick.now))
        count.old count.new rows.old rows.new }
{
    let n = (*count).min(rows.len());
    let mut next = 0;
    for i in 0..n {
        let row = rows[i];
        if !pick.picks(row) {
            rows[next] = row;
            next += 1;
        }
    }
    *count = next;
}
