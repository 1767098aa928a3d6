// What the records stand in.
ghost use Rattle.std.specs.Prelude.{◌≡◌, length};

use store::record::Record;
use store::store::Store;

// The rows are the caller's, and as many as there are is the most records held. The first of them hold the records, by rising key.
#[derive(Drop)]
pub struct RowStore<'a, R> {
    pub(crate) rows: &'a mut [R],
    pub(crate) count: usize,
}

impl<'a, R: Record> RowStore<'a, R> {
    // A store over these rows; it is to be emptied before use.
    pub fn new(rows: &'a mut [R]) -> RowStore<'a, R>
        ensures limit { (⟦<RowStore<'a, R> as Store<R>>⟧.model result).limit ≡ length rows.old }
        ensures rows { result.rows.now ≡ rows.old }
        ensures none { result.count ≡ 0 }
    {
        RowStore { rows, count: 0 }
    }
}
