// The rows as a store.
ghost use Rattle.row_store.specs.Rows.{InOrder, model_of, from};

use crate::change::{insert_row, remove_row, replace_row};
use crate::row::RowStore;
use crate::seek::{counted, find_row, held, row_from, visit_row};
use crate::sweep::sweep_rows;
use store::pick::Pick;
use store::record::Record;
use store::refusal::{InsertRefusal, ReplaceRefusal};
use store::store::Store;
use store::visit::Visit;

impl<'a, R: Record> Store<R> for RowStore<'a, R> {
    ghost model = { λ s. model_of s.count s.rows.now };

    ghost ready = { λ s. InOrder R.Record.key s.count s.rows.now };

    ghost ahead = { λ s. from (model_of s.count s.rows.now).rows };

    fn limit(&self) -> u64 {
        self.rows.len() as u64
    }

    fn count(&self) -> u64 {
        counted(held(self.rows, self.count))
    }

    fn find(&self, key: u64) -> Option<R> {
        find_row(held(self.rows, self.count), key)
    }

    fn from(&self, key: u64) -> Option<R> {
        row_from(held(self.rows, self.count), key)
    }

    fn visit(&self, place: u64) -> Option<Visit<R>> {
        visit_row(held(self.rows, self.count), place)
    }

    fn insert(&mut self, item: R) -> Result<(), InsertRefusal> {
        insert_row(self.rows, &mut self.count, item)
    }

    fn replace(&mut self, item: R) -> Result<(), ReplaceRefusal> {
        replace_row(self.rows, self.count, item)
    }

    fn remove(&mut self, key: u64) -> Option<R> {
        remove_row(self.rows, &mut self.count, key)
    }

    fn empty(&mut self) {
        self.count = 0;
    }

    fn sweep<P: Pick<R>>(&mut self, pick: &P) {
        sweep_rows(self.rows, &mut self.count, pick);
    }
}
