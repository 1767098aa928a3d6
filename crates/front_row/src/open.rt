// Front rows ready for use.
ghost use Rattle.std.specs.Prelude.{◌≡◌};
ghost use Rattle.store.specs.Models.{emptied};
ghost use Rattle.front_row.specs.Fronts.{cleared};
ghost use Rattle.front_row.specs.Rows.{model_of, Ready, row_over};

use crate::front_row::FrontRow;
use records::order::Order;
use store::store::Store;

// Over a store, which is emptied.
pub fn opened<S: Store<Order>>(below: S) -> FrontRow<S>
    ensures leaves { model_of S.Store result ≡ emptied (S.Store.model below) }
    ensures ready { Ready S.Store result }
    ensures front { result.front.places ≡ cleared }
{
    let mut row = FrontRow::new(below);
    row.empty();
    row
}

// Over a front row over a store: a front row is a store as any other.
pub fn over_itself<S: Store<Order>>(below: S) -> FrontRow<FrontRow<S>>
    ensures leaves { model_of (row_over S.Store) result ≡ emptied (S.Store.model below) }
    ensures ready { Ready (row_over S.Store) result }
{
    opened(opened(below))
}
