//! The orders that a sweep removes: those with an even ID.
ghost use Rattle.churn.specs.Runs.{is_even};

use records::order::Order;
use store::pick::Pick;

/// Picks the orders with an even ID.
#[derive(Clone, Copy)]
pub struct Even;

impl Pick<Order> for Even {
    ghost picked = { λ _. is_even };

    fn picks(&self, item: Order) -> bool {
        item.id % 2 == 0
    }
}
