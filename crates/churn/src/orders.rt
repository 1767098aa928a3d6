//! Orders for the loads, and a sum over what was removed.
ghost use Rattle.std.specs.Prelude.{◌≡◌};
ghost use Rattle.churn.specs.Counts.{mixed, order_of};

use messages::code::{Display, Side};
use records::order::Order;

/// An order whose every field follows from its ID.
pub fn order_of(id: u64) -> Order
    ensures { result ≡ order_of id }
{
    Order {
        id,
        symbol: id & 0x1fff,
        side: if id & 1 == 0 { Side::Buy } else { Side::Sell },
        price: id & 0xf_ffff,
        shares: id & 0x3ff,
        display: if id & 2 == 0 {
            Display::Quoted
        } else {
            Display::Unquoted
        },
    }
}

/// The sum with one order more, in 64 bits.
///
/// The two enums get numbers of the sum's own: by `as` these would hang on the order of another
/// crate's variants.
#[tactic(auto, unfolding(crate::specs::Counts::mixed))]
pub fn mixed(sum: u64, order: &Order) -> u64
    ensures { result ≡ mixed sum order.now }
{
    let side = match order.side {
        Side::Buy => 1,
        Side::Sell => 2,
    };
    let display = match order.display {
        Display::Quoted => 4,
        Display::Unquoted => 8,
    };
    let sum = sum
        .wrapping_mul(31)
        .wrapping_add(order.id)
        .wrapping_add(order.symbol);
    let sum = sum.wrapping_add(order.price).wrapping_add(order.shares);
    sum.wrapping_add(side).wrapping_add(display)
}
