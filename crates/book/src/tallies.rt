// Depths, best prices and turnovers are tallies.
ghost use Rattle.std.specs.Prelude.{◌≡◌, None, refl};
ghost use Rattle.tally.specs.Totals.{total_of, together};
ghost use Rattle.tally.specs.TotalsLemmas as Totals;
ghost use Rattle.records.specs.Values.{valued, joined};
ghost use Rattle.records.specs.ValuesLemmas as Values;
ghost use Rattle.book.specs.Books.{better, better_of, side_of};
ghost use Rattle.book.specs.BooksLemmas as Books;

use crate::best::Best;
use crate::depth::Depth;
use crate::turnover::Turnover;
use records::value::Value;
use tally::tally::Tally;
use tally::total::Total;

impl Tally for Depth {
    ghost none = { record { orders = total_of 0; shares = total_of 0 } };

    ghost joining = { λ x y. record { orders = together x.orders y.orders; shares = together x.shares y.shares } };

    ghost associative = { λ x y z i. record { orders = Totals.associative x.orders y.orders z.orders i; shares = Totals.associative x.shares y.shares z.shares i } };

    ghost commutative = { λ x y i. record { orders = Totals.commutative x.orders y.orders i; shares = Totals.commutative x.shares y.shares i } };

    ghost neutral = { λ x i. record { orders = Totals.neutral x.orders i; shares = Totals.neutral x.shares i } };

    fn empty() -> Depth {
        Depth {
            orders: Total::empty(),
            shares: Total::empty(),
        }
    }

    fn join(self, other: Depth) -> Depth {
        Depth {
            orders: self.orders.join(other.orders),
            shares: self.shares.join(other.shares),
        }
    }
}

impl Tally for Turnover {
    ghost none = { record { volume = total_of 0; value = valued 0 } };

    ghost joining = { λ x y. record { volume = together x.volume y.volume; value = joined x.value y.value } };

    ghost associative = { λ x y z i. record { volume = Totals.associative x.volume y.volume z.volume i; value = Values.associative x.value y.value z.value i } };

    ghost commutative = { λ x y i. record { volume = Totals.commutative x.volume y.volume i; value = Values.commutative x.value y.value i } };

    ghost neutral = { λ x i. record { volume = Totals.neutral x.volume i; value = Values.neutral x.value i } };

    fn empty() -> Turnover {
        Turnover {
            volume: Total::empty(),
            value: Value::empty(),
        }
    }

    fn join(self, other: Turnover) -> Turnover {
        Turnover {
            volume: self.volume.join(other.volume),
            value: self.value.join(other.value),
        }
    }
}

impl<const BUYS: bool> Tally for Best<BUYS> {
    ghost none = { record { price = None } };

    ghost joining = { λ x y. record { price = better_of (side_of BUYS) x.price y.price } };

    ghost associative = { λ x y z i. record { price = Books.associative (side_of BUYS) x.price y.price z.price i } };

    ghost commutative = { λ x y i. record { price = Books.commutative (side_of BUYS) x.price y.price i } };

    ghost neutral = { λ x. refl };

    fn empty() -> Best<BUYS> {
        Best { price: None }
    }

    fn join(self, other: Best<BUYS>) -> Best<BUYS> {
        match (self.price, other.price) {
            (Some(p), Some(q)) => Best {
                price: Some(better::<BUYS>(p, q)),
            },
            (Some(_), None) => self,
            (None, _) => other,
        }
    }
}

// The better of two prices.
fn better<const BUYS: bool>(p: u64, q: u64) -> u64
    ensures { result ≡ better (side_of BUYS) p q }
{
    if BUYS { p.max(q) } else { p.min(q) }
}
