// Opening a store over new memory.
ghost use Rattle.std.specs.Prelude.{Some, IfOk};
ghost use Rattle.store.specs.Models.{emptied};
ghost use Rattle.store_calls.specs.Runs.{stored_over, begun_text, opening_text};
ghost use Rattle.capture.specs.Sessions.{Says};

use crate::serving::serve;
use crate::showing::show;
use calls::answers::plain::Plain;
use calls::call::Opening;
use calls::reply::Reply;
use capture::count::LineCount;
use front_row::open::opened;
use hashed_store::hashed::HashedStore;
use hashed_store::home::Home;
use hashed_store::modulo::Modulo;
use hashed_store::spread::Spread;
use records::order::Order;
use row_store::row::RowStore;
use std::alloc::Global;
use std::io;
use std::io::{BufRead, Write};
use store::store::Store;
use words::kind::Kind;

// Opens the store, and answers lines from it until one opens another: that one, or none at the end
// of the input.
pub(crate) fn open<R: BufRead, W: Write>(
    heap: Global,
    opening: Opening,
    count: &mut LineCount,
    input: &mut R,
    output: &mut W,
) -> io::Result<Option<Opening>>
    ensures { IfOk result (λ next.
        Says (R.remaining input.old) (R.remaining input.new)
        (W.contents output.old) (W.contents output.new)
        (opening_text (Some opening) count.old.lines)
        (opening_text next count.new.lines)) }
{
    // A store borrows its memory, which is of another type in each arm.
    match opening.kind {
        Kind::Row => {
            let mut rows = vec![in heap; Order::BLANK; opening.limit as usize]?;
            let below = RowStore::new(rows.as_mut_slice());
            open_over(below, opening.front, count, input, output)
        }
        Kind::Hashed => open_hashed::<Modulo, R, W>(heap, opening, count, input, output),
        Kind::Spread => open_hashed::<Spread, R, W>(heap, opening, count, input, output),
    }
}

// The same for a hashed store with such homes.
fn open_hashed<H: Home, R: BufRead, W: Write>(
    heap: Global,
    opening: Opening,
    count: &mut LineCount,
    input: &mut R,
    output: &mut W,
) -> io::Result<Option<Opening>>
    ensures { IfOk result (λ next.
        Says (R.remaining input.old) (R.remaining input.new)
        (W.contents output.old) (W.contents output.new)
        (opening_text (Some opening) count.old.lines)
        (opening_text next count.new.lines)) }
{
    // Not 0: the store empties its memory, whatever that holds.
    let mut tags = vec![in heap; 255u8; opening.limit as usize]?;
    let mut rows = vec![in heap; Order::BLANK; opening.limit as usize]?;
    let Ok(below) = HashedStore::<Order, H>::new(tags.as_mut_slice(), rows.as_mut_slice()) else {
        unreachable!()
    };
    open_over(below, opening.front, count, input, output)
}

// Empties the store, and serves it behind a front, or plain.
fn open_over<R: BufRead, W: Write, S: Store<Order> + Drop>(
    mut below: S,
    front: bool,
    count: &mut LineCount,
    input: &mut R,
    output: &mut W,
) -> io::Result<Option<Opening>>
    ensures { IfOk result (λ next.
        Says (R.remaining input.old) (R.remaining input.new)
        (W.contents output.old) (W.contents output.new)
        (begun_text count.old.lines (stored_over front (emptied (S.Store.model below))))
        (opening_text next count.new.lines)) }
{
    below.empty();
    show(Reply::Opened(below.limit()), count, output)?;
    if front {
        serve(opened(below), count, input, output)
    } else {
        serve(Plain(below), count, input, output)
    }
}
