//! A day over stores of the sort that is asked for.
ghost use Rattle.std.specs.Prelude.{◌≡◌, length, IfSome, OnOk};
ghost use Rattle.std.specs.Io.KnownBytes.{Appends};
ghost use Rattle.day_rules.specs.Days.{opening};
ghost use Rattle.replaying.specs.Texts.{printed, room_printed, replay_text};

use crate::report::report;
use crate::slots::slots;
use capped::capped::Capped;
use front_row::front_row::FrontRow;
use hashed_store::hashed::HashedStore;
use hashed_store::home::Home;
use hashed_store::modulo::Modulo;
use hashed_store::spread::Spread;
use ledger::ledger::Ledger;
use options::options::{Kind, Options};
use records::execution::Execution;
use records::order::Order;
use records::symbol_row::SymbolRow;
use row_store::row::RowStore;
use std::alloc::Global;
use std::io;
use std::io::{BufRead, Write};
use store::record::Record;
use store::store::Store;

/// Replays the day of an input as the options ask, over memory that is taken once and before the
/// first line, and prints its report and nothing else. What is printed does not depend on the sort
/// of the stores.
pub fn replay<R: BufRead, W: Write>(
    heap: Global,
    options: &Options,
    input: &mut R,
    output: &mut W,
) -> io::Result<()>
    ensures { OnOk result (IfSome (R.remaining input.old) (λ bytes.
        Appends (W.contents output.old) (W.contents output.new)
        (replay_text options.now bytes))) }
{
    let mut places = vec![in heap; SymbolRow::BLANK; options.room.symbols as usize]?;
    let places = places.as_mut_slice();
    match options.stores.kind {
        Kind::Row => over_rows(heap, options, places, input, output),
        Kind::Hashed => over_slots::<Modulo, R, W>(heap, options, places, input, output),
        Kind::Spread => over_slots::<Spread, R, W>(heap, options, places, input, output),
    }
}

fn over_rows<R: BufRead, W: Write>(
    heap: Global,
    options: &Options,
    places: &mut [SymbolRow],
    input: &mut R,
    output: &mut W,
) -> io::Result<()>
    ensures { OnOk result (IfSome (R.remaining input.old) (λ bytes.
        Appends (W.contents output.old) (W.contents output.new)
        (room_printed (length places.old) options.now bytes))) }
{
    let room = &options.room;
    let mut orders = vec![in heap; Order::BLANK; room.orders as usize]?;
    let mut executions = vec![in heap; Execution::BLANK; room.executions as usize]?;
    let mut symbols = vec![in heap; SymbolRow::BLANK; room.symbols as usize]?;
    let orders = RowStore::new(orders.as_mut_slice());
    let executions = RowStore::new(executions.as_mut_slice());
    let symbols = RowStore::new(symbols.as_mut_slice());
    over(
        options,
        (orders, executions, symbols),
        places,
        input,
        output,
    )
}

// Over slots from such homes on.
fn over_slots<H: Home, R: BufRead, W: Write>(
    heap: Global,
    options: &Options,
    places: &mut [SymbolRow],
    input: &mut R,
    output: &mut W,
) -> io::Result<()>
    ensures { OnOk result (IfSome (R.remaining input.old) (λ bytes.
        Appends (W.contents output.old) (W.contents output.new)
        (room_printed (length places.old) options.now bytes))) }
{
    let room = &options.room;
    let order_slots = slots(room.orders) as usize;
    let execution_slots = slots(room.executions) as usize;
    let symbol_slots = slots(room.symbols) as usize;
    // The rows first, since they take most: where there is no memory for them, it shows at once.
    let mut orders = vec![in heap; Order::BLANK; order_slots]?;
    let mut executions = vec![in heap; Execution::BLANK; execution_slots]?;
    let mut symbols = vec![in heap; SymbolRow::BLANK; symbol_slots]?;
    let mut order_tags = vec![in heap; 0u8; order_slots]?;
    let mut execution_tags = vec![in heap; 0u8; execution_slots]?;
    let mut symbol_tags = vec![in heap; 0u8; symbol_slots]?;
    let orders = hashed::<Order, H>(order_tags.as_mut_slice(), orders.as_mut_slice());
    let executions = hashed::<Execution, H>(
        execution_tags.as_mut_slice(),
        executions.as_mut_slice(),
    );
    let symbols = hashed::<SymbolRow, H>(symbol_tags.as_mut_slice(), symbols.as_mut_slice());
    let orders = Capped::new(orders, room.orders);
    let executions = Capped::new(executions, room.executions);
    let symbols = Capped::new(symbols, room.symbols);
    over(
        options,
        (orders, executions, symbols),
        places,
        input,
        output,
    )
}

// A store over slots of which there are as many tags as rows.
fn hashed<'a, R: Record, H: Home>(tags: &'a mut [u8], rows: &'a mut [R]) -> HashedStore<'a, R, H>
    requires { length tags.old ≡ length rows.old }
    ensures { (⟦<HashedStore<'a, R, H> as Store<R>>⟧.model result).limit ≡ length rows.old }
{
    let Ok(store) = HashedStore::new(tags, rows) else {
        unreachable!()
    };
    store
}

// With a front row before the orders, or without.
fn over<
    R: BufRead,
    W: Write,
    O: Store<Order> + Drop,
    E: Store<Execution> + Drop,
    S: Store<SymbolRow> + Drop,
>(
    options: &Options,
    stores: (O, E, S),
    places: &mut [SymbolRow],
    input: &mut R,
    output: &mut W,
) -> io::Result<()>
    ensures { OnOk result (IfSome (R.remaining input.old) (λ bytes.
        let day = opening (O.Store.model stores.0) (E.Store.model stores.1)
        (S.Store.model stores.2) options.now.room.day_limit in
        Appends (W.contents output.old) (W.contents output.new)
        (printed (length places.old) options.now.shown day bytes))) }
{
    let (orders, executions, symbols) = stores;
    if options.stores.front {
        let orders = FrontRow::new(orders);
        keep(
            options,
            (orders, executions, symbols),
            places,
            input,
            output,
        )
    } else {
        keep(
            options,
            (orders, executions, symbols),
            places,
            input,
            output,
        )
    }
}

fn keep<
    R: BufRead,
    W: Write,
    O: Store<Order> + Drop,
    E: Store<Execution> + Drop,
    S: Store<SymbolRow> + Drop,
>(
    options: &Options,
    stores: (O, E, S),
    places: &mut [SymbolRow],
    input: &mut R,
    output: &mut W,
) -> io::Result<()>
    ensures { OnOk result (IfSome (R.remaining input.old) (λ bytes.
        let day = opening (O.Store.model stores.0) (E.Store.model stores.1)
        (S.Store.model stores.2) options.now.room.day_limit in
        Appends (W.contents output.old) (W.contents output.new)
        (printed (length places.old) options.now.shown day bytes))) }
{
    let (orders, executions, symbols) = stores;
    let mut ledger = Ledger::open(orders, executions, symbols, options.room.day_limit);
    report(&mut ledger, &options.shown, places, input, output)
}
