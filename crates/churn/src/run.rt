//! From the arguments to what is printed.
ghost use Rattle.std.specs.Prelude.{◌≡◌, false, [], length, map, flat_map, OnOk};
ghost use Rattle.std.specs.Io.KnownBytes.{Appends};
ghost use Rattle.std.specs.Mem.{FitsInMemory};
ghost use Rattle.churn.specs.Arguments.{Refuses, arguments_of, chosen};
ghost use Rattle.churn.specs.Counts.{churned, come_to};
ghost use Rattle.churn.specs.Runs.{counts_line, load_line, loads_text, run_text, store_text, walk_count, with_walks};
ghost use Rattle.churn.specs.Times.{is_timed};

use crate::arguments::{Arguments, read};
use crate::counts::Counts;
use crate::even::Even;
use crate::feed::Feed;
use crate::load::{LOADS, Load};
use crate::mistake::Failure;
use crate::stores::{STORES, store_name};
use crate::watch::Watch;
use front_row::front_row::FrontRow;
use hashed_store::hashed::HashedStore;
use hashed_store::home::Home;
use hashed_store::modulo::Modulo;
use hashed_store::spread::Spread;
use options::options::Stores;
use records::order::Order;
use row_store::row::RowStore;
use std::io;
use std::io::{LineWriter, Write};
use std::mem::forget;
use std::slice::from_ref;
use store::store::Store;
use store::walk::walk;
use tally::sum::Counting;
use words::arguments::bytes_of;
use words::kind::Kind;
use words::named::Named;

// A million calls.
const PART: u64 = 500_000;

// What every part of a run goes by.
#[derive(Clone, Copy)]
struct Bench<'a> {
    rt: &'a HostRuntime,
    asked: &'a Arguments,
}

/// Runs the load, or all of them, on the store, or on each. Words that are wrong are refused, and
/// nothing is run.
pub fn run<'a>(rt: &HostRuntime, words: &'a [Vec<u8>]) -> Result<(), Failure<'a>>
    ensures { Refuses (arguments_of (map (λ word. word.items) words.now)) result }
{
    let words = bytes_of(rt.alloc(), words)?;
    let asked = read(words.as_slice())?;
    let output = Named::new("standard output", rt.alloc(), rt.stdout());
    // A line is written whole, as soon as what it tells is done.
    let mut output = LineWriter::new(rt.alloc(), output)?;
    let outcome = match run_asked(rt, asked, &mut output) {
        Ok(()) => output.flush(),
        failed => failed,
    };
    // Dropped, the writer would try a line again that could not be written.
    forget(output);
    Ok(outcome?)
}

/// Runs what is asked for, and prints what was counted; and how long each part took where that is
/// asked. An `Err` is the memory's, the clock's or the writer's.
pub fn run_asked<W: Write>(rt: &HostRuntime, asked: Arguments, output: &mut W) -> io::Result<()>
    ensures { asked.timed ≡ false → OnOk result
        (Appends (W.contents output.old) (W.contents output.new) (run_text asked)) }
{
    let mut live = vec![in rt.alloc(); 0u64; asked.sizes.live]?;
    let bench = Bench { rt, asked: &asked };
    bench.run_stores(chosen(&asked.store, &STORES), live.as_mut_slice(), output)
}

// The one that is asked for, or all where none is.
fn chosen<'a, T>(one: &'a Option<T>, all: &'a [T]) -> &'a [T]
    requires { FitsInMemory T.row }
    ensures { result.now ≡ chosen one.now all.now }
{
    match one {
        Some(one) => from_ref(one),
        None => all,
    }
}

impl Bench<'_> {
    fn run_stores<W: Write>(
        &self,
        stores: &[Stores],
        live: &mut [u64],
        output: &mut W,
    ) -> io::Result<()>
        ensures { self.now.asked.now.timed ≡ false → OnOk result
            (Appends (W.contents output.old) (W.contents output.new)
            (flat_map (store_text self.now.asked.now (length live.old)) stores.now)) }
    {
        for store in stores {
            self.run_store(*store, live, output)?;
        }
        Ok(())
    }

    // Lends new memory to a store. An arm for each sort of memory, since a store borrows it.
    fn run_store<W: Write>(&self, store: Stores, live: &mut [u64], output: &mut W) -> io::Result<()>
        ensures { self.now.asked.now.timed ≡ false → OnOk result
            (Appends (W.contents output.old) (W.contents output.new)
            (store_text self.now.asked.now (length live.old) store)) }
    {
        let name = store_name(store);
        writeln!(output, "(store {name})")?;
        match store.kind {
            Kind::Row => self.run_over_rows(store.front, live, output),
            Kind::Hashed => self.run_over_slots::<Modulo, W>(store.front, live, output),
            Kind::Spread => self.run_over_slots::<Spread, W>(store.front, live, output),
        }
    }

    fn run_over_rows<W: Write>(
        &self,
        front: bool,
        live: &mut [u64],
        output: &mut W,
    ) -> io::Result<()>
        ensures { self.now.asked.now.timed ≡ false → OnOk result
            (Appends (W.contents output.old) (W.contents output.new)
            (loads_text self.now.asked.now self.now.asked.now.sizes.slots
            (length live.old))) }
    {
        let slots = self.asked.sizes.slots;
        let mut rows = vec![in self.rt.alloc(); Order::BLANK; slots]?;
        self.run_over(front, RowStore::new(rows.as_mut_slice()), live, output)
    }

    // The same for a store with such homes.
    fn run_over_slots<H: Home, W: Write>(
        &self,
        front: bool,
        live: &mut [u64],
        output: &mut W,
    ) -> io::Result<()>
        ensures { self.now.asked.now.timed ≡ false → OnOk result
            (Appends (W.contents output.old) (W.contents output.new)
            (loads_text self.now.asked.now self.now.asked.now.sizes.slots
            (length live.old))) }
    {
        let slots = self.asked.sizes.slots;
        let mut tags = vec![in self.rt.alloc(); 0u8; slots]?;
        let mut rows = vec![in self.rt.alloc(); Order::BLANK; slots]?;
        let Ok(below) = HashedStore::<Order, H>::new(tags.as_mut_slice(), rows.as_mut_slice())
        else {
            unreachable!()
        };
        self.run_over(front, below, live, output)
    }

    // Behind a front, or plain.
    fn run_over<S: Store<Order> + Drop, W: Write>(
        &self,
        front: bool,
        below: S,
        live: &mut [u64],
        output: &mut W,
    ) -> io::Result<()>
        ensures { self.now.asked.now.timed ≡ false → OnOk result
            (Appends (W.contents output.old) (W.contents output.new)
            (loads_text self.now.asked.now (S.Store.model below).limit (length live.old))) }
    {
        if front {
            let mut store = FrontRow::new(below);
            self.run_loads(chosen(&self.asked.load, &LOADS), &mut store, live, output)
        } else {
            let mut store = below;
            self.run_loads(chosen(&self.asked.load, &LOADS), &mut store, live, output)
        }
    }

    fn run_loads<S: Store<Order>, W: Write>(
        &self,
        loads: &[Load],
        store: &mut S,
        live: &mut [u64],
        output: &mut W,
    ) -> io::Result<()>
        ensures { self.now.asked.now.timed ≡ false → OnOk result
            (Appends (W.contents output.old) (W.contents output.new)
            (flat_map
            (load_line (S.Store.model store.old).limit (length live.old)
            self.now.asked.now.sizes.pairs)
            loads.now)) }
    {
        for load in loads {
            self.run_load(*load, store, live, output)?;
        }
        Ok(())
    }

    fn run_load<S: Store<Order>, W: Write>(
        &self,
        load: Load,
        store: &mut S,
        live: &mut [u64],
        output: &mut W,
    ) -> io::Result<()>
        ensures says { self.now.asked.now.timed ≡ false → OnOk result
            (Appends (W.contents output.old) (W.contents output.new)
            (load_line (S.Store.model store.old).limit (length live.old)
            self.now.asked.now.sizes.pairs load)) }
        ensures limit { OnOk result
            ((S.Store.model store.new).limit ≡ (S.Store.model store.old).limit) }
    {
        let mut feed = Feed::new(load);
        let mut counts = Counts::default();
        store.empty();
        let mut watch = Watch::new(self.rt, self.asked.timed)?;
        counts.fill(store, &mut feed, live);
        watch.lap(self.rt, output, "fill", live.len() as u64)?;
        let mut left = self.asked.sizes.pairs;
        while left > 0 {
            let part = left.min(PART);
            counts.churn(store, &mut feed, live, part);
            watch.lap(self.rt, output, "churn", part * 2)?;
            left -= part;
        }
        self.walk_and_sweep(store, &mut counts, &mut watch, output)?;
        show(load, &counts, output)
    }

    // Walks over what is held, sweeps, walks again, and once more when the store is emptied.
    fn walk_and_sweep<S: Store<Order>, W: Write>(
        &self,
        store: &mut S,
        counts: &mut Counts,
        watch: &mut Watch,
        output: &mut W,
    ) -> io::Result<()>
        ensures counts { OnOk result (S.Store.ready store.old
            → counts.new ≡ with_walks (S.Store.model store.old) counts.old) }
        ensures silent { is_timed watch.old ≡ false → output.new ≡ output.old }
        ensures limit { OnOk result (S.Store.ready store.old
            → (S.Store.model store.new).limit ≡ (S.Store.model store.old).limit) }
    {
        counts.met = count_met(store);
        watch.lap(self.rt, output, "walk", counts.met)?;
        store.sweep(&Even);
        counts.swept = counts.met.saturating_sub(store.count());
        watch.lap(self.rt, output, "sweep", counts.met)?;
        counts.kept = count_met(store);
        watch.lap(self.rt, output, "walk-kept", counts.kept)?;
        store.empty();
        watch.lap(self.rt, output, "empty", 1)?;
        counts.left = count_met(store);
        watch.lap(self.rt, output, "walk-emptied", counts.left)
    }
}

// How many a walk meets.
fn count_met<S: Store<Order>>(store: &S) -> u64
    ensures { S.Store.ready store.now → result ≡ walk_count (S.Store.model store.now) }
{
    walk(store, &Counting).number
}

// Prints counts behind the load that they are of.
fn show<W: Write>(load: Load, counts: &Counts, output: &mut W) -> io::Result<()>
    ensures { OnOk result (Appends (W.contents output.old) (W.contents output.new)
        (counts_line load counts.now)) }
{
    writeln!(output, "({load} {counts})")
}
