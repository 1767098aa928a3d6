// A reader that tells how far it is, about every second, somewhere else than where the program writes.
ghost use Rattle.std.specs.Prelude.{◌≡◌, true, None, take, IfOk, OnOk};
ghost use Rattle.std.specs.Io.{ReadsAtMost};
ghost use Rattle.std.specs.Io.KnownBytes.{Appends, ReadConsumes};
ghost use Rattle.progress.specs.Paces.{ends_among, passed_since, last_told, told_line, Paused};

use crate::form::ProgressForm;
use crate::pace::Passed;
use std::io;
use std::io::{Read, Write};
use std::time::{Clock, Instant};

// Nanoseconds between two lines of progress.
const PAUSE: u64 = 1_000_000_000;

// Gives the bytes of the reader within as they are. Where the clock or the writing fails, nothing is told and reading goes on.
#[derive(Drop)]
pub struct Metered<R, C, E> {
    inner: R,
    clock: C,
    told: E,
    passed: Passed,
    start: Option<Instant>,
    // when something was told last, in nanoseconds from the start
    last: u64,
}

impl<R: Read, C: Clock, E: Write> Metered<R, C, E> {
    // Starts now; if quiet, nothing is ever told.
    pub fn new(inner: R, clock: C, told: E, quiet: bool) -> Metered<R, C, E>
        ensures inner { result.inner ≡ inner }
        ensures told { result.told ≡ told }
        ensures begins { (result.passed ≡ record { lines = 0; bytes = 0 }) × (result.last ≡ 0) }
        ensures quiet { quiet ≡ true → result.start ≡ None }
    {
        let start = if quiet {
            None
        } else {
            Instant::now(&clock).ok()
        };
        Metered {
            inner,
            clock,
            told,
            passed: Passed::default(),
            start,
            last: 0,
        }
    }

    // Counts what was read, and tells of it if a line is due.
    fn pass(&mut self, bytes: &[u8])
        ensures inner { self.new.inner ≡ self.old.inner }
        ensures start { self.new.start ≡ self.old.start }
        ensures passed { self.new.passed ≡ passed_since self.old.start bytes.now self.old.passed }
        ensures pause { Paused self.old.told self.new.told self.old.last self.new.last }
        ensures quiet { self.old.start ≡ None → self.new ≡ self.old }
    {
        let Some(start) = self.start else {
            return;
        };
        self.passed = self.passed.with(bytes.len() as u64, line_ends(bytes));
        let Ok(elapsed) = start.elapsed(&self.clock) else {
            return;
        };
        let nanos = elapsed.as_nanos().min(u128::from(u64::MAX)) as u64;
        let _ = self.tell(nanos);
    }

    // Tells what has passed by a time, if a line is due.
    fn tell(&mut self, nanos: u64) -> io::Result<()>
        ensures says { OnOk result (Appends (E.contents self.old.told) (E.contents self.new.told) (told_line self.old.last nanos self.old.passed)) }
        ensures last { self.new.last ≡ last_told self.old.last nanos }
        ensures pause { Paused self.old.told self.new.told self.old.last self.new.last }
        ensures inner { self.new.inner ≡ self.old.inner }
        ensures start { self.new.start ≡ self.old.start }
        ensures passed { self.new.passed ≡ self.old.passed }
    {
        if nanos.saturating_sub(self.last) < PAUSE {
            return Ok(());
        }
        self.last = nanos;
        let passed = self.passed;
        writeln!(self.told, "{}", ProgressForm { passed, nanos })
    }
}

impl<R: Read, C: Clock, E: Write> Read for Metered<R, C, E> {
    ghost remaining = { λ m. R.remaining m.inner };

    fn read(&mut self, buf: &mut [u8]) -> io::Result<usize>
        ensures bound { ReadsAtMost result buf.new }
        ensures bytes { ReadConsumes (R.remaining self.old.inner) (R.remaining self.new.inner) result buf.new }
        ensures passed { IfOk result (λ count. self.new.passed ≡ passed_since self.old.start (take count buf.new) self.old.passed) }
        ensures start { self.new.start ≡ self.old.start }
        ensures pause { Paused self.old.told self.new.told self.old.last self.new.last }
        ensures quiet { self.old.start ≡ None → self.new.told ≡ self.old.told }
    {
        let count = self.inner.read(buf)?;
        self.pass(&buf[..count]);
        Ok(count)
    }
}

// How many lines end among the bytes.
fn line_ends(bytes: &[u8]) -> u64
    ensures { result ≡ ends_among bytes.now }
{
    bytes.iter().filter(|byte| **byte == b'\n').count() as u64
}
