//! How long the parts of a load take.
ghost use Rattle.std.specs.Prelude.{◌≡◌, ℕ, false, true, Some, IfOk, OnOk};
ghost use Rattle.std.specs.Io.KnownBytes.{Appends};
ghost use Rattle.churn.specs.Times.{is_timed, stopped, took_line, took_text};

use std::io::Write;
use std::time::Instant;
use std::{fmt, io};

/// Tells how long parts take, where that is asked for; else it does nothing.
#[derive(Clone, Copy)]
pub struct Watch {
    // where the times are asked for
    start: Option<Instant>,
}

impl Watch {
    /// Starts where times are asked for. An `Err` is the clock's, and comes only there.
    pub fn new(rt: &HostRuntime, asked: bool) -> io::Result<Watch>
        ensures says { IfOk result (λ watch. is_timed watch ≡ asked) }
        ensures untimed { asked ≡ false → result ≡ Ok stopped }
    {
        let start = if asked { Some(Instant::now(rt)?) } else { None };
        Ok(Watch { start })
    }

    /// Prints how long the calls since the last lap took, and starts anew. Where no times are asked
    /// for, it writes nothing. An `Err` is the clock's or the writer's.
    pub fn lap<W: Write>(
        &mut self,
        rt: &HostRuntime,
        output: &mut W,
        part: &str,
        calls: u64,
    ) -> io::Result<()>
        ensures still { is_timed self.new ≡ is_timed self.old }
        ensures untimed { is_timed self.old ≡ false → result ≡ Ok tt }
        ensures silent { is_timed self.old ≡ false → output.new ≡ output.old }
        ensures told { is_timed self.old ≡ true → OnOk result ((nanos : ℕ)
            × Appends (W.contents output.old) (W.contents output.new)
            (took_line part.now calls nanos)) }
    {
        let Some(start) = self.start else {
            return Ok(());
        };
        let nanos = start.elapsed(rt)?.as_nanos();
        writeln!(output, "{}", Took { part, calls, nanos })?;
        self.start = Some(Instant::now(rt)?);
        Ok(())
    }
}

// What a part took.
#[derive(Clone, Copy, Drop)]
struct Took<'a> {
    part: &'a str,
    calls: u64,
    nanos: u128,
}

impl fmt::Display for Took<'_> {
    ghost output = { λ took. Some (took_text took.part.now took.calls took.nanos) };

    fn fmt<W: fmt::Write>(&self, f: &mut fmt::Formatter<W>) -> fmt::Result {
        let Took { part, calls, nanos } = *self;
        write!(f, "(took {part} (calls {calls}) (ns {nanos}))")
    }
}
