// From the first line to the last.
ghost use Rattle.std.specs.Prelude.{IfSome, OnOk};
ghost use Rattle.std.specs.Io.KnownBytes.{Appends};
ghost use Rattle.capture.specs.Lines.{lines_of};
ghost use Rattle.store_calls.specs.Runs.{opening_text, run_text};

use crate::opening::open;
use crate::serving::serve;
use calls::answers::none::NoStore;
use calls::call::Opening;
use capture::count::LineCount;
use capture::input::too_long;
use std::alloc::Global;
use std::io;
use std::io::{BufRead, Write};

// Answers every line of the input on the output.
pub fn run<R: BufRead, W: Write>(heap: Global, input: &mut R, output: &mut W) -> io::Result<()>
    ensures { OnOk result (IfSome (R.remaining input.old) (λ bytes. Appends (W.contents output.old) (W.contents output.new) (run_text (lines_of bytes)))) }
{
    let mut count = LineCount::new();
    let next = serve(NoStore, &mut count, input, output)?;
    open_each(heap, next, count, input, output)
}

// Opens one store after the other, each where a line says so, and answers the lines up to the next.
fn open_each<R: BufRead, W: Write>(
    heap: Global,
    first: Option<Opening>,
    mut count: LineCount,
    input: &mut R,
    output: &mut W,
) -> io::Result<()>
    ensures { OnOk result (IfSome (R.remaining input.old) (λ bytes. Appends (W.contents output.old) (W.contents output.new) (opening_text first count.lines (lines_of bytes)))) }
{
    let mut next = first;
    // Nothing says that the input ends, and no handle to wait without end is used here: so the turns are counted.
    for _ in 0..u64::MAX {
        let Some(opening) = next else {
            return Ok(());
        };
        next = open(heap, opening, &mut count, input, output)?;
    }
    Err(too_long())
}
