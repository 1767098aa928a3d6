// Printing what is answered to a line.
ghost use Rattle.std.specs.Prelude.{◌≡◌, OnOk};
ghost use Rattle.std.specs.Io.KnownBytes.{Appends};
ghost use Rattle.capture.specs.Counts.{more};
ghost use Rattle.store_calls.specs.Runs.{reply_line};

use calls::reply::{Numbered, Reply};
use capture::count::LineCount;
use std::io;
use std::io::Write;

// Writes the reply to the next line behind its number, and holds nothing back.
pub(crate) fn show<W: Write>(reply: Reply, count: &mut LineCount, output: &mut W) -> io::Result<()>
    ensures counts { count.new.lines ≡ more count.old.lines }
    ensures says { OnOk result (Appends (W.contents output.old) (W.contents output.new) (reply_line (more count.old.lines) reply)) }
{
    let numbered = Numbered {
        number: count.next(),
        reply,
    };
    writeln!(output, "{numbered}")?;
    output.flush()
}
