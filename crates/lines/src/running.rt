//! From the first line to the totals.
ghost use Rattle.std.specs.Prelude.{◌≡◌, IfSome, OnOk};
ghost use Rattle.std.specs.Io.KnownBytes.{Appends};
ghost use Rattle.capture.specs.Lines.{lines_of};
ghost use Rattle.lines.specs.Listings.{is_read, is_rewritten, times, lines_text};

use crate::listing::Listing;
use capture::input::{fill, too_long};
use std::io;
use std::io::{BufRead, Write};

/// Prints each line's number with the message that it is or why it is none, and then the totals.
/// Every message that is read gives its line back: as many are rewritten as are read.
pub fn run<R: BufRead, W: Write>(input: &mut R, output: &mut W) -> io::Result<()>
    ensures says { OnOk result (IfSome (R.remaining input.old) (λ bytes.
        Appends (W.contents output.old) (W.contents output.new) (lines_text bytes))) }
    ensures even { OnOk result (IfSome (R.remaining input.old) (λ bytes.
        times is_rewritten (lines_of bytes) ≡ times is_read (lines_of bytes))) }
{
    let mut listing = Listing::new();
    // Nothing says that the input ends, and no handle to wait without end is used here: so the
    // turns are counted.
    for _ in 0..u64::MAX {
        let piece = fill(input)?;
        let count = piece.len();
        if count == 0 {
            return listing.finish(output);
        }
        listing.take(piece, output)?;
        input.consume(count);
        // The next read may wait for its bytes, and what is printed does not wait for them.
        output.flush()?;
    }
    Err(too_long())
}
