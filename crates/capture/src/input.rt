//! Lines of an input, one at a time.
ghost use Rattle.std.specs.Prelude.{length, not, ◌==◌, ◌≡◌, ◌≢◌, ◌↔◌, IsTrue, [], ◌∷◌, ◌++◌, MatchBool, take, IfSome, IfOk, IfErr, OnOk, OnErr};
ghost use Rattle.std.specs.IoError.{error_kind};
ghost use Rattle.std.specs.Io.{StartsWith};
ghost use Rattle.std.specs.Borrow.{sem};
ghost use Rattle.std.specs.Io.BufRead.{DropsThrough, drop_through, FillKeeps, Rests};
ghost use Rattle.std.specs.Io.KnownBytes.{Keeps};
ghost use Rattle.capture.specs.Begun.{IsBegun};
ghost use Rattle.capture.specs.Held.{held, if_there};
ghost use Rattle.capture.specs.Lines.{next_of, lines_of};
ghost use Rattle.capture.specs.Splits.{before_end, used_of};

#[cfg(test)]
mod tests;

use crate::buffer::LineBuffer;
use crate::split::split_line;
use std::io;
use std::io::{BufRead, Error, ErrorKind};

/// Reads the next line into a buffer, and says whether there was one; a last line without a line
/// end counts unless it is empty. What remains is what stands behind its line end. The buffer is
/// lent, so that no line costs a new one.
///
/// A read that was interrupted is made again. An `Err` is as that of `fill`, or `FileTooLarge`
/// after 2^64 - 1 pieces. It leaves the line as far as it was read in the buffer, and what stands
/// behind that in the input: nothing is lost.
pub fn next_line<R: BufRead>(input: &mut R, line: &mut LineBuffer) -> io::Result<bool>
    ensures line { IfOk result (λ there. IfSome (R.remaining input.old) (λ bytes.
        if_there there line.new ≡ next_of bytes)) }
    ensures lines { IfOk result (λ there. IfSome (R.remaining input.old) (λ bytes.
        MatchBool there
        (lines_of bytes ≡ held line.new ∷ lines_of (drop_through 10 bytes))
        (lines_of bytes ≡ []))) }
    ensures rest { OnOk result (DropsThrough (R.remaining input.old) (R.remaining input.new) 10) }
    ensures begun { OnErr result
        (IsBegun (R.remaining input.old) (R.remaining input.new) (held line.new)) }
    ensures retried { IfErr result (λ error. error_kind error ≢ ErrorKind.Interrupted) }
{
    line.clear();
    for _ in 0..u64::MAX {
        let bytes = fill(input)?;
        let count = bytes.len();
        if count == 0 {
            return Ok(!line.is_empty());
        }
        if let Some(used) = gather(line, bytes) {
            input.consume(used);
            return Ok(true);
        }
        input.consume(count);
    }
    Err(too_long())
}

/// Shows bytes that come next, none only at the end of the input, and takes none. Whatever reads an
/// input goes by this, so that an interrupted read is made again in one place.
///
/// An `Err` is as that of `wait`, or `Other` of a reader that is interrupted though it has bytes at
/// hand. It leaves the input as it was.
pub fn fill<R: BufRead>(input: &mut R) -> io::Result<&[u8]>
    ensures front { IfSome (R.remaining input.old) (λ bytes. IfOk result (λ piece.
        StartsWith bytes piece.now)) }
    ensures end { IfSome (R.remaining input.old) (λ bytes. IfOk result (λ piece.
        length piece.now ≡ 0 → bytes ≡ [])) }
    ensures* keeps { sem 𝓛 (Rests R.row input.entry (λ new.
        FillKeeps (R.remaining input.old) (R.remaining new) (R.consumable_len new) result)) }
    ensures retried { IfErr result (λ error. error_kind error ≢ ErrorKind.Interrupted) }
{
    if !wait(input)? {
        return Ok(&[]);
    }
    // The reader has these bytes at hand, so it reads nothing. No proof covers bytes that are lent
    // in a loop and answered from it, so the loop is that of `wait`.
    match input.fill_buf() {
        Ok(piece) => Ok(piece),
        Err(error) => Err(settled(error)),
    }
}

/// Reads until a byte is at hand or the input is at its end, says whether there is one, and takes
/// none. A read that was interrupted is made again.
///
/// An `Err` is the reader's, of any kind but `Interrupted`, or `FileTooLarge` after 2^64 - 1 reads.
/// It leaves the input as it was.
pub fn wait<R: BufRead>(input: &mut R) -> io::Result<bool>
    ensures there { IfSome (R.remaining input.old) (λ bytes. IfOk result (λ there.
        there ≡ not (length bytes == 0))) }
    ensures keeps { Keeps (R.remaining input.old) (R.remaining input.new) }
    ensures retried { IfErr result (λ error. error_kind error ≢ ErrorKind.Interrupted) }
{
    // Nothing says that the reader is ever done, and no handle to wait without end is used here: so
    // the turns are counted, as they are in each loop over an input.
    for _ in 0..u64::MAX {
        match input.fill_buf() {
            Ok(piece) => return Ok(!piece.is_empty()),
            Err(error) if is_interrupted(&error) => {}
            Err(other) => return Err(other),
        }
    }
    Err(too_long())
}

// The error of a reader that fails though it has bytes at hand: the call is not made again.
fn settled(error: Error) -> Error
    ensures { error_kind result ≢ ErrorKind.Interrupted }
{
    if is_interrupted(&error) {
        ErrorKind::Other.into()
    } else {
        error
    }
}

// Whether the call that gave the error is to be made again.
fn is_interrupted(error: &Error) -> bool
    ensures { IsTrue result ↔ (error_kind error.now ≡ ErrorKind.Interrupted) }
{
    error.kind() == ErrorKind::Interrupted
}

/// Of an input that does not end in as many reads as can be counted.
pub fn too_long() -> Error
    ensures { error_kind result ≡ ErrorKind.FileTooLarge }
{
    ErrorKind::FileTooLarge.into()
}

// Adds the bytes up to the line end to the line, and answers how many they are with the line end;
// none where it is not among them.
fn gather(line: &mut LineBuffer, bytes: &[u8]) -> Option<usize>
    ensures line { held line.new ≡ take 255 (held line.old ++ before_end bytes.now) }
    ensures end { result ≡ used_of bytes.now }
{
    let (piece, next) = split_line(bytes);
    line.extend(piece);
    next.map(|rest| bytes.len() - rest.len())
}
