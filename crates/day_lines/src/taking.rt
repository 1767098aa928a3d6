// Putting lines to a ledger.
ghost use Rattle.std.specs.Prelude.{◌≡◌, ◌<◌, cond, true, [], ◌++◌, take, length, Some, None, MatchOption, IfSome, IfOk, OnOk};
ghost use Rattle.std.specs.Io.KnownBytes.{Appends};
ghost use Rattle.capture.specs.Lines.{lines_of};
ghost use Rattle.capture.specs.Held.{held};
ghost use Rattle.capture.specs.Splits.{before_end, after_end};
ghost use Rattle.day_rules.specs.Lines.{day_after, answers_to};
ghost use Rattle.day_rules.specs.Rules.{answer, next};
ghost use Rattle.day_lines.specs.Seen.{IsSeen, one_seen};
ghost use Rattle.day_lines.specs.Takings.{Taken, PieceTaken, begun_line};
ghost use Rattle.day_lines.specs.Texts.{answer_line, answers_text};

#[cfg(test)]
mod tests;

use crate::seen::Seen;
use capture::buffer::LineBuffer;
use capture::input::{fill, too_long};
use capture::split::split_line;
use day_forms::answer::Answered;
use day_forms::numbered::Numbered;
use day_rules::fault::LedgerFault;
use day_rules::outcome::Outcome;
use ledger::ledger::Ledger;
use records::execution::Execution;
use records::order::Order;
use records::symbol_row::SymbolRow;
use std::io;
use std::io::{BufRead, Write};
use store::store::Store;

// What stands in an answer's place before the line is put.
const NO_ANSWER: Result<Outcome, LedgerFault> = Ok(Outcome {
    orders: 0,
    shares: 0,
});

/// Puts each line of the input to the ledger, prints its number and what it is answered if that is
/// to be shown, and answers what became of all.
///
/// A read that was interrupted is made again. An `Err` is as that of `capture::input::fill`, the
/// writer's, or `FileTooLarge` after 2^64 - 1 pieces. It leaves the ledger as it is after the lines
/// put so far: a line whose answer is not printed is put all the same, and one of which only the
/// beginning was read is not, nor does that come again.
pub fn take_lines<R: BufRead, W: Write, O: Store<Order>, E: Store<Execution>, S: Store<SymbolRow>>(
    ledger: &mut Ledger<O, E, S>,
    shown: bool,
    input: &mut R,
    output: &mut W,
) -> io::Result<Seen>
    ensures says { OnOk result (IfSome (R.remaining input.old) (λ bytes.
        Appends (W.contents output.old) (W.contents output.new)
        (answers_text shown 0 (lines_of bytes) ledger.old))) }
    ensures leaves { OnOk result (IfSome (R.remaining input.old) (λ bytes.
        ledger.new ≡ day_after (lines_of bytes) ledger.old)) }
    ensures seen { IfOk result (λ seen. IfSome (R.remaining input.old) (λ bytes.
        IsSeen seen (answers_to (lines_of bytes) ledger.old))) }
{
    let mut seen = Seen::new();
    let mut begun = LineBuffer::new();
    for _ in 0..u64::MAX {
        let piece = fill(input)?;
        let count = piece.len();
        if count == 0 {
            take_last(ledger, shown, &mut begun, &mut seen, output)?;
            return Ok(seen);
        }
        take_piece(ledger, shown, piece, &mut begun, &mut seen, output)?;
        input.consume(count);
    }
    Err(too_long())
}

// The lines that end in a piece of the input, of which the first was begun before; what stands behind the last line end begins the next one.
fn take_piece<W: Write, O: Store<Order>, E: Store<Execution>, S: Store<SymbolRow>>(
    ledger: &mut Ledger<O, E, S>,
    shown: bool,
    piece: &[u8],
    begun: &mut LineBuffer,
    seen: &mut Seen,
    output: &mut W,
) -> io::Result<()>
    ensures { OnOk result (PieceTaken shown (held begun.old) piece.now (held begun.new) (W.contents output.old) (W.contents output.new) seen.old seen.new ledger.old ledger.new) }
{
    let mut answer = NO_ANSWER;
    let mut rest = piece;
    while let Some((end, next)) = cut_line(rest) {
        put(ledger, begun, end, seen, &mut answer);
        tell(shown, seen.lines.lines, &answer, output)?;
        rest = next;
    }
    begun.extend(rest);
    Ok(())
}

// The bytes before the first line end and those behind it, if there is one.
#[inline(always)]
fn cut_line(bytes: &[u8]) -> Option<(&[u8], &[u8])>
    ensures { MatchOption result (after_end bytes.now ≡ None) (λ p. (p.0.now ≡ before_end bytes.now) × (after_end bytes.now ≡ Some p.1.now) × (length p.1.now < length bytes.now)) }
{
    let (end, next) = split_line(bytes);
    Some((end, next?))
}

// The last line, where it has no line end, unless it is empty.
fn take_last<W: Write, O: Store<Order>, E: Store<Execution>, S: Store<SymbolRow>>(
    ledger: &mut Ledger<O, E, S>,
    shown: bool,
    begun: &mut LineBuffer,
    seen: &mut Seen,
    output: &mut W,
) -> io::Result<()>
    ensures { OnOk result (Taken shown (begun_line (held begun.old)) (W.contents output.old) (W.contents output.new) seen.old seen.new ledger.old ledger.new) }
{
    if begun.is_empty() {
        return Ok(());
    }
    let mut answer = NO_ANSWER;
    put(ledger, begun, &[], seen, &mut answer);
    tell(shown, seen.lines.lines, &answer, output)
}

// Puts the line that was begun and ends so to the ledger, or what of it is passed on. The answer is lent, so that it is not copied behind the call: such a copy
// waits for all that was written before it, a record's slot included.
fn put<O: Store<Order>, E: Store<Execution>, S: Store<SymbolRow>>(
    ledger: &mut Ledger<O, E, S>,
    begun: &mut LineBuffer,
    end: &[u8],
    seen: &mut Seen,
    said: &mut Result<Outcome, LedgerFault>,
)
    ensures leaves { ledger.new ≡ next (take 255 (held begun.old ++ end.now)) ledger.old }
    ensures counts { seen.new ≡ one_seen (answer (take 255 (held begun.old ++ end.now)) ledger.old) seen.old }
    ensures says { said.new ≡ answer (take 255 (held begun.old ++ end.now)) ledger.old }
    ensures clears { held begun.new ≡ [] }
{
    let whole = gather_unless_whole(begun, end);
    *said = ledger.put(line_of(begun, end, whole));
    begun.clear();
    seen.count(said);
}

// Gathers a line that was begun, or is longer than what is passed on, and answers whether it lies whole in the piece instead. Most do, and are not copied.
fn gather_unless_whole(begun: &mut LineBuffer, end: &[u8]) -> bool
    ensures { cond result end.now (held begun.new) ≡ take 255 (held begun.old ++ end.now) }
{
    if begun.is_empty() && end.len() <= 255 {
        return true;
    }
    begun.extend(end);
    false
}

fn line_of<'a>(begun: &'a LineBuffer, end: &'a [u8], whole: bool) -> &'a [u8]
    ensures { result.now ≡ cond whole end.now (held begun.now) }
{
    if whole { end } else { begun.line() }
}

// Prints a line's number and answer, if that is to be shown. Inlined, since the result is large, and would be written for each line that is not shown.
#[inline(always)]
fn tell<W: Write>(
    shown: bool,
    number: u64,
    answer: &Result<Outcome, LedgerFault>,
    output: &mut W,
) -> io::Result<()>
    ensures { OnOk result (Appends (W.contents output.old) (W.contents output.new) (answer_line shown number answer.now)) }
{
    if shown {
        print(number, answer, output)
    } else {
        Ok(())
    }
}

fn print<W: Write>(
    number: u64,
    answer: &Result<Outcome, LedgerFault>,
    output: &mut W,
) -> io::Result<()>
    ensures { OnOk result (Appends (W.contents output.old) (W.contents output.new) (answer_line true number answer.now)) }
{
    let form = &Answered(answer);
    writeln!(output, "{}", Numbered { number, form })
}
