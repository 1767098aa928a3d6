//! The lines of an input that comes in pieces.
ghost use Rattle.std.specs.Prelude.{◌≡◌, [], ◌∷◌, ◌++◌, IfSome, OnOk, OnErr};
ghost use Rattle.std.specs.Io.KnownBytes.{Appends};
ghost use Rattle.capture.specs.Begun.{IsUnended};
ghost use Rattle.capture.specs.Counts.{more};
ghost use Rattle.capture.specs.Held.{held};
ghost use Rattle.capture.specs.Lines.{lines_of};
ghost use Rattle.messages.specs.Telling.{line_message};
ghost use Rattle.lines.specs.Counted.{IsEven, after, counted, none_counted, totals_told};
ghost use Rattle.lines.specs.Listings.{form_of, is_read, is_rewritten, listing, numbered};
ghost use Rattle.lines.specs.Pieces.{IsListed, IsStopped};

use crate::rewriting::comes_back;
use crate::totals::Totals;
use capture::buffer::LineBuffer;
use capture::split::split_line;
use forms::message::Shown;
use forms::refusal::Refusal;
use pitch::reader::read;
use std::io::Write;
use std::{fmt, io};

/// What has come of the line at hand, and what was counted of the lines before it. Every message
/// that is read gives its line back, so that as many are rewritten as are read: after each call,
/// whatever comes, and where the writer fails too.
#[derive(Drop)]
pub struct Listing {
    line: LineBuffer,
    totals: Totals,
    ghost unended: { IsUnended (held line) },
}

impl Listing {
    /// Of an input of which nothing has come.
    pub fn new() -> Listing
        ensures line { held result.line ≡ [] }
        ensures totals { result.totals ≡ none_counted }
        ensures even { IsEven result.totals }
    {
        Listing {
            line: LineBuffer::new(),
            totals: Totals::new(),
        }
    }

    /// Takes the next bytes of the input, in which lines may end and one may begin: prints each
    /// that ends, and counts it.
    ///
    /// An `Err` is the writer's, of a line that ends in the piece. That line is counted all the
    /// same, and what stands behind it is not taken: none of it is at hand.
    pub fn take<W: Write>(&mut self, piece: &[u8], output: &mut W) -> io::Result<()>
        ensures even { IsEven self.old.totals → IsEven self.new.totals }
        ensures says { OnOk result (IsListed (held self.old.line) piece.now (held self.new.line)
            self.old.totals self.new.totals (W.contents output.old) (W.contents output.new)) }
        ensures stops { OnErr result (IsStopped (held self.old.line) piece.now
            (held self.new.line) self.old.totals self.new.totals) }
    {
        let mut rest = piece;
        loop {
            let (end, next) = split_line(rest);
            self.line.extend(end);
            let Some(next) = next else {
                return Ok(());
            };
            self.end_line(output)?;
            rest = next;
        }
    }

    /// The input is at its end: a last line needs no line end, unless it is empty. Prints it and
    /// then the totals, and holds nothing back.
    ///
    /// An `Err` is the writer's, and leaves the same.
    pub fn finish<W: Write>(&mut self, output: &mut W) -> io::Result<()>
        ensures line { held self.new.line ≡ [] }
        ensures counts { self.new.totals
            ≡ after (lines_of (held self.old.line)) self.old.totals }
        ensures even { IsEven self.old.totals → IsEven self.new.totals }
        ensures says { OnOk result (Appends (W.contents output.old) (W.contents output.new)
            (listing self.old.totals.lines (lines_of (held self.old.line))
            ++ totals_told self.new.totals)) }
    {
        self.end_last(output)?;
        end(&self.totals, output)
    }

    // Lists the line at hand unless it is empty.
    fn end_last<W: Write>(&mut self, output: &mut W) -> io::Result<()>
        ensures line { held self.new.line ≡ [] }
        ensures counts { self.new.totals
            ≡ after (lines_of (held self.old.line)) self.old.totals }
        ensures even { IsEven self.old.totals → IsEven self.new.totals }
        ensures says { OnOk result (Appends (W.contents output.old) (W.contents output.new)
            (listing self.old.totals.lines (lines_of (held self.old.line)))) }
    {
        if self.line.is_empty() {
            return Ok(());
        }
        self.end_line(output)
    }

    // Lists the line at hand, and makes room for the next.
    fn end_line<W: Write>(&mut self, output: &mut W) -> io::Result<()>
        ensures line { held self.new.line ≡ [] }
        ensures counts { self.new.totals ≡ counted (held self.old.line) self.old.totals }
        ensures even { IsEven self.old.totals → IsEven self.new.totals }
        ensures says { OnOk result (Appends (W.contents output.old) (W.contents output.new)
            (listing self.old.totals.lines (held self.old.line ∷ []))) }
    {
        let listed = list(self.line.line(), &mut self.totals, output);
        self.line.clear();
        listed
    }
}

// Lists a line, and counts it.
fn list<W: Write>(line: &[u8], totals: &mut Totals, output: &mut W) -> io::Result<()>
    ensures even { is_rewritten line.now ≡ is_read line.now }
    ensures still { IsEven totals.old → IsEven totals.new }
    ensures counts { totals.new ≡ counted line.now totals.old }
    ensures says { OnOk result (Appends (W.contents output.old) (W.contents output.new)
        (numbered (more totals.old.lines) (form_of (line_message line.now)))) }
{
    match read(line) {
        Ok(message) => {
            totals.count_read(comes_back(&message, line));
            show(totals.lines, &Shown(&message), output)
        }
        Err(fault) => {
            totals.count_refused();
            show(totals.lines, &Refusal(&fault), output)
        }
    }
}

// Prints what a line is behind its number.
fn show<W: Write, D: fmt::Display>(number: u64, form: &D, output: &mut W) -> io::Result<()>
    ensures { OnOk result (IfSome (D.output form.now) (λ said.
        Appends (W.contents output.old) (W.contents output.new) (numbered number said))) }
{
    writeln!(output, "(line {number} {form})")
}

fn end<W: Write>(totals: &Totals, output: &mut W) -> io::Result<()>
    ensures { OnOk result (Appends (W.contents output.old) (W.contents output.new)
        (totals_told totals.now)) }
{
    writeln!(output, "{totals}")?;
    output.flush()
}
