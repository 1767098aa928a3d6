// Answering lines, until one opens another store.
ghost use Rattle.std.specs.Prelude.{IfOk};
ghost use Rattle.store_calls.specs.Runs.{said_on, line_text, opening_text, going_on};
ghost use Rattle.capture.specs.Sessions.{Says, Prints};

use crate::showing::show;
use calls::answers::Answers;
use calls::call::{Opening, Request};
use calls::parse::parse;
use calls::reply::Reply;
use capture::buffer::LineBuffer;
use capture::count::LineCount;
use capture::input::{next_line, too_long};
use std::io;
use std::io::{BufRead, Write};

// Answers the lines of the input, until one opens another store: that one, or none at the end of the input.
pub(crate) fn serve<R: BufRead, W: Write, A: Answers + Drop>(
    mut store: A,
    count: &mut LineCount,
    input: &mut R,
    output: &mut W,
) -> io::Result<Option<Opening>>
    requires { A.Answers.ready store }
    ensures { IfOk result (λ next. Says (R.remaining input.old) (R.remaining input.new) (W.contents output.old) (W.contents output.new) (said_on count.old.lines (A.Answers.stored store)) (opening_text next count.new.lines)) }
{
    let mut line = LineBuffer::new();
    // Nothing says that the input ends, and no handle to wait without end is used here: so the turns are counted.
    for _ in 0..u64::MAX {
        if !next_line(input, &mut line)? {
            return Ok(None);
        }
        if let Some(opening) = answer(&mut store, parse(line.line()), count, output)? {
            return Ok(Some(opening));
        }
    }
    Err(too_long())
}

// Answers a line by what it asks for. One that opens another store is not answered yet: that one.
fn answer<W: Write, A: Answers>(
    store: &mut A,
    request: Option<Request>,
    count: &mut LineCount,
    output: &mut W,
) -> io::Result<Option<Opening>>
    requires { A.Answers.ready store.now }
    ensures still { A.Answers.ready store.new }
    ensures says { IfOk result (λ next. Prints (W.contents output.old) (W.contents output.new) (line_text request count.old.lines (A.Answers.stored store.old)) (going_on next count.new.lines (A.Answers.stored store.new))) }
{
    let reply = match request {
        Some(Request::Open(opening)) => return Ok(Some(opening)),
        Some(Request::Ask(call)) => store.answer(call),
        None => Reply::Unknown,
    };
    show(reply, count, output)?;
    Ok(None)
}
