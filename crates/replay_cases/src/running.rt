//! From each command line to what it prints.
ghost use Rattle.std.specs.Prelude.{◌≡◌, [], map, IfOk, OnOk};
ghost use Rattle.std.specs.Io.KnownBytes.{Appends};
ghost use Rattle.replay_cases.specs.Texts.{word_at, wrong_text, command_text, request_text, shown_text, case_text, cases_text};

use options::complaint::Complaint;
use options::mistake::Wrong;
use options::reading::read;
use options::request::Request;
use options::usage::USAGE;
use replaying::replay::replay;
use std::alloc::Global;
use std::io;
use std::io::Write;
use words::cut::list_words;

/// Shows each command line, and then what the day of the input comes to by it, or its mistake.
/// What was shown before is not shown again.
pub fn run<W: Write>(heap: Global, commands: &[&str], day: &[u8], output: &mut W) -> io::Result<()>
    ensures { OnOk result (Appends (W.contents output.old) (W.contents output.new)
        (cases_text USAGE.now [] day.now (map (λ command. command.now) commands.now))) }
{
    let mut last = Vec::new(heap);
    for command in commands {
        last = show_case(heap, command, day, last.as_slice(), output)?;
    }
    output.flush()
}

// Shows a command line and what it prints, and answers that.
fn show_case<W: Write>(
    heap: Global,
    command: &str,
    day: &[u8],
    last: &[u8],
    output: &mut W,
) -> io::Result<Vec<u8>>
    ensures shown { IfOk result (λ shown.
        shown.items ≡ command_text USAGE.now day.now command.now) }
    ensures says { OnOk result (Appends (W.contents output.old) (W.contents output.new)
        (case_text USAGE.now last.now day.now command.now)) }
{
    writeln!(output, "replay {command}")?;
    let shown = perform(heap, command.as_bytes(), day)?;
    show(shown.as_slice(), last, output)?;
    Ok(shown)
}

// What a command line prints for the day.
fn perform(heap: Global, command: &[u8], day: &[u8]) -> io::Result<Vec<u8>>
    ensures { IfOk result (λ shown. shown.items ≡ command_text USAGE.now day.now command.now) }
{
    let words = list_words(heap, command)?;
    let mut shown = Vec::new(heap);
    match read(words.as_slice()) {
        Ok(request) => follow(heap, &request, day, &mut shown)?,
        Err(wrong) => complain(words.as_slice(), wrong, &mut shown)?,
    }
    Ok(shown)
}

// What was shown before is not shown again.
fn show<W: Write>(shown: &[u8], last: &[u8], output: &mut W) -> io::Result<()>
    ensures { OnOk result (Appends (W.contents output.old) (W.contents output.new)
        (shown_text last.now shown.now)) }
{
    if shown == last {
        writeln!(output, "(the same)")
    } else {
        output.write_all(shown)
    }
}

fn follow<W: Write>(heap: Global, request: &Request, day: &[u8], output: &mut W) -> io::Result<()>
    ensures { OnOk result (Appends (W.contents output.old) (W.contents output.new)
        (request_text USAGE.now day.now request.now)) }
{
    if request.options.shown.help {
        return output.write_all(USAGE.as_bytes());
    }
    let mut input = day;
    replay(heap, &request.options, &mut input, output)
}

fn complain<W: Write>(words: &[&[u8]], wrong: Wrong, output: &mut W) -> io::Result<()>
    ensures { OnOk result (Appends (W.contents output.old) (W.contents output.new)
        (wrong_text (word_at (map (λ word. word.now) words.now) wrong.place) wrong.mistake)) }
{
    let complaint = Complaint {
        word: word_of(words, wrong.place),
        mistake: wrong.mistake,
    };
    writeln!(output, "(wrong: {complaint})")
}

// The word at a place, none where there is no word.
fn word_of<'a>(words: &[&'a [u8]], place: usize) -> &'a [u8]
    ensures { result.now ≡ word_at (map (λ word. word.now) words.now) place }
{
    match words.get(place) {
        Some(word) => word,
        None => b"",
    }
}
