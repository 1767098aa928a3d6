//! From the command line to the report.
ghost use Rattle.std.specs.Prelude.{◌≡◌, map, IfErr, IfOk, IfSome, OnOk};
ghost use Rattle.std.specs.Io.Buffered.{reader_remaining};
ghost use Rattle.std.specs.Io.KnownBytes.{Appends};
ghost use Rattle.options.specs.Requests.{request_of};
ghost use Rattle.replay.specs.Failures.{Complains, IsOtherwise, Told, word_at};
ghost use Rattle.replaying.specs.Texts.{replay_text};

use crate::failure::Failure;
use capture::input::wait;
use options::complaint::Complaint;
use options::mistake::Wrong;
use options::options::Options;
use options::reading::read;
use options::request::Request;
use options::usage::USAGE;
use progress::metered::Metered;
use replaying::replay::replay;
use std::alloc::Global;
use std::fs::File;
use std::io;
use std::io::{BufRead, BufReader, BufWriter, Error, Read, Write};
use std::str::from_utf8;
use std::time::Clock;
use words::arguments::bytes_of;
use words::named::Named;

// So much is read and written at a time.
const CHUNK: usize = 65_536;

/// Does what the words of a command line ask. Wrong words are told by their first mistake, and
/// right ones by none; the memory may fail before.
pub fn run<'a>(rt: &HostRuntime, words: &'a [Vec<u8>]) -> Result<(), Failure<'a>>
    ensures { Told (request_of (map (λ word. word.items) words.now)) words.now result }
{
    let bytes = bytes_of(rt.alloc(), words)?;
    match read(bytes.as_slice()) {
        Ok(request) => perform(rt, words, &request),
        Err(wrong) => Err(told(words, wrong)),
    }
}

fn perform<'a>(rt: &HostRuntime, words: &'a [Vec<u8>], request: &Request) -> Result<(), Failure<'a>>
    ensures { IfErr result IsOtherwise }
{
    let heap = rt.alloc();
    let mut output = Named::new("standard output", heap, rt.stdout());
    if request.options.shown.help {
        return Ok(output.write_all(USAGE.as_bytes())?);
    }
    let mut output = BufWriter::with_capacity(heap, CHUNK, output)?;
    match request.file.and_then(|place| words.get(place)) {
        Some(name) => replay_file(rt, &request.options, name.as_slice(), &mut output),
        None => {
            let input = Named::new("standard input", heap, rt.stdin());
            Ok(replay_input(
                heap,
                &request.options,
                input,
                (rt, rt.stderr()),
                &mut output,
            )?)
        }
    }
}

// What is wrong, at the word where it shows.
fn told<'a>(words: &'a [Vec<u8>], wrong: Wrong) -> Failure<'a>
    ensures { Complains result (word_at words.now wrong.place) wrong.mistake }
{
    let word = match words.get(wrong.place) {
        Some(word) => word.as_slice(),
        None => b"",
    };
    Failure::Command(Complaint {
        word,
        mistake: wrong.mistake,
    })
}

fn replay_file<'a, W: Write>(
    rt: &HostRuntime,
    options: &Options,
    name: &'a [u8],
    output: &mut W,
) -> Result<(), Failure<'a>>
    ensures { IfErr result IsOtherwise }
{
    let Ok(path) = from_utf8(name) else {
        return Err(Failure::Name(name));
    };
    let outcome = match File::open(rt, path) {
        Ok(file) => replay_input(rt.alloc(), options, file, (rt, rt.stderr()), output),
        Err(error) => Err(error),
    };
    match outcome {
        Ok(()) => Ok(()),
        Err(error) => Err(blamed(name, error)),
    }
}

// The errors of standard output bear its name, and those of the memory have no number: one of the
// system's is the file's.
fn blamed<'a>(name: &'a [u8], error: Error) -> Failure<'a>
    ensures { IsOtherwise result }
{
    match error.raw_os_error() {
        Some(_) => Failure::File(name, error),
        None => Failure::Other(error),
    }
}

/// Replays the day of an input as the options ask: the report goes to the output, and progress by
/// a clock elsewhere. What cannot be read is told before anything is printed.
pub fn replay_input<R: Read + Drop, C: Clock + Drop, E: Write + Drop, W: Write>(
    heap: Global,
    options: &Options,
    input: R,
    telling: (C, E),
    output: &mut W,
) -> io::Result<()>
    ensures { OnOk result (IfSome (R.remaining input) (λ bytes.
        Appends (W.contents output.old) (W.contents output.new) (replay_text options.now bytes))) }
{
    let (clock, told) = telling;
    let metered = Metered::new(input, clock, told, options.shown.quiet);
    let mut input = buffered(heap, metered)?;
    replay_waited(heap, options, &mut input, output)
}

fn buffered<R: Read + Drop>(heap: Global, input: R) -> io::Result<BufReader<R>>
    ensures { IfOk result (λ reader. reader_remaining R.remaining reader ≡ R.remaining input) }
{
    Ok(BufReader::with_capacity(heap, CHUNK, input)?)
}

fn replay_waited<R: BufRead, W: Write>(
    heap: Global,
    options: &Options,
    input: &mut R,
    output: &mut W,
) -> io::Result<()>
    ensures { OnOk result (IfSome (R.remaining input.old) (λ bytes.
        Appends (W.contents output.old) (W.contents output.new) (replay_text options.now bytes))) }
{
    wait(input)?;
    replay(heap, options, input, output)
}
