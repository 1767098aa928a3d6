//! Inputs whose reads are interrupted or fail.
use super::next_line;
use crate::buffer::LineBuffer;
use std::alloc::Global;
use std::io;
use std::io::{BufRead, BufReader, ErrorKind, Read};
use std::test::Fail;

// The line ends stand where reads begin, end and go on: three bytes come at a time.
const INPUT: &[u8] = b"first\n\nthe third line\nlast";

// Gives three bytes at a time, but fails at the read of that number, once.
#[derive(Drop)]
struct Failing<'a> {
    bytes: &'a [u8],
    before: u64,
    kind: ErrorKind,
}

impl Read for Failing<'_> {
    fn read(&mut self, buf: &mut [u8]) -> io::Result<usize> {
        let before = self.before;
        self.before = before.wrapping_sub(1);
        if before == 0 {
            return Err(self.kind.into());
        }
        let room = buf.len().min(3);
        self.bytes.read(&mut buf[..room])
    }
}

// The lines up to the end, each behind a stroke.
fn lines_of<R: BufRead>(heap: Global, input: &mut R) -> io::Result<Vec<u8>> {
    let mut lines = Vec::new(heap);
    let mut line = LineBuffer::new();
    for _ in 0..INPUT.len() {
        if !next_line(input, &mut line)? {
            break;
        }
        lines.push(b'|')?;
        lines.extend_from_slice(line.line())?;
    }
    Ok(lines)
}

#[test]
fn an_interrupted_read_is_made_again(rt: HostRuntime) -> Result<(), Fail> {
    let mut whole = INPUT;
    let lines = lines_of(rt.alloc(), &mut whole)?;
    assert_eq!(rt; lines.as_slice(), b"|first||the third line|last".as_slice());
    for before in 0..12 {
        let kind = ErrorKind::Interrupted;
        let failing = Failing {
            bytes: INPUT,
            before,
            kind,
        };
        let mut input = BufReader::new(rt.alloc(), failing)?;
        let again = lines_of(rt.alloc(), &mut input)?;
        assert_eq!(rt; again.as_slice(), lines.as_slice());
    }
    Ok(())
}

#[test]
fn the_readers_error_is_told_and_nothing_is_lost(rt: HostRuntime) -> Result<(), Fail> {
    let failing = Failing {
        bytes: INPUT,
        before: 4,
        kind: ErrorKind::ConnectionReset,
    };
    let mut input = BufReader::new(rt.alloc(), failing)?;
    let mut line = LineBuffer::new();
    assert!(rt; next_line(&mut input, &mut line)?);
    assert_eq!(rt; line.line(), b"first".as_slice());
    assert!(rt; next_line(&mut input, &mut line)?);
    assert_eq!(rt; line.line(), b"".as_slice());
    // Twelve bytes came, of which five are the third line's.
    let Err(error) = next_line(&mut input, &mut line) else {
        assert!(rt; false, "the fault was not told");
        return Ok(());
    };
    assert!(rt; error.kind() == ErrorKind::ConnectionReset);
    assert_eq!(rt; line.line(), b"the t".as_slice());
    let rest = lines_of(rt.alloc(), &mut input)?;
    assert_eq!(rt; rest.as_slice(), b"|hird line|last".as_slice());
    Ok(())
}
