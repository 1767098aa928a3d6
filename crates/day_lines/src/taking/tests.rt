//! Inputs whose reads are interrupted or fail.
use super::take_lines;
use crate::seen::Seen;
use ledger::ledger::Ledger;
use records::execution::Execution;
use records::order::Order;
use records::symbol_row::SymbolRow;
use row_store::row::RowStore;
use std::io;
use std::io::{BufRead, BufReader, ErrorKind, Read};
use std::test::Fail;

// An order, an execution of it, a line that is no message, and a break of what was not executed.
const INPUT: &[u8] = b"34200000A0000000000A1B000500ABCD  0000102500Y\n\
    34200010E0000000000A1000200000000000001\n?\n34200030B000000000002";

const PRINTED: &[u8] = b"(line 1 (took 0 500))\n(line 2 (took 0 300))\n\
    (line 3 (refused 1))\n(line 4 (refused 10))\n";

// As many reads as show all of it, seven bytes at a time, and that it is at its end.
const READS: u64 = 17;

// Gives seven bytes at a time, but fails at the read of that number, once.
#[derive(Drop)]
struct Failing<'a> {
    bytes: &'a [u8],
    before: u64,
    kind: ErrorKind,
}

impl Read for Failing<'_> {
    fn read(&mut self, buf: &mut [u8]) -> io::Result<usize> {
        let before = self.before;
        self.before = before.wrapping_sub(1);
        if before == 0 {
            return Err(self.kind.into());
        }
        let room = buf.len().min(7);
        self.bytes.read(&mut buf[..room])
    }
}

// What `take_lines` answers over a ledger of its own, and how many messages that accepted.
fn take<R: BufRead>(input: &mut R, output: &mut Vec<u8>) -> (io::Result<Seen>, u64) {
    let (mut orders, mut executions) = ([Order::BLANK; 2], [Execution::BLANK; 2]);
    let mut symbols = [SymbolRow::BLANK; 2];
    let mut ledger = Ledger::open(
        RowStore::new(&mut orders),
        RowStore::new(&mut executions),
        RowStore::new(&mut symbols),
        9,
    );
    let seen = take_lines(&mut ledger, true, input, output);
    (seen, ledger.accepted())
}

#[test]
fn an_interrupted_read_is_made_again(rt: HostRuntime) -> Result<(), Fail> {
    let mut whole = INPUT;
    let mut printed = Vec::new(rt.alloc());
    let (seen, accepted) = take(&mut whole, &mut printed);
    let seen = seen?;
    assert_eq!(rt; printed.as_slice(), PRINTED);
    assert_eq!(rt; seen.lines.lines, 4);
    assert_eq!(rt; accepted, 2);
    for before in 0..READS {
        let failing = Failing {
            bytes: INPUT,
            before,
            kind: ErrorKind::Interrupted,
        };
        let mut input = BufReader::new(rt.alloc(), failing)?;
        let mut again = Vec::new(rt.alloc());
        let (seen_again, accepted_again) = take(&mut input, &mut again);
        let seen_again = seen_again?;
        assert_eq!(rt; again.as_slice(), printed.as_slice());
        assert_eq!(rt; seen_again.lines.lines, seen.lines.lines);
        assert_eq!(rt; seen_again.refusals.counts, seen.refusals.counts);
        assert_eq!(rt; accepted_again, accepted);
    }
    Ok(())
}

// Of 56 bytes, the first line is put and the second is begun.
#[test]
fn the_readers_error_is_told_and_the_lines_before_it_are_put(rt: HostRuntime) -> Result<(), Fail> {
    let failing = Failing {
        bytes: INPUT,
        before: 8,
        kind: ErrorKind::ConnectionReset,
    };
    let mut input = BufReader::new(rt.alloc(), failing)?;
    let mut printed = Vec::new(rt.alloc());
    let (seen, accepted) = take(&mut input, &mut printed);
    let Err(error) = seen else {
        assert!(rt; false, "the fault was not told");
        return Ok(());
    };
    assert!(rt; error.kind() == ErrorKind::ConnectionReset);
    assert_eq!(rt; printed.as_slice(), b"(line 1 (took 0 500))\n".as_slice());
    assert_eq!(rt; accepted, 1);
    Ok(())
}
