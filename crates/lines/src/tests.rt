//! When what is printed is written out.
use crate::running::run;
use std::io;
use std::io::{BufReader, Read, Write};
use std::test::Fail;

// Gives three bytes at a time.
#[derive(Drop)]
struct Dripping<'a>(&'a [u8]);

impl Read for Dripping<'_> {
    fn read(&mut self, buf: &mut [u8]) -> io::Result<usize> {
        let room = buf.len().min(3);
        self.0.read(&mut buf[..room])
    }
}

// Keeps how many bytes had been written at each flush.
#[derive(Drop)]
struct Flushes {
    written: usize,
    at: Vec<usize>,
}

impl Write for Flushes {
    fn write(&mut self, buf: &[u8]) -> io::Result<usize> {
        self.written = self.written.saturating_add(buf.len());
        Ok(buf.len())
    }

    fn flush(&mut self) -> io::Result<()> {
        self.at.push(self.written)?;
        Ok(())
    }
}

#[test]
fn a_piece_is_written_out_before_the_next(rt: HostRuntime) -> Result<(), Fail> {
    let mut input = BufReader::new(rt.alloc(), Dripping(b"ab\ncd\ne"))?;
    let mut output = Flushes {
        written: 0,
        at: Vec::new(rt.alloc()),
    };
    run(&mut input, &mut output)?;
    // "(line 1 (refused 1))" and a line end are 21 bytes, and the totals 45.
    assert_eq!(rt; output.at.as_slice(), [21, 42, 42, 108].as_slice());
    Ok(())
}
