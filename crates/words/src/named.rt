// A reader or a writer whose errors bear its name.
ghost use Rattle.std.specs.Prelude.{◌≡◌};
ghost use Rattle.std.specs.IoError.{error_kind};

use std::alloc::Global;
use std::io;
use std::io::{Error, Read, Write};

// Reads and writes what the one within does.
#[derive(Drop)]
pub struct Named<T> {
    name: &'static str,
    heap: Global,
    inner: T,
}

impl<T> Named<T> {
    pub fn new(name: &'static str, heap: Global, inner: T) -> Named<T>
        ensures name { result.name.now ≡ name.now }
        ensures inner { result.inner ≡ inner }
    {
        Named { name, heap, inner }
    }
}

impl<R: Read> Read for Named<R> {
    ghost remaining = { λ n. R.remaining n.inner };

    fn read(&mut self, buf: &mut [u8]) -> io::Result<usize> {
        match self.inner.read(buf) {
            Ok(read) => Ok(read),
            Err(error) => Err(with_name(self.name, self.heap, error)),
        }
    }
}

impl<W: Write> Write for Named<W> {
    ghost contents = { λ n. W.contents n.inner };

    fn write(&mut self, buf: &[u8]) -> io::Result<usize> {
        match self.inner.write(buf) {
            Ok(written) => Ok(written),
            Err(error) => Err(with_name(self.name, self.heap, error)),
        }
    }

    fn flush(&mut self) -> io::Result<()> {
        match self.inner.flush() {
            Ok(()) => Ok(()),
            Err(error) => Err(with_name(self.name, self.heap, error)),
        }
    }
}

// Of the same kind, by which a call that was interrupted is made again.
fn with_name(name: &'static str, heap: Global, error: Error) -> Error
    ensures { error_kind result ≡ error_kind error }
{
    match format!(in heap; "{name}: {error}") {
        Ok(text) => Error::new(error.kind(), text.as_str()),
        Err(_) => error,
    }
}
