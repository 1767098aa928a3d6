// Filling a line's buffer, reading it and emptying it.
ghost use Rattle.std.specs.Prelude.{◌≡◌, ◌+◌, ◌≤◌, [], ◌++◌, length, take, ◌==◌};
ghost use Rattle.capture.specs.Held.{held};

use crate::buffer::LineBuffer;

impl LineBuffer {
    pub fn new() -> LineBuffer
        ensures { held result ≡ [] }
    {
        LineBuffer {
            bytes: [0; 255],
            len: 0,
        }
    }

    // Adds a piece to the line; what of it goes beyond 255 bytes is let go.
    pub fn extend(&mut self, part: &[u8])
        ensures { held self.new ≡ take 255 (held self.old ++ part.now) }
    {
        let more = self.fitting(part);
        self.append(more);
    }

    // What of the piece there is room for.
    fn fitting<'a>(&self, part: &'a [u8]) -> &'a [u8]
        ensures value { held self.now ++ result.now ≡ take 255 (held self.now ++ part.now) }
        ensures bound { self.now.len + length result.now ≤ 255 }
    {
        let room = 255 - self.len;
        &part[..room.min(part.len())]
    }

    fn append(&mut self, more: &[u8])
        requires { self.old.len + length more.now ≤ 255 }
        ensures { held self.new ≡ held self.old ++ more.now }
    {
        let end = self.len + more.len();
        self.bytes[self.len..end].copy_from_slice(more);
        self.len = end;
    }

    // The line's bytes.
    pub fn line(&self) -> &[u8]
        ensures { result.now ≡ held self.now }
    {
        &self.bytes[..self.len]
    }

    // Lets the line go, for the next.
    pub fn clear(&mut self)
        ensures { held self.new ≡ [] }
    {
        self.len = 0;
    }

    pub fn is_empty(&self) -> bool
        ensures { result ≡ (length (held self.now) == 0) }
    {
        self.len == 0
    }
}
