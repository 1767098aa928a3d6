// Where a line ends.
ghost use Rattle.std.specs.Prelude.{◌≡◌, ◌<◌, length, Some, None, MatchOption};
ghost use Rattle.memchr.specs.Find.{IsFirstByte, is_byte};
ghost use Rattle.capture.specs.Splits.{before_end, after_end};

use memchr::memchr;

/// What stands before the first line end and what stands after it; without a line end all of it,
/// and nothing.
#[inline(always)]
pub fn split_line(bytes: &[u8]) -> (&[u8], Option<&[u8]>)
    ensures first { result.0.now ≡ before_end bytes.now }
    ensures second { MatchOption result.1 (after_end bytes.now ≡ None) (λ x. (after_end bytes.now ≡ Some x.now) × (length x.now < length bytes.now)) }
{
    match line_end(bytes) {
        Some(end) => (&bytes[..end], Some(&bytes[end + 1..])),
        None => (bytes, None),
    }
}

// The place of the first line end, if there is one.
fn line_end(bytes: &[u8]) -> Option<usize>
    ensures { IsFirstByte (is_byte 10) bytes.now result }
{
    memchr(b'\n', bytes)
}
