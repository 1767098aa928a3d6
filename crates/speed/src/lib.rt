//! A whole buffer of lines, read and summed up in one call.
#![tactic(auto)]

ghost use Rattle.std.specs.Prelude.{◌≡◌};
ghost use Rattle.speed.specs.Checksum.{checksum};

mod sum;

use capture::split::split_line;
use sum::add_line;

/// Reads every line of the buffer that ends in 0x0A, and answers the checksum of what the lines
/// say.
#[unsafe(no_mangle)]
pub extern "C" fn read_capture(buf: &[u8]) -> u64
    ensures { result ≡ checksum buf.now }
{
    let mut sum = 0;
    let mut rest = buf;
    loop {
        let (line, next) = split_line(rest);
        let Some(more) = next else {
            return sum;
        };
        sum = add_line(sum, line);
        rest = more;
    }
}
