//! Writing bytes over those of a buffer.
ghost use Rattle.std.specs.Prelude.{◌≡◌, ◌<◌, ◌≤◌, [], ◌∷◌, length};
ghost use Rattle.layout.specs.Bytes.{byte_within};
ghost use Rattle.layout.specs.Digits.{digit_bytes};
ghost use Rattle.layout.specs.Slots.{over};

// Writes so many digits of the value over the bytes at the offset; where they do not fit, nothing.
pub(crate) fn put_digits(room: &mut [u8], offset: u8, base: u64, count: u8, value: u64)
    requires { (2 ≤ base) × (base ≤ 256) }
    ensures { room.new ≡ over offset (digit_bytes base count value) room.old }
{
    let start = offset as usize;
    let end = start + count as usize;
    if end <= room.len() {
        fill(&mut room[start..end], base, value);
    }
}

// Fills the part with the value's last digits, from the last to the first.
fn fill(part: &mut [u8], base: u64, value: u64)
    requires { (2 ≤ base) × (base ≤ 256) }
    ensures { part.new ≡ digit_bytes base (length part.old) value }
{
    let mut left = value;
    for place in (0..part.len()).rev() {
        part[place] = byte_in(base, left % base);
        left /= base;
    }
}

// The byte that stands for a digit of the base: up to base 36 a digit or a letter, above it the
// byte itself.
fn byte_in(base: u64, digit: u64) -> u8
    requires { (digit < base) × (base ≤ 256) }
    ensures { result ≡ byte_within base digit }
{
    if base > 36 {
        digit as u8
    } else if digit < 10 {
        b'0' + digit as u8
    } else {
        b'A' - 10 + digit as u8
    }
}

// Writes a byte over the one at the offset; where there is none, nothing.
pub(crate) fn put_byte(room: &mut [u8], offset: u8, byte: u8)
    ensures { room.new ≡ over offset (byte ∷ []) room.old }
{
    let at = offset as usize;
    if at < room.len() {
        room[at] = byte;
    }
}
