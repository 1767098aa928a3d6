//! Padded fields: read, checked and written.
ghost use Rattle.std.specs.Prelude.{◌≡◌, ◌-◌, ◌/◌, ◌^◌, ◌<◌, ◌≤◌, not, ◌&&◌, replicate, if◌then◌else◌, nat_le};
ghost use Rattle.std.specs.Int.Digits.{number_from_digits_after};
ghost use Rattle.layout.specs.Bytes.{is_blank, has_class};
ghost use Rattle.fields.specs.Slots.{text_slot};

use crate::field::Field;
use crate::padded::Text;
use crate::place::front;
use crate::put::put_digits;
use crate::table::look_up;
use layout::byte_class::ByteClass;
use layout::class::Class;

impl Field for Text {
    type Value = u64;

    ghost slot = { text_slot };

    ghost number = { λ _ v. v };

    fn width(self) -> u8 {
        self.width
    }

    // Byte by byte, up to the first that breaks the rule.
    #[inline(always)]
    fn scan(self, line: &[u8]) -> Result<u64, u8> {
        let held = front(line, self.width);
        let mut value = 0;
        let mut spaced = false;
        for (place, byte) in held.iter().enumerate() {
            let class = look_up(*byte).class;
            if !self.fits(class, place as u8, spaced) {
                return Err(place as u8);
            }
            spaced = is_space(class);
            value = value * 256 + *byte as u64;
        }
        if held.len() < self.width as usize {
            return Err(held.len() as u8);
        }
        Ok(filled(value, self.whole - self.width))
    }

    // Any text that was read.
    fn allows(self, _value: &u64) -> bool {
        true
    }

    fn allowed(self, value: u64) -> Option<u64> {
        Some(value)
    }

    // Whether the number's own bytes are read as that number.
    fn gives(self, value: &u64) -> bool {
        let mut bytes = [0u8; 8];
        self.put(&mut bytes, 0, value);
        self.scan(&bytes) == Ok(*value)
    }

    fn put(self, room: &mut [u8], offset: u8, value: &u64) {
        let kept = unfilled(*value, self.whole - self.width);
        put_digits(room, offset, 256, self.width, kept);
    }
}

impl Text {
    // Whether a byte of that class may stand at that place, after a space or not.
    fn fits(self, class: ByteClass, place: u8, spaced: bool) -> bool
        ensures { result ≡ (if is_blank class then nat_le self.least place
            else has_class self.class class && not spaced) }
    {
        if is_space(class) {
            self.least <= place
        } else {
            has(self.class, class) && !spaced
        }
    }
}

fn is_space(class: ByteClass) -> bool
    ensures { result ≡ is_blank class }
{
    matches!(class, ByteClass::Space)
}

// Whether a text has bytes of that class.
fn has(text: Class, class: ByteClass) -> bool
    ensures { result ≡ has_class text class }
{
    match text {
        Class::Graphic => {
            matches!(
                class,
                ByteClass::Digit | ByteClass::Letter | ByteClass::Sign
            )
        }
        Class::Letter => matches!(class, ByteClass::Letter),
    }
}

// The number with so many spaces after it. Step by step, here and below: 256^8 does not fit a
// `u64`.
fn filled(value: u64, count: u8) -> u64
    requires { (count ≤ 8) × (value < 256 ^ (8 - count)) }
    ensures { result ≡ number_from_digits_after 256 value (replicate count 32) }
{
    let mut full = value;
    for _ in 0..count {
        full = full * 256 + 32;
    }
    full
}

// The number without its last bytes.
fn unfilled(value: u64, count: u8) -> u64
    ensures { result ≡ value / 256 ^ count }
{
    let mut left = value;
    for _ in 0..count {
        left /= 256;
    }
    left
}
