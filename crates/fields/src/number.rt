//! Fields of digits: read, checked and written.
ghost use Rattle.std.specs.Prelude.{◌≡◌, ℕ, ◌^◌, ◌≤◌, Ok, Err, IfSome, MatchResult};
ghost use Rattle.layout.specs.Slots.{number, scan_slot};
ghost use Rattle.fields.specs.Slots.{number_slot};

use crate::field::Field;
use crate::numeral::Number;
use crate::place::front;
use crate::put::put_digits;
use crate::table::look_up;

impl<const BASE: u64, const COUNT: u8> Field for Number<BASE, COUNT> {
    type Value = u64;

    ghost slot = { number_slot BASE COUNT };

    ghost number = { λ _ v. v };

    fn width(self) -> u8 {
        COUNT
    }

    #[inline(always)]
    fn scan(self, line: &[u8]) -> Result<u64, u8> {
        match whole::<BASE, COUNT>(line) {
            Some(value) => Ok(value),
            None => step::<BASE, COUNT>(line),
        }
    }

    fn allows(self, value: &u64) -> bool {
        self.low <= *value && *value <= self.high
    }

    fn allowed(self, value: u64) -> Option<u64> {
        self.allows(&value).then_some(value)
    }

    fn gives(self, value: &u64) -> bool {
        self.allows(value)
    }

    fn put(self, room: &mut [u8], offset: u8, value: &u64) {
        put_digits(room, offset, BASE, COUNT, *value);
    }
}

// Byte by byte, up to the first that is no digit.
#[cold]
#[inline(never)]
fn step<const BASE: u64, const COUNT: u8>(line: &[u8]) -> Result<u64, u8>
    requires { (2 ≤ BASE) × (BASE ^ COUNT ≤ 2 ^ 64) }
    ensures { (low : ℕ) (high : ℕ) → MatchResult result
        (λ v. scan_slot (number BASE COUNT low high) line.now ≡ Ok v)
        (λ i. scan_slot (number BASE COUNT low high) line.now ≡ Err i) }
{
    let held = front(line, COUNT);
    let mut value = 0;
    for (place, byte) in held.iter().enumerate() {
        let digit = u64::from(look_up(*byte).worth);
        if digit >= BASE {
            return Err(place as u8);
        }
        value = value * BASE + digit;
    }
    if held.len() < COUNT as usize {
        return Err(held.len() as u8);
    }
    Ok(value)
}

// The number of a field that has nothing but digits. They are counted, and none stops the others:
// so they are read side by side.
#[inline(always)]
fn whole<const BASE: u64, const COUNT: u8>(line: &[u8]) -> Option<u64>
    requires { (2 ≤ BASE) × (BASE ^ COUNT ≤ 2 ^ 64) }
    ensures { IfSome result (λ v. (low : ℕ) (high : ℕ) →
        scan_slot (number BASE COUNT low high) line.now ≡ Ok v) }
{
    let held = line.get(..usize::from(COUNT))?;
    let mut value: u64 = 0;
    let mut digits: u8 = 0;
    for place in 0..held.len() {
        let digit = u64::from(look_up(held[place]).worth);
        digits += u8::from(digit < BASE);
        value = value.wrapping_mul(BASE).wrapping_add(digit);
    }
    if digits == COUNT { Some(value) } else { None }
}
