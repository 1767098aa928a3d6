//! The table of the 256 bytes: which class each is of, and what it is worth as a digit.
ghost use Rattle.std.specs.Prelude.{◌≡◌};
ghost use Rattle.fields.specs.Rows.{row_of};

use layout::byte_class::ByteClass::{self, Digit, Letter, Other, Sign, Space};

/// What a byte is.
#[derive(Clone, Copy)]
pub struct Row {
    /// Digit, letter, sign, space, or not printable.
    pub class: ByteClass,
    /// 0 to 35; 36 of a byte that is no digit.
    pub worth: u8,
}

/// The row of a byte. Whoever reads digits, letters or printable bytes asks here.
#[inline(always)]
pub fn look_up(byte: u8) -> &'static Row
    ensures { result.now ≡ row_of byte }
{
    &ROWS[byte as usize]
}

const SPACE: Row = Row {
    class: Space,
    worth: 36,
};

const SIGN: Row = Row {
    class: Sign,
    worth: 36,
};

const OTHER: Row = Row {
    class: Other,
    worth: 36,
};

// By rising byte: one line or more for each run of bytes of one class.
#[rattlefmt::skip]
static ROWS: [Row; 256] = [
    OTHER, OTHER, OTHER, OTHER, OTHER, OTHER, OTHER, OTHER, OTHER, OTHER, OTHER, OTHER, OTHER,
    OTHER, OTHER, OTHER, OTHER, OTHER, OTHER, OTHER, OTHER, OTHER, OTHER, OTHER, OTHER, OTHER,
    OTHER, OTHER, OTHER, OTHER, OTHER, OTHER,
    SPACE, SIGN, SIGN, SIGN, SIGN, SIGN, SIGN, SIGN, SIGN, SIGN, SIGN, SIGN, SIGN, SIGN, SIGN,
    SIGN,
    Row { class: Digit, worth: 0 }, Row { class: Digit, worth: 1 },
    Row { class: Digit, worth: 2 }, Row { class: Digit, worth: 3 },
    Row { class: Digit, worth: 4 }, Row { class: Digit, worth: 5 },
    Row { class: Digit, worth: 6 }, Row { class: Digit, worth: 7 },
    Row { class: Digit, worth: 8 }, Row { class: Digit, worth: 9 },
    SIGN, SIGN, SIGN, SIGN, SIGN, SIGN, SIGN,
    Row { class: Letter, worth: 10 }, Row { class: Letter, worth: 11 },
    Row { class: Letter, worth: 12 }, Row { class: Letter, worth: 13 },
    Row { class: Letter, worth: 14 }, Row { class: Letter, worth: 15 },
    Row { class: Letter, worth: 16 }, Row { class: Letter, worth: 17 },
    Row { class: Letter, worth: 18 }, Row { class: Letter, worth: 19 },
    Row { class: Letter, worth: 20 }, Row { class: Letter, worth: 21 },
    Row { class: Letter, worth: 22 }, Row { class: Letter, worth: 23 },
    Row { class: Letter, worth: 24 }, Row { class: Letter, worth: 25 },
    Row { class: Letter, worth: 26 }, Row { class: Letter, worth: 27 },
    Row { class: Letter, worth: 28 }, Row { class: Letter, worth: 29 },
    Row { class: Letter, worth: 30 }, Row { class: Letter, worth: 31 },
    Row { class: Letter, worth: 32 }, Row { class: Letter, worth: 33 },
    Row { class: Letter, worth: 34 }, Row { class: Letter, worth: 35 },
    SIGN, SIGN, SIGN, SIGN, SIGN, SIGN,
    SIGN, SIGN, SIGN, SIGN, SIGN, SIGN, SIGN, SIGN, SIGN, SIGN, SIGN, SIGN, SIGN, SIGN, SIGN,
    SIGN, SIGN, SIGN, SIGN, SIGN, SIGN, SIGN, SIGN, SIGN, SIGN, SIGN, SIGN, SIGN, SIGN, SIGN,
    OTHER, OTHER, OTHER, OTHER, OTHER, OTHER, OTHER, OTHER, OTHER, OTHER, OTHER, OTHER, OTHER,
    OTHER, OTHER, OTHER, OTHER, OTHER, OTHER, OTHER, OTHER, OTHER, OTHER, OTHER, OTHER, OTHER,
    OTHER, OTHER, OTHER, OTHER, OTHER, OTHER, OTHER, OTHER, OTHER, OTHER, OTHER, OTHER, OTHER,
    OTHER, OTHER, OTHER, OTHER, OTHER, OTHER, OTHER, OTHER, OTHER, OTHER, OTHER, OTHER, OTHER,
    OTHER, OTHER, OTHER, OTHER, OTHER, OTHER, OTHER, OTHER, OTHER, OTHER, OTHER, OTHER, OTHER,
    OTHER, OTHER, OTHER, OTHER, OTHER, OTHER, OTHER, OTHER, OTHER, OTHER, OTHER, OTHER, OTHER,
    OTHER, OTHER, OTHER, OTHER, OTHER, OTHER, OTHER, OTHER, OTHER, OTHER, OTHER, OTHER, OTHER,
    OTHER, OTHER, OTHER, OTHER, OTHER, OTHER, OTHER, OTHER, OTHER, OTHER, OTHER, OTHER, OTHER,
    OTHER, OTHER, OTHER, OTHER, OTHER, OTHER, OTHER, OTHER, OTHER, OTHER, OTHER, OTHER, OTHER,
    OTHER, OTHER, OTHER, OTHER, OTHER, OTHER, OTHER, OTHER, OTHER, OTHER, OTHER, OTHER,
];
