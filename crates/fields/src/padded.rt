// What a padded field is.
ghost use Rattle.std.specs.Prelude.{◌≤◌};

use layout::class::Class;

// At least so many bytes of a class and then only spaces, `width` bytes in all. Its number is that of its bytes, filled up
// with spaces to `whole` bytes, in base 256, the first byte highest. So two widths of one text have one number.
#[derive(Clone, Copy)]
pub struct Text {
    pub class: Class,
    pub least: u8,
    pub width: u8,
    pub whole: u8,
    ghost inside: { width ≤ whole },
    ghost fits: { whole ≤ 8 },
}

pub const SHORT_SYMBOL: Text = Text {
    class: Class::Graphic,
    least: 1,
    width: 6,
    whole: 8,
};

pub const LONG_SYMBOL: Text = Text {
    class: Class::Graphic,
    least: 1,
    width: 8,
    whole: 8,
};

// A market participant; blank where the order has none.
pub const PARTICIPANT: Text = Text {
    class: Class::Letter,
    least: 0,
    width: 4,
    whole: 4,
};
