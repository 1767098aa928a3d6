//! The classes of bytes.

/// What a byte is. Each of the 256 bytes is of one class.
#[derive(Clone, Copy, PartialEq, Eq, Debug)]
pub enum ByteClass {
    /// 0 to 9.
    Digit,
    /// A to Z.
    Letter,
    /// Any other that is printable, and not a space.
    Sign,
    /// The space.
    Space,
    /// Not printable.
    Other,
}
