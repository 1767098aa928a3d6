// The bytes of which a text is made.
#[derive(Clone, Copy, PartialEq, Eq, Debug)]
pub enum Class {
    // Printable, and not a space.
    Graphic,
    // A to Z.
    Letter,
}
