// What a line is gathered in.
ghost use Rattle.std.specs.Prelude.{◌≤◌};

mod filling;

/// The first 255 bytes of a line, or what has come of them: a line of any length takes no more
/// memory.
#[derive(Clone, Copy)]
pub struct LineBuffer {
    bytes: [u8; 255],
    len: usize,
    ghost inside: { len ≤ 255 },
}
