//! Why no store is opened over lent slots.

/// A slot is a row and its tag, and these are not as many rows as tags. Both come back as they
/// were.
#[derive(Drop)]
pub struct UnevenSlots<'a, R> {
    pub tags: &'a mut [u8],
    pub rows: &'a mut [R],
}
