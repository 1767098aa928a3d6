// Two tallies of the same records, in one walk.
#[derive(Clone, Copy, PartialEq, Eq, Debug)]
pub struct Both<A, B> {
    pub first: A,
    pub second: B,
}
