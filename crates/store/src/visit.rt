// One step of going through a store in its own order.
#[derive(Clone, Copy)]
pub struct Visit<R> {
    pub record: R,
    // the place to go on from; none where nothing can follow
    pub next: Option<u64>,
}
