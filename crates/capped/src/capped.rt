// A store with a limit of its own.
ghost use Rattle.std.specs.Prelude.{◌≡◌};
ghost use Rattle.capped.specs.Caps.{within};

use store::record::Record;
use store::store::Store;

#[derive(Drop)]
pub struct Capped<S> {
    pub(crate) below: S,
    pub(crate) allotment: u64,
}

impl<S> Capped<S> {
    // The limit is the allotment, or that of the store below where it is less. The store below may hold more already; it keeps what it holds.
    pub fn new<R: Record>(below: S, allotment: u64) -> Capped<S>
    where
        S: Store<R>,
        ensures model { ⟦<Capped<S> as Store<R>>⟧.model result ≡ within allotment (S.Store.model below) }
        ensures below { result.below ≡ below }
    {
        Capped { below, allotment }
    }
}
