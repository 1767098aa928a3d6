// Why a store takes no record.
#[derive(Clone, Copy, PartialEq, Eq, Debug)]
pub enum InsertRefusal {
    // the key is held
    Taken,
    // as many records are held as the limit allows
    Full,
}

#[derive(Clone, Copy, PartialEq, Eq, Debug)]
pub enum ReplaceRefusal {
    // the key is not held
    Missing,
}
