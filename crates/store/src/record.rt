// What a store can hold: anything with a key of 64 bits.
ghost use Rattle.std.specs.Prelude.{◌≡◌, ℕ, ◌+◌, ◌-◌, ◌^◌, ◌<◌, min};

pub trait Record: Copy {
    ghost key: { Self → ℕ };

    fn key(&self) -> u64
        ensures { result ≡ key self.now };

    ghost narrow: { (r : Self) → key r < 2 ^ 64 };
}

// The key to go on from after a record; past the greatest key there is none, and it stays.
pub(crate) fn next_key<R: Record>(item: &R) -> u64
    ensures { result ≡ min (R.Record.key item.now + 1) (2 ^ 64 - 1) }
{
    item.key().saturating_add(1)
}
