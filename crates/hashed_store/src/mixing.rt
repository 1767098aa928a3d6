// The mixed bits of a key, and its tag.
ghost use Rattle.std.specs.Prelude.{◌≡◌};
ghost use Rattle.hashed_store.specs.Mixing.{mixed, tag_of};

// By a multiplication, since a division takes as long as a short search.
#[tactic(auto, unfolding(crate::specs::Mixing::mixed))]
pub(crate) fn mixed(key: u64) -> u64
    ensures { result ≡ mixed key }
{
    key.wrapping_mul(11_400_714_819_323_198_485)
}

// Tells most keys apart that have homes near each other.
#[tactic(auto, unfolding(crate::specs::Mixing::tag_of))]
pub(crate) fn tag(key: u64) -> u8
    ensures { result ≡ tag_of key }
{
    128 + (mixed(key) >> 34 & 127) as u8
}
