// Spaces at the end of a text.
ghost use Rattle.std.specs.Prelude.{◌≡◌, ℕ, ◌+◌, ◌<◌, ◌≤◌, length, ◌≢◌, slice_index};
ghost use Rattle.forms.specs.Texts.{without_spaces};

// The bytes without the spaces at their end.
#[tactic(auto, using(crate::proofs::Trimming::trims))]
pub(crate) fn trimmed(bytes: &[u8]) -> &[u8]
    ensures { result.now ≡ without_spaces bytes.now }
{
    &bytes[..text_end(bytes)]
}

// The place behind the last byte that is no space.
fn text_end(bytes: &[u8]) -> usize
    ensures inside { result ≤ length bytes.now }
    ensures spaces { (k : ℕ) → result ≤ k → k < length bytes.now → slice_index bytes.now k ≡ 32 }
    ensures last { (k : ℕ) → k + 1 ≡ result → slice_index bytes.now k ≢ 32 }
{
    match bytes.iter().rposition(|byte| *byte != b' ') {
        Some(last) => last + 1,
        None => 0,
    }
}
