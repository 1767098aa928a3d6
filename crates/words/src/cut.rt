//! The words of a line: what stands between its spaces.
ghost use Rattle.std.specs.Prelude.{◌≡◌, Some, None, ℕ, ◌<◌, ◌≤◌, [], ◌∷◌, length, map, MatchOption, IfSome, IfOk, IfErr, ◌≢◌, slice_index};
ghost use Rattle.std.specs.IoError.{error_kind};
ghost use Rattle.words.specs.Words.{words, words_after, no_more, bare, lone};

use std::alloc::Global;
use std::io;
use std::io::ErrorKind;

/// The words of a line, one after the other. Only the memory can fail.
pub fn list_words<'a>(heap: Global, line: &'a [u8]) -> io::Result<Vec<&'a [u8]>>
    ensures words { IfOk result (λ slices.
        map (λ slice. slice.now) slices.items ≡ words line.now) }
    ensures memory { IfErr result (λ error. error_kind error ≡ ErrorKind.OutOfMemory) }
{
    let mut slices = Vec::new(heap);
    let mut rest = line;
    loop {
        let (word, more) = next_word(rest);
        if slices.push(word).is_err() {
            return Err(ErrorKind::OutOfMemory.into());
        }
        let Some(next) = more else {
            return Ok(slices);
        };
        rest = next;
    }
}

// The first word, and the bytes of the others, if there are any.
fn next_word(bytes: &[u8]) -> (&[u8], Option<&[u8]>)
    ensures words { MatchOption result.1
        (words bytes.now ≡ result.0.now ∷ [])
        (λ x. words bytes.now ≡ result.0.now ∷ words x.now) }
    ensures less { IfSome result.1 (λ x. length x.now < length bytes.now) }
{
    let end = word_end(bytes);
    let word = &bytes[..end];
    if end < bytes.len() {
        (word, Some(&bytes[end + 1..]))
    } else {
        (word, None)
    }
}

/// The first word, and what stands after it with the space before that.
pub fn cut(bytes: &[u8]) -> (&[u8], &[u8])
    ensures { words bytes.now ≡ result.0.now ∷ words_after result.1.now }
{
    bytes.split_at(word_end(bytes))
}

// The place of the first space, or how many bytes there are where there is none.
fn word_end(bytes: &[u8]) -> usize
    ensures within { result ≤ length bytes.now }
    ensures before { (k : ℕ) → k < result → slice_index bytes.now k ≢ 32 }
    ensures found { result < length bytes.now → slice_index bytes.now result ≡ 32 }
{
    bytes
        .iter()
        .position(|byte| *byte == b' ')
        .unwrap_or(bytes.len())
}

/// What stands after a space, if there is one.
pub fn after_space(rest: &[u8]) -> Option<&[u8]>
    ensures { MatchOption result (words_after rest.now ≡ [])
        (λ x. words_after rest.now ≡ words x.now) }
{
    rest.strip_prefix(b" ")
}

// Whether no word stands there.
pub fn ends(rest: &[u8]) -> bool
    ensures { result ≡ no_more (words_after rest.now) }
{
    lacks_space(rest)
}

// What is meant, if no word stands there.
pub fn alone<T: Copy>(meant: T, rest: &[u8]) -> Option<T>
    ensures { result ≡ bare meant (words_after rest.now) }
{
    ends(rest).then_some(meant)
}

fn lacks_space(rest: &[u8]) -> bool
    ensures { result ≡ no_more (words_after rest.now) }
{
    after_space(rest).is_none()
}

// The word behind a space, if there is one and nothing else.
pub fn one_word(rest: &[u8]) -> Option<&[u8]>
    ensures { MatchOption result (lone (words_after rest.now) ≡ None) (λ w. lone (words_after rest.now) ≡ Some w.now) }
{
    let line = after_space(rest)?;
    let (word, more) = cut(line);
    ends(more).then_some(word)
}
