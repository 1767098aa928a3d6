// The words of a program's command line.
ghost use Rattle.std.specs.Prelude.{◌≡◌, map, IfOk, IfErr};
ghost use Rattle.std.specs.IoError.{error_kind};

use std::alloc::Global;
use std::env::{Env, FillError};
use std::io;
use std::io::ErrorKind;

// Most words are shorter than that.
const ROOM: usize = 256;

// Without the program's own name. They are bytes: nothing says that they are UTF-8. Only the memory can fail.
pub fn arguments(rt: &HostRuntime) -> io::Result<Vec<Vec<u8>>>
    ensures { IfErr result (λ error. error_kind error ≡ ErrorKind.OutOfMemory) }
{
    let mut words = Vec::new(rt.alloc());
    for place in 1..usize::MAX {
        let Some(word) = argument(rt, place)? else {
            break;
        };
        if words.push(word).is_err() {
            return Err(ErrorKind::OutOfMemory.into());
        }
    }
    Ok(words)
}

/// Words as slices, by which they are read. Only the memory can fail.
pub fn bytes_of<'a>(heap: Global, words: &'a [Vec<u8>]) -> io::Result<Vec<&'a [u8]>>
    ensures slices { IfOk result (λ slices.
        map (λ slice. slice.now) slices.items ≡ map (λ word. word.items) words.now) }
    ensures memory { IfErr result (λ error. error_kind error ≡ ErrorKind.OutOfMemory) }
{
    let mut slices = Vec::new(heap);
    for word in words {
        if slices.push(word.as_slice()).is_err() {
            return Err(ErrorKind::OutOfMemory.into());
        }
    }
    Ok(slices)
}

// The word at a place, if there is one.
fn argument(rt: &HostRuntime, place: usize) -> io::Result<Option<Vec<u8>>>
    ensures { IfErr result (λ error. error_kind error ≡ ErrorKind.OutOfMemory) }
{
    let mut room = ROOM;
    for _ in 0..usize::BITS {
        let mut bytes = vec![in rt.alloc(); 0u8; room]?;
        match rt.arg(place, bytes.as_mut_slice()) {
            Ok(count) => {
                bytes.truncate(count);
                return Ok(Some(bytes));
            }
            Err(FillError::NotPresent) => return Ok(None),
            Err(FillError::TooLong) => room = room.saturating_mul(2),
        }
    }
    Err(ErrorKind::OutOfMemory.into())
}
