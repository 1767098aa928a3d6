// Writing a message back.
ghost use Rattle.std.specs.Prelude.{◌≡◌, length, take, Decides};
ghost use Rattle.messages.specs.Refusals.{LaidOut};

use messages::message::Message;
use pitch::writer::write;

// Whether the message, written, is that very line: just where the line is laid out as the message.
pub fn comes_back(message: &Message, line: &[u8]) -> bool
    ensures { Decides result (LaidOut line.now message.now) }
{
    // Longer than the lines of every kind.
    let mut room = [0u8; 64];
    match write(message, &mut room, 0) {
        Ok(size) => is_front(&room, size, line),
        Err(_) => false,
    }
}

// Whether the line is what stands in the first so many bytes of the room.
fn is_front(room: &[u8], size: usize, line: &[u8]) -> bool
    ensures { Decides result ((length line.now ≡ size) × (line.now ≡ take size room.now)) }
{
    line.len() == size && begins(room, line)
}

// Whether the line's bytes stand at the front of the room.
fn begins(room: &[u8], line: &[u8]) -> bool
    ensures { Decides result (line.now ≡ take (length line.now) room.now) }
{
    room.starts_with(line)
}
