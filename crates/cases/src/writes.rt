//! Writes messages at places of a buffer of 32 bytes, and prints what was answered and what the
//! buffer holds then.
use forms::refusal::Refusal;
use messages::code::{Display, Side};
use messages::message::Message;
use messages::record::{AddOrder, Cancel, Terms};
use pitch::writer::write;
use std::io;
use std::io::Write;

const EMPTY: [u8; 32] = [b'.'; 32];

// The symbol ABCD with its four spaces.
const ABCD: u64 = 0x4142_4344_2020_2020;

/// Prints each write, a line for one.
pub(crate) fn show<W: Write>(output: &mut W) -> io::Result<()> {
    show_places(output)?;
    show_fields(output)?;
    output.flush()
}

// A line of 27 bytes at places where it just fits, just does not, and at and past the end.
fn show_places<W: Write>(output: &mut W) -> io::Result<()> {
    let cancel = Message::OrderCancel(Cancel {
        time: 34_200_020,
        order: 361,
        shares: 300,
    });
    for place in [0, 5, 6, 32, 33, usize::MAX] {
        show_write(output, &cancel, place)?;
    }
    Ok(())
}

// A record that lacks nothing but room, and records that no line gives: the first such field is
// named, also where there is no room.
fn show_fields<W: Write>(output: &mut W) -> io::Result<()> {
    let good = Terms {
        time: 34_200_000,
        order: 361,
        side: Side::Buy,
        shares: 500,
        symbol: ABCD,
        price: 102_500,
    };
    let cases = [
        good,
        Terms {
            time: 86_400_000,
            ..good
        },
        Terms {
            order: 4_738_381_338_321_616_896,
            ..good
        },
        Terms { shares: 0, ..good },
        Terms {
            shares: 1_000_000,
            ..good
        },
        // Seven letters, which the short form has no room for.
        Terms {
            symbol: 0x4142_4344_4546_4720,
            ..good
        },
        Terms { symbol: 0, ..good },
    ];
    for terms in cases {
        show_write(output, &quoted(terms), 0)?;
    }
    let dear = Terms {
        price: 10_000_000_000,
        ..good
    };
    show_write(output, &quoted(dear), 33)
}

fn quoted(terms: Terms<Side>) -> Message {
    Message::AddShort(AddOrder {
        terms,
        display: Display::Quoted,
    })
}

fn show_write<W: Write>(output: &mut W, message: &Message, place: usize) -> io::Result<()> {
    let mut buf = EMPTY;
    let answer = write(message, &mut buf, place);
    let held = std::str::from_utf8(&buf).unwrap_or("not text");
    match answer {
        Ok(size) => writeln!(output, "(place {place} (wrote {size}) {held})"),
        Err(fault) => {
            let refusal = Refusal(&fault);
            writeln!(output, "(place {place} {refusal} {held})")
        }
    }
}
