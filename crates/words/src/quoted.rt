// Words as a complaint shows them.
ghost use Rattle.std.specs.Prelude.{◌≡◌, Some};
ghost use Rattle.layout.specs.Bytes.{is_printable};
ghost use Rattle.words.specs.Quotes.{byte_text, bytes_text, quoted_text};

use fields::table::look_up;
use layout::byte_class::ByteClass;
use std::fmt;

// Bytes between quotation marks: printable ASCII on one line, whatever they are.
#[derive(Clone, Copy, Drop)]
pub struct Quoted<'a>(pub &'a [u8]);

impl fmt::Display for Quoted<'_> {
    ghost output = { λ q. Some (quoted_text q.0.now) };

    fn fmt<W: fmt::Write>(&self, f: &mut fmt::Formatter<W>) -> fmt::Result {
        let bytes = BytesForm(self.0);
        write!(f, "\"{bytes}\"")
    }
}

#[derive(Clone, Copy, Drop)]
struct BytesForm<'a>(&'a [u8]);

impl fmt::Display for BytesForm<'_> {
    ghost output = { λ b. Some (bytes_text b.0.now) };

    fn fmt<W: fmt::Write>(&self, f: &mut fmt::Formatter<W>) -> fmt::Result {
        for byte in self.0 {
            let form = ByteForm(*byte);
            write!(f, "{form}")?;
        }
        Ok(())
    }
}

#[derive(Clone, Copy, Drop)]
struct ByteForm(u8);

impl fmt::Display for ByteForm {
    ghost output = { λ b. Some (byte_text b.0) };

    fn fmt<W: fmt::Write>(&self, f: &mut fmt::Formatter<W>) -> fmt::Result {
        let byte = self.0;
        match byte {
            b'"' => f.write_str("\\\""),
            b'\\' => f.write_str("\\\\"),
            _ if shows(byte) => f.write_char(char::from(byte)),
            _ => {
                let (high, low) = (byte / 16, byte % 16);
                write!(f, "\\x{high:x}{low:x}")
            }
        }
    }
}

// Whether the byte is printable.
#[tactic(auto, unfolding(layout::specs::Bytes::class_of))]
fn shows(byte: u8) -> bool
    ensures { result ≡ is_printable byte }
{
    !matches!(look_up(byte).class, ByteClass::Other)
}
