//! The loads.
ghost use Rattle.std.specs.Prelude.{◌≡◌, Some};
ghost use Rattle.churn.specs.Names.{load_name, load_meant};

use std::fmt;

/// How the IDs of a load follow one another, and in which order they die.
#[derive(Clone, Copy, PartialEq, Eq, Debug)]
pub enum Load {
    /// IDs that rise with gaps of 1 to 40, and die in random order.
    Gaps,
    /// IDs that rise by one, first in first out.
    Queue,
    /// IDs that rise by one, and die in random order.
    Rising,
    /// IDs at random, and they die in random order.
    Scattered,
}

/// Each load, in the order that they run in.
pub const LOADS: [Load; 4] = [Load::Gaps, Load::Queue, Load::Rising, Load::Scattered];

/// The load of a name.
pub fn load_of(word: &[u8]) -> Option<Load>
    ensures { result ≡ load_meant word.now }
{
    match word {
        b"gaps" => Some(Load::Gaps),
        b"queue" => Some(Load::Queue),
        b"rising" => Some(Load::Rising),
        b"scattered" => Some(Load::Scattered),
        _ => None,
    }
}

impl fmt::Display for Load {
    ghost output = { λ load. Some (load_name load) };

    fn fmt<W: fmt::Write>(&self, f: &mut fmt::Formatter<W>) -> fmt::Result {
        f.write_str(match self {
            Load::Gaps => "gaps",
            Load::Queue => "queue",
            Load::Rising => "rising",
            Load::Scattered => "scattered",
        })
    }
}
