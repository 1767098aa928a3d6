// What is answered to a line, and how it is shown.
ghost use Rattle.std.specs.Prelude.{◌≡◌, Some};
ghost use Rattle.calls.specs.Replies.{insert_reply, replace_reply, found_reply, front_reply};
ghost use Rattle.calls.specs.Texts.{reply_text, numbered_text};

use records::order::Order;
use std::fmt;
use store::refusal::{InsertRefusal, ReplaceRefusal};

#[derive(Clone, Copy, PartialEq, Eq, Debug)]
pub enum Reply {
    Opened(u64),
    Done,
    Taken,
    Full,
    Missing,
    // an order's key and shares
    Found(u64, u64),
    Nothing,
    Counted(u64),
    Limited(u64),
    Standing,
    Absent,
    NoFront,
    NoneOpen,
    Unknown,
}

impl From<Result<(), InsertRefusal>> for Reply {
    ghost from_gives = { λ a r. r ≡ insert_reply a };

    fn from(answer: Result<(), InsertRefusal>) -> Reply {
        match answer {
            Ok(()) => Reply::Done,
            Err(InsertRefusal::Taken) => Reply::Taken,
            Err(InsertRefusal::Full) => Reply::Full,
        }
    }
}

impl From<Result<(), ReplaceRefusal>> for Reply {
    ghost from_gives = { λ a r. r ≡ replace_reply a };

    fn from(answer: Result<(), ReplaceRefusal>) -> Reply {
        match answer {
            Ok(()) => Reply::Done,
            Err(ReplaceRefusal::Missing) => Reply::Missing,
        }
    }
}

// An order that was found, removed or come to.
impl From<Option<Order>> for Reply {
    ghost from_gives = { λ a r. r ≡ found_reply a };

    fn from(answer: Option<Order>) -> Reply {
        match answer {
            Some(order) => Reply::Found(order.id, order.shares),
            None => Reply::Nothing,
        }
    }
}

// Whether a key stands in front, where there is a front.
impl From<Option<bool>> for Reply {
    ghost from_gives = { λ a r. r ≡ front_reply a };

    fn from(answer: Option<bool>) -> Reply {
        match answer {
            Some(true) => Reply::Standing,
            Some(false) => Reply::Absent,
            None => Reply::NoFront,
        }
    }
}

impl fmt::Display for Reply {
    ghost output = { λ r. Some (reply_text r) };

    fn fmt<W: fmt::Write>(&self, f: &mut fmt::Formatter<W>) -> fmt::Result {
        match *self {
            Reply::Opened(limit) => write!(f, "(opened {limit})"),
            Reply::Done => f.write_str("(done)"),
            Reply::Taken => f.write_str("(taken)"),
            Reply::Full => f.write_str("(full)"),
            Reply::Missing => f.write_str("(missing)"),
            Reply::Found(key, shares) => write!(f, "(record {key} {shares})"),
            Reply::Nothing => f.write_str("(none)"),
            Reply::Counted(count) => write!(f, "(count {count})"),
            Reply::Limited(limit) => write!(f, "(limit {limit})"),
            Reply::Standing => f.write_str("(stands)"),
            Reply::Absent => f.write_str("(absent)"),
            Reply::NoFront => f.write_str("(no front)"),
            Reply::NoneOpen => f.write_str("(none open)"),
            Reply::Unknown => f.write_str("(unknown)"),
        }
    }
}

// An answer with the number of the line that it answers.
#[derive(Clone, Copy, PartialEq, Eq, Debug)]
pub struct Numbered {
    pub number: u64,
    pub reply: Reply,
}

impl fmt::Display for Numbered {
    ghost output = { λ r. Some (numbered_text r.number r.reply) };

    fn fmt<W: fmt::Write>(&self, f: &mut fmt::Formatter<W>) -> fmt::Result {
        write!(f, "(call {} {})", self.number, self.reply)
    }
}
