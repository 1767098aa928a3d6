// The words that a line begins with.
ghost use Rattle.std.specs.Prelude.{◌≡◌};
ghost use Rattle.calls.specs.Verbs.{verb_meant};

#[derive(Clone, Copy)]
pub(crate) enum Verb {
    Store,
    Insert,
    Find,
    From,
    Replace,
    Remove,
    Stands,
    Count,
    Limit,
    Empty,
}

pub(crate) fn verb_of(word: &[u8]) -> Option<Verb>
    ensures { result ≡ verb_meant word.now }
{
    match word {
        b"store" => Some(Verb::Store),
        b"insert" => Some(Verb::Insert),
        b"find" => Some(Verb::Find),
        b"from" => Some(Verb::From),
        b"replace" => Some(Verb::Replace),
        b"remove" => Some(Verb::Remove),
        b"stands" => Some(Verb::Stands),
        b"count" => Some(Verb::Count),
        b"limit" => Some(Verb::Limit),
        b"empty" => Some(Verb::Empty),
        _ => None,
    }
}
