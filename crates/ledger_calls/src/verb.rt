// The words that a question begins with.
ghost use Rattle.std.specs.Prelude.{◌≡◌};
ghost use Rattle.ledger_calls.specs.Questions.{verb_meant};

#[derive(Clone, Copy)]
pub(crate) enum Verb {
    Order,
    Execution,
    Row,
    From,
    Rows,
    Book,
    Market,
    Accepted,
}

pub(crate) fn verb_of(word: &[u8]) -> Option<Verb>
    ensures { result ≡ verb_meant word.now }
{
    match word {
        b"order" => Some(Verb::Order),
        b"execution" => Some(Verb::Execution),
        b"row" => Some(Verb::Row),
        b"from" => Some(Verb::From),
        b"rows" => Some(Verb::Rows),
        b"book" => Some(Verb::Book),
        b"market" => Some(Verb::Market),
        b"accepted" => Some(Verb::Accepted),
        _ => None,
    }
}
