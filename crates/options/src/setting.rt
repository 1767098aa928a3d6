// The options that a word follows.

#[derive(Clone, Copy, PartialEq, Eq, Debug)]
pub enum Setting {
    Store,
    Orders,
    Executions,
    Symbols,
    DayLimit,
    Book,
}
