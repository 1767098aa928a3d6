// What can be wrong with a command line.
use crate::setting::Setting;

#[derive(Clone, Copy, PartialEq, Eq, Debug)]
pub enum Mistake {
    // There is no such option.
    Unknown,
    // A file was named before.
    SecondFile,
    // The word is nothing that the option before it can be set to.
    Value(Setting),
    // No word follows the option.
    Missing(Setting),
}

// A mistake, and the place of the word where it shows.
#[derive(Clone, Copy, PartialEq, Eq, Debug)]
pub struct Wrong {
    pub place: usize,
    pub mistake: Mistake,
}
