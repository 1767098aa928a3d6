//! The worked examples of reading, of values and of a day.
ghost use Rattle.cases.specs.Examples.{ExamplesHold};

/// Does nothing: that it is proved says that the examples hold.
pub fn hold()
    ensures { ExamplesHold }
{}
