// Lines of words, cut at their spaces, and numbers among them; the words of a command line, and what a program says that cannot go on.
#![tactic(auto)]

pub mod arguments;
pub mod cut;
pub mod kind;
pub mod named;
pub mod number;
pub mod program;
pub mod quoted;
