// All that a command line asks for.
use crate::options::Options;
use crate::setting::Setting;

#[derive(Clone, Copy, PartialEq, Eq, Debug)]
pub struct Request {
    pub options: Options,
    // the place of the word that names a file, if one does
    pub file: Option<usize>,
}

// What was asked so far, and the option that the next word sets, if one does.
#[derive(Clone, Copy)]
pub struct Reading {
    pub request: Request,
    pub awaiting: Option<Setting>,
}
