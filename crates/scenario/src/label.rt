//! How a block's id is printed.

use hash::Id;
use std::fmt;

/// A block's id as it is printed: the first name that was given to it, else its digits.
#[derive(Clone, Copy)]
pub enum Label<'d> {
    Name(&'d str),
    Digits(Id),
}

impl fmt::Display for Label<'_> {
    fn fmt<W: fmt::Write>(&self, f: &mut fmt::Formatter<W>) -> fmt::Result {
        match self {
            Label::Name(name) => f.write_str(name),
            Label::Digits(id) => id.fmt(f),
        }
    }
}
