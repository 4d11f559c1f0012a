//! Why bytes aren't read.

use std::error::Error;
use std::fmt;

/// Why the next part of some bytes could not be read.
#[derive(Clone, Copy, Debug, PartialEq, Eq)]
pub enum WireFault {
    /// The bytes end before the part does.
    Short = 1,
    /// A count is spelled in more bytes than it needs.
    LongForm,
    /// A count is above [`LIMIT`](crate::LIMIT).
    TooLarge,
}

impl fmt::Display for WireFault {
    fn fmt<W: fmt::Write>(&self, f: &mut fmt::Formatter<W>) -> fmt::Result {
        let text = match self {
            WireFault::Short => "the bytes end too early",
            WireFault::LongForm => "a count is spelled in more bytes than it needs",
            WireFault::TooLarge => "a count is above 33554432",
        };
        f.write_str(text)
    }
}

impl Error for WireFault {}
