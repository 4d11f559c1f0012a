//! A workload's result, which the baseline's must equal.

use hash::Id;
use std::fmt;

/// A workload's result: a digest, an id or a number.
#[derive(Drop)]
pub enum Check {
    /// The first so many bytes, printed in hexadecimal.
    Digits([u8; 32], usize),
    Count(u64),
}

impl Check {
    /// A digest, as its bytes stand.
    pub fn of_digest(digest: [u8; 32]) -> Check {
        Check::Digits(digest, 32)
    }

    /// A digest of 20 bytes.
    pub fn of_short(digest: [u8; 20]) -> Check {
        let mut bytes = [0; 32];
        bytes[..20].copy_from_slice(digest.as_slice());
        Check::Digits(bytes, 20)
    }

    /// An id, as ids are printed, the last byte first.
    pub fn of_id(id: Id) -> Check {
        let mut bytes = id.0;
        bytes.reverse();
        Check::Digits(bytes, 32)
    }
}

impl fmt::Display for Check {
    fn fmt<W: fmt::Write>(&self, f: &mut fmt::Formatter<W>) -> fmt::Result {
        match self {
            Check::Digits(bytes, count) => digits(f, bytes.as_slice(), *count),
            Check::Count(count) => count.fmt(f),
        }
    }
}

fn digits<W: fmt::Write>(f: &mut fmt::Formatter<W>, bytes: &[u8], count: usize) -> fmt::Result {
    for byte in bytes.iter().take(count) {
        write!(f, "{byte:02x}")?;
    }
    Ok(())
}
