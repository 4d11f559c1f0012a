//! By what verdicts are got before they are asked for.

use signatures::{KnownSignatures, Table};

/// By what signatures are judged.
#[derive(Clone, Copy)]
pub enum Source<'t> {
    /// A table of all that are valid.
    Listed(&'t Table),
    /// Those that were found out. Scripts that want another one have no verdict.
    Found(&'t KnownSignatures),
}
