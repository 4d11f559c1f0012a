//! What running a job comes to.

use signatures::KeptTriple;

/// What is known of a job.
#[derive(Drop)]
pub enum Verdict {
    /// It is accepted.
    Yes,
    /// It isn't.
    No,
    /// Whether this signature is valid has to be found out first.
    Wants(Box<KeptTriple>),
}
