//! What is left of a log that is no more.

/// Why a log is no more, and its host.
#[derive(Drop)]
pub struct Lost<F, H> {
    pub fault: F,
    pub host: H,
}
