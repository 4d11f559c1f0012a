//! What both copies of the published view share.

use crate::seen_history::EntryCount;
use std::sync::atomic::AtomicU64;

/// The word that counts the entries of the history, and the number of the last attempt to publish.
pub struct Hub {
    pub counter: EntryCount,
    pub attempt: AtomicU64,
}

impl Drop for Hub {
    fn drop(self) {
        let Self {
            counter,
            attempt: _,
        } = self;
        drop(counter);
    }
}
