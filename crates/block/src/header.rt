//! Block headers and their ids.

ghost use Rattle.std.specs.Prelude.{◌≡◌};
ghost use Rattle.block.specs.Identity.{id_of};

use hash::{Id, finish};
use sha2::{Digest, Sha256};

/// The first 80 bytes of a block. `time` is in seconds since 1970.
#[derive(Clone, Copy, Debug, PartialEq, Eq)]
pub struct Header {
    pub version: i32,
    /// The parent's id.
    pub prev: Id,
    /// The Merkle root of the transactions' ids.
    pub root: Id,
    pub time: u32,
    /// The target, in its compact form.
    pub bits: u32,
    pub nonce: u32,
}

impl Header {
    /// The block's id: double SHA-256 of the header's 80 bytes.
    pub fn id(&self) -> Id
        ensures { result ≡ id_of self.now }
    {
        let mut hasher = Sha256::new();
        hasher.update(self.version.to_le_bytes());
        hasher.update(self.prev.0);
        hasher.update(self.root.0);
        hasher.update(self.time.to_le_bytes());
        hasher.update(self.bits.to_le_bytes());
        hasher.update(self.nonce.to_le_bytes());
        Id(finish(hasher))
    }
}
