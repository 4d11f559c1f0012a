//! SHA-256, twice.

ghost use Rattle.std.specs.Prelude.{◌≡◌, ℕ, List};
ghost use Rattle.sha2.specs.Hashers.{Holds256};
ghost use Rattle.hash.specs.Double.{double_sha};

use sha2::{Digest, Sha256};

/// SHA-256 of the SHA-256 of the bytes (Bitcoin Core's `Hash`).
pub fn double_sha(bytes: &[u8]) -> [u8; 32]
    ensures { result ≡ double_sha bytes.now }
{
    Sha256::digest(Sha256::digest(bytes))
}

/// The same for a message that was given to a hasher in pieces (Bitcoin Core's `HashWriter`).
pub fn finish(hasher: Sha256) -> [u8; 32]
    ensures { (message : List ℕ) → Holds256 hasher message → result ≡ double_sha message }
{
    Sha256::digest(hasher.finalize())
}
