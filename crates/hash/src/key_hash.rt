//! HASH160.

ghost use Rattle.std.specs.Prelude.{◌≡◌};
ghost use Rattle.hash.specs.KeyHash.{hash160};

use sha2::{Digest, Sha256};

/// RIPEMD-160 of the SHA-256 of the bytes, which names a public key or a script (Bitcoin Core's
/// `Hash160`).
pub fn hash160(bytes: &[u8]) -> [u8; 20]
    ensures { result ≡ hash160 bytes.now }
{
    ripemd::digest(&Sha256::digest(bytes))
}
