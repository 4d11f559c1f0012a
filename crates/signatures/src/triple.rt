//! What a table keeps of a valid signature.

ghost use Rattle.std.specs.Prelude.{◌≡◌, ◌≤◌, IfOk, length};
ghost use Rattle.signatures.specs.Triple.{triple_of, triple_cmp};

use std::alloc::{AllocError, Global};
use std::cmp::Ordering;
use std::fmt;
use std::marker::Model;
use std::sync::Arc;
use wire::Memory;

/// A triple as a table keeps it: a key, a signature without its hash type, and a digest. Clones share it.
#[derive(Drop)]
pub struct KeptTriple {
    shared: Arc<Parts>,
}

/// What its clones share.
#[derive(Drop)]
struct Parts {
    /// The key, and behind it the signature.
    bytes: Vec<u8>,
    /// How long the key is.
    width: usize,
    digest: [u8; 32],
    ghost inside: { width ≤ length bytes.items },
}

impl Model for KeptTriple {
    ghost use Rattle.std.specs.Arc.{arc_value};
    ghost use Rattle.std.specs.Prelude.{take, drop};
    ghost use Rattle.signatures.specs.Triple.{Triple, triple_of};

    ghost Value = { Triple };

    ghost view = { λ e. let p = arc_value e.shared in
        triple_of (take p.width p.bytes.items) (drop p.width p.bytes.items) p.digest };
}

// A clone is the same value. It takes no memory: it is refused only where 2^63 of them are kept.
impl Clone for KeptTriple {
    ghost is_clone = { λ old new. new ≡ old };

    fn clone(&self) -> Result<KeptTriple, AllocError> {
        Ok(KeptTriple {
            shared: Arc::try_clone(&self.shared)?,
        })
    }
}

impl KeptTriple {
    /// The triple of these parts, in memory of its own.
    pub fn from_parts(
        alloc: Global,
        key: &[u8],
        signature: &[u8],
        digest: &[u8; 32],
    ) -> Result<KeptTriple, AllocError>
        ensures { IfOk result (λ e. e ≡ triple_of key.now signature.now digest.now) }
    {
        let mut bytes = Vec::with_capacity(alloc, key.len() + signature.len())?;
        bytes.extend_from_slice(key)?;
        bytes.extend_from_slice(signature)?;
        let parts = Parts {
            bytes,
            width: key.len(),
            digest: *digest,
        };
        Ok(KeptTriple {
            shared: Arc::new(alloc, parts)?,
        })
    }

    /// The same triple, which takes no memory.
    pub fn copy(&self) -> Result<KeptTriple, Memory>
        ensures { IfOk result (λ e. e ≡ self.now) }
    {
        Ok(self.clone()?)
    }

    pub fn key(&self) -> &[u8]
        ensures { result.now ≡ self.now.key }
    {
        let (key, _) = self.shared.bytes.as_slice().split_at(self.shared.width);
        key
    }

    /// Without its hash type.
    pub fn signature(&self) -> &[u8]
        ensures { result.now ≡ self.now.signature }
    {
        let (_, signature) = self.shared.bytes.as_slice().split_at(self.shared.width);
        signature
    }

    pub fn digest(&self) -> &[u8; 32]
        ensures { result.now ≡ self.now.digest }
    {
        &self.shared.digest
    }

    /// How the triple compares with the triple of these parts.
    pub fn compare(&self, key: &[u8], signature: &[u8], digest: &[u8; 32]) -> Ordering
        ensures { result ≡ triple_cmp self.now (triple_of key.now signature.now digest.now) }
    {
        self.key()
            .cmp(&key)
            .then_with(|| self.signature().cmp(&signature))
            .then_with(|| self.digest().cmp(digest))
    }

    /// How the triple compares with another.
    pub fn compare_kept(&self, other: &KeptTriple) -> Ordering
        ensures { result ≡ triple_cmp self.now other.now }
    {
        self.compare(other.key(), other.signature(), other.digest())
    }
}

/// The three words of a table's line.
impl fmt::Display for KeptTriple {
    fn fmt<W: fmt::Write>(&self, f: &mut fmt::Formatter<W>) -> fmt::Result {
        write_word(f, self.key())?;
        f.write_str(" ")?;
        write_word(f, self.signature())?;
        f.write_str(" ")?;
        write_word(f, self.digest())
    }
}

/// Bytes in lower-case hexadecimal, or `-` for none.
fn write_word<W: fmt::Write>(f: &mut fmt::Formatter<W>, bytes: &[u8]) -> fmt::Result {
    if bytes.is_empty() {
        return f.write_str("-");
    }
    for byte in bytes {
        write!(f, "{byte:02x}")?;
    }
    Ok(())
}
