//! What is known of signatures.

ghost use Rattle.std.specs.Prelude.{◌≡◌};
ghost use Rattle.signatures.specs.Known.{Known, Agrees};
ghost use Rattle.signatures.specs.Triple.{Triples, triple_of};

use crate::table::Table;

/// Who says of a signature that it is valid, that it isn't, or that this isn't known.
pub trait KnowsSignatures {
    /// The verdict on each triple of which one is known.
    ghost known: { Self → Known };

    /// A set of valid signatures that agrees with it: no two verdicts contradict each other.
    ghost agreeing: { Self → Triples };

    /// Whether a triple is valid, where that is known. The signature is without its hash type.
    fn find(&self, key: &[u8], signature: &[u8], digest: &[u8; 32]) -> Option<bool>
        ensures { result ≡ known self.now (triple_of key.now signature.now digest.now) };

    ghost agrees: { (it : Self) → Agrees (known it) (agreeing it) };
}

/// Of a table all is known.
impl KnowsSignatures for Table {
    ghost use Rattle.signatures.specs.Known.{all_known};
    ghost use Rattle.signatures.specs.laws.Agreement.{table_agrees};

    ghost known = { all_known };

    ghost agreeing = { λ table. table };

    ghost agrees = { table_agrees };

    fn find(&self, key: &[u8], signature: &[u8], digest: &[u8; 32]) -> Option<bool> {
        Some(self.has(key, signature, digest))
    }
}
