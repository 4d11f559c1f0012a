//! What a session knows of signatures.

ghost use Rattle.std.specs.Prelude.{◌≡◌, IfOk};
ghost use Rattle.ffi.specs.inside.Signatures.{known_in};

use queue::{Judges, Undecided, are_enough, joined};
use signatures::{KeptTriple, KnownSignatures, KnowsSignatures, Table};
use wire::Memory;

/// The valid signatures, or verdicts that are found out by need.
#[derive(Drop)]
pub enum Signatures {
    /// All others aren't valid.
    Listed(Table),
    /// Of all others nothing is known.
    Found(KnownSignatures),
}

impl Signatures {
    /// The same.
    pub(crate) fn copy(&self) -> Result<Signatures, Memory>
        ensures { IfOk result (λ signatures. signatures ≡ self.now) }
    {
        match self {
            Signatures::Listed(table) => Ok(Signatures::Listed(table.copy()?)),
            Signatures::Found(found) => Ok(Signatures::Found(found.copy()?)),
        }
    }
}

impl KnowsSignatures for Signatures {
    ghost use Rattle.ffi.specs.Signatures.{valid_in};
    ghost use Rattle.ffi.specs.inside.Agreement.{agrees_in};

    ghost known = { known_in };

    ghost agreeing = { valid_in };

    ghost agrees = { agrees_in };

    fn find(&self, key: &[u8], signature: &[u8], digest: &[u8; 32]) -> Option<bool> {
        match self {
            Signatures::Listed(table) => table.find(key, signature, digest),
            Signatures::Found(found) => found.find(key, signature, digest),
        }
    }
}

impl Judges for Signatures {
    ghost use Rattle.queue.specs.Jobs.{told_by};
    ghost use Rattle.queue.specs.laws.NoAnswer.{memory_tells};

    type Stop = Undecided;

    ghost told = { told_by };

    fn stop(&self, wants: Vec<KeptTriple>) -> Undecided {
        Undecided::Unknown(wants)
    }

    fn join(&self, first: Undecided, other: Undecided) -> Undecided {
        joined(first, other)
    }

    fn is_enough(&self, stop: &Undecided) -> bool {
        are_enough(stop)
    }

    ghost memory_tells = { memory_tells };
}
