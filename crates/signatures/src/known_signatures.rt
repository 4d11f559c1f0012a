//! Signatures that were found out.

ghost use Rattle.std.specs.Prelude.{◌≡◌, ◌≤◌, None, IfOk, OnErr, OnOk, length};
ghost use Rattle.signatures.specs.Triple.{triple_of};
ghost use Rattle.signatures.specs.Known.{verdict_in, with_verdict};
ghost use Rattle.signatures.specs.inside.Parts.{whole};

use crate::found_tables::FoundTables;
use crate::knows_signatures::KnowsSignatures;
use crate::triple::KeptTriple;
use std::alloc::Global;
use std::marker::Model;
use wire::Memory;

/// Signatures that were found out to be valid or not, of which no verdict ever changes. Of all others nothing is known.
#[derive(Drop)]
pub struct KnownSignatures {
    /// By the first byte of the digest, so that one verdict more moves few of many. Those at the end may lack.
    parts: Vec<FoundTables>,
}

impl Model for KnownSignatures {
    ghost use Rattle.signatures.specs.Known.{Verdicts, coded_verdicts};
    ghost use Rattle.signatures.specs.inside.Parts.{whole};

    ghost Value = { Verdicts };

    ghost coded = { coded_verdicts };

    ghost view = { λ known. whole known.parts.items };
}

impl KnownSignatures {
    ghost use Rattle.std.specs.FinSet as set;

    /// Nothing is known.
    pub fn new(alloc: Global) -> KnownSignatures
        ensures { result ≡ record { valid = set.empty; invalid = set.empty } }
    {
        KnownSignatures {
            parts: Vec::new(alloc),
        }
    }

    /// Takes the verdict on a triple of which none is known. The signature is without its hash type.
    pub fn learn(
        &mut self,
        key: &[u8],
        signature: &[u8],
        digest: &[u8; 32],
        valid: bool,
    ) -> Result<(), Memory>
        requires { verdict_in self.old (triple_of key.now signature.now digest.now) ≡ None }
        ensures ok { let t = triple_of key.now signature.now digest.now in
            OnOk result (self.new ≡ with_verdict self.old t valid) }
        ensures err { OnErr result (self.new ≡ self.old) }
    {
        let alloc = *self.parts.allocator();
        let triple = KeptTriple::from_parts(alloc, key, signature, digest)?;
        self.learn_kept(&triple, valid)
    }

    /// The same of a triple that its clones share, so that no other is made.
    pub fn learn_kept(&mut self, triple: &KeptTriple, valid: bool) -> Result<(), Memory>
        requires { verdict_in self.old triple.now ≡ None }
        ensures ok { OnOk result (self.new ≡ with_verdict self.old triple.now valid) }
        ensures err { OnErr result (self.new ≡ self.old) }
    {
        let place = usize::from(triple.digest()[0]);
        add_parts(&mut self.parts, place + 1)?;
        self.parts[place].learn(triple, valid)
    }

    /// The same verdicts.
    pub fn copy(&self) -> Result<KnownSignatures, Memory>
        ensures { IfOk result (λ known. known ≡ self.now) }
    {
        Ok(KnownSignatures {
            parts: copies(*self.parts.allocator(), self.parts.as_slice())?,
        })
    }
}

/// Equal parts.
fn copies(alloc: Global, parts: &[FoundTables]) -> Result<Vec<FoundTables>, Memory>
    ensures { IfOk result (λ copies. copies.items ≡ parts.now) }
{
    let mut copies = Vec::new(alloc);
    for part in parts {
        copies.push(part.copy()?)?;
    }
    Ok(copies)
}

/// Adds parts without a verdict, until there are so many.
fn add_parts(parts: &mut Vec<FoundTables>, least: usize) -> Result<(), Memory>
    ensures same { whole parts.new.items ≡ whole parts.old.items }
    ensures long { OnOk result (least ≤ length parts.new.items) }
{
    let alloc = *parts.allocator();
    for _ in parts.len()..least {
        parts.push(FoundTables::empty(alloc))?;
    }
    Ok(())
}

impl KnowsSignatures for KnownSignatures {
    ghost use Rattle.signatures.specs.laws.Agreement.{found_agrees};

    ghost known = { verdict_in };

    ghost agreeing = { λ found. found.valid };

    ghost agrees = { found_agrees };

    fn find(&self, key: &[u8], signature: &[u8], digest: &[u8; 32]) -> Option<bool> {
        let part = self.parts.as_slice().get(usize::from(digest[0]))?;
        part.find(key, signature, digest)
    }
}
