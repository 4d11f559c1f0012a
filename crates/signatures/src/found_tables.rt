//! Signatures that were found out, in two tables.

ghost use Rattle.std.specs.Prelude.{◌≡◌, None, Some, IfOk, IfSome, OnOk, OnErr, MatchOption};
ghost use Rattle.std.specs.Bool.{Decides};
ghost use Rattle.signatures.specs.Known.{AreApart, verdict_in, with_verdict};

use crate::knows_signatures::KnowsSignatures;
use crate::table::Table;
use crate::triple::KeptTriple;
use std::alloc::Global;
use std::marker::Model;
use wire::Memory;

/// A table of signatures that were found to be valid, and one of others that were found not to be.
#[derive(Drop)]
pub struct FoundTables {
    valid: Table,
    invalid: Table,
}

impl Model for FoundTables {
    ghost use Rattle.signatures.specs.Known.{Verdicts, AreApart, coded_verdicts};

    ghost Value = { Verdicts };

    ghost coded = { coded_verdicts };

    ghost view = { λ known. record {
      valid = known.valid;
      invalid = known.invalid;
    } };

    ghost invariant = { λ known. AreApart known.valid known.invalid };
}

impl FoundTables {
    ghost use Rattle.std.specs.FinSet as set;

    /// Nothing is known.
    pub(crate) fn empty(alloc: Global) -> FoundTables
        ensures { result ≡ record { valid = set.empty; invalid = set.empty } }
    {
        FoundTables {
            valid: Table::new(alloc),
            invalid: Table::new(alloc),
        }
    }

    /// The triples that are valid, and others that aren't; nothing where a triple is in both tables.
    pub fn new(valid: Table, invalid: Table) -> Option<FoundTables>
        ensures { MatchOption result (¬ AreApart valid invalid)
            (λ known. known ≡ record { valid = valid; invalid = invalid }) }
    {
        if valid.is_apart(&invalid) {
            Some(FoundTables { valid, invalid })
        } else {
            None
        }
    }

    /// The same verdicts.
    pub(crate) fn copy(&self) -> Result<FoundTables, Memory>
        ensures { IfOk result (λ known. known ≡ self.now) }
    {
        Ok(FoundTables {
            valid: self.valid.copy()?,
            invalid: self.invalid.copy()?,
        })
    }

    /// Takes the verdict on a triple of which none is known.
    pub(crate) fn learn(&mut self, triple: &KeptTriple, valid: bool) -> Result<(), Memory>
        requires { verdict_in self.old triple.now ≡ None }
        ensures ok { OnOk result (self.new ≡ with_verdict self.old triple.now valid) }
        ensures err { OnErr result (self.new ≡ self.old) }
    {
        if valid {
            self.valid.add_kept(triple)
        } else {
            self.invalid.add_kept(triple)
        }
    }
}

impl KnowsSignatures for FoundTables {
    ghost use Rattle.signatures.specs.laws.Agreement.{found_agrees};

    ghost known = { verdict_in };

    ghost agreeing = { λ found. found.valid };

    ghost agrees = { found_agrees };

    fn find(&self, key: &[u8], signature: &[u8], digest: &[u8; 32]) -> Option<bool> {
        if self.valid.has(key, signature, digest) {
            return Some(true);
        }
        if self.invalid.has(key, signature, digest) {
            return Some(false);
        }
        None
    }
}
