//! The table of valid signatures.

ghost use Rattle.std.specs.Prelude.{◌≡◌, length, true, not, IfOk, IfErr, OnOk, OnErr};
ghost use Rattle.std.specs.Bool.{Decides};
ghost use Rattle.std.specs.List.{list_all};
ghost use Rattle.std.specs.FinSet as set;
ghost use Rattle.std.specs.List.Sorted.{IsBinarySearchResult, IsSearchInRange};
ghost use Rattle.signatures.specs.Triple.{Triple, triple_of, triple_cmp};
ghost use Rattle.signatures.specs.Known.{AreApart};

use crate::fault::TableFault;
use crate::lines;
use crate::triple::KeptTriple;
use std::alloc::Global;
use std::fmt;
use std::marker::Model;
use wire::Memory;

/// The signatures that are valid: triples of a key, a signature without its hash type, and the digest
/// that it signs. A triple that isn't there is not valid.
#[derive(Clone, Drop)]
pub struct Table {
    /// In order, each once.
    triples: Vec<KeptTriple>,
}

impl Model for Table {
    ghost use Rattle.std.specs.FinSet as set;
    ghost use Rattle.std.specs.List.Sorted.{IsStrictlySortedBy};
    ghost use Rattle.signatures.specs.Triple.{triple_cmp, coded_triple};

    ghost Value = { set.FinSet triple_cmp };

    ghost coded = { set.code coded_triple };

    ghost view = { λ t. set.from_list t.triples.items };

    ghost invariant = { λ t. IsStrictlySortedBy triple_cmp t.triples.items };
}

impl Table {
    ghost use Rattle.signatures.specs.Lines.{lines, IsTableOf, IsFaultOf};

    /// A table without triples.
    pub fn new(alloc: Global) -> Table
        ensures { result ≡ set.empty }
    {
        Table {
            triples: Vec::new(alloc),
        }
    }

    /// The table of a text: each of its lines has a key, a signature without its hash type and a digest in
    /// 64 digits, in lower-case hexadecimal and parted by spaces, `-` for no bytes. Lines without words, or
    /// whose first begins with `#`, are skipped.
    pub fn from_lines(alloc: Global, text: &[u8]) -> Result<Table, TableFault>
        ensures found { IfOk result (IsTableOf (lines text.now)) }
        ensures refused { IfErr result (IsFaultOf (lines text.now)) }
    {
        let mut triples = Vec::new(alloc);
        let mut number = 0;
        for line in text.split(|byte| *byte == b'\n') {
            number += 1;
            if let Some(triple) = lines::read(alloc, line, number)? {
                triples.push(triple)?;
            }
        }
        triples.sort_unstable_by(|one, other| one.compare_kept(other));
        triples.dedup_by(|triple, before| triple.compare_kept(before).is_eq());
        Ok(Table { triples })
    }

    /// Whether a triple is there. The signature is without its hash type.
    pub fn has(&self, key: &[u8], signature: &[u8], digest: &[u8; 32]) -> bool
        ensures { result ≡ set.contains self.now (triple_of key.now signature.now digest.now) }
    {
        place(self.triples.as_slice(), key, signature, digest).is_ok()
    }

    /// Puts a triple in. The signature is without its hash type.
    pub fn add(&mut self, key: &[u8], signature: &[u8], digest: &[u8; 32]) -> Result<(), Memory>
        ensures ok { let t = triple_of key.now signature.now digest.now in
            OnOk result (self.new ≡ set.insert self.old t) }
        ensures err { OnErr result (self.new ≡ self.old) }
    {
        let alloc = *self.triples.allocator();
        self.add_kept(&KeptTriple::from_parts(alloc, key, signature, digest)?)
    }

    /// Puts a triple in that its clones share.
    pub fn add_kept(&mut self, triple: &KeptTriple) -> Result<(), Memory>
        ensures ok { OnOk result (self.new ≡ set.insert self.old triple.now) }
        ensures err { OnErr result (self.new ≡ self.old) }
    {
        if let Err(at) = place_of(self.triples.as_slice(), triple) {
            let copy = triple.copy()?;
            self.triples.insert(at, copy)?;
        }
        Ok(())
    }

    /// Whether another table has the same triples.
    pub fn same(&self, other: &Table) -> bool
        ensures { Decides result (self.now ≡ other.now) }
    {
        self.is_within(other) && other.is_within(self)
    }

    /// Whether another table has each triple of this one.
    fn is_within(&self, other: &Table) -> bool
        ensures { Decides result ((t : Triple) → set.contains self.now t ≡ true
            → set.contains other.now t ≡ true) }
    {
        other.has_each(self.triples.as_slice())
    }

    /// Whether no triple is in both.
    pub(crate) fn is_apart(&self, other: &Table) -> bool
        ensures { Decides result (AreApart self.now other.now) }
    {
        other.has_none(self.triples.as_slice())
    }

    fn has_each(&self, triples: &[KeptTriple]) -> bool
        ensures { result ≡ list_all (set.contains self.now) triples.now }
    {
        triples.iter().all(|triple| self.has_kept(triple))
    }

    fn has_none(&self, triples: &[KeptTriple]) -> bool
        ensures { result ≡ list_all (λ t. not (set.contains self.now t)) triples.now }
    {
        triples.iter().all(|triple| !self.has_kept(triple))
    }

    fn has_kept(&self, triple: &KeptTriple) -> bool
        ensures { result ≡ set.contains self.now triple.now }
    {
        self.triples
            .binary_search_by(|kept| kept.compare_kept(triple))
            .is_ok()
    }

    /// An equal table.
    pub fn copy(&self) -> Result<Table, Memory>
        ensures { IfOk result (λ t. t ≡ self.now) }
    {
        Ok(self.clone()?)
    }
}

/// Its lines, one a triple, as [`Table::from_lines`] reads them.
impl fmt::Display for Table {
    fn fmt<W: fmt::Write>(&self, f: &mut fmt::Formatter<W>) -> fmt::Result {
        for triple in self.triples.as_slice() {
            writeln!(f, "{triple}")?;
        }
        Ok(())
    }
}

/// The place of a triple among those in order, or where it would go.
fn place(
    triples: &[KeptTriple],
    key: &[u8],
    signature: &[u8],
    digest: &[u8; 32],
) -> Result<usize, usize>
    ensures bound { IsSearchInRange result (length triples.now) }
    ensures position { let t = triple_of key.now signature.now digest.now in
        IsBinarySearchResult (λ e. triple_cmp e t) triples.now result }
{
    triples.binary_search_by(|triple| triple.compare(key, signature, digest))
}

/// The same of a triple that is kept.
fn place_of(triples: &[KeptTriple], triple: &KeptTriple) -> Result<usize, usize>
    ensures bound { IsSearchInRange result (length triples.now) }
    ensures position { IsBinarySearchResult (λ e. triple_cmp e triple.now) triples.now result }
{
    triples.binary_search_by(|kept| kept.compare_kept(triple))
}
