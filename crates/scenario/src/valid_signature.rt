//! The `verdict` lines of a scenario: signatures that are to be valid.

ghost use Rattle.std.specs.Prelude.{◌≡◌, ◌<◌, ◌∷◌, [], length, OnOk, OnErr};
ghost use Rattle.std.specs.FinSet as set;
ghost use Rattle.signatures.specs.Triple.{triple_of};
ghost use Rattle.script.specs.Removal.{without};
ghost use Rattle.sighash.specs.Digest.{digest_of};

use script::opcode::OP_CODESEPARATOR;
use script::without;
use sighash::digest;
use signatures::Table;
use std::alloc::Global;
use txn::Tx;
use wire::Memory;

/// A signature, without its hash type, and what it signs: an input of a transaction, by its number, with a code.
#[derive(Clone, Copy)]
pub struct ValidSignature<'s> {
    pub key: &'s [u8],
    pub signature: &'s [u8],
    pub tx: &'s Tx,
    pub input: usize,
    /// With its CODESEPARATORs, which aren't signed.
    pub code: &'s [u8],
    pub kind: u8,
}

/// Makes a signature valid.
pub fn add_valid_signature(
    table: &mut Table,
    alloc: Global,
    valid: &ValidSignature<'_>,
) -> Result<(), Memory>
    requires { valid.now.input < length valid.now.tx.now.inputs }
    ensures ok { let v = valid.now in
        let signed = digest_of v.tx.now v.input (without ((0xab ∷ []) ∷ []) v.code.now) v.kind in
        let triple = triple_of v.key.now v.signature.now signed in
        OnOk result (table.new ≡ set.insert table.old triple) }
    ensures err { OnErr result (table.new ≡ table.old) }
{
    let pieces = without(alloc, valid.code, &[&[OP_CODESEPARATOR]])?;
    let signed = digest(
        valid.tx,
        valid.input,
        pieces.as_slice(),
        u32::from(valid.kind),
    );
    table.add(valid.key, valid.signature, &signed)
}
