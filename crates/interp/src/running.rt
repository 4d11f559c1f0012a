//! What a script runs for.

ghost use Rattle.std.specs.Prelude.{◌≡◌, IfSome};
ghost use Rattle.std.proofs.Props.{props};

use crate::flags::Flags;
use sighash::{Midstates, WitnessHashes};
use txn::Tx;

/// What a script can look at beside its stacks, and what its signatures sign (Bitcoin Core's `SigVersion`).
#[derive(Clone, Copy)]
pub struct Running<'a> {
    pub tx: &'a Tx,
    pub input: usize,
    pub flags: Flags,
    /// As a [`Job`](crate::Job)'s.
    pub midstates: Option<&'a Midstates<'a>>,
    /// Of a witness program: the transaction's hashes, and the value that is spent, in satoshis, which is signed too
    /// (BIP 143). None in the scripts of before.
    pub witness: Option<(&'a WitnessHashes<'a>, i64)>,
    pub ghost same_tx: { IfSome midstates (λ m. m.now.tx.now ≡ tx.now) } by { Prim.hlevel props },
    pub ghost same_hashes: { IfSome witness (λ w. w.0.now.tx.now ≡ tx.now) } by { Prim.hlevel props },
}
