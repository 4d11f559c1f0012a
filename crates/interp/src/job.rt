//! What is verified.

ghost use Rattle.std.specs.Prelude.{◌≡◌, IfSome};
ghost use Rattle.std.proofs.Props.{props};

use crate::flags::Flags;
use sighash::Midstates;
use txn::Tx;

/// An input of a transaction, by its number from 0, the script of the output that it spends, and the rules
/// that are in force.
#[derive(Clone, Copy)]
pub struct Job<'a> {
    pub tx: &'a Tx,
    pub input: usize,
    pub spent: &'a [u8],
    pub flags: Flags,
    /// The transaction's midstates, which its jobs share. Without them each digest hashes the whole message.
    pub midstates: Option<&'a Midstates<'a>>,
    pub ghost same_tx: { IfSome midstates (λ m. m.now.tx.now ≡ tx.now) } by { Prim.hlevel props },
}
