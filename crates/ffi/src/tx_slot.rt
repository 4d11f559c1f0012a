//! Where C keeps a transaction between two calls.

ghost use Rattle.std.specs.Prelude.{◌≡◌, MatchOption, None, Some, is_some};
ghost use Rattle.std.proofs.Props.{props};

use crate::kept_tx::KeptTx;
use sighash::PrecomputedTx;
use std::alloc::Global;
use std::mem::replace;

/// A place of C's that holds a transaction, or none. One of zero bytes holds none.
#[repr(C)]
#[derive(Drop)]
pub struct TxSlot {
    full: bool,
    pub(crate) kept: KeptTx,
    ghost is_full: { full ≡ is_some kept.value } by { Prim.hlevel props },
}

impl TxSlot {
    /// Whether it holds a transaction.
    pub(crate) fn is_full(&self) -> bool
        ensures { result ≡ is_some self.now.kept.value }
    {
        self.full
    }
}

/// Takes the transaction away, if there is one.
pub(crate) fn take_tx(alloc: Global, slot: &mut TxSlot) -> Option<Box<PrecomputedTx>>
    ensures value { MatchOption result (slot.old.kept.value ≡ None)
        (λ tx. slot.old.kept.value ≡ Some tx.value) }
    ensures away { slot.new.kept.value ≡ None }
{
    let nothing = TxSlot {
        full: false,
        kept: KeptTx::nothing(alloc),
    };
    let TxSlot { full, kept } = replace(slot, nothing);
    if full { Some(kept.into_box()) } else { None }
}

/// Only what may go to any thread, and be read by several at once, is put into a slot: the prover asks for it where this is
/// called.
fn is_for_threads<T: Send + Sync>(_value: &T) {}

/// Puts a transaction there.
pub(crate) fn put_tx(slot: &mut TxSlot, tx: Box<PrecomputedTx>)
    ensures { slot.new.kept.value ≡ Some tx.value }
{
    is_for_threads(&*tx);
    *slot = TxSlot {
        full: true,
        kept: KeptTx::of(tx),
    };
}
