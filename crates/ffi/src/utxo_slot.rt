//! Where C keeps a set of coins between two calls.

ghost use Rattle.std.specs.Prelude.{◌≡◌, MatchOption, None, Some, is_some};
ghost use Rattle.std.proofs.Props.{props};

use crate::kept_utxo::KeptUtxo;
use crate::utxo::Utxo;
use std::alloc::Global;
use std::mem::replace;

/// A place of C's that holds a set of coins, or none. One of zero bytes holds none.
#[repr(C)]
#[derive(Drop)]
pub struct UtxoSlot {
    full: bool,
    pub(crate) kept: KeptUtxo,
    ghost is_full: { full ≡ is_some kept.value } by { Prim.hlevel props },
}

impl UtxoSlot {
    /// Whether it holds a set of coins.
    pub(crate) fn is_full(&self) -> bool
        ensures { result ≡ is_some self.now.kept.value }
    {
        self.full
    }
}

/// Takes the set away, where there is one.
pub(crate) fn take_utxo(alloc: Global, slot: &mut UtxoSlot) -> Option<Box<Utxo>>
    ensures value { MatchOption result (slot.old.kept.value ≡ None)
        (λ utxo. slot.old.kept.value ≡ Some utxo.value) }
    ensures away { slot.new.kept.value ≡ None }
{
    let nothing = UtxoSlot {
        full: false,
        kept: KeptUtxo::nothing(alloc),
    };
    let UtxoSlot { full, kept } = replace(slot, nothing);
    if full { Some(kept.into_box()) } else { None }
}

/// Only what may go to any thread is put into a slot: the prover asks for it where this is called.
fn goes_to_any_thread<T: Send>(_value: &T) {}

/// Puts a set of coins there.
pub(crate) fn put_utxo(slot: &mut UtxoSlot, utxo: Box<Utxo>)
    ensures { slot.new.kept.value ≡ Some utxo.value }
{
    goes_to_any_thread(&*utxo);
    *slot = UtxoSlot {
        full: true,
        kept: KeptUtxo::of(utxo),
    };
}
