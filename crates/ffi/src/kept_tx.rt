//! A transaction as C keeps it: by the address of its box, as a session is kept (`kept.rt`).
//!
//! Only the three functions below that name the address are proved by hand.

ghost use Rattle.std.specs.Prelude.{◌≡◌, Option, None, Some, IsSome};
ghost use Rattle.sighash.specs.declared.precomputed_tx.PrecomputedTx.{PrecomputedTx as TxValue};
ghost use Rattle.ffi.specs.Kept.{kept_tx_owns};
ghost use Rattle.ffi.specs.inside.Storage.{kept_tx_coded};

use crate::box_address::Unboxed;
use sighash::PrecomputedTx;
use std::alloc::Global;
use std::marker::Model;
use std::ptr::null_mut;

/// What C keeps of a transaction, or of none.
#[repr(C)]
#[derive(Drop)]
pub struct KeptTx {
    at: *mut u8,
    alloc: Global,
    pub(crate) ghost value: { Option TxValue } by { kept_tx_coded },
}

impl Model for KeptTx {
    ghost also_owns = { λ k. kept_tx_owns k.alloc k.at k.value };
}

impl KeptTx {
    /// Of no transaction.
    pub(crate) fn nothing(alloc: Global) -> KeptTx
        ensures { result.value ≡ None }
    {
        let at: *mut u8 = null_mut();
        KeptTx::empty(at, alloc)
    }

    /// Of this transaction.
    pub(crate) fn of(tx: Box<PrecomputedTx>) -> KeptTx
        ensures { result.value ≡ Some tx.value }
    {
        KeptTx::of_unboxed(Unboxed::of(tx))
    }

    /// The transaction, where there is one.
    pub(crate) fn into_box(self) -> Box<PrecomputedTx>
        requires { IsSome self.value }
        ensures { self.value ≡ Some result.value }
    {
        self.unboxed().boxed()
    }

    fn of_unboxed(found: Unboxed<PrecomputedTx, Global>) -> KeptTx
        ensures { result.value ≡ Some found.value }
    {
        let Unboxed { at, alloc } = found;
        KeptTx {
            at: at as *mut u8,
            alloc,
        }
    }

    fn unboxed(self) -> Unboxed<PrecomputedTx, Global>
        requires { IsSome self.value }
        ensures { self.value ≡ Some result.value }
    {
        let KeptTx { at, alloc } = self;
        Unboxed {
            at: at as *mut PrecomputedTx,
            alloc,
        }
    }

    fn empty(at: *mut u8, alloc: Global) -> KeptTx
        ensures { result.value ≡ None }
    {
        KeptTx { at, alloc }
    }
}
