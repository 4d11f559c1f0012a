//! A set of coins as C keeps it: by the address of its box, as a session is kept (`kept.rt`).
//!
//! Only the three functions below that name the address are proved by hand.

ghost use Rattle.std.specs.Prelude.{◌≡◌, Option, None, Some, IsSome};
ghost use Rattle.ffi.specs.Kept.{kept_utxo_owns};
ghost use Rattle.ffi.specs.UtxoState.{UtxoState};
ghost use Rattle.ffi.specs.inside.Storage.{kept_utxo_coded};

use crate::box_address::Unboxed;
use crate::utxo::Utxo;
use std::alloc::Global;
use std::marker::Model;
use std::ptr::null_mut;

/// What C keeps of a set of coins, or of none.
#[repr(C)]
#[derive(Drop)]
pub struct KeptUtxo {
    at: *mut u8,
    alloc: Global,
    pub(crate) ghost value: { Option UtxoState } by { kept_utxo_coded },
}

impl Model for KeptUtxo {
    ghost also_owns = { λ k. kept_utxo_owns k.alloc k.at k.value };
}

impl KeptUtxo {
    /// Of no set.
    pub(crate) fn nothing(alloc: Global) -> KeptUtxo
        ensures { result.value ≡ None }
    {
        let at: *mut u8 = null_mut();
        KeptUtxo::empty(at, alloc)
    }

    /// Of this set.
    pub(crate) fn of(utxo: Box<Utxo>) -> KeptUtxo
        ensures { result.value ≡ Some utxo.value }
    {
        KeptUtxo::of_unboxed(Unboxed::of(utxo))
    }

    /// The set, where there is one.
    pub(crate) fn into_box(self) -> Box<Utxo>
        requires { IsSome self.value }
        ensures { self.value ≡ Some result.value }
    {
        self.unboxed().boxed()
    }

    fn of_unboxed(found: Unboxed<Utxo, Global>) -> KeptUtxo
        ensures { result.value ≡ Some found.value }
    {
        let Unboxed { at, alloc } = found;
        KeptUtxo {
            at: at as *mut u8,
            alloc,
        }
    }

    fn unboxed(self) -> Unboxed<Utxo, Global>
        requires { IsSome self.value }
        ensures { self.value ≡ Some result.value }
    {
        let KeptUtxo { at, alloc } = self;
        Unboxed {
            at: at as *mut Utxo,
            alloc,
        }
    }

    fn empty(at: *mut u8, alloc: Global) -> KeptUtxo
        ensures { result.value ≡ None }
    {
        KeptUtxo { at, alloc }
    }
}
