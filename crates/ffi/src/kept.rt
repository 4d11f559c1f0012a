//! A session as C keeps it: by the address of its box.
//!
//! C sees an address without a type, since what crosses to C may not lead to a type with parts that are shared. Only
//! functions of this file, of `kept_tx.rt` and of `box_address.rt` name the address; those are proved by hand.

ghost use Rattle.std.specs.Prelude.{◌≡◌, Option, None, Some, IsSome};
ghost use Rattle.ffi.specs.SessionState.{SessionState};
ghost use Rattle.ffi.specs.Kept.{kept_owns};
ghost use Rattle.ffi.specs.inside.Storage.{kept_coded};

use crate::box_address::Unboxed;
use crate::session::Session;
use std::alloc::Global;
use std::marker::Model;
use std::ptr::null_mut;

/// What C keeps of a session, or of none.
#[repr(C)]
#[derive(Drop)]
pub struct Kept {
    at: *mut u8,
    alloc: Global,
    pub(crate) ghost value: { Option SessionState } by { kept_coded },
}

impl Model for Kept {
    ghost also_owns = { λ k. kept_owns k.alloc k.at k.value };
}

impl Kept {
    /// Of no session.
    pub(crate) fn nothing(alloc: Global) -> Kept
        ensures { result.value ≡ None }
    {
        let at: *mut u8 = null_mut();
        Kept::empty(at, alloc)
    }

    /// Of this session.
    pub(crate) fn of(session: Box<Session>) -> Kept
        ensures { result.value ≡ Some session.value }
    {
        Kept::of_unboxed(Unboxed::of(session))
    }

    /// The session, where there is one.
    pub(crate) fn into_box(self) -> Box<Session>
        requires { IsSome self.value }
        ensures { self.value ≡ Some result.value }
    {
        self.unboxed().boxed()
    }

    fn of_unboxed(found: Unboxed<Session, Global>) -> Kept
        ensures { result.value ≡ Some found.value }
    {
        let Unboxed { at, alloc } = found;
        Kept {
            at: at as *mut u8,
            alloc,
        }
    }

    fn unboxed(self) -> Unboxed<Session, Global>
        requires { IsSome self.value }
        ensures { self.value ≡ Some result.value }
    {
        let Kept { at, alloc } = self;
        Unboxed {
            at: at as *mut Session,
            alloc,
        }
    }

    fn empty(at: *mut u8, alloc: Global) -> Kept
        ensures { result.value ≡ None }
    {
        Kept { at, alloc }
    }
}
