//! Where C keeps a session between two calls.

ghost use Rattle.std.specs.Prelude.{◌≡◌, MatchOption, None, Some, is_some};
ghost use Rattle.std.proofs.Props.{props};

use crate::kept::Kept;
use crate::session::Session;
use std::alloc::Global;
use std::mem::replace;

/// A place of C's that holds a session, or none. One of zero bytes holds none.
#[repr(C)]
#[derive(Drop)]
pub struct Slot {
    full: bool,
    pub(crate) kept: Kept,
    ghost is_full: { full ≡ is_some kept.value } by { Prim.hlevel props },
}

impl Slot {
    /// Whether it holds a session.
    pub(crate) fn is_full(&self) -> bool
        ensures { result ≡ is_some self.now.kept.value }
    {
        self.full
    }
}

/// Takes the session away, if there is one.
pub(crate) fn take(alloc: Global, slot: &mut Slot) -> Option<Box<Session>>
    ensures value { MatchOption result (slot.old.kept.value ≡ None)
        (λ session. slot.old.kept.value ≡ Some session.value) }
    ensures away { slot.new.kept.value ≡ None }
{
    let nothing = Slot {
        full: false,
        kept: Kept::nothing(alloc),
    };
    let Slot { full, kept } = replace(slot, nothing);
    if full { Some(kept.into_box()) } else { None }
}

/// Only what may go to any thread is put into a slot: the prover asks for it where this is called.
fn goes_to_any_thread<T: Send>(_value: &T) {}

/// Puts a session there.
pub(crate) fn put(slot: &mut Slot, session: Box<Session>)
    ensures { slot.new.kept.value ≡ Some session.value }
{
    goes_to_any_thread(&*session);
    *slot = Slot {
        full: true,
        kept: Kept::of(session),
    };
}
