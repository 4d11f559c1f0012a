//! The right to enter steps under a seat's number.

ghost use Rattle.std.specs.Prelude.{◌≡◌, ◌<◌, ◌+◌};

use std::marker::{Model, PhantomData};
use view::Naming;

/// The right to enter steps under a seat's number. An opening gives one for each number, and none is copied: so a step
/// is entered by its seat alone.
#[derive(Drop)]
pub(crate) struct SeatToken<J: Naming> {
    number: usize,
    of: PhantomData<J>,
}

impl<J: Naming> Model for SeatToken<J> {
    ghost use Rattle.std.specs.Prelude.{◌<◌, ℕ};

    ghost Value = { ℕ };

    ghost view = { λ t. t.number };

    ghost invariant = { λ t. t.number < J.origin.seats };
}

impl<J: Naming> SeatToken<J> {
    /// The seat's number.
    pub(crate) fn number(&self) -> usize
        ensures is { result ≡ self.now }
        ensures below { result < J.origin.seats }
    {
        self.number
    }
}

/// The tokens that weren't given yet.
#[derive(Drop)]
pub(crate) struct SeatTokens {
    next: usize,
}

impl Model for SeatTokens {
    ghost use Rattle.std.specs.Prelude.{ℕ};

    ghost Value = { ℕ };

    ghost view = { λ t. t.next };
}

impl SeatTokens {
    /// None was given yet. Only [`Opening::new`](crate::Opening::new) can call this.
    pub(super) fn new() -> SeatTokens
        ensures { result ≡ 0 }
    {
        SeatTokens { next: 0 }
    }

    /// The next one.
    pub(crate) fn next<J: Naming>(&mut self) -> SeatToken<J>
        requires below { self.old < J.origin.seats }
        requires few { self.old < 16 }
        ensures token { result ≡ self.old }
        ensures next { self.new ≡ self.old + 1 }
    {
        let number = self.next;
        self.next += 1;
        SeatToken {
            number,
            of: PhantomData,
        }
    }
}
