//! The open conditions of a script.

ghost use Rattle.std.specs.Prelude.{◌≡◌, ◌<◌, [], ◌∷◌, length, OnOk};
ghost use Rattle.std.specs.List.{list_all};

use crate::pile::Pile;
use std::alloc::Global;
use std::marker::Model;
use wire::Memory;

/// For each open condition, the innermost on top, whether its branch is taken (Bitcoin Core's `ConditionStack`).
#[derive(Drop)]
pub struct Conditions {
    taken: Pile<bool>,
    /// The place of the first that isn't, from the outermost, so that nobody looks through them.
    first_untaken: Option<usize>,
}

impl Model for Conditions {
    ghost use Rattle.std.specs.Prelude.{◌≡◌, List, Bool};
    ghost use Rattle.interp.specs.computed.Conditions.{first_false};

    ghost Value = { List Bool };

    ghost view = { λ c. c.taken };

    ghost invariant = { λ c. c.first_untaken ≡ first_false c.taken };
}

impl Conditions {
    /// No condition is open.
    pub fn new(alloc: Global) -> Conditions
        ensures { result ≡ [] }
    {
        Conditions {
            taken: Pile::new(alloc),
            first_untaken: None,
        }
    }

    pub fn len(&self) -> usize
        ensures { result ≡ length self.now }
    {
        self.taken.len()
    }

    /// Whether each open branch is taken.
    pub fn all_taken(&self) -> bool
        ensures { result ≡ list_all (λ taken. taken) self.now }
    {
        self.first_untaken.is_none()
    }

    /// Opens one more.
    pub fn open(&mut self, taken: bool) -> Result<(), Memory>
        ensures { OnOk result (self.new ≡ taken ∷ self.old) }
    {
        let place = self.taken.len();
        self.taken.push(taken)?;
        if !taken && self.first_untaken.is_none() {
            self.first_untaken = Some(place);
        }
        Ok(())
    }

    /// Closes the innermost, and says whether its branch is taken.
    pub fn close(&mut self) -> bool
        requires { 0 < length self.old }
        ensures { self.old ≡ result ∷ self.new }
    {
        let taken = self.taken.pop();
        if self.first_untaken == Some(self.taken.len()) {
            self.first_untaken = None;
        }
        taken
    }
}
