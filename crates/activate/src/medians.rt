//! The medians time past of a branch.

ghost use Rattle.std.specs.Prelude.{◌≡◌, ◌++◌, ◌∷◌, [], OnOk};

use std::alloc::Global;
use std::marker::Model;
use wire::Memory;

/// The medians time past of a branch, by height. They are lent by the active branch until there is one above those.
#[derive(Drop)]
pub(crate) struct Medians<'m> {
    lent: &'m [u32],
    /// All of them, where the active branch lacks one.
    own: Vec<u32>,
}

impl<'m> Model for Medians<'m> {
    ghost use Rattle.std.specs.Prelude.{List, ℕ};
    ghost use Rattle.activate.specs.inside.Kept.{medians_seen};

    ghost Value = { List ℕ };

    ghost view = { λ m. medians_seen m.lent.now m.own.items };
}

impl<'m> Medians<'m> {
    /// These, lent.
    pub(crate) fn lent(alloc: Global, lent: &'m [u32]) -> Medians<'m>
        ensures { result ≡ lent.now }
    {
        Medians {
            lent,
            own: Vec::new(alloc),
        }
    }

    pub(crate) fn as_slice(&self) -> &[u32]
        ensures { result.now ≡ self.now }
    {
        if self.own.is_empty() {
            self.lent
        } else {
            self.own.as_slice()
        }
    }

    /// Adds the median of the next block. The first one copies those that were lent.
    pub(crate) fn push(&mut self, alloc: Global, median: u32) -> Result<(), Memory>
        ensures { OnOk result (self.new ≡ self.old ++ median ∷ []) }
    {
        if self.own.is_empty() {
            self.own = Vec::from_slice(alloc, self.lent)?;
        }
        Ok(self.own.push(median)?)
    }
}
