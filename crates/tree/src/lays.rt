//! Who takes a step together with the tree.

ghost use Rattle.std.specs.Prelude.{◌≡◌, OnErr, OnOk};

use std::alloc::Global;
use wire::Memory;

/// Who takes a step together with the tree, and may be refused memory for it. Then the tree doesn't take it either.
pub trait Lays<C> {
    /// What it is once it has taken a step.
    ghost laid: { Self → C → Self };

    fn lay(&mut self, alloc: Global, step: C) -> Result<(), Memory>
        ensures ok { OnOk result (self.new ≡ laid self.old step) }
        ensures err { OnErr result (self.new ≡ self.old) };
}
