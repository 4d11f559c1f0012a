//! What can be marked.

ghost use Rattle.std.specs.Prelude.{◌≡◌, ◌<◌, ◌≤◌, length};
ghost use Rattle.block.specs.declared.block.Block.{Block};
ghost use Rattle.tree.specs.State.{State, with_mark, with_seen};

/// Blocks that can be marked and seen: a tree's, or those under an overlay. Neither call takes memory.
pub trait Marking {
    ghost state: { Self → State Block };

    /// Marks a block as invalid. It may walk all that came later.
    fn mark(&mut self, place: usize)
        requires not_genesis { 0 < place }
        requires kept { place ≤ length (state self.old).blocks }
        ensures { state self.new ≡ with_mark (state self.old) place };

    /// Notes that a block was found valid.
    fn see(&mut self, place: usize)
        requires { place ≤ length (state self.old).blocks }
        ensures { state self.new ≡ with_seen (state self.old) place };
}
