//! What a try of a block leaves on the tree: which blocks were found valid, and which one is marked.

ghost use Rattle.std.specs.Prelude.{◌≡◌, ◌≤◌, ℕ, true, length};
ghost use Rattle.hash.specs.declared.id.Id.{Id};
ghost use Rattle.block.specs.declared.block.Block.{Block};
ghost use Rattle.tree.specs.Branches.{has, places};
ghost use Rattle.tree.specs.State.{union_where};
ghost use Rattle.tree.specs.laws.Sets.{InOrder};
ghost use Rattle.model.specs.Rules.{Rules};
ghost use Rattle.model.specs.Try.{state_after_try};
ghost use Rattle.activate.specs.inside.Preparation.{IsFailedTry, IsValidPath};

use crate::path::{BranchPath, FailedTry};
use tree::{Marking, Tree};

/// Sees the blocks above the fork, which all connect. It takes no memory.
pub(crate) fn flag_valid_path(tree: &mut Tree, path: &BranchPath)
    requires { (r : Rules Block Id) × (a : ℕ) × (p : ℕ) × IsValidPath r tree.old a p path.now }
    ensures { (r : Rules Block Id) (a p : ℕ) → IsValidPath r tree.old a p path.now
        → tree.new ≡ state_after_try r tree.old p }
{
    see_all(tree, path.up.as_slice());
}

/// Sees the blocks above the fork that connect, and marks the one that doesn't. It takes no memory.
pub(crate) fn flag_failed_try<M: Marking>(tree: &mut M, failed: &FailedTry)
    requires { (r : Rules Block Id) × (a : ℕ) × (p : ℕ)
        × IsFailedTry r (M.state tree.old) a p failed.now }
    ensures { (r : Rules Block Id) (a p : ℕ) → IsFailedTry r (M.state tree.old) a p failed.now
        → M.state tree.new ≡ state_after_try r (M.state tree.old) p }
{
    // The highest comes first.
    let lowest = failed.path.up.len() - failed.passed;
    see_all(tree, &failed.path.up[lowest..]);
    tree.mark(failed.path.up[lowest - 1]);
}

/// Sees each of these blocks.
fn see_all<M: Marking>(tree: &mut M, found: &[usize])
    requires kept { let s = M.state tree.old in
        (x : ℕ) → has found.now x ≡ true → x ≤ length s.blocks }
    requires order { let s = M.state tree.old in InOrder (length s.blocks) s.seen }
    ensures { let s = M.state tree.old in M.state tree.new
        ≡ record s { seen = union_where (places s.blocks) s.seen (λ x. has found.now x) } }
{
    for place in found {
        tree.see(*place);
    }
}
