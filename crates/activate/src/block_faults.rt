//! What is wrong with a block before it is connected.

ghost use Rattle.std.specs.Prelude.{◌≡◌, ◌≤◌, suc, length, IfOk, Some};
ghost use Rattle.std.specs.Result.{result_err};
ghost use Rattle.signatures.specs.Triple.{Triples};
ghost use Rattle.tree.specs.Branches.{branch, blocks_at, place_of};
ghost use Rattle.tree.specs.Limits.{max_blocks};
ghost use Rattle.tree.specs.Names.{names};
ghost use Rattle.model.specs.Context.{first_fault};
ghost use Rattle.model.specs.SubmissionFacts.{IsJudged};
ghost use Rattle.model.specs.Regtest.{regtest};

use block::Block;
use model::SubmittedBlock;
use rules::{Params, context_fault};
use tree::Tree;
use txn::Reason;

/// The first fault of a block by itself and on its parent, or else its parent's place.
pub(crate) fn fault_or_parent(
    tree: &Tree,
    params: &Params,
    submitted: &SubmittedBlock,
    now: u64,
) -> Result<usize, Reason>
    requires judged { IsJudged submitted.now }
    requires room { suc (length tree.now.blocks) ≤ max_blocks }
    ensures fault { (triples : Triples)
        → result_err result
        ≡ first_fault (regtest params.now triples) tree.now now submitted.now.block }
    ensures parent { IfOk result (λ parent.
        place_of names tree.now.blocks submitted.now.block.header.prev ≡ Some parent) }
{
    if let Some(reason) = submitted.fault {
        return Err(reason);
    }
    let block = &submitted.block;
    let Some(parent) = tree.find(&block.header.prev) else {
        return Err(Reason::ParentNotFound);
    };
    if !tree.usable(parent) {
        return Err(Reason::ParentInvalid);
    }
    match fault_on_parent(tree, params, parent, block, now) {
        Some(reason) => Err(reason),
        None => Ok(parent),
    }
}

/// The first rule that a block breaks by its place on this parent.
fn fault_on_parent(
    tree: &Tree,
    params: &Params,
    parent: usize,
    block: &Block,
    now: u64,
) -> Option<Reason>
    requires room { suc (length tree.now.blocks) ≤ max_blocks }
    requires kept { parent ≤ length tree.now.blocks }
    ensures { let t = tree.now.blocks in
        (triples : Triples) → let r = regtest params.now triples in
        result ≡ r.context_fault (blocks_at names t (branch t parent)) now block.now }
{
    let height = (tree.height(parent) + 1) as u32;
    context_fault(block, height, tree.median(parent), now, params)
}
