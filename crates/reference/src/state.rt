//! The state between two commands.

ghost use Rattle.std.specs.Prelude.{◌≡◌, ◌<◌, ◌∷◌, None, Some, length, IfOk, OnOk, ◌||◌};
ghost use Rattle.block.specs.Identity.{id_of};
ghost use Rattle.tree.specs.Branches.{has, on, place_of};
ghost use Rattle.tree.specs.Names.{names};
ghost use Rattle.tree.specs.Limits.{max_blocks};
ghost use Rattle.tree.specs.State.{opening, with_block, with_mark, without_marks, with_call};
ghost use Rattle.txn.specs.First.{first_broken};
ghost use Rattle.rules.specs.Alone.{alone_rules};
ghost use Rattle.signatures.specs.Triple.{Triples};
ghost use Rattle.rules.specs.declared.params.Params.{Params};
ghost use Rattle.model.specs.Regtest.{regtest};
ghost use Rattle.reference.specs.inside.Replay.{AreKeptBlocks, IsRight, blocks_before, blocks_of, first_kept, state_of_replayed, trial_on};

use crate::branch_replay::Trial;
use crate::kept_block::{KeptBlock, branch_of};
use block::{Block, GENESIS_ID, GENESIS_ROOT, GENESIS_TIME, Header, Txs};
use hash::Id;
use std::alloc::Global;
use wire::Memory;

/// The blocks in the order of arrival, genesis first, with a flag for each that is marked and for each that was
/// found valid once, and the places that were called precious in the order of the calls.
#[derive(Drop)]
pub(crate) struct Replayed {
    pub(crate) held: Vec<KeptBlock>,
    pub(crate) bad: Vec<bool>,
    pub(crate) seen: Vec<bool>,
    pub(crate) calls: Vec<usize>,
}

impl Replayed {
    /// Genesis alone.
    pub(crate) fn new(alloc: Global) -> Result<Replayed, Memory>
        ensures state { IfOk result (λ old. state_of_replayed old ≡ opening) }
        ensures right { (params : Params) (triples : Triples)
            → IfOk result (λ old. IsRight (regtest params triples) old) }
    {
        let mut old = Replayed {
            held: Vec::new(alloc),
            bad: Vec::new(alloc),
            seen: Vec::new(alloc),
            calls: Vec::new(alloc),
        };
        old.held.push(genesis(alloc))?;
        old.bad.push(false)?;
        old.seen.push(true)?;
        Ok(old)
    }

    /// Keeps a block that was made of this id, on this parent. The trial is of its branch.
    pub(crate) fn add(
        &mut self,
        block: Block,
        id: Id,
        parent: usize,
        trial: Trial,
    ) -> Result<(), Memory>
        requires right { (params : Params) × (triples : Triples)
            × IsRight (regtest params triples) self.old }
        requires room { length self.old.held.items < max_blocks }
        requires id { id ≡ id_of block.header }
        requires new { place_of names (state_of_replayed self.old).blocks id ≡ None }
        requires alone { first_broken (alone_rules block) ≡ None }
        requires parent { place_of names (state_of_replayed self.old).blocks block.header.prev
            ≡ Some parent }
        ensures state { OnOk result
            (state_of_replayed self.new
            ≡ with_block (state_of_replayed self.old) block parent) }
        ensures right { (params : Params) (triples : Triples)
            → IsRight (regtest params triples) self.old
            → let before = blocks_before (state_of_replayed self.old).blocks parent in
            trial ≡ trial_on (regtest params triples) (block ∷ before)
            → OnOk result (IsRight (regtest params triples) self.new) }
    {
        self.held.push(KeptBlock {
            block,
            id,
            parent,
            trial,
        })?;
        self.bad.push(false)?;
        self.seen.push(false)?;
        Ok(())
    }

    /// Marks a block as invalid.
    pub(crate) fn mark(&mut self, place: usize)
        requires right { (params : Params) × (triples : Triples)
            × IsRight (regtest params triples) self.old }
        requires not_genesis { 0 < place }
        requires kept { place < length self.old.held.items }
        ensures state { state_of_replayed self.new ≡ with_mark (state_of_replayed self.old) place }
        ensures right { (params : Params) (triples : Triples)
            → IsRight (regtest params triples) self.old
            → IsRight (regtest params triples) self.new }
    {
        self.bad[place] = true;
    }

    /// Takes the marks from a block, its ancestors and its descendants.
    pub(crate) fn clear(&mut self, alloc: Global, place: usize) -> Result<(), Memory>
        requires right { (params : Params) × (triples : Triples)
            × IsRight (regtest params triples) self.old }
        requires kept { place < length self.old.held.items }
        ensures state { OnOk result
            (state_of_replayed self.new
            ≡ without_marks (state_of_replayed self.old) place) }
        ensures right { (params : Params) (triples : Triples)
            → IsRight (regtest params triples) self.old
            → OnOk result (IsRight (regtest params triples) self.new) }
    {
        for other in 0..self.held.len() {
            if is_related(alloc, &self.held, place, other)? {
                self.bad[other] = false;
            }
        }
        Ok(())
    }

    /// Calls a block precious.
    pub(crate) fn call(&mut self, place: usize) -> Result<(), Memory>
        requires { (params : Params) × (triples : Triples)
            × IsRight (regtest params triples) self.old }
        ensures state { OnOk result
            (state_of_replayed self.new ≡ with_call (state_of_replayed self.old) place) }
        ensures right { (params : Params) (triples : Triples)
            → IsRight (regtest params triples) self.old
            → OnOk result (IsRight (regtest params triples) self.new) }
    {
        self.calls.push(place)?;
        Ok(())
    }
}

/// Whether one of two blocks is on the branch of the other.
fn is_related(alloc: Global, held: &[KeptBlock], one: usize, other: usize) -> Result<bool, Memory>
    requires held { AreKeptBlocks (blocks_of held.now) held.now }
    requires one { one < length held.now }
    requires other { other < length held.now }
    ensures { IfOk result (λ related.
        related ≡ (on (blocks_of held.now) one other || on (blocks_of held.now) other one)) }
{
    let up = branch_of(alloc, held, one)?;
    let down = branch_of(alloc, held, other)?;
    Ok(has(&up, other) || has(&down, one))
}

fn has(places: &[usize], place: usize) -> bool
    ensures { result ≡ has places.now place }
{
    places.iter().any(|other| *other == place)
}

/// Genesis. Its transaction makes no coin, and nothing is asked of it, so it isn't kept.
fn genesis(alloc: Global) -> KeptBlock
    ensures { result ≡ first_kept }
{
    let header = Header {
        version: 1,
        prev: Id([0; 32]),
        root: GENESIS_ROOT,
        time: GENESIS_TIME,
        bits: 0x207f_ffff,
        nonce: 2,
    };
    let block = Block {
        header,
        txs: Txs::from_vec(Vec::new(alloc)),
    };
    KeptBlock {
        block,
        id: GENESIS_ID,
        parent: 0,
        trial: Trial::Valid,
    }
}
