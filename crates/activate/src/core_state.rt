//! A chainstate over coins that are lent to it.

ghost use Rattle.std.specs.Prelude.{◌≡◌, ◌≤◌, IfOk, is_some, map};
ghost use Rattle.std.specs.Option.{option_map};
ghost use Rattle.std.specs.FinMap as coin_map;
ghost use Rattle.signatures.specs.Triple.{Triples};
ghost use Rattle.rules.specs.Params.{regtest as regtest_params};
ghost use Rattle.model.specs.Regtest.{regtest};
ghost use Rattle.model.specs.Settle.{active, best, tips};
ghost use Rattle.tree.specs.Branches.{height, place_of};
ghost use Rattle.tree.specs.Names.{names};
ghost use Rattle.tree.specs.Tips.{tip_of_id};
ghost use Rattle.activate.specs.CoreState.{Follows, IsBlockOf, coins_of, opened_core, most_undo};

mod commit;
mod copies;
mod lookups;
mod marks;
pub(crate) mod preparation;
pub(crate) mod settlement;
mod steps;

use crate::active_branch::MOST_UNDO;
use block::{Bytes, GENESIS_TIME};
use hash::Id;
use rules::Params;
use std::alloc::Global;
use std::collections::VecDeque;
use std::marker::Model;
use tree::{Tip, Tree};
use undo::{BlockUndo, PackedUndo};
use wire::Memory;

/// The tree, the active block, and the undo of the highest active blocks; the coins lie with the caller. A clause
/// sees the heights of soft forks, the state, and the active place.
#[derive(Drop)]
pub struct Core {
    params: Params,
    tree: Tree,
    active: usize,
    /// The places of the active branch, by height.
    branch: Vec<usize>,
    /// Their medians time past, by height.
    medians: Vec<u32>,
    /// What the highest of them spent, the lowest first.
    undo: VecDeque<BlockUndo>,
    /// What each of them but genesis spent, by height.
    packed: Vec<PackedUndo>,
}

impl Model for Core {
    ghost use Rattle.std.specs.Prelude.{length, ◌≤◌, vec_capacity};
    ghost use Rattle.std.specs.VecDeque.{deque_capacity};
    ghost use Rattle.activate.specs.CoreState.{CoreState};
    ghost use Rattle.activate.specs.inside.Kept.{IsBranch, HasRoom};

    ghost Value = { CoreState };

    ghost view = { λ c. record {
      params = c.params;
      state = c.tree;
      active = c.active;
      undo_kept = length c.undo.items;
    } };

    ghost invariant = { λ c. let t = c.tree.blocks in
        (c.active ≤ length t)
        × IsBranch t c.active c.branch.items c.medians.items c.undo.items c.packed.items
        × HasRoom t (vec_capacity c.branch) (vec_capacity c.medians) (deque_capacity c.undo)
        (vec_capacity c.packed) };
}

impl Core {
    /// Genesis alone, by the rules of regtest.
    pub fn new(alloc: Global) -> Result<Core, Memory>
        ensures value { IfOk result (λ core. core ≡ opened_core regtest_params) }
        ensures follows { (triples : Triples)
            → IfOk result (λ core.
            Follows core triples × (coins_of core ≡ coin_map.empty)) }
    {
        Core::with(alloc, Params::regtest())
    }

    /// Genesis alone, with these heights of soft forks.
    pub fn with(alloc: Global, params: Params) -> Result<Core, Memory>
        ensures value { IfOk result (λ core. core ≡ opened_core params) }
        ensures follows { (triples : Triples)
            → IfOk result (λ core.
            Follows core triples × (coins_of core ≡ coin_map.empty)) }
    {
        let mut branch = Vec::new(alloc);
        branch.push(0)?;
        let mut medians = Vec::new(alloc);
        medians.push(GENESIS_TIME)?;
        Ok(Core {
            params,
            tree: Tree::new(alloc)?,
            active: 0,
            branch,
            medians,
            undo: VecDeque::with_capacity(alloc, MOST_UNDO)?,
            packed: Vec::new(alloc),
        })
    }

    /// The heights of soft forks, as they were given.
    pub fn params(&self) -> &Params
        ensures { result.now ≡ self.now.params }
    {
        &self.params
    }

    /// Whether a block with this id is kept. Genesis is.
    pub fn is_kept(&self, id: &Id) -> bool
        ensures { result ≡ is_some (place_of names self.now.state.blocks id.now) }
    {
        self.tree.find(id).is_some()
    }

    /// The bytes of the block with this id, as they were submitted. Of genesis none are kept.
    pub fn block(&self, id: &Id) -> Option<&Bytes>
        ensures { IsBlockOf self.now.state.blocks
            (place_of names self.now.state.blocks id.now) (option_map (λ b. b.now) result) }
    {
        let place = self.tree.find(id)?;
        self.tree.block(place).bytes()
    }

    /// The active block's id.
    pub fn best(&self) -> Id
        ensures { (triples : Triples) → Follows self.now triples
            → result ≡ best (regtest self.now.params triples) self.now.state }
    {
        self.tree.id(self.active)
    }

    /// The active block's height.
    pub fn height(&self) -> usize
        ensures { (triples : Triples) → Follows self.now triples
            → let s = self.now.state in
            result ≡ height s.blocks (active (regtest self.now.params triples) s) }
    {
        self.tree.height(self.active)
    }

    /// The tips of the tree, by height downwards, then by arrival (Bitcoin Core's `getchaintips`).
    pub fn tips(&self, alloc: Global) -> Result<Vec<Tip>, Memory>
        ensures { (triples : Triples) → Follows self.now triples
            → let r = regtest self.now.params triples in
            IfOk result (λ list. list.items ≡ map tip_of_id (tips r self.now.state)) }
    {
        self.tree.tips(alloc, self.active, self.branch.as_slice())
    }

    /// Of how many of the highest active blocks undo is kept.
    pub fn undo_kept(&self) -> usize
        ensures value { result ≡ self.now.undo_kept }
        ensures few { result ≤ most_undo }
    {
        self.undo.len()
    }
}
