//! The tree.

ghost use Rattle.std.specs.Prelude.{◌≡◌, ◌≤◌, ◌<◌, suc, length, map, reverse, IfOk, OnOk, OnErr};
ghost use Rattle.block.specs.declared.block.Block.{Block};
ghost use Rattle.tree.specs.Limits.{max_blocks};
ghost use Rattle.tree.specs.Nodes.{AreMarks, CanKeep, laid};
ghost use Rattle.tree.specs.Branches.{has, height, parent_at, place_of, block_at, id_at, blocks_at, branch};
ghost use Rattle.tree.specs.State.{opening, has_no_mark, rank, beats, with_block, with_call};
ghost use Rattle.tree.specs.inside.Leaves.{AreLeaves, is_leaf};
ghost use Rattle.tree.specs.Tips.{tip_of_id, tips};
ghost use Rattle.tree.specs.MedianTime.{median_time_past};
ghost use Rattle.tree.specs.Names.{names};

use crate::block_index::{BlockIndex, Mark};
use crate::branch::branch_of;
use crate::genesis::genesis_node;
use crate::growth::reserve_one;
use crate::lays::Lays;
use crate::leaves::{enter, node_on, reserve_leaf};
use crate::marking::Marking;
use crate::marks::mark_block;
use crate::new_block::NewBlock;
use crate::overlay::Marks;
use crate::rank::Standing;
use crate::tip::Tip;
use crate::tips::{tip_at, tops};
use block::{GENESIS_ID, StoredBlock};
use hash::Id;
use std::alloc::Global;
use std::collections::{HashMap, HashSet};
use std::marker::Model;
use wire::Memory;

/// How many blocks are kept, genesis among them.
pub const MAX_BLOCKS: usize = 1_000_000;

/// The kept blocks, each named by its place in the order of arrival: genesis has place 0. A clause sees the
/// state that the definitions speak of.
#[derive(Drop)]
pub struct Tree {
    pub(crate) nodes: Vec<BlockIndex>,
    pub(crate) marks: Vec<Mark>,
    /// The places that were called precious, in the order of the calls.
    pub(crate) calls: Vec<usize>,
    pub(crate) ids: HashMap<Id, usize>,
    /// The places of the blocks without a child.
    pub(crate) leaves: HashSet<usize>,
}

impl Model for Tree {
    ghost use Rattle.block.specs.declared.block.Block.{Block};
    ghost use Rattle.tree.specs.State.{State};
    ghost use Rattle.tree.specs.Nodes.{state_of};
    ghost use Rattle.tree.specs.inside.Nodes.{IsRight};

    ghost Value = { State Block };

    ghost view = { λ t. state_of t.nodes.items t.marks.items t.calls.items };

    ghost invariant = { λ t. IsRight t.nodes.items t.marks.items t.calls.items t.ids.entries
        t.leaves.keys };
}

impl Tree {
    /// Genesis alone.
    pub fn new(alloc: Global) -> Result<Tree, Memory>
        ensures { IfOk result (λ tree. tree ≡ opening) }
    {
        let mut nodes = Vec::new(alloc);
        nodes.push(genesis_node())?;
        let mut marks = Vec::new(alloc);
        marks.push(Mark {
            bad: false,
            seen: true,
            usable: true,
            rank: 0,
        })?;
        let mut ids = HashMap::new(alloc);
        ids.insert(GENESIS_ID, 0)?;
        let mut leaves = HashSet::new(alloc);
        leaves.insert(0)?;
        Ok(Tree {
            nodes,
            marks,
            calls: Vec::new(alloc),
            ids,
            leaves,
        })
    }

    /// How many blocks are kept, genesis among them.
    pub fn len(&self) -> usize
        ensures count { result ≡ suc (length self.now.blocks) }
        ensures room { suc (length self.now.blocks) ≤ max_blocks }
    {
        self.nodes.len()
    }

    /// The place of the block with this id.
    pub fn find(&self, id: &Id) -> Option<usize>
        ensures { result ≡ place_of names self.now.blocks id.now }
    {
        self.ids.get(id).copied()
    }

    /// The block at a place. Genesis has no transactions here.
    pub fn block(&self, place: usize) -> &StoredBlock
        requires { place ≤ length self.now.blocks }
        ensures { result.now ≡ block_at names self.now.blocks place }
    {
        &self.nodes[place].block
    }

    /// The id of the block at a place.
    pub fn id(&self, place: usize) -> Id
        requires { place ≤ length self.now.blocks }
        ensures { result ≡ id_at names self.now.blocks place }
    {
        self.nodes[place].id
    }

    /// The place of a block's parent; 0 for genesis.
    pub fn parent(&self, place: usize) -> usize
        requires { place ≤ length self.now.blocks }
        ensures { result ≡ parent_at self.now.blocks place }
    {
        self.nodes[place].parent
    }

    /// How many blocks its branch has before it.
    pub fn height(&self, place: usize) -> usize
        requires { place ≤ length self.now.blocks }
        ensures value { result ≡ height self.now.blocks place }
        ensures few { result < max_blocks }
    {
        self.nodes[place].height
    }

    /// Whether no block of its branch is marked.
    pub fn usable(&self, place: usize) -> bool
        requires { place ≤ length self.now.blocks }
        ensures { result ≡ has_no_mark self.now place }
    {
        self.marks[place].usable
    }

    /// Whether it was found valid once.
    pub fn seen(&self, place: usize) -> bool
        requires { place ≤ length self.now.blocks }
        ensures { result ≡ has self.now.seen place }
    {
        self.marks[place].seen
    }

    /// Whether the first of two blocks is better: higher; or as high and called precious later; or as high, both
    /// never called, and came earlier.
    pub fn better(&self, one: usize, other: usize) -> bool
        requires one { one ≤ length self.now.blocks }
        requires other { other ≤ length self.now.blocks }
        ensures { result ≡ beats self.now one other }
    {
        self.standing(one).is_above(&self.standing(other))
    }

    /// Whether a new block on this parent would be better than another one.
    pub fn would_be_better(&self, parent: usize, other: usize) -> bool
        requires parent { parent ≤ length self.now.blocks }
        requires other { other ≤ length self.now.blocks }
        ensures { (b : Block) → result
            ≡ beats (with_block self.now b parent) (suc (length self.now.blocks)) other }
    {
        self.nodes[other].height <= self.nodes[parent].height
    }

    fn standing(&self, place: usize) -> Standing
        requires { place ≤ length self.now.blocks }
        ensures { result ≡ record {
          height = height self.now.blocks place;
          rank = rank self.now place;
          place = place;
        } }
    {
        Standing {
            height: self.nodes[place].height,
            rank: self.marks[place].rank,
            place,
        }
    }

    /// The median time past of its branch, in seconds since 1970 (BIP 113).
    pub fn median(&self, place: usize) -> u32
        requires { place ≤ length self.now.blocks }
        ensures { let t = self.now.blocks in result ≡
            median_time_past (blocks_at names t (branch t place)) }
    {
        self.nodes[place].median
    }

    /// The places from this one down to genesis.
    pub fn branch(&self, alloc: Global, place: usize) -> Result<Vec<usize>, Memory>
        requires { place ≤ length self.now.blocks }
        ensures { IfOk result (λ places. places.items ≡ branch self.now.blocks place) }
    {
        branch_of(alloc, self.nodes.as_slice(), place)
    }

    /// Whether it has no child.
    pub(crate) fn is_leaf(&self, place: usize) -> bool
        requires { place ≤ length self.now.blocks }
        ensures { result ≡ is_leaf self.now.blocks place }
    {
        self.leaves.contains(&place)
    }

    /// The blocks without a child.
    pub(crate) fn leaves(&self) -> &HashSet<usize>
        ensures leaves { AreLeaves self.now.blocks result.now.keys }
        ensures room { suc (length self.now.blocks) ≤ max_blocks }
    {
        &self.leaves
    }

    /// The tips beside the active block `best`, by height downwards, then by arrival; `active` is its branch
    /// from genesis on. It walks each tip's branch down to the active one.
    pub fn tips(&self, alloc: Global, best: usize, active: &[usize]) -> Result<Vec<Tip>, Memory>
        requires best { best ≤ length self.now.blocks }
        requires active { active.now ≡ reverse (branch self.now.blocks best) }
        ensures { IfOk result (λ list. list.items ≡ map tip_of_id (tips names self.now best)) }
    {
        let tops = tops(alloc, self, best)?;
        let mut list = Vec::new(alloc);
        for top in &tops {
            list.push(tip_at(self, best, active, top.place))?;
        }
        Ok(list)
    }

    /// Puts other marks in the place of its own. It takes no memory.
    pub fn set_marks(&mut self, marks: Marks)
        requires { AreMarks self.old marks }
        ensures { self.new ≡ laid self.old marks }
    {
        let Marks { marks } = marks;
        self.marks = marks;
    }

    /// Calls a block precious where the other one takes its step too: it is better than all that are as high. A refusal
    /// leaves both.
    pub fn precious<C: Drop, L: Lays<C>>(
        &mut self,
        alloc: Global,
        place: usize,
        other: &mut L,
        step: C,
    ) -> Result<(), Memory>
        requires { place ≤ length self.old.blocks }
        ensures ok { OnOk result (self.new ≡ with_call self.old place) }
        ensures laid { OnOk result (other.new ≡ L.laid other.old step) }
        ensures err { OnErr result (self.new ≡ self.old) }
        ensures not_laid { OnErr result (other.new ≡ other.old) }
    {
        self.calls.reserve(1)?;
        other.lay(alloc, step)?;
        self.calls.push_reserved(place);
        self.marks[place].rank = self.calls.len();
        Ok(())
    }

    /// Keeps a block as the last one, where the other one takes its step too. A refusal leaves both: room comes first,
    /// then the other one, and then what can't fail.
    pub fn add<C: Drop, L: Lays<C>>(
        &mut self,
        alloc: Global,
        new: NewBlock,
        other: &mut L,
        step: C,
    ) -> Result<(), Memory>
        requires { CanKeep self.old new }
        ensures ok { OnOk result (self.new ≡ with_block self.old new.block new.parent) }
        ensures laid { OnOk result (other.new ≡ L.laid other.old step) }
        ensures err { OnErr result (self.new ≡ self.old) }
        ensures not_laid { OnErr result (other.new ≡ other.old) }
    {
        reserve_one(&mut self.nodes)?;
        reserve_one(&mut self.marks)?;
        reserve_leaf(&mut self.ids, &mut self.leaves)?;
        other.lay(alloc, step)?;
        let NewBlock { block, id, parent } = new;
        let node = node_on(self.nodes.as_slice(), block, id, parent);
        let mark = Mark {
            bad: false,
            seen: false,
            usable: self.marks[parent].usable,
            rank: 0,
        };
        let place = self.nodes.len();
        enter(&mut self.ids, &mut self.leaves, id, parent, place);
        self.nodes.push_reserved(node);
        self.marks.push_reserved(mark);
        Ok(())
    }
}

impl Marking for Tree {
    ghost state = { λ tree. tree };

    fn mark(&mut self, place: usize) {
        mark_block(self.nodes.as_slice(), self.marks.as_mut_slice(), place);
    }

    fn see(&mut self, place: usize) {
        self.marks[place].seen = true;
    }
}
