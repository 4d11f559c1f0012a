//! Other marks, laid over a tree that stays as it is.

ghost use Rattle.std.specs.Prelude.{◌≡◌, ◌≤◌, length, IfOk, OnErr, OnOk};
ghost use Rattle.tree.specs.Nodes.{AreMarks, laid};
ghost use Rattle.tree.specs.Sound.{IsBest};
ghost use Rattle.tree.specs.State.{has_no_mark, without_marks};

use crate::block_index::Mark;
use crate::marking::Marking;
use crate::marks::{mark_block, related, take_marks};
use crate::tree::Tree;
use std::alloc::Global;
use std::marker::Model;
use wire::Memory;

/// A tree under other marks than its own. A clause sees the state that the tree would have with them.
#[derive(Drop)]
pub struct Overlay<'t> {
    tree: &'t Tree,
    marks: Vec<Mark>,
}

impl<'t> Model for Overlay<'t> {
    ghost use Rattle.block.specs.declared.block.Block.{Block};
    ghost use Rattle.tree.specs.State.{State};
    ghost use Rattle.tree.specs.Nodes.{AreMarks, laid};

    ghost Value = { State Block };

    ghost view = { λ o. laid o.tree.now o.marks.items };

    ghost invariant = { λ o. AreMarks o.tree.now o.marks.items };
}

/// The marks of an overlay, to be put in the place of a tree's own.
#[derive(Drop)]
pub struct Marks {
    pub(crate) marks: Vec<Mark>,
}

impl Model for Marks {
    ghost use Rattle.std.specs.Prelude.{List};
    ghost use Rattle.tree.specs.declared.block_index.Mark.{Mark};

    ghost Value = { List Mark };

    ghost view = { λ m. m.marks.items };
}

impl<'t> Overlay<'t> {
    /// The tree's own marks. It copies those of all blocks.
    pub fn over(alloc: Global, tree: &'t Tree) -> Result<Overlay<'t>, Memory>
        ensures { IfOk result (λ overlay. overlay ≡ tree.now) }
    {
        Ok(Overlay {
            tree,
            marks: Vec::from_slice(alloc, tree.marks.as_slice())?,
        })
    }

    /// Takes the marks from a block, its ancestors and its descendants. It walks all blocks.
    pub fn clear(&mut self, alloc: Global, place: usize) -> Result<(), Memory>
        requires { place ≤ length self.old.blocks }
        ensures ok { OnOk result (self.new ≡ without_marks self.old place) }
        ensures err { OnErr result (self.new ≡ self.old) }
    {
        let tree = self.tree;
        let nodes = tree.nodes.as_slice();
        let related = related(alloc, nodes, place)?;
        take_marks(nodes, self.marks.as_mut_slice(), related.as_slice());
        Ok(())
    }

    /// The best of the blocks whose branch has no mark. It looks at all blocks.
    pub fn best_usable(&self) -> usize
        ensures { IsBest self.now (has_no_mark self.now) (length self.now.blocks) result }
    {
        let tree = self.tree;
        let mut best = 0;
        for place in 1..tree.len() {
            if self.marks[place].usable && tree.better(place, best) {
                best = place;
            }
        }
        best
    }

    /// Its marks, without the tree.
    pub fn into_marks(self) -> Marks
        ensures are { AreMarks self.entry result }
        ensures laid { laid self.entry result ≡ self.entry }
    {
        let Overlay { tree: _, marks } = self;
        Marks { marks }
    }
}

impl<'t> Marking for Overlay<'t> {
    ghost state = { λ overlay. overlay };

    fn mark(&mut self, place: usize) {
        let tree = self.tree;
        mark_block(tree.nodes.as_slice(), self.marks.as_mut_slice(), place);
    }

    fn see(&mut self, place: usize) {
        self.marks[place].seen = true;
    }
}
