//! A tree, copied.

ghost use Rattle.std.specs.Prelude.{◌≡◌, IfOk};

use crate::lays::Lays;
use crate::new_block::NewBlock;
use crate::tree::Tree;
use std::alloc::Global;
use wire::Memory;

/// It takes no step.
#[derive(Drop)]
struct Nobody {}

impl Lays<()> for Nobody {
    ghost laid = { λ nobody _. nobody };

    fn lay(&mut self, _: Global, _: ()) -> Result<(), Memory> {
        Ok(())
    }
}

impl Tree {
    /// An equal tree. Blocks share their bytes.
    pub fn copy(&self, alloc: Global) -> Result<Tree, Memory>
        ensures { IfOk result (λ tree. tree ≡ self.now) }
    {
        let marks = Vec::from_slice(alloc, self.marks.as_slice())?;
        let calls = Vec::from_slice(alloc, self.calls.as_slice())?;
        let copy = self.same_blocks(alloc)?;
        let Tree {
            nodes,
            ids,
            leaves,
            ..
        } = copy;
        Ok(Tree {
            nodes,
            marks,
            calls,
            ids,
            leaves,
        })
    }

    /// A tree of the same blocks, without marks and calls.
    fn same_blocks(&self, alloc: Global) -> Result<Tree, Memory>
        ensures { IfOk result (λ tree. tree.blocks ≡ self.now.blocks) }
    {
        let mut copy = Tree::new(alloc)?;
        let mut nobody = Nobody {};
        let nodes = self.nodes.as_slice();
        for place in 1..nodes.len() {
            let node = &nodes[place];
            let new = NewBlock {
                block: node.block.copy()?,
                id: node.id,
                parent: node.parent,
            };
            copy.add(alloc, new, &mut nobody, ())?;
        }
        Ok(copy)
    }
}
