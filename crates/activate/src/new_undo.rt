//! What blocks that become active spent.

ghost use Rattle.std.specs.Prelude.{◌≡◌, IfOk};

use std::alloc::Global;
use std::marker::Model;
use undo::{BlockUndo, PackedUndo};
use wire::Memory;

/// What blocks that become active spent, the lowest first, as it is and packed. So what keeps it needs no memory.
#[derive(Drop)]
pub(crate) struct NewUndo {
    pub(crate) blocks: Vec<BlockUndo>,
    pub(crate) packed: Vec<PackedUndo>,
}

impl Model for NewUndo {
    ghost use Rattle.std.specs.Prelude.{◌≡◌, List};
    ghost use Rattle.coins.specs.declared.coin.Coin.{Coin};

    ghost Value = { List (List (List Coin)) };

    ghost view = { λ u. u.blocks.items };

    ghost invariant = { λ u. u.packed.items ≡ u.blocks.items };
}

impl NewUndo {
    /// What these blocks spent, with the same packed.
    pub(crate) fn of(alloc: Global, blocks: Vec<BlockUndo>) -> Result<NewUndo, Memory>
        ensures { IfOk result (λ undo. undo ≡ blocks.items) }
    {
        let mut packed = Vec::with_capacity(alloc, blocks.len())?;
        for undo in blocks.as_slice() {
            packed.push(undo.pack(alloc)?)?;
        }
        Ok(NewUndo { blocks, packed })
    }
}
