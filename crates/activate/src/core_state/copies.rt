//! A core, copied.

ghost use Rattle.std.specs.Prelude.{◌≡◌, ◌≤◌, IfOk, length, vec_capacity};
ghost use Rattle.std.specs.VecDeque.{deque_capacity};
ghost use Rattle.activate.specs.CoreState.{most_undo};

use crate::active_branch::MOST_UNDO;
use crate::core_state::Core;
use std::alloc::Global;
use std::collections::VecDeque;
use undo::{BlockUndo, PackedUndo};
use wire::Memory;

impl Core {
    /// An equal core. Blocks share their bytes.
    pub fn copy(&self, alloc: Global) -> Result<Core, Memory>
        ensures { IfOk result (λ core. core ≡ self.now) }
    {
        let room = self.tree.len();
        let tree = self.tree.copy(alloc)?;
        let mut branch = Vec::with_capacity(alloc, room)?;
        branch.extend_from_slice(self.branch.as_slice())?;
        let mut medians = Vec::with_capacity(alloc, room)?;
        medians.extend_from_slice(self.medians.as_slice())?;
        let undo = copy_undo(alloc, &self.undo)?;
        let packed = copy_packed(alloc, self.packed.as_slice(), room)?;
        Ok(Core {
            params: self.params,
            tree,
            active: self.active,
            branch,
            medians,
            undo,
            packed,
        })
    }
}

/// The same undo, with room for that of [`MOST_UNDO`] blocks.
fn copy_undo(alloc: Global, kept: &VecDeque<BlockUndo>) -> Result<VecDeque<BlockUndo>, Memory>
    requires { length kept.now.items ≤ most_undo }
    ensures items { IfOk result (λ undo. undo.items ≡ kept.now.items) }
    ensures room { IfOk result (λ undo. most_undo ≤ deque_capacity undo) }
{
    let mut copy = VecDeque::with_capacity(alloc, MOST_UNDO)?;
    for index in 0..kept.len() {
        copy.push_back_reserved(kept[index].copy(alloc)?);
    }
    Ok(copy)
}

/// The same packed undo, with room for that of so many blocks.
fn copy_packed(alloc: Global, kept: &[PackedUndo], room: usize) -> Result<Vec<PackedUndo>, Memory>
    ensures items { IfOk result (λ packed. packed.items ≡ kept.now) }
    ensures room { IfOk result (λ packed. room ≤ vec_capacity packed) }
{
    let mut copy = Vec::with_capacity(alloc, room)?;
    for undo in kept {
        copy.push(undo.copy(alloc)?)?;
    }
    Ok(copy)
}
