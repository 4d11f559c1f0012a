//! What was prepared is put in place together with the coins: both, or neither.

ghost use Rattle.std.specs.Prelude.{◌≡◌, ◌≤◌, IfOk, OnErr, OnOk, length, map, reverse};
ghost use Rattle.hash.specs.declared.id.Id.{Id};
ghost use Rattle.block.specs.declared.block.Block.{Block};
ghost use Rattle.model.specs.Rules.{Rules};
ghost use Rattle.activate.specs.inside.Preparation.{undo_after, CanActivate, CanEdit, CanFinish, IsReady, core_after_activation, core_after_commit, core_after_finish, core_with_block, edited};
ghost use Rattle.signatures.specs.Triple.{Triples};
ghost use Rattle.tree.specs.Nodes.{CanKeep};
ghost use Rattle.model.specs.Regtest.{regtest};
ghost use Rattle.activate.specs.Lookups.{undo_at};
ghost use Rattle.activate.specs.inside.Paths.{IsPath};

use crate::active_branch::{append_packed, append_places, keep_undo};
use crate::core_state::Core;
use crate::new_undo::NewUndo;
use crate::path::BranchPath;
use crate::plan::{Completion, Edit, Prepared};
use crate::try_flags::flag_valid_path;
use coins::Changes;
use model::Reply;
use std::alloc::Global;
use tree::{Lays, Marking, NewBlock};
use wire::Memory;

impl Core {
    /// Puts a prepared command in place, where the coins take their changes too. Room comes first, then the coins, and
    /// then what can't fail; so a refusal leaves both, and nothing is taken back.
    pub(crate) fn flush<L: Lays<Changes>>(
        &mut self,
        alloc: Global,
        prepared: Prepared,
        coins: &mut L,
    ) -> Result<Reply, Memory>
        requires { (triples : Triples) × IsReady (regtest self.old.params triples) self.old
            prepared }
        ensures reply { IfOk result (λ reply. reply ≡ prepared.reply) }
        ensures ok { (triples : Triples) → let r = regtest self.old.params triples in
            IsReady r self.old prepared
            → OnOk result (self.new ≡ core_after_commit r self.old prepared) }
        ensures laid { OnOk result (coins.new ≡ L.laid coins.old prepared.changes) }
        ensures err { OnErr result (self.new ≡ self.old) }
        ensures not_laid { OnErr result (coins.new ≡ coins.old) }
    {
        let Prepared {
            reply,
            edit,
            rest,
            changes,
        } = prepared;
        self.edit(alloc, edit, coins, changes)?;
        self.finish(rest);
        Ok(reply)
    }

    /// Changes the tree, where the coins take their changes too.
    fn edit<L: Lays<Changes>>(
        &mut self,
        alloc: Global,
        edit: Edit,
        coins: &mut L,
        changes: Changes,
    ) -> Result<(), Memory>
        requires { CanEdit self.old.state edit }
        ensures ok { OnOk result (self.new ≡ edited self.old edit) }
        ensures laid { OnOk result (coins.new ≡ L.laid coins.old changes) }
        ensures err { OnErr result (self.new ≡ self.old) }
        ensures not_laid { OnErr result (coins.new ≡ coins.old) }
    {
        match edit {
            Edit::Leave => coins.lay(alloc, changes),
            Edit::Keep(new) => self.keep(alloc, new, coins, changes),
            Edit::Call(place) => self.tree.precious(alloc, place, coins, changes),
            Edit::Remark(marks) => {
                coins.lay(alloc, changes)?;
                self.tree.set_marks(marks);
                Ok(())
            }
        }
    }

    /// Keeps a new block, with room for it on the active branch.
    fn keep<L: Lays<Changes>>(
        &mut self,
        alloc: Global,
        new: NewBlock,
        coins: &mut L,
        changes: Changes,
    ) -> Result<(), Memory>
        requires { CanKeep self.old.state new }
        ensures ok { OnOk result (self.new ≡ core_with_block self.old new.block new.parent) }
        ensures laid { OnOk result (coins.new ≡ L.laid coins.old changes) }
        ensures err { OnErr result (self.new ≡ self.old) }
        ensures not_laid { OnErr result (coins.new ≡ coins.old) }
    {
        let more = self.tree.len() + 1 - self.branch.len();
        self.branch.reserve(more)?;
        self.medians.reserve(more)?;
        self.packed.reserve(more)?;
        self.tree.add(alloc, new, coins, changes)
    }

    /// Puts in place what a try found. It takes no memory.
    fn finish(&mut self, rest: Completion)
        requires { (triples : Triples) × CanFinish (regtest self.old.params triples) self.old rest }
        ensures { (triples : Triples) → let r = regtest self.old.params triples in
            CanFinish r self.old rest → self.new ≡ core_after_finish r self.old rest }
    {
        match rest {
            Completion::Nothing => {}
            Completion::Flag(_, failed) => self.flag(&failed),
            Completion::Activate(place, path, undo) => self.activate(place, &path, undo),
        }
    }

    /// Makes another block the active one.
    fn activate(&mut self, place: usize, path: &BranchPath, undo: NewUndo)
        requires { (r : Rules Block Id) × CanActivate r self.old place path.now undo }
        ensures { (r : Rules Block Id) → CanActivate r self.old place path.now undo
            → self.new ≡ core_after_activation r self.old place path.now }
    {
        flag_valid_path(&mut self.tree, path);
        self.turn(place, path, undo);
    }

    /// Leads over to another block what is kept of the active branch.
    fn turn(&mut self, place: usize, path: &BranchPath, undo: NewUndo)
        requires kept { place ≤ length self.old.state.blocks }
        requires path { IsPath self.old.state.blocks self.old.active place path.now }
        requires undo { let t = self.old.state.blocks in
            undo ≡ reverse (map (undo_at t) path.now.up.items) }
        ensures { let old = self.old in
            self.new
            ≡ record old {
              active = place;
              undo_kept = undo_after old.state.blocks old.active old.undo_kept path.now;
            } }
    {
        let gone = self.tree.height(self.active) - path.height;
        let left = self.undo.len().saturating_sub(gone);
        self.active = place;
        self.branch.truncate(path.height + 1);
        self.medians.truncate(path.height + 1);
        append_places(
            &self.tree,
            path.up.as_slice(),
            &mut self.branch,
            &mut self.medians,
        );
        let NewUndo { blocks, packed } = undo;
        self.undo.truncate(left);
        keep_undo(&mut self.undo, blocks);
        self.packed.truncate(path.height);
        append_packed(&mut self.packed, packed);
    }
}
