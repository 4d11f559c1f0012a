//! What a command does, found out before anything is changed.

ghost use Rattle.std.specs.Prelude.{◌≡◌, ◌≤◌, IfOk, length, IfErr, IfSome};
ghost use Rattle.hash.specs.declared.id.Id.{Id};
ghost use Rattle.block.specs.declared.block.Block.{Block};
ghost use Rattle.model.specs.PreparedCommand.{command_of};
ghost use Rattle.model.specs.Regtest.{regtest};
ghost use Rattle.model.specs.Rules.{Rules};
ghost use Rattle.model.specs.Submission.{answer_known};
ghost use Rattle.activate.specs.CoreState.{Follows, coins_of};
ghost use Rattle.activate.specs.Wants.{AreWantedByStep};
ghost use Rattle.activate.specs.inside.Preparation.{IsNoSubmission, IsPreparation, ChangesNothing};
ghost use Rattle.signatures.specs.Known.{Under};

use crate::block_faults::fault_or_parent;
use crate::core_state::Core;
use crate::plan::{Completion, Edit, Prepared};
use block::StoredBlock;
use coins::{Base, Changes};
use connect::RunsScripts;
use model::{MarkReply, PreparedCommand, Reply, SubmitReply};
use queue::Gate;
use std::alloc::Global;
use tree::{MAX_BLOCKS, NewBlock};

/// What is prepared for a command that changes nothing.
pub(crate) fn still(alloc: Global, reply: Reply) -> Prepared
    ensures { ChangesNothing reply result }
{
    Prepared {
        reply,
        edit: Edit::Leave,
        rest: Completion::Nothing,
        changes: Changes::new(alloc),
    }
}

impl Core {
    /// Finds out everything that a command does, of a submission as Bitcoin Core's `ProcessNewBlock`. Nothing changes.
    pub(crate) fn prepare<B: Base, S: RunsScripts>(
        &self,
        alloc: Global,
        base: &B,
        command: &PreparedCommand,
        env: &S,
        gate: &(dyn Gate + Sync),
    ) -> Result<Prepared, S::Stop>
        requires follows { Under (S.known env.now) (λ triples. Follows self.now triples) }
        requires coins { B.coins base.now ≡ coins_of self.now }
        ensures prepared { IfOk result (λ prepared.
            Under (S.known env.now) (λ triples. IsPreparation
            (regtest self.now.params triples) self.now (command_of command.now) prepared)) }
        ensures wants { IfErr result (λ stop. IfSome (S.told stop)
            (AreWantedByStep self.now (command_of command.now) (S.known env.now))) }
    {
        let PreparedCommand::Submit(submission, now) = command else {
            return self.prepare_mark(alloc, base, command, env, gate);
        };
        let Some(submitted) = submission.block() else {
            return Ok(still(alloc, Reply::Submit(SubmitReply::DecodeFailed)));
        };
        if let Some(place) = self.tree.find(&submitted.id) {
            return Ok(still(alloc, Reply::Submit(self.known(place))));
        }
        if self.tree.len() >= MAX_BLOCKS {
            return Ok(still(alloc, Reply::Submit(SubmitReply::TreeFull)));
        }
        match fault_or_parent(&self.tree, &self.params, submitted, *now) {
            Err(reason) => Ok(still(alloc, Reply::Submit(SubmitReply::Rejected(reason)))),
            Ok(parent) => {
                let settled = self.settle_new(alloc, base, submitted, parent, env, gate)?;
                let block = StoredBlock::with_ids(
                    submission.bytes().copy()?,
                    &submitted.block,
                    &submitted.ids,
                );
                let id = submitted.id;
                Ok(Prepared {
                    reply: Reply::Submit(settled.said),
                    edit: Edit::Keep(NewBlock { block, id, parent }),
                    rest: settled.rest,
                    changes: settled.changes,
                })
            }
        }
    }

    /// What a command does that submits nothing.
    fn prepare_mark<B: Base, S: RunsScripts>(
        &self,
        alloc: Global,
        base: &B,
        command: &PreparedCommand,
        env: &S,
        gate: &(dyn Gate + Sync),
    ) -> Result<Prepared, S::Stop>
        requires mark { IsNoSubmission (command_of command.now) }
        requires follows { Under (S.known env.now) (λ triples. Follows self.now triples) }
        requires coins { B.coins base.now ≡ coins_of self.now }
        ensures prepared { IfOk result (λ prepared.
            Under (S.known env.now) (λ triples. IsPreparation
            (regtest self.now.params triples) self.now (command_of command.now) prepared)) }
        ensures wants { IfErr result (λ stop. IfSome (S.told stop)
            (AreWantedByStep self.now (command_of command.now) (S.known env.now))) }
    {
        match command {
            PreparedCommand::Submit(_, _) => unreachable!(),
            PreparedCommand::Invalidate(id) => {
                self.prepare_invalidate(alloc, base, id, env, gate)
            }
            PreparedCommand::Reconsider(id) => {
                self.prepare_reconsider(alloc, base, id, env, gate)
            }
            PreparedCommand::Precious(id) => self.prepare_precious(alloc, base, id, env, gate),
            PreparedCommand::Learn(_, _) => Ok(still(alloc, Reply::Mark(MarkReply::Done))),
        }
    }

    /// The answer to a block that was kept before.
    fn known(&self, place: usize) -> SubmitReply
        requires { place ≤ length self.now.state.blocks }
        ensures { (r : Rules Block Id) → result ≡ answer_known r self.now.state place }
    {
        if !self.tree.usable(place) {
            SubmitReply::DuplicateInvalid
        } else if self.tree.seen(place) {
            SubmitReply::Duplicate
        } else {
            SubmitReply::DuplicateInconclusive
        }
    }
}
