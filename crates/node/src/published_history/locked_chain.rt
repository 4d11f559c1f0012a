//! The chainstate under the lock, and its step over the coins that are published, as a reader finds them.

ghost use Rattle.std.specs.Prelude.{◌≡◌, ◌≤◌, All, IfOk, IfErr};
ghost use Rattle.queue.specs.Jobs.{IsEarly};
ghost use Rattle.model.specs.Learnt.{IsNews};
ghost use Rattle.model.specs.PreparedCommand.{command_of};
ghost use Rattle.node.specs.inside.Knowledge.{known_behind, known_of};
ghost use Rattle.node.specs.inside.PublishedState.{AreCoreSteps, IsCoreReply, IsLockedAt};
ghost use Rattle.node.specs.inside.Refusal.{IsWantOf};

use crate::published_history::knowledge::Knowledge;
use crate::published_history::refusal::Refusal;
use crate::reader_home::ReaderHome;
use activate::Core;
use coins::Changes;
use connect::Env;
use model::{MarkReply, PreparedCommand, Reply};
use queue::{Crew, Gate, Verdicts};
use signatures::{KnownSignatures, Table};
use std::alloc::Global;
use view::{Naming, SeenHistory};

/// Who runs scripts, by a table or by need, with the verdicts that were got before the lock.
#[derive(Drop)]
pub(crate) struct Crews<'a, A: Crew<Table>, B: Crew<KnownSignatures>> {
    /// From 1 to 16.
    pub(crate) workers: usize,
    pub(crate) early: &'a [Verdicts<'a>],
    pub(crate) by_table: &'a A,
    pub(crate) by_need: &'a B,
}

/// The chainstate but its coins, and what leads to them.
#[derive(Drop)]
pub(crate) struct LockedChain<J: Naming> {
    pub(crate) core: Core,
    pub(crate) known: Knowledge,
    /// The history that is published.
    pub(crate) note: SeenHistory,
    pub(crate) reader: ReaderHome<J>,
}

impl<J: Naming> LockedChain<J> {
    /// Takes a command over the coins that the reader finds, if just this history is published: the reply, and the coins
    /// that change. A verdict is taken down, and no script is run.
    pub(crate) fn step<A: Crew<Table>, B: Crew<KnownSignatures>>(
        &mut self,
        alloc: Global,
        command: &PreparedCommand,
        crews: &Crews<'_, A, B>,
        gate: &(dyn Gate + Sync),
    ) -> Result<(Reply, Changes), Refusal>
        requires at { IsLockedAt J.origin self.old.core self.old.known self.old.note }
        requires crews { A.is_ready crews.now.by_table.now × B.is_ready crews.now.by_need.now
            × (1 ≤ crews.now.workers) × (crews.now.workers ≤ 16) }
        requires early { All (IsEarly (known_of self.old.known)) crews.now.early.now }
        requires news { IsNews (known_of self.old.known) (command_of command.now) }
        ensures step { let c = command_of command.now in let known = known_of self.old.known in
            IfOk result (λ done. AreCoreSteps known self.old.core self.new.core c done.0 done.1) }
        ensures known { let c = command_of command.now in
            IfOk result (λ _. self.new.known ≡ known_behind self.old.known c) }
        ensures rest { (self.new.note ≡ self.old.note) × (self.new.reader ≡ self.old.reader) }
        ensures refused { let c = command_of command.now in
            let known = known_of self.old.known in
            IfErr result (λ why. (self.new ≡ self.old) × IsWantOf self.old.core known c why) }
    {
        if let PreparedCommand::Learn(triple, valid) = command {
            self.known.learn(triple.triple(), *valid)?;
            return Ok((Reply::Mark(MarkReply::Done), Changes::new(alloc)));
        }
        let Some(reading) = self.reader.enter_at(&self.note) else {
            return Err(Refusal::Closed);
        };
        let (workers, coins) = (crews.workers, reading.get().coins());
        match &self.known {
            Knowledge::Table(table) => {
                let env = Env {
                    signatures: &**table,
                    workers,
                    early: crews.early,
                    crew: crews.by_table,
                };
                let done = self.core.step_over(alloc, coins, command, &env, gate);
                self.reader.leave(reading);
                Ok(done?)
            }
            Knowledge::Found(verdicts) => {
                let env = Env {
                    signatures: verdicts,
                    workers,
                    early: crews.early,
                    crew: crews.by_need,
                };
                let done = self.core.step_over(alloc, coins, command, &env, gate);
                self.reader.leave(reading);
                Ok(done?)
            }
        }
    }

    /// The reply that a command would get over the coins that the reader finds, if just this history is published. Nothing
    /// changes.
    pub(crate) fn judge<A: Crew<Table>, B: Crew<KnownSignatures>>(
        &mut self,
        alloc: Global,
        command: &PreparedCommand,
        crews: &Crews<'_, A, B>,
        gate: &(dyn Gate + Sync),
    ) -> Result<Reply, Refusal>
        requires at { IsLockedAt J.origin self.old.core self.old.known self.old.note }
        requires crews { A.is_ready crews.now.by_table.now × B.is_ready crews.now.by_need.now
            × (1 ≤ crews.now.workers) × (crews.now.workers ≤ 16) }
        requires early { All (IsEarly (known_of self.old.known)) crews.now.early.now }
        ensures reply { let c = command_of command.now in let known = known_of self.old.known in
            IfOk result (IsCoreReply known self.old.core c) }
        ensures same { self.new ≡ self.old }
        ensures wants { let c = command_of command.now in
            IfErr result (IsWantOf self.old.core (known_of self.old.known) c) }
    {
        let Some(reading) = self.reader.enter_at(&self.note) else {
            return Err(Refusal::Closed);
        };
        let (workers, coins) = (crews.workers, reading.get().coins());
        match &self.known {
            Knowledge::Table(table) => {
                let env = Env {
                    signatures: &**table,
                    workers,
                    early: crews.early,
                    crew: crews.by_table,
                };
                let reply = self.core.judge_over(alloc, coins, command, &env, gate);
                self.reader.leave(reading);
                Ok(reply?)
            }
            Knowledge::Found(verdicts) => {
                let env = Env {
                    signatures: verdicts,
                    workers,
                    early: crews.early,
                    crew: crews.by_need,
                };
                let reply = self.core.judge_over(alloc, coins, command, &env, gate);
                self.reader.leave(reading);
                Ok(reply?)
            }
        }
    }
}
