//! A command over lent coins, taken or only judged.

ghost use Rattle.std.specs.Prelude.{◌≡◌, IfErr, IfOk, OnErr, IfSome};
ghost use Rattle.coins.specs.Changes.{after_changes};
ghost use Rattle.model.specs.Commands.{outcome};
ghost use Rattle.model.specs.PreparedCommand.{command_of};
ghost use Rattle.model.specs.Regtest.{regtest};
ghost use Rattle.activate.specs.CoreState.{Follows, coins_of};
ghost use Rattle.activate.specs.Steps.{IsStep};
ghost use Rattle.activate.specs.Wants.{AreWantedByStep};
ghost use Rattle.signatures.specs.Known.{Under};

use crate::active_branch::MOST_UNDO;
use crate::core_state::Core;
use crate::own_coins::ChangesToLay;
use coins::{Base, Changes};
use connect::RunsScripts;
use model::{PreparedCommand, Reply};
use queue::Gate;
use std::alloc::Global;

impl Core {
    /// The reply that [`Core::step_over`] would give now. Nothing changes.
    pub fn judge_over<B: Base, S: RunsScripts>(
        &self,
        alloc: Global,
        base: &B,
        command: &PreparedCommand,
        env: &S,
        gate: &(dyn Gate + Sync),
    ) -> Result<Reply, S::Stop>
        requires follows { Under (S.known env.now) (λ triples. Follows self.now triples) }
        requires coins { B.coins base.now ≡ coins_of self.now }
        ensures reply { let c = command_of command.now in
            IfOk result (λ reply. Under (S.known env.now) (λ triples.
            reply ≡ (outcome (regtest self.now.params triples) self.now.state c).1)) }
        ensures wants { IfErr result (λ stop. IfSome (S.told stop)
            (AreWantedByStep self.now (command_of command.now) (S.known env.now))) }
    {
        let prepared = self.prepare(alloc, base, command, env, gate)?;
        Ok(prepared.reply)
    }

    /// Takes a command over the coins of the active branch, which stay as they are: the reply, and the coins that
    /// the command changes, by rising outpoints. Who lent the coins lays these changes over them.
    pub fn step_over<B: Base, S: RunsScripts>(
        &mut self,
        alloc: Global,
        base: &B,
        command: &PreparedCommand,
        env: &S,
        gate: &(dyn Gate + Sync),
    ) -> Result<(Reply, Changes), S::Stop>
        requires follows { Under (S.known env.now) (λ triples. Follows self.old triples) }
        requires coins { B.coins base.now ≡ coins_of self.old }
        ensures step { let c = command_of command.now in
            IfOk result (λ done. Under (S.known env.now) (λ triples.
            IsStep triples self.old self.new c done.0 done.1)) }
        // The coins of before with the list laid over them are the coins after.
        ensures laid { IfOk result (λ done.
            after_changes (coins_of self.old) done.1 ≡ coins_of self.new) }
        // There is one at least: no verdict on it is known, and a block that this step tries asks for it.
        ensures wants { IfErr result (λ stop. IfSome (S.told stop)
            (AreWantedByStep self.old (command_of command.now) (S.known env.now))) }
        ensures follows { Under (S.known env.now) (λ triples. Follows self.new triples) }
        ensures err { OnErr result (self.new ≡ self.old) }
    {
        // What the step says of undo rests on it.
        let few = self.undo_kept() <= MOST_UNDO;
        prove!(few);
        let prepared = self.prepare(alloc, base, command, env, gate)?;
        let mut changes = ChangesToLay {
            list: Changes::new(alloc),
        };
        let reply = self.flush(alloc, prepared, &mut changes)?;
        Ok((reply, changes.list))
    }
}
