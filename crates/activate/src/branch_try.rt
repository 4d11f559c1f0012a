//! A try of a block: whether its branch connects.

ghost use Rattle.std.specs.Prelude.{◌≡◌, ◌<◌, ◌≤◌, ◌∷◌, suc, length, IfOk, IfErr, None, OnOk, IfSome, MatchOption};
ghost use Rattle.model.specs.Regtest.{regtest};
ghost use Rattle.model.specs.SubmissionFacts.{IsJudged};
ghost use Rattle.activate.specs.Wants.{AreJoined};
ghost use Rattle.activate.specs.inside.Ascents.{IsApplied, IsTop};
ghost use Rattle.activate.specs.inside.Paths.{AreWantedOnWay, IsActiveBranch, IsTryOutcome, IsPath, IsStop, IsValid, one_more};
ghost use Rattle.signatures.specs.Known.{Under};
ghost use Rattle.activate.specs.declared.path.TryOutcome.TheVariants.{Fails};

use crate::ascent::{Ascent, Climb, FailedBlock, append, connect_up, more};
use crate::disconnection::disconnect_to_fork;
use crate::fork_search::path_to;
use crate::medians::Medians;
use crate::new_undo::NewUndo;
use crate::path::{ActiveBranch, BranchPath, FailedTry, Reorganisation, TryOutcome};
use coins::{Base, Cache};
use connect::{BlockWithIds, Context, RunsScripts, apply_in_layer};
use model::SubmittedBlock;
use queue::Gate;
use std::alloc::Global;
use txn::Reason;
use wire::Memory;

impl<'a> ActiveBranch<'a> {
    /// Tries a kept block over the coins of the active branch, on a layer that is dropped.
    pub(crate) fn try_block<B: Base, S: RunsScripts>(
        &self,
        alloc: Global,
        base: &B,
        place: usize,
        env: &S,
        gate: &(dyn Gate + Sync),
    ) -> Result<TryOutcome, S::Stop>
        requires active { IsActiveBranch self.now (B.coins base.now) }
        requires valid { Under (S.known env.now) (λ triples. let b = self.now in
            IsValid (regtest b.params.now triples) b.tree.now.blocks b.active) }
        requires place { place ≤ length self.now.tree.now.blocks }
        ensures attempt { IfOk result (λ attempt. Under (S.known env.now) (λ triples.
            let b = self.now in
            IsTryOutcome (regtest b.params.now triples) b.tree.now.blocks b.active place attempt)) }
        ensures wants { let b = self.now in IfErr result (λ stop. IfSome (S.told stop)
            (AreJoined (AreWantedOnWay b.params.now b.tree.now.blocks b.active place
            (S.known env.now)))) }
    {
        let (path, answer) = self.activate_best_chain_step(alloc, base, place, env, gate)?;
        match answer {
            Ok(Climb { ascent, wants }) => match wants {
                Some(stop) => Err(stop),
                None => {
                    let changes = ascent.layer.into_changes();
                    let undo = NewUndo::of(alloc, ascent.undo)?;
                    Ok(TryOutcome::Succeeds(Reorganisation {
                        path,
                        undo,
                        changes,
                    }))
                }
            },
            Err(stop) => Ok(TryOutcome::Fails(FailedTry {
                path,
                passed: stop.passed,
                reason: stop.reason,
            })),
        }
    }

    /// Tries a block that isn't kept yet, as the next one, on this parent. It is used as it was read.
    pub(crate) fn try_new_block<B: Base, S: RunsScripts>(
        &self,
        alloc: Global,
        base: &B,
        submitted: &SubmittedBlock,
        parent: usize,
        env: &S,
        gate: &(dyn Gate + Sync),
    ) -> Result<TryOutcome, S::Stop>
        requires active { IsActiveBranch self.now (B.coins base.now) }
        requires valid { Under (S.known env.now) (λ triples. let b = self.now in
            IsValid (regtest b.params.now triples) b.tree.now.blocks b.active) }
        requires parent { parent ≤ length self.now.tree.now.blocks }
        requires judged { IsJudged submitted.now }
        requires alone { submitted.now.fault ≡ None }
        ensures attempt { IfOk result (λ attempt. Under (S.known env.now) (λ triples.
            let b = self.now in
            let t = b.tree.now.blocks in
            IsTryOutcome (regtest b.params.now triples)
            (one_more t submitted.now.block parent) b.active (suc (length t))
            attempt)) }
        ensures wants { IfErr result (λ stop. IfSome (S.told stop) (
            let b = self.now in
            let t = b.tree.now.blocks in
            AreJoined (AreWantedOnWay b.params.now
            (one_more t submitted.now.block parent) b.active (suc (length t))
            (S.known env.now)))) }
    {
        let (mut path, answer) = self.activate_best_chain_step(alloc, base, parent, env, gate)?;
        let below = path.up.len();
        put_first(&mut path.up, self.tree.len())?;
        let Climb { ascent, wants } = match answer {
            Ok(climb) => climb,
            Err(stop) => return Ok(failed(path, stop.passed, stop.reason)),
        };
        let (layer, mut undo, medians) = (ascent.layer, ascent.undo, ascent.medians);
        let context = Context {
            height: (self.tree.height(parent) + 1) as u32,
            cutoff: self.tree.median(parent),
            medians: medians.as_slice(),
            params: self.params,
        };
        let (block, ids) = (&submitted.block, submitted.ids.as_slice());
        let of = BlockWithIds { block, ids };
        match apply_in_layer(alloc, layer, &context, &of, env, gate)? {
            Ok(done) => match more(env, wants, done.stop)? {
                Some(stop) => Err(stop),
                None => {
                    append(&mut undo, done.undo)?;
                    let undo = NewUndo::of(alloc, undo)?;
                    let changes = done.layer.into_changes();
                    Ok(TryOutcome::Succeeds(Reorganisation {
                        path,
                        undo,
                        changes,
                    }))
                }
            },
            Err(reason) => match wants {
                Some(stop) => Err(stop),
                None => Ok(failed(path, below, reason)),
            },
        }
    }

    /// The walk from the active block to another one: the active branch is taken back down to the fork, on a layer, and
    /// the other one's branch is connected up from there.
    fn activate_best_chain_step<'b, B: Base, S: RunsScripts>(
        &self,
        alloc: Global,
        base: &'b B,
        place: usize,
        env: &S,
        gate: &(dyn Gate + Sync),
    ) -> Result<(BranchPath, Result<Climb<'b, 'a, B, S::Stop>, FailedBlock>), S::Stop>
        requires active { IsActiveBranch self.now (B.coins base.now) }
        requires valid { Under (S.known env.now) (λ triples. let b = self.now in
            IsValid (regtest b.params.now triples) b.tree.now.blocks b.active) }
        requires place { place ≤ length self.now.tree.now.blocks }
        ensures path { IfOk result (λ walk. let b = self.now in
            IsPath b.tree.now.blocks b.active place walk.0) }
        ensures top { let b = self.now in let t = b.tree.now.blocks in
            let known = S.known env.now in
            IfOk result (λ walk. IfOk walk.1 (λ climb. MatchOption climb.wants
            (Under known (λ triples. let ascent = climb.ascent in
            IsTop (regtest b.params.now triples) t walk.0.fork walk.0.up.items
            (B.coins base.now) ascent.undo.items ascent.layer ascent.medians))
            (λ stop. IfSome (S.told stop)
            (AreJoined (AreWantedOnWay b.params.now t b.active place known))))) }
        ensures applied { IfOk result (λ walk. IfOk walk.1 (λ climb.
            IsApplied self.now.tree.now.blocks place (B.coins base.now)
            climb.ascent.layer climb.ascent.medians)) }
        ensures stops { IfOk result (λ walk. IfErr walk.1 (λ stop.
            Under (S.known env.now) (λ triples. let b = self.now in
            IsStop (regtest b.params.now triples) b.tree.now.blocks place walk.0.up.items
            stop.passed stop.reason))) }
        ensures wants { let b = self.now in IfErr result (λ stop. IfSome (S.told stop)
            (AreJoined (AreWantedOnWay b.params.now b.tree.now.blocks b.active place
            (S.known env.now)))) }
    {
        let path = path_to(alloc, self, place)?;
        let layer = disconnect_to_fork(alloc, self, Cache::over(alloc, base), path.fork)?;
        let medians = Medians::lent(alloc, &self.medians[..=path.height]);
        let start = Ascent {
            layer,
            undo: Vec::new(alloc),
            medians,
        };
        let answer = connect_up(alloc, self, start, &path, env, gate)?;
        Ok((path, answer))
    }
}

/// A try that ended at a block with a fault.
fn failed(path: BranchPath, passed: usize, reason: Reason) -> TryOutcome
    ensures { result ≡ Fails (record { path = path; passed = passed; reason = reason }) }
{
    TryOutcome::Fails(FailedTry {
        path,
        passed,
        reason,
    })
}

/// Puts a place before those of a list.
fn put_first(list: &mut Vec<usize>, place: usize) -> Result<(), Memory>
    ensures { OnOk result (list.new.items ≡ place ∷ list.old.items) }
{
    Ok(list.insert(0, place)?)
}
