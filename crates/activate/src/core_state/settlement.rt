//! The try of a block, and what is left to do where it settles the state.

ghost use Rattle.std.specs.Prelude.{ℕ, ◌≡◌, ◌≤◌, ◌<◌, suc, length, IfOk, IfErr, None, IfSome};
ghost use Rattle.hash.specs.declared.id.Id.{Id};
ghost use Rattle.block.specs.declared.block.Block.{Block};
ghost use Rattle.coins.specs.Coins.{Coins};
ghost use Rattle.model.specs.Faults.{IsNew};
ghost use Rattle.model.specs.Rules.{Rules};
ghost use Rattle.model.specs.SubmissionFacts.{IsJudged};
ghost use Rattle.model.specs.Try.{state_after_try};
ghost use Rattle.model.specs.Regtest.{regtest};
ghost use Rattle.activate.specs.CoreState.{CoreState, Follows, coins_of};
ghost use Rattle.activate.specs.Wants.{AreJoined, AreWantedToSettle};
ghost use Rattle.activate.specs.inside.Paths.{IsActiveBranch, IsTryOutcome, IsValid, AreWantedOnWay};
ghost use Rattle.activate.specs.inside.Preparation.{CanFlag, IsSettledBy, IsTried, core_of, core_with_block, reply_to_failed_try};
ghost use Rattle.signatures.specs.Known.{Under};

use crate::core_state::Core;
use crate::path::{ActiveBranch, FailedTry, TryOutcome};
use crate::plan::{Completion, Settled};
use crate::try_flags::flag_failed_try;
use coins::{Base, Changes};
use connect::RunsScripts;
use model::{SubmitReply, SubmittedBlock};
use queue::Gate;
use std::alloc::Global;

impl Core {
    /// Settles the state with a new block on this parent, which isn't kept yet, by one try of it (Bitcoin Core's
    /// `ActivateBestChain`). Where it isn't better than the active one nothing is tried.
    pub(crate) fn settle_new<B: Base, S: RunsScripts>(
        &self,
        alloc: Global,
        base: &B,
        submitted: &SubmittedBlock,
        parent: usize,
        env: &S,
        gate: &(dyn Gate + Sync),
    ) -> Result<Settled, S::Stop>
        requires follows { Under (S.known env.now) (λ triples. Follows self.now triples) }
        requires new { (now : ℕ) × Under (S.known env.now) (λ triples.
            IsNew (regtest self.now.params triples) self.now.state now
            submitted.now.block parent) }
        requires judged { IsJudged submitted.now }
        requires coins { B.coins base.now ≡ coins_of self.now }
        ensures settled { IfOk result (λ settled. Under (S.known env.now) (λ triples.
            IsSettledBy (regtest self.now.params triples)
            (core_with_block self.now submitted.now.block parent)
            (suc (length self.now.state.blocks)) settled)) }
        ensures wants { IfErr result (λ stop. IfSome (S.told stop)
            (AreWantedToSettle (core_with_block self.now submitted.now.block parent)
            (S.known env.now))) }
    {
        if !self.tree.would_be_better(parent, self.active) {
            return Ok(Settled {
                rest: Completion::Nothing,
                changes: Changes::new(alloc),
                said: SubmitReply::Inconclusive,
            });
        }
        let active_branch = self.active_branch();
        let attempt = active_branch.try_new_block(alloc, base, submitted, parent, env, gate)?;
        Ok(settled_by(alloc, self.tree.len(), attempt))
    }

    /// Notes what a try that failed has found.
    pub(crate) fn flag(&mut self, failed: &FailedTry)
        requires { (r : Rules Block Id) × (p : ℕ) × CanFlag r self.old p failed.now }
        ensures { (r : Rules Block Id) (p : ℕ) → CanFlag r self.old p failed.now
            → self.new ≡ record self.old { state = state_after_try r self.old.state p } }
    {
        flag_failed_try(&mut self.tree, failed);
    }

    /// Tries a block over the coins of the active branch.
    pub(crate) fn try_block<B: Base, S: RunsScripts>(
        &self,
        alloc: Global,
        base: &B,
        place: usize,
        env: &S,
        gate: &(dyn Gate + Sync),
    ) -> Result<TryOutcome, S::Stop>
        requires valid { Under (S.known env.now) (λ triples. let c = self.now in
            IsValid (regtest c.params triples) c.state.blocks c.active) }
        requires place { place ≤ length self.now.state.blocks }
        requires coins { B.coins base.now ≡ coins_of self.now }
        ensures attempt { IfOk result (λ attempt.
            Under (S.known env.now) (λ triples. let c = self.now in
            IsTryOutcome (regtest c.params triples) c.state.blocks c.active place attempt)) }
        ensures wants { IfErr result (λ stop. IfSome (S.told stop)
            (AreJoined (AreWantedOnWay self.now.params self.now.state.blocks self.now.active
            place (S.known env.now)))) }
    {
        self.active_branch()
            .try_block(alloc, base, place, env, gate)
    }

    /// The active branch, with what is kept of it.
    fn active_branch(&self) -> ActiveBranch<'_>
        ensures is { (coins : Coins) → coins ≡ coins_of self.now → IsActiveBranch result coins }
        ensures core { core_of result ≡ self.now }
    {
        ActiveBranch {
            tree: &self.tree,
            params: &self.params,
            active: self.active,
            branch: self.branch.as_slice(),
            medians: self.medians.as_slice(),
            undo: &self.undo,
            packed: self.packed.as_slice(),
        }
    }
}

/// What a try of a block that settles the state leaves to do.
pub(crate) fn settled_by(alloc: Global, place: usize, attempt: TryOutcome) -> Settled
    requires { (r : Rules Block Id) × (c : CoreState) × IsTried r c place attempt }
    ensures { (r : Rules Block Id) (c : CoreState) → IsTried r c place attempt
        → IsSettledBy r c place result }
{
    match attempt {
        TryOutcome::Succeeds(found) => Settled {
            rest: Completion::Activate(place, found.path, found.undo),
            changes: found.changes,
            said: SubmitReply::Accepted,
        },
        TryOutcome::Fails(failed) => {
            let said = refused(&failed);
            Settled {
                rest: Completion::Flag(place, failed),
                changes: Changes::new(alloc),
                said,
            }
        }
    }
}

/// The reply to the submission of a block that was tried and isn't valid: its own fault, if that is the first on its
/// branch.
fn refused(failed: &FailedTry) -> SubmitReply
    requires { failed.now.passed < length failed.now.path.up.items }
    ensures { result ≡ reply_to_failed_try failed.now }
{
    if failed.passed + 1 == failed.path.up.len() {
        SubmitReply::Rejected(failed.reason)
    } else {
        SubmitReply::Inconclusive
    }
}
