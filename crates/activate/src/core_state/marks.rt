//! What `invalidate`, `reconsider` and `precious` do.

ghost use Rattle.std.specs.Prelude.{◌≡◌, ◌≤◌, IfOk, length, if◌then◌else◌, IfErr, IfSome};
ghost use Rattle.tree.specs.State.{has_no_mark};
ghost use Rattle.model.specs.Regtest.{regtest};
ghost use Rattle.model.specs.Settle.{settle};
ghost use Rattle.model.specs.Step.{Invalidate, Reconsider, Precious, mark_says, step};
ghost use Rattle.model.specs.declared.reply.MarkReply.TheVariants.{Done};
ghost use Rattle.activate.specs.CoreState.{Follows, coins_of};
ghost use Rattle.activate.specs.Wants.{AreWantedBy, AreWantedToSettle};
ghost use Rattle.activate.specs.inside.Preparation.{CanTry, HasOtherMarks, IsPreparationFor};
ghost use Rattle.signatures.specs.Known.{Under};

use crate::core_state::Core;
use crate::core_state::preparation::still;
use crate::core_state::settlement::settled_by;
use crate::path::TryOutcome;
use crate::plan::{Completion, Edit, Prepared};
use crate::try_flags::flag_failed_try;
use coins::Base;
use connect::RunsScripts;
use hash::Id;
use model::{MarkReply, Reply};
use queue::Gate;
use std::alloc::Global;
use tree::{Marking, Overlay};

impl Core {
    /// Marks a block (Bitcoin Core's `InvalidateBlock`).
    pub(crate) fn prepare_invalidate<B: Base, S: RunsScripts>(
        &self,
        alloc: Global,
        base: &B,
        id: &Id,
        env: &S,
        gate: &(dyn Gate + Sync),
    ) -> Result<Prepared, S::Stop>
        requires follows { Under (S.known env.now) (λ triples. Follows self.now triples) }
        requires coins { B.coins base.now ≡ coins_of self.now }
        ensures prepared { IfOk result (λ prepared. Under (S.known env.now) (λ triples.
            let r = regtest self.now.params triples in IsPreparationFor r self.now
            (step r self.now.state (Invalidate id.now)) prepared)) }
        ensures wants { IfErr result (λ stop. IfSome (S.told stop)
            (AreWantedBy self.now (Invalidate id.now) (S.known env.now))) }
    {
        let place = match self.tree.find(id) {
            None => return Ok(still(alloc, Reply::Mark(MarkReply::NotFound))),
            Some(0) => return Ok(still(alloc, Reply::Mark(MarkReply::Genesis))),
            Some(place) => place,
        };
        let mut overlay = Overlay::over(alloc, &self.tree)?;
        overlay.mark(place);
        self.settle_marks(alloc, base, overlay, env, gate)
    }

    /// Takes the marks from a block, its ancestors and its descendants (Bitcoin Core's `ResetBlockFailureFlags`).
    pub(crate) fn prepare_reconsider<B: Base, S: RunsScripts>(
        &self,
        alloc: Global,
        base: &B,
        id: &Id,
        env: &S,
        gate: &(dyn Gate + Sync),
    ) -> Result<Prepared, S::Stop>
        requires follows { Under (S.known env.now) (λ triples. Follows self.now triples) }
        requires coins { B.coins base.now ≡ coins_of self.now }
        ensures prepared { IfOk result (λ prepared. Under (S.known env.now) (λ triples.
            let r = regtest self.now.params triples in IsPreparationFor r self.now
            (step r self.now.state (Reconsider id.now)) prepared)) }
        ensures wants { IfErr result (λ stop. IfSome (S.told stop)
            (AreWantedBy self.now (Reconsider id.now) (S.known env.now))) }
    {
        let Some(place) = self.tree.find(id) else {
            return Ok(still(alloc, Reply::Mark(MarkReply::NotFound)));
        };
        let mut overlay = Overlay::over(alloc, &self.tree)?;
        overlay.clear(alloc, place)?;
        self.settle_marks(alloc, base, overlay, env, gate)
    }

    /// Settles the state under an overlay: it tries the best block whose branch has no mark (Bitcoin Core's
    /// `FindMostWorkChain`), until one is valid. Each other one that is tried is marked, or a block below it is.
    fn settle_marks<B: Base, S: RunsScripts>(
        &self,
        alloc: Global,
        base: &B,
        mut overlay: Overlay<'_>,
        env: &S,
        gate: &(dyn Gate + Sync),
    ) -> Result<Prepared, S::Stop>
        requires other { HasOtherMarks self.now.state overlay }
        requires can { Under (S.known env.now) (λ triples.
            CanTry (regtest self.now.params triples) (record self.now { state = overlay })) }
        requires coins { B.coins base.now ≡ coins_of self.now }
        ensures prepared { IfOk result (λ prepared. Under (S.known env.now) (λ triples.
            let r = regtest self.now.params triples in IsPreparationFor r self.now
            (mark_says (settle r overlay.entry) Done) prepared)) }
        ensures wants { IfErr result (λ stop. IfSome (S.told stop)
            (AreWantedToSettle (record self.now { state = overlay.entry }) (S.known env.now))) }
    {
        'tries: loop {
            let place = overlay.best_usable();
            match self.try_block(alloc, base, place, env, gate)? {
                TryOutcome::Succeeds(found) => {
                    let marks = overlay.into_marks();
                    return Ok(Prepared {
                        reply: Reply::Mark(MarkReply::Done),
                        edit: Edit::Remark(marks),
                        rest: Completion::Activate(place, found.path, found.undo),
                        changes: found.changes,
                    });
                }
                TryOutcome::Fails(failed) => flag_failed_try(&mut overlay, &failed),
            }
        }
    }

    /// Calls a block precious (Bitcoin Core's `PreciousBlock`). A call for one that is lower than the active one
    /// changes nothing.
    pub(crate) fn prepare_precious<B: Base, S: RunsScripts>(
        &self,
        alloc: Global,
        base: &B,
        id: &Id,
        env: &S,
        gate: &(dyn Gate + Sync),
    ) -> Result<Prepared, S::Stop>
        requires follows { Under (S.known env.now) (λ triples. Follows self.now triples) }
        requires coins { B.coins base.now ≡ coins_of self.now }
        ensures prepared { IfOk result (λ prepared. Under (S.known env.now) (λ triples.
            let r = regtest self.now.params triples in IsPreparationFor r self.now
            (step r self.now.state (Precious id.now)) prepared)) }
        ensures wants { IfErr result (λ stop. IfSome (S.told stop)
            (AreWantedBy self.now (Precious id.now) (S.known env.now))) }
    {
        let Some(place) = self.tree.find(id) else {
            return Ok(still(alloc, Reply::Mark(MarkReply::NotFound)));
        };
        if self.tree.height(place) < self.tree.height(self.active) {
            return Ok(still(alloc, Reply::Mark(MarkReply::Done)));
        }
        let first = self.best_of_two(place);
        let attempt = self.try_block(alloc, base, first, env, gate)?;
        let settled = settled_by(alloc, first, attempt);
        Ok(Prepared {
            reply: Reply::Mark(MarkReply::Done),
            edit: Edit::Call(place),
            rest: settled.rest,
            changes: settled.changes,
        })
    }

    /// The block that is called precious, if no block of its branch is marked, or else the active one.
    fn best_of_two(&self, place: usize) -> usize
        requires { place ≤ length self.now.state.blocks }
        ensures { result ≡ (if has_no_mark self.now.state place then place else self.now.active) }
    {
        if self.tree.usable(place) {
            place
        } else {
            self.active
        }
    }
}
