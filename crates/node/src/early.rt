//! Scripts that are run before the lock is taken.

ghost use Rattle.std.specs.Prelude.{◌≡◌, IfOk, IfSome};
ghost use Rattle.std.specs.Arc.{arc_value};
ghost use Rattle.std.specs.Option.{option_map};
ghost use Rattle.queue.specs.Jobs.{IsEarly};
ghost use Rattle.view.specs.Origin.{known_in};
ghost use Rattle.view.specs.ViewState.{IsExact};
ghost use Rattle.txn.specs.Identity.{ids_of};
ghost use Rattle.node.specs.inside.EarlyScripts.{AreEarly};

use crate::learnt::{Early, Learnt};
use crate::node::Node;
use crate::seat::Seat;
use connect::early_jobs;
use model::{PreparedCommand, SubmittedBlock};
use queue::{EarlyJobs, Gate, Source, check_early};
use rules::Params;
use signatures::Table;
use std::alloc::Global;
use std::sync::Arc;
use std::thread::Threads;
use view::{Naming, View};
use wire::Memory;

/// The scripts of a block, where its parent is the best block of a view: of each input whose coin the view or the block
/// itself has.
fn jobs_over<'c>(
    alloc: Global,
    view: &View,
    params: &Params,
    block: &'c SubmittedBlock,
) -> Result<Option<EarlyJobs<'c>>, Memory>
    requires exact { IsExact view.now }
    requires ids { block.now.ids.items ≡ ids_of block.now.block.txs }
    ensures { IfOk result (AreEarly view.now params.now block.entry.now) }
{
    if block.block.header.prev != view.best() {
        return Ok(None);
    }
    let rules = params.at(view.height() as u32 + 1);
    let ids = block.ids.as_slice();
    let jobs = early_jobs(alloc, view.coins(), &block.block, ids, rules)?;
    Ok(if jobs.is_empty() { None } else { Some(jobs) })
}

impl<'t, J: Naming> Seat<'t, J> {
    ghost use Rattle.node.specs.Pass.{IsLater, IsOwn};

    /// The scripts that can be run before the lock is taken: of a block that breaks no rule by itself, and whose
    /// parent is the best block that the seat sees. The view was left when they are given.
    #[tactic(auto, using(crate::proofs::OwnEntries::own_begins))]
    pub(crate) fn early_jobs<'c>(
        &mut self,
        alloc: Global,
        command: &'c PreparedCommand,
    ) -> Result<Option<EarlyJobs<'c>>, Memory>
        ensures same { self.new ≡ self.old }
        ensures later { IsLater self.old self.new }
        ensures own { IsOwn self.new }
    {
        let _ = &self.params;
        let PreparedCommand::Submit(submission, _) = command else {
            return Ok(None);
        };
        let Some(block) = submission.block() else {
            return Ok(None);
        };
        if block.fault.is_some() {
            return Ok(None);
        }
        let Some((reading, _found)) = self.reader.enter_from(&self.seen) else {
            return Ok(None);
        };
        let jobs = jobs_over(alloc, reading.get(), &self.params, block);
        self.reader.leave(reading);
        jobs
    }

    /// The verdicts of those scripts by a table, if there is one, or else by what the seat told of signatures. They are run
    /// when the view was left: a reader that stays inside holds up all publications.
    #[tactic(auto, using(crate::proofs::OwnEntries::own_begins))]
    pub(crate) fn early_verdicts<'c, R: Threads + Sync>(
        &mut self,
        rt: &R,
        node: &Node<'_, J>,
        command: &'c PreparedCommand,
        table: Option<&'c Arc<Table>>,
        learnt: &'c Learnt<J>,
    ) -> Result<Option<Early<'c>>, Memory>
        requires table { option_map (λ t. arc_value t.now) table ≡ J.origin.table }
        ensures same { self.new ≡ self.old }
        ensures later { IsLater self.old self.new }
        ensures own { IsOwn self.new }
        ensures book { IfOk result (λ early. IfSome early (λ e. e.seen.book ≡ J.origin.book)) }
        ensures early { IfOk result (λ early. IfSome early (λ e.
            IsEarly (known_in J.origin e.seen.entries) e.verdicts)) }
    {
        let _ = &self.params;
        let Some(jobs) = self.early_jobs(node.alloc, command)? else {
            return Ok(None);
        };
        Ok(Some(verdicts_of(rt, node, jobs, table, learnt)?))
    }
}

/// The verdicts of jobs by a table, if there is one, or else by what a seat told.
fn verdicts_of<'c, J: Naming, R: Threads + Sync>(
    rt: &R,
    node: &Node<'_, J>,
    jobs: EarlyJobs<'c>,
    table: Option<&'c Arc<Table>>,
    learnt: &'c Learnt<J>,
) -> Result<Early<'c>, Memory>
    requires table { option_map (λ t. arc_value t.now) table ≡ J.origin.table }
    ensures book { IfOk result (λ e. e.seen.book ≡ J.origin.book) }
    ensures early { IfOk result (λ e. IsEarly (known_in J.origin e.seen.entries) e.verdicts) }
{
    let source = match table {
        Some(table) => Source::Listed(table),
        None => Source::Found(learnt.found()),
    };
    let gate: &(dyn Gate + Sync) = node.gate;
    let verdicts = check_early(rt, node.alloc, jobs, source, node.workers, &gate)?;
    Ok(Early {
        verdicts,
        seen: learnt.seen(),
    })
}
