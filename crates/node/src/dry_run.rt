//! A seat's dry run: what a submission would be answered.

ghost use Rattle.std.specs.Prelude.{◌≡◌, IfErr, IfOk, IfSome};
ghost use Rattle.queue.specs.Jobs.{IsEarly};
ghost use Rattle.model.specs.PreparedCommand.{command_of};
ghost use Rattle.model.specs.declared.command.Command.TheVariants as command;
ghost use Rattle.model.specs.declared.reply.Reply.TheVariants as reply;
ghost use Rattle.view.specs.Origin.{known_in};
ghost use Rattle.node.specs.Calls.{IsJudgeFault};
ghost use Rattle.node.specs.Told.{reply_to};
ghost use Rattle.node.specs.inside.Writes.{IsSubmission};

use crate::answer::Stamped;
use crate::fault::Fault;
use crate::learnt::{Learnt, still_early};
use crate::node::Node;
use crate::published_history::{Crews, PublishedHistory, Refusal};
use crate::seat::Seat;
use crate::writes::{is_unknown, listed};
use model::{Bytes, PreparedCommand, Reply, SubmitReply};
use queue::{Threaded, Verdicts};
use std::mem::replace;
use std::sync::Wait;
use std::thread::Threads;
use view::Naming;

impl<'t, J: Naming> Seat<'t, J> {
    ghost use Rattle.node.specs.Pass.{IsLater, IsOwn, IsRead, settled};

    /// The reply that [`submit`](Seat::submit) would give now, after all that the seat has then seen (Bitcoin Core's
    /// `getblocktemplate` in mode `proposal`, for every block). No step is taken: the block isn't kept.
    ///
    /// Scripts of a block on the best block are run before the lock is taken. What the seat told of signatures stays for its
    /// next step. Seat and node are of one [`Node::open`](crate::Node::open).
    pub fn judge<R: Threads + Wait + Sync>(
        &mut self,
        rt: &R,
        node: &Node<'_, J>,
        bytes: &[u8],
        now: u64,
    ) -> Result<Stamped<SubmitReply>, Fault>
        ensures later { IsLater self.old self.new }
        ensures answer { let told = reply_to self.old.origin (command.Submit bytes.now now) in
            IfOk result (λ r. IsRead (settled self.old) self.new told r.at (reply.Submit r.value)) }
        ensures own { IsOwn self.new }
        ensures fault { let asked = command.Submit bytes.now now in
            IfErr result (IsJudgeFault self.old self.new asked) }
    {
        let (_, alloc) = (&self.params, node.alloc);
        let command = self.submitting(alloc, Bytes::from_slice(alloc, bytes)?, now)?;
        let answer = self.judge_command(rt, node, &command);
        self.keep_wanting(command, is_unknown(&answer));
        answer
    }

    /// Runs a submission's scripts, takes the lock, and judges it there. What the seat told of signatures is kept.
    #[tactic(auto, using(crate::proofs::OwnEntries::own_begins))]
    fn judge_command<R: Threads + Wait + Sync>(
        &mut self,
        rt: &R,
        node: &Node<'_, J>,
        command: &PreparedCommand,
    ) -> Result<Stamped<SubmitReply>, Fault>
        requires submits { IsSubmission (command_of command.now) }
        ensures later { IsLater self.old self.new }
        ensures answer { let told = reply_to self.old.origin (command_of command.now) in
            IfOk result (λ r. IsRead (settled self.old) self.new told r.at (reply.Submit r.value)) }
        ensures own { IsOwn self.new }
        ensures fault { let asked = command_of command.now in
            IfErr result (IsJudgeFault self.old self.new asked) }
    {
        let table = self.table;
        let none = Learnt::new(node.alloc, self.seen.copy());
        let learnt = replace(&mut self.learnt, none);
        let early = self.early_verdicts(rt, node, command, table, &learnt);
        let answer = match early {
            Ok(early) => {
                let mut history = node.history.lock(rt);
                let early = still_early(&history, early);
                self.judge_under_lock(rt, node, &mut history, command, early)
            }
            Err(fault) => Err(fault.into()),
        };
        self.learnt = learnt.unless(node.alloc, false);
        answer
    }

    /// Judges a submission under the lock, where nobody publishes meanwhile. A step that is owed is published first.
    #[tactic(auto, using(crate::proofs::OwnEntries::own_begins))]
    fn judge_under_lock<R: Threads + Wait + Sync>(
        &mut self,
        rt: &R,
        node: &Node<'_, J>,
        history: &mut PublishedHistory<J>,
        command: &PreparedCommand,
        early: Option<Verdicts<'_>>,
    ) -> Result<Stamped<SubmitReply>, Fault>
        requires early { let known = known_in J.origin history.old.journal in
            IfSome early (IsEarly known) }
        requires submits { IsSubmission (command_of command.now) }
        ensures later { IsLater self.old self.new }
        ensures answer { let told = reply_to self.old.origin (command_of command.now) in
            IfOk result (λ r. IsRead (settled self.old) self.new told r.at (reply.Submit r.value)) }
        ensures own { IsOwn self.new }
        ensures fault { let asked = command_of command.now in
            IfErr result (IsJudgeFault self.old self.new asked) }
    {
        let _ = &self.params;
        if !history.publish_pending(rt) {
            return Err(Fault::Memory);
        }
        let crews = Crews {
            workers: node.workers,
            early: listed(&early),
            by_table: &Threaded { rt },
            by_need: &Threaded { rt },
        };
        match history.judge(command, &crews, node.gate) {
            Ok(Reply::Submit(value)) => {
                let at = self.see_all(history)?;
                self.settle();
                Ok(Stamped { at, value })
            }
            Ok(Reply::Mark(_)) => unreachable!(),
            Err(Refusal::Memory) => Err(Fault::Memory),
            Err(Refusal::Closed) => Err(Fault::Closed),
            Err(Refusal::Unknown(wants)) => Err(self.want(history, wants)),
        }
    }

    /// Nothing is wanted any more.
    #[tactic(auto, using(crate::proofs::OwnEntries::own_begins))]
    fn settle(&mut self)
        ensures settled { self.new ≡ settled self.old }
        ensures own { IsOwn self.new }
    {
        let _ = &self.params;
        self.wants.clear();
    }
}
