//! A seat's writing calls. Each takes its step under the lock, and sees it published.

ghost use Rattle.std.specs.Prelude.{◌≡◌, ◌<◌, ℕ, true, false, length, All, IfOk, IfErr, IfSome, OnOk, OnErr};
ghost use Rattle.std.specs.Prelude.{vec_capacity, vec_len};
ghost use Rattle.signatures.specs.Known.{Known};
ghost use Rattle.queue.specs.Jobs.{IsEarly};
ghost use Rattle.model.specs.Learnt.{IsNews};
ghost use Rattle.model.specs.PreparedCommand.{command_of};
ghost use Rattle.model.specs.declared.command.Command.{Command as CommandValue};
ghost use Rattle.model.specs.declared.command.Command.TheVariants as command;
ghost use Rattle.view.specs.Origin.{known_in};
ghost use Rattle.model.specs.declared.reply.Reply.TheVariants as reply;
ghost use Rattle.node.specs.inside.Kept.{IsUndecodable};
ghost use Rattle.node.specs.declared.fault.Fault.TheVariants as faults;

use crate::answer::{Learning, Stamped};
use crate::fault::Fault;
use crate::learnt::{Learnt, still_early};
use crate::node::Node;
use crate::published_history::{Crews, PublishedHistory, Refusal};
use crate::seat::Seat;
use hash::Id;
use model::{
    Bytes, Command, MarkReply, PreparedCommand, Reply, SharedTriple, Submission, SubmitReply,
};
use queue::{Threaded, Verdicts};
use signatures::KeptTriple;
use std::alloc::Global;
use std::mem::replace;
use std::slice::from_ref;
use std::sync::Wait;
use std::thread::Threads;
use view::Naming;
use wire::Memory;

/// The command that submits these bytes.
fn submitting(alloc: Global, bytes: Bytes, now: u64) -> Result<PreparedCommand, Memory>
    ensures { IfOk result (λ asked. command_of asked ≡ command.Submit bytes now) }
{
    let submission = Submission::read(alloc, bytes)?;
    Ok(PreparedCommand::Submit(submission, now))
}

/// Whether it is a submission of bytes that are no block.
fn is_undecodable(command: &PreparedCommand) -> bool
    ensures yes { (result ≡ true) → IsUndecodable (command_of command.now) }
    ensures no { (result ≡ false) → IsUndecodable (command_of command.now) → ⊥ }
{
    match command {
        PreparedCommand::Submit(submission, _) => submission.block().is_none(),
        _ => false,
    }
}

/// Whether signatures are wanted.
pub(crate) fn is_unknown<T>(answer: &Result<Stamped<T>, Fault>) -> bool {
    matches!(answer, Err(Fault::Unknown))
}

/// The verdicts as a list.
pub(crate) fn listed<'a>(early: &'a Option<Verdicts<'a>>) -> &'a [Verdicts<'a>]
    ensures { (known : Known) → IfSome early.now (IsEarly known)
        → All (IsEarly known) result.now }
{
    match early {
        Some(verdicts) => from_ref(verdicts),
        None => &[],
    }
}

/// Gets what a write needs before its step: room for a command that is owed, the command, and that no earlier step is
/// owed any more. All that it is refused is memory, and then nothing was done.
fn ready_command<J: Naming, R: Wait>(
    rt: &R,
    history: &mut PublishedHistory<J>,
    owed: &mut Vec<Command>,
    command: &PreparedCommand,
) -> Result<Command, Memory>
    ensures items { owed.new.items ≡ owed.old.items }
    ensures room { OnOk result (vec_len owed.new < vec_capacity owed.new) }
    ensures command { IfOk result (λ asked. asked ≡ command_of command.now) }
    ensures shown { OnOk result (history.new ≡ record history.old { owed = false }) }
    ensures err { OnErr result (history.new ≡ history.old) }
{
    if owed.reserve(1).is_err() {
        return Err(Memory);
    }
    let asked = command.command()?;
    if !history.publish_pending(rt) {
        return Err(Memory);
    }
    Ok(asked)
}

impl<'t, J: Naming> Seat<'t, J> {
    ghost use Rattle.node.specs.Calls.{AreWanted, IsJudgeFault, IsLearnAnswer, IsSubmitAnswer, IsWriteFault};
    ghost use Rattle.node.specs.Runs.{IsLearnAllAnswer, IsLearnAllFault};
    ghost use Rattle.node.specs.Pass.{IsLater, IsOwn, IsWrite};
    ghost use Rattle.node.specs.inside.PublishedState.{PublishedState};
    ghost use Rattle.node.specs.inside.Writes.{IsWriteAnswer, IsLeftBy, IsMark, IsSettledAtMost};

    /// The command that submits these bytes. What was made of them for a call that wanted signatures is taken again.
    #[tactic(auto, using(crate::proofs::OwnEntries::own_begins))]
    pub(crate) fn submitting(
        &mut self,
        alloc: Global,
        bytes: Bytes,
        now: u64,
    ) -> Result<PreparedCommand, Memory>
        ensures command { IfOk result (λ asked. command_of asked ≡ command.Submit bytes now) }
        ensures same { self.new ≡ self.old }
        ensures own { IsOwn self.new }
    {
        let _ = &self.params;
        if let Some(submission) = self.submission.take() {
            if submission.bytes().as_slice() == bytes.as_slice() {
                return Ok(PreparedCommand::Submit(submission, now));
            }
        }
        submitting(alloc, bytes, now)
    }

    /// Keeps what was made of a submission's bytes, if that wants signatures: it will be made again.
    pub(crate) fn keep_wanting(&mut self, command: PreparedCommand, wants: bool)
        ensures { self.new ≡ self.old }
    {
        let _ = &self.params;
        if let PreparedCommand::Submit(submission, _) = command {
            self.submission = if wants { Some(submission) } else { None };
        }
    }

    /// Hands in the submission that the seat makes next, decoded and hashed already, perhaps by another thread: nothing of that
    /// needs a chain. The next call that submits or judges bytes takes it if they are its bytes, and drops it if not.
    #[tactic(auto, using(crate::proofs::OwnEntries::own_begins))]
    pub fn hand_in(&mut self, submission: Submission)
        ensures same { self.new ≡ self.old }
        ensures own { IsOwn self.new }
    {
        let _ = &self.params;
        self.submission = Some(submission);
    }

    /// Submits the bytes of a block, at a moment in seconds since 1970 (Bitcoin Core's `submitblock`).
    ///
    /// What needs no chain is done before the lock is taken, and the scripts of a block on the best block too. Seat and
    /// node are of one [`Node::open`](crate::Node::open).
    pub fn submit<R: Threads + Wait + Sync>(
        &mut self,
        rt: &R,
        node: &Node<'_, J>,
        bytes: &[u8],
        now: u64,
    ) -> Result<Stamped<SubmitReply>, Fault>
        ensures later { IsLater self.old self.new }
        ensures answer { let IsAnswer = IsSubmitAnswer self.old self.new bytes.now now in
            IfOk result (λ r. IsAnswer r.at r.value) }
        ensures own { IsOwn self.new }
        ensures fault { let asked = command.Submit bytes.now now in
            IfErr result (IsWriteFault self.old self.new asked) }
    {
        let (_, alloc) = (&self.params, node.alloc);
        let command = self.submitting(alloc, Bytes::from_slice(alloc, bytes)?, now)?;
        let answer = self.write(rt, node, &command);
        self.keep_wanting(command, is_unknown(&answer));
        let Stamped { at, value } = answer?;
        match value {
            Reply::Submit(value) => Ok(Stamped { at, value }),
            Reply::Mark(_) => unreachable!(),
        }
    }

    /// The same for shared bytes: the history keeps them, and no copy is made.
    ///
    /// Seat and node are of one [`Node::open`](crate::Node::open).
    pub fn submit_bytes<R: Threads + Wait + Sync>(
        &mut self,
        rt: &R,
        node: &Node<'_, J>,
        bytes: Bytes,
        now: u64,
    ) -> Result<Stamped<SubmitReply>, Fault>
        ensures later { IsLater self.old self.new }
        ensures answer { let IsAnswer = IsSubmitAnswer self.old self.new bytes now in
            IfOk result (λ r. IsAnswer r.at r.value) }
        ensures own { IsOwn self.new }
        ensures fault { let asked = command.Submit bytes now in
            IfErr result (IsWriteFault self.old self.new asked) }
    {
        let (_, alloc) = (&self.params, node.alloc);
        let command = self.submitting(alloc, bytes, now)?;
        let answer = self.write(rt, node, &command);
        self.keep_wanting(command, is_unknown(&answer));
        let Stamped { at, value } = answer?;
        match value {
            Reply::Submit(value) => Ok(Stamped { at, value }),
            Reply::Mark(_) => unreachable!(),
        }
    }

    /// Marks a block as invalid (Bitcoin Core's `invalidateblock`).
    ///
    /// Seat and node are of one [`Node::open`](crate::Node::open).
    pub fn invalidate<R: Threads + Wait + Sync>(
        &mut self,
        rt: &R,
        node: &Node<'_, J>,
        id: Id,
    ) -> Result<Stamped<MarkReply>, Fault>
        ensures later { IsLater self.old self.new }
        ensures answer { let IsAnswer = IsWrite self.old self.new (command.Invalidate id) in
            IfOk result (λ r. IsAnswer r.at (reply.Mark r.value)) }
        ensures own { IsOwn self.new }
        ensures fault { IfErr result (IsWriteFault self.old self.new (command.Invalidate id)) }
    {
        self.mark(rt, node, &PreparedCommand::Invalidate(id))
    }

    /// Takes the marks from a block, its ancestors and its descendants (Bitcoin Core's `reconsiderblock`).
    ///
    /// Seat and node are of one [`Node::open`](crate::Node::open).
    pub fn reconsider<R: Threads + Wait + Sync>(
        &mut self,
        rt: &R,
        node: &Node<'_, J>,
        id: Id,
    ) -> Result<Stamped<MarkReply>, Fault>
        ensures later { IsLater self.old self.new }
        ensures answer { let IsAnswer = IsWrite self.old self.new (command.Reconsider id) in
            IfOk result (λ r. IsAnswer r.at (reply.Mark r.value)) }
        ensures own { IsOwn self.new }
        ensures fault { IfErr result (IsWriteFault self.old self.new (command.Reconsider id)) }
    {
        self.mark(rt, node, &PreparedCommand::Reconsider(id))
    }

    /// Prefers a block to all that are as high (Bitcoin Core's `preciousblock`).
    ///
    /// Seat and node are of one [`Node::open`](crate::Node::open).
    pub fn precious<R: Threads + Wait + Sync>(
        &mut self,
        rt: &R,
        node: &Node<'_, J>,
        id: Id,
    ) -> Result<Stamped<MarkReply>, Fault>
        ensures later { IsLater self.old self.new }
        ensures answer { let IsAnswer = IsWrite self.old self.new (command.Precious id) in
            IfOk result (λ r. IsAnswer r.at (reply.Mark r.value)) }
        ensures own { IsOwn self.new }
        ensures fault { IfErr result (IsWriteFault self.old self.new (command.Precious id)) }
    {
        self.mark(rt, node, &PreparedCommand::Precious(id))
    }

    /// Takes down whether a signature is valid: its key, the signature without its hash type, and the digest. So scripts that
    /// want it find it known, in calls of any seat. A verdict that was known already, and one that contradicts what is known,
    /// takes no step.
    ///
    /// Nobody checks it: the history is legal under every set of valid signatures that has it. Seat and node are of one
    /// [`Node::open`](crate::Node::open).
    pub fn learn<R: Threads + Wait + Sync>(
        &mut self,
        rt: &R,
        node: &Node<'_, J>,
        triple: &KeptTriple,
        valid: bool,
    ) -> Result<Stamped<Learning>, Fault>
        ensures later { IsLater self.old self.new }
        ensures answer { let IsAnswer = IsLearnAnswer self.old self.new triple.now valid in
            IfOk result (λ r. IsAnswer r.at r.value) }
        ensures own { IsOwn self.new }
        ensures fault { let asked = command.Learn triple.now valid in
            IfErr result (IsWriteFault self.old self.new asked) }
    {
        let mut history = node.history.lock(rt);
        self.learn_under_lock(rt, node, &mut history, triple, valid)
    }

    /// The same of several, one after the other under one lock, up to the first that contradicts what is known: how many were
    /// taken down. A refusal leaves those before it taken down.
    ///
    /// Seat and node are of one [`Node::open`](crate::Node::open).
    pub fn learn_all<R: Threads + Wait + Sync>(
        &mut self,
        rt: &R,
        node: &Node<'_, J>,
        triples: &[KeptTriple],
        valid: bool,
    ) -> Result<Stamped<usize>, Fault>
        ensures later { IsLater self.old self.new }
        ensures answer { let IsAnswer = IsLearnAllAnswer self.old self.new triples.now valid in
            IfOk result (λ r. IsAnswer r.at r.value) }
        ensures own { IsOwn self.new }
        ensures fault { IfErr result (IsLearnAllFault self.old self.new triples.now valid) }
    {
        let _ = &self.params;
        let mut history = node.history.lock(rt);
        for place in 0..triples.len() {
            let triple = &triples[place];
            let Stamped { at, value } = self.learn_under_lock(
                rt,
                node,
                &mut history,
                triple,
                valid,
            )?;
            if let Learning::Contradicted = value {
                return Ok(Stamped { at, value: place });
            }
        }
        Ok(Stamped {
            at: self.seen.len(),
            value: triples.len(),
        })
    }

    /// Takes a verdict down under the lock, and keeps it for scripts that the seat runs before the next one.
    fn learn_under_lock<R: Threads + Wait + Sync>(
        &mut self,
        rt: &R,
        node: &Node<'_, J>,
        history: &mut PublishedHistory<J>,
        triple: &KeptTriple,
        valid: bool,
    ) -> Result<Stamped<Learning>, Fault>
        ensures later { IsLater self.old self.new }
        ensures answer { let IsAnswer = IsLearnAnswer self.old self.new triple.now valid in
            IfOk result (λ r. IsAnswer r.at r.value) }
        ensures own { IsOwn self.new }
        ensures fault { let asked = command.Learn triple.now valid in
            IfErr result (IsWriteFault self.old self.new asked) }
    {
        let answer = self.take_verdict(rt, node, history, triple, valid)?;
        if let Some(note) = history.that_knows(triple, valid) {
            self.learnt.add(triple, valid, note);
        }
        Ok(answer)
    }

    /// Takes the step of a verdict, where none is known.
    #[tactic(auto, using(crate::proofs::OwnEntries::own_begins))]
    fn take_verdict<R: Threads + Wait + Sync>(
        &mut self,
        rt: &R,
        node: &Node<'_, J>,
        history: &mut PublishedHistory<J>,
        triple: &KeptTriple,
        valid: bool,
    ) -> Result<Stamped<Learning>, Fault>
        ensures later { IsLater self.old self.new }
        ensures answer { let IsAnswer = IsLearnAnswer self.old self.new triple.now valid in
            IfOk result (λ r. IsAnswer r.at r.value) }
        ensures own { IsOwn self.new }
        ensures fault { let asked = command.Learn triple.now valid in
            IfErr result (IsWriteFault self.old self.new asked) }
    {
        // Room for a step that may be owed, as each step asks for it first.
        if self.owed.reserve(1).is_err() || !history.publish_pending(rt) {
            return Err(Fault::Memory);
        }
        if let Some(known) = history.find(triple) {
            let at = self.see_all(history)?;
            self.wants.clear();
            let value = if known == valid {
                Learning::Known
            } else {
                Learning::Contradicted
            };
            return Ok(Stamped { at, value });
        }
        let command = PreparedCommand::Learn(SharedTriple::of(triple)?, valid);
        let Stamped { at, .. } = self.write_under_lock(rt, node, history, &command, None)?;
        Ok(Stamped {
            at,
            value: Learning::New,
        })
    }

    /// Has seen all that there is: how many entries that is.
    #[tactic(auto, using(crate::proofs::OwnEntries::own_begins))]
    pub(crate) fn see_all(&mut self, history: &PublishedHistory<J>) -> Result<u64, Fault>
        requires shown { history.now.owed ≡ false }
        ensures later { IsLater self.old self.new }
        ensures mine { self.new.mine ≡ self.old.mine }
        ensures wants { self.new.wants ≡ self.old.wants }
        ensures own { IsOwn self.new }
        ensures seen { IfOk result (λ at.
            (self.new.seen ≡ history.now.journal) × (at ≡ length self.new.seen)) }
        ensures fault { let asked = self.old in
            IfErr result (λ fault. (fault ≡ faults.Closed) × (self.new ≡ asked)) }
    {
        let all = history.note();
        if !self.seen.begins(&all) {
            return Err(Fault::Closed);
        }
        Ok(self.see(all))
    }

    /// Wants these signatures after all that there is, which it has then seen.
    #[tactic(auto, using(crate::proofs::OwnEntries::own_begins))]
    pub(crate) fn want(&mut self, history: &PublishedHistory<J>, wants: Vec<KeptTriple>) -> Fault
        requires shown { history.now.owed ≡ false }
        ensures later { IsLater self.old self.new }
        ensures own { IsOwn self.new }
        ensures fault { (c : CommandValue) → AreWanted J.origin history.now.journal c wants.items
            → IsJudgeFault self.old self.new c result }
        ensures left { (h k : PublishedState) (number : ℕ) (c : CommandValue) →
            IsSettledAtMost h k → IsLeftBy h k number c result }
    {
        match self.see_all(history) {
            Ok(_) => {
                self.wants = wants;
                Fault::Unknown
            }
            Err(fault) => fault,
        }
    }

    /// Takes the step of a mark or a preference, and sees it.
    fn mark<R: Threads + Wait + Sync>(
        &mut self,
        rt: &R,
        node: &Node<'_, J>,
        command: &PreparedCommand,
    ) -> Result<Stamped<MarkReply>, Fault>
        requires mark { IsMark (command_of command.now) }
        ensures later { IsLater self.old self.new }
        ensures answer { let IsAnswer = IsWrite self.old self.new (command_of command.now) in
            IfOk result (λ r. IsAnswer r.at (reply.Mark r.value)) }
        ensures own { IsOwn self.new }
        ensures fault { let c = command_of command.now in
            IfErr result (λ fault. IsWriteFault self.old self.new c fault) }
    {
        let Stamped { at, value } = self.write(rt, node, command)?;
        match value {
            Reply::Mark(value) => Ok(Stamped { at, value }),
            Reply::Submit(_) => unreachable!(),
        }
    }

    /// Runs a submission's scripts, takes the lock, and there the step of a command. What the seat told of signatures is for
    /// one step, and kept where none is taken.
    #[tactic(auto, using(crate::proofs::OwnEntries::own_begins))]
    fn write<R: Threads + Wait + Sync>(
        &mut self,
        rt: &R,
        node: &Node<'_, J>,
        command: &PreparedCommand,
    ) -> Result<Stamped<Reply>, Fault>
        requires ordinary { (known : Known) → IsNews known (command_of command.now) }
        ensures later { IsLater self.old self.new }
        ensures answer { let IsAnswer = IsWriteAnswer self.old self.new (command_of command.now) in
            IfOk result (λ r. IsAnswer r.at r.value) }
        ensures own { IsOwn self.new }
        ensures fault { let c = command_of command.now in
            IfErr result (λ fault. IsWriteFault self.old self.new c fault) }
    {
        let table = self.table;
        let none = Learnt::new(node.alloc, self.seen.copy());
        let learnt = replace(&mut self.learnt, none);
        let early = self.early_verdicts(rt, node, command, table, &learnt);
        let answer = match early {
            Ok(early) => {
                let mut history = node.history.lock(rt);
                let early = still_early(&history, early);
                self.write_under_lock(rt, node, &mut history, command, early)
            }
            Err(fault) => Err(fault.into()),
        };
        self.learnt = learnt.unless(node.alloc, answer.is_ok());
        answer
    }

    /// Takes the step of a command, and sees it: nobody publishes meanwhile. A step that is owed is published first.
    #[tactic(auto, using(crate::proofs::OwnEntries::own_begins))]
    fn write_under_lock<R: Threads + Wait + Sync>(
        &mut self,
        rt: &R,
        node: &Node<'_, J>,
        history: &mut PublishedHistory<J>,
        command: &PreparedCommand,
        early: Option<Verdicts<'_>>,
    ) -> Result<Stamped<Reply>, Fault>
        requires early { let known = known_in J.origin history.old.journal in
            IfSome early (IsEarly known) }
        requires news { IsNews (known_in J.origin history.old.journal) (command_of command.now) }
        ensures later { IsLater self.old self.new }
        ensures answer { let IsAnswer = IsWriteAnswer self.old self.new (command_of command.now) in
            IfOk result (λ r. IsAnswer r.at r.value) }
        ensures own { IsOwn self.new }
        ensures fault { let c = command_of command.now in
            IfErr result (λ fault. IsWriteFault self.old self.new c fault) }
        ensures held { let number = self.old.number in let c = command_of command.now in
            IfErr result (λ fault. IsLeftBy history.old history.new number c fault) }
    {
        let asked = ready_command(rt, history, &mut self.owed, command)?;
        if is_undecodable(command) {
            self.wants.clear();
            let value = Reply::Submit(SubmitReply::DecodeFailed);
            return Ok(Stamped {
                at: self.seen.len(),
                value,
            });
        }
        if !self.stands_in(history) {
            return Err(Fault::Closed);
        }
        let crews = Crews {
            workers: node.workers,
            early: listed(&early),
            by_table: &Threaded { rt },
            by_need: &Threaded { rt },
        };
        match history.step(rt, &self.token, command, &asked, &crews, node.gate) {
            Ok(Some(reply)) => {
                self.seen = history.note();
                let at = self.seen.len();
                self.answered = at;
                self.owed.clear();
                self.wants.clear();
                Ok(Stamped { at, value: reply })
            }
            Ok(None) => {
                self.owed.push_reserved(asked);
                self.wants.clear();
                Err(Fault::Owed)
            }
            Err(Refusal::Memory) => Err(Fault::Memory),
            Err(Refusal::Closed) => Err(Fault::Closed),
            Err(Refusal::Unknown(wants)) => Err(self.want(history, wants)),
        }
    }
}
