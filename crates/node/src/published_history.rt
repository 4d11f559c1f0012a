//! The history of a node of many seats, as it lies under the lock: the journal, the chainstate after it, and the
//! writer that publishes both. The coins lie in what is published alone.

ghost use Rattle.std.specs.Prelude.{◌≡◌, ◌≤◌, ◌∷◌, ◌++◌, [], true, false, All, Decides, IfOk, IfErr, IfSome, OnErr, List, Some, drop, length, map};
ghost use mathlib.Core.List.{IsPrefix};
ghost use Rattle.std.specs.Arc.{arc_value};
ghost use Rattle.model.specs.declared.entry.Entry.{Entry as EntryValue};
ghost use Rattle.signatures.specs.Known.{Under};
ghost use Rattle.queue.specs.Jobs.{IsEarly};
ghost use Rattle.model.specs.History.{own_of};
ghost use Rattle.model.specs.PreparedCommand.{command_of};
ghost use Rattle.view.specs.HistoryPrefix.{count_of};
ghost use Rattle.view.specs.Origin.{known_in};
ghost use Rattle.view.specs.ViewState.{IsLegal, state_after};
ghost use Rattle.node.specs.Pass.{owed_entry};
ghost use Rattle.node.specs.Told.{undo_in};
ghost use Rattle.node.specs.inside.LastPlaces.{AreLastPlaces};
ghost use Rattle.node.specs.inside.PublishedState.{IsLockedAt, IsReady, IsReplyAfter, IsStepAnswer, Shows, opening_state, entry_with_reply};
ghost use Rattle.node.specs.inside.Refusal.{IsWantAfter};

mod attempt;
mod brought;
mod commands;
mod core_info;
mod knowledge;
mod last_places;
mod locked_chain;
mod new_history;
mod owed_step;
mod refusal;
mod refused_blocks;
mod writer_home;

use crate::entries::own_are;
use crate::origin::SeatToken;
use crate::published_history::attempt::{Attempt, attempt_to_publish};
use crate::published_history::brought::{Brought, what_is_brought};
use crate::published_history::commands::shared_command;
use crate::published_history::last_places::LastPlaces;
pub(crate) use crate::published_history::locked_chain::Crews;
use crate::published_history::locked_chain::LockedChain;
pub(crate) use crate::published_history::new_history::{Opened, open_history};
use crate::published_history::owed_step::Pending;
pub(crate) use crate::published_history::refusal::Refusal;
use crate::published_history::refused_blocks::RefusedBlocks;
use crate::published_history::writer_home::WriterHome;
use hash::Id;
use model::{Command, Entry, PreparedCommand, Reply};
use queue::{Crew, Gate};
use signatures::{KeptTriple, KnownSignatures, Table};
use std::alloc::Global;
use std::marker::{Model, PhantomData};
use std::mem::replace;
use std::sync::atomic::Ordering;
use std::sync::{Arc, Wait};
use undo::BlockUndo;
use view::{Hub, Naming, Publication, SeenHistory, reserve_one};
use wire::Memory;

/// The history, with the chainstate after it but its coins. A step is owed that is taken and not yet published.
#[derive(Drop)]
pub(crate) struct PublishedHistory<J: Naming> {
    alloc: Global,
    chain: LockedChain<J>,
    hub: Arc<Hub>,
    /// The whole history: a step that is owed is its last entry, without its reply.
    journal: Vec<Entry>,
    last: LastPlaces,
    refused: RefusedBlocks,
    pending: Pending,
    /// None once what is published has no note: nothing more is published then.
    home: Option<WriterHome<J>>,
    of: PhantomData<J>,
}

impl<J: Naming> Model for PublishedHistory<J> {
    ghost use Rattle.std.specs.Coded.{codes};
    ghost use Rattle.std.specs.FinSet as set;
    ghost use Rattle.signatures.specs.Triple.{triple_cmp, coded_triple};
    ghost use Rattle.std.specs.Prelude.{◌≡◌, true, IfSome, drop};
    ghost use Rattle.std.specs.Arc.{arc_value};
    ghost use Rattle.view.specs.HistoryPrefix.{count_of};
    ghost use Rattle.node.specs.inside.Knowledge.{IsKnowledge};
    ghost use Rattle.node.specs.inside.LastPlaces.{AreLastPlaces};
    ghost use Rattle.node.specs.inside.PublishedState.{PublishedState, IsCoreOf, IsJournal, Shows, AreDue, is_owed};

    ghost Value = { PublishedState };

    ghost coded = { Prim.hlevel (codes, set.code {R = triple_cmp} coded_triple) };

    ghost view = { λ s. record { origin = J.origin; journal = s.journal.items; owed = is_owed s.pending } };

    ghost invariant = { λ s. let o = J.origin in
        IsCoreOf o s.chain.core s.journal.items
        × ((arc_value s.hub).counter ≡ count_of o.book)
        × IsJournal (is_owed s.pending) s.chain.note.entries s.journal.items
        × (s.chain.reader ≡ true)
        × IfSome s.home (λ h. let x = h.writer.desk.shown.value in
        let queued = drop h.writer.behind h.writer.log.items in
        Shows x o s.chain.note.entries × AreDue s.pending x queued s.journal.items)
        × (s.chain.note.book ≡ o.book)
        × IsKnowledge o s.chain.known s.journal.items
        × AreLastPlaces o.seats s.last s.journal.items };
}

/// Puts a reply in place of the last entry's.
fn put_reply(journal: &mut Vec<Entry>, reply: Option<Reply>)
    ensures { (before : List EntryValue) (e : EntryValue) → journal.old.items ≡ before ++ e ∷ []
        → journal.new.items ≡ before ++ entry_with_reply e reply ∷ [] }
{
    if let Some(last) = journal.pop() {
        journal.push_reserved(Entry {
            seat: last.seat,
            command: last.command,
            reply,
        });
    }
}

impl<J: Naming> PublishedHistory<J> {
    /// No step was taken yet.
    pub(crate) fn new(
        alloc: Global,
        chain: LockedChain<J>,
        hub: Arc<Hub>,
        home: WriterHome<J>,
        last: LastPlaces,
    ) -> PublishedHistory<J>
        requires chain { IsLockedAt J.origin chain.core chain.known chain.note }
        requires reader { chain.reader ≡ true }
        requires hub { (arc_value hub).counter ≡ count_of J.origin.book }
        requires empty { chain.note.entries ≡ [] }
        requires shown { Shows home.writer.desk.shown.value J.origin [] }
        requires queued { drop home.writer.behind home.writer.log.items ≡ [] }
        requires last { AreLastPlaces J.origin.seats last [] }
        ensures { result ≡ opening_state J.origin }
    {
        PublishedHistory {
            alloc,
            chain,
            hub,
            journal: Vec::new(alloc),
            last,
            refused: RefusedBlocks::new(alloc),
            pending: Pending::None,
            home: Some(home),
            of: PhantomData,
        }
    }

    /// The entries, given away. What is published is kept for ever.
    pub(crate) fn into_journal(self) -> Vec<Entry>
        ensures { result.items ≡ self.journal }
    {
        let PublishedHistory { journal, .. } = self;
        journal
    }

    /// The entries, given away. What is published is given back, once no reader is inside.
    pub(crate) fn close<R: Wait>(self, rt: &R) -> Vec<Entry>
        ensures { result.items ≡ self.journal }
    {
        let PublishedHistory { journal, home, .. } = self;
        if let Some(home) = home {
            drop(home.into_writer().take(rt));
        }
        journal
    }

    /// Whether a seat's entries behind a place are owed, and of these commands. Those of others behind its last one aren't
    /// looked at.
    pub(crate) fn has_owed(&self, token: &SeatToken<J>, place: u64, owed: &[Command]) -> bool
        requires within { place ≤ length self.now.journal }
        ensures { Decides result
            (own_of token.now (drop place self.now.journal) ≡ map (owed_entry token.now) owed.now) }
    {
        let (from, number) = (place as usize, token.number());
        let to = self.last.of(number);
        if to <= from {
            return owed.is_empty();
        }
        own_are(&self.journal[from..to], number, owed)
    }

    /// The history that is published.
    pub(crate) fn note(&self) -> SeenHistory
        ensures entries { self.now.owed ≡ false → result.entries ≡ self.now.journal }
        ensures book { result.book ≡ J.origin.book }
        ensures legal { self.now.owed ≡ false → IsLegal J.origin result.entries }
        ensures begins { IsPrefix result.entries self.now.journal }
        ensures whole { IsLegal J.origin self.now.journal }
    {
        self.chain.note.copy()
    }

    /// The history, if it has this verdict and all of it is published.
    pub(crate) fn that_knows(&self, triple: &KeptTriple, valid: bool) -> Option<SeenHistory>
        ensures book { IfSome result (λ note. note.book ≡ J.origin.book) }
        ensures legal { IfSome result (λ note. IsLegal J.origin note.entries) }
        ensures known { IfSome result (λ note.
            known_in J.origin note.entries triple.now ≡ Some valid) }
    {
        if self.pending.is_owed() || self.find(triple) != Some(valid) {
            return None;
        }
        Some(self.note())
    }

    /// Whether a signature is valid, where that is known.
    pub(crate) fn find(&self, triple: &KeptTriple) -> Option<bool>
        ensures { result ≡ known_in J.origin self.now.journal triple.now }
    {
        self.chain.known.find(triple)
    }

    /// Publishes the step that is owed, with this reply.
    fn publish_owed<R: Wait>(&mut self, rt: &R, reply: Option<Reply>) -> bool
        requires owed { self.old.owed ≡ true }
        requires legal { (before : List EntryValue) (e : EntryValue)
            → self.old.journal ≡ before ++ e ∷ []
            → IsLegal self.old.origin (before ++ entry_with_reply e reply ∷ []) }
        ensures shown { (before : List EntryValue) (e : EntryValue)
            → self.old.journal ≡ before ++ e ∷ [] → (result ≡ true)
            → let journal = before ++ entry_with_reply e reply ∷ [] in
            self.new ≡ record self.old { journal = journal; owed = false } }
        ensures same { (result ≡ false) → self.new ≡ self.old }
    {
        let (entries, is_new) = (self.journal.as_slice(), self.pending.is_new());
        let Some(brought) = what_is_brought(
            self.alloc,
            &self.chain.core,
            &self.hub,
            entries,
            is_new,
            reply,
        ) else {
            return false;
        };
        let Some(found) = self.home.take() else {
            return false;
        };
        let Brought { hub, entry, info } = brought;
        let writer = found.into_writer();
        let publication = Publication {
            hub,
            before: self.chain.note.copy(),
            entry,
            is_new,
            changes: replace(&mut self.pending, Pending::Again).into_changes(self.alloc),
            info,
            attempt: self
                .hub
                .attempt
                .fetch_add(1, Ordering::SeqCst)
                .wrapping_add(1),
        };
        let Attempt {
            home: left,
            note: seen,
            pending: still,
        } = attempt_to_publish(rt, writer, publication);
        self.home = left;
        self.chain.note = seen;
        self.pending = still;
        if self.pending.is_owed() {
            return false;
        }
        put_reply(&mut self.journal, reply);
        true
    }

    /// Publishes the step that is owed, if one is.
    pub(crate) fn publish_pending<R: Wait>(&mut self, rt: &R) -> bool
        ensures shown { (result ≡ true) → self.new ≡ record self.old { owed = false } }
        ensures same { (result ≡ false) → self.new ≡ self.old }
    {
        if self.pending.is_owed() {
            return self.publish_owed(rt, None);
        }
        true
    }

    /// Takes the step of a command over the coins that are published, enters it under the seat's number, and publishes it
    /// with its reply. Without an answer it is owed.
    pub(crate) fn step<R: Wait, A: Crew<Table>, B: Crew<KnownSignatures>>(
        &mut self,
        rt: &R,
        token: &SeatToken<J>,
        command: &PreparedCommand,
        asked: &Command,
        crews: &Crews<'_, A, B>,
        gate: &(dyn Gate + Sync),
    ) -> Result<Option<Reply>, Refusal>
        requires ready { IsReady J.origin self.old asked.now }
        requires asked { asked.now ≡ command_of command.now }
        requires crews { A.is_ready crews.now.by_table.now × B.is_ready crews.now.by_need.now
            × (1 ≤ crews.now.workers) × (crews.now.workers ≤ 16) }
        requires early { let known = known_in J.origin self.old.journal in
            All (IsEarly known) crews.now.early.now }
        ensures step { IfOk result (IsStepAnswer self.old self.new token.now asked.now) }
        ensures err { OnErr result (self.new ≡ self.old) }
        ensures wants { IfErr result (IsWantAfter J.origin self.old.journal asked.now) }
    {
        if reserve_one(&mut self.journal).is_err() {
            return Err(Refusal::Memory);
        }
        if self.refused.reserve(command).is_err() {
            return Err(Refusal::Memory);
        }
        let Ok(entered) = shared_command(
            &self.chain.core,
            &self.journal,
            &self.refused,
            command,
            asked,
        ) else {
            return Err(Refusal::Memory);
        };
        let (reply, changes) = self.chain.step(self.alloc, command, crews, gate)?;
        let (seat, place) = (token.number(), self.journal.len());
        self.refused.note(&self.chain.core, command, place);
        self.last.set(seat, place + 1);
        self.journal.push_reserved(Entry {
            seat,
            command: entered,
            reply: None,
        });
        self.pending = Pending::New(changes);
        if self.publish_owed(rt, Some(reply)) {
            return Ok(Some(reply));
        }
        Ok(None)
    }

    /// The reply that a command would get now. No step is taken.
    pub(crate) fn judge<A: Crew<Table>, B: Crew<KnownSignatures>>(
        &mut self,
        command: &PreparedCommand,
        crews: &Crews<'_, A, B>,
        gate: &(dyn Gate + Sync),
    ) -> Result<Reply, Refusal>
        requires shown { self.old.owed ≡ false }
        requires crews { A.is_ready crews.now.by_table.now × B.is_ready crews.now.by_need.now
            × (1 ≤ crews.now.workers) × (crews.now.workers ≤ 16) }
        requires early { let known = known_in J.origin self.old.journal in
            All (IsEarly known) crews.now.early.now }
        ensures reply { let c = command_of command.now in
            IfOk result (IsReplyAfter J.origin self.old.journal c) }
        ensures same { self.new ≡ self.old }
        ensures wants { let c = command_of command.now in
            IfErr result (IsWantAfter J.origin self.old.journal c) }
    {
        self.chain.judge(self.alloc, command, crews, gate)
    }

    /// The coins that an active block spent, after all entries, an owed one too.
    pub(crate) fn spent(&self, id: &Id) -> Result<Option<BlockUndo>, Memory>
        ensures { let o = J.origin in let es = self.now.journal in
            IfOk result (λ found. Under (known_in o es) (λ valid.
            found ≡ undo_in o id.now valid (state_after o valid es))) }
    {
        self.chain.core.spent(self.alloc, id)
    }
}

/// It may be given to other threads, as a lock asks.
fn crosses_threads<J: Naming>() {
    is_sent::<PublishedHistory<J>>();
}

fn is_sent<T: Send>() {}
