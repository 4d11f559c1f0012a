//! The blocks that a history's submissions brought, by their ids: where each stands, and its bytes.

ghost use Rattle.std.specs.Prelude.{◌≡◌, ◌<◌, suc, length, drop, take, get_or, [], IfOk, IfErr, MatchOption, OnErr, OnOk};
ghost use mathlib.Core.List.{IsPrefix};
ghost use Rattle.node.specs.Pass.{IsLater};
ghost use Rattle.tree.specs.Nodes.{CanKeep};
ghost use Rattle.server.specs.inside.Brought.{AreBrought, BringsNothing, IsBrought, IsTreeAfter, may_be_kept as may_be_kept_by};

use crate::waste::is_kept;
use block::{ReadFault, StoredBlock, read};
use hash::Id;
use node::{Command, Entry, Fault, Naming, Note, Reply, Seat, Stamped};
use std::alloc::{AllocError, Global};
use std::marker::Model;
use tree::{Lays, MAX_BLOCKS, NewBlock, Tree};
use wire::Memory;

/// An index of the blocks that a history's submissions brought, as far as somebody asked.
#[derive(Drop)]
pub struct Blocks<J: Naming> {
    /// The beginning of the history that it is of. None before anything was asked.
    note: Option<Note<J>>,
    /// How many of its entries were looked at.
    steps: u64,
    tree: Tree,
}

impl<J: Naming> Model for Blocks<J> {
    ghost use Rattle.std.specs.Prelude.{◌≤◌, [], length, take};
    ghost use Rattle.server.specs.inside.Brought.{AreBrought, Index, seen_by};

    ghost Value = { Index };

    ghost view = { λ b. record { seen = seen_by b.note; steps = b.steps; blocks = b.tree.blocks } };

    ghost invariant = { λ b. (b.steps ≤ length (seen_by b.note))
        × AreBrought [] (take b.steps (seen_by b.note)) b.tree.blocks };
}

/// Who takes no step.
#[derive(Drop)]
struct TakesNothing {}

impl Lays<()> for TakesNothing {
    ghost laid = { λ nobody _. nobody };

    fn lay(&mut self, _: Global, _: ()) -> Result<(), Memory> {
        Ok(())
    }
}

impl<J: Naming> Blocks<J> {
    ghost use Rattle.server.specs.inside.Answers.{IsLookFault, IsLookedAt};

    /// Genesis alone.
    pub fn new(alloc: Global) -> Result<Blocks<J>, AllocError> {
        match Tree::new(alloc) {
            Ok(tree) => Ok(Blocks {
                note: None,
                steps: 0,
                tree,
            }),
            Err(Memory) => Err(AllocError),
        }
    }

    /// The blocks.
    pub fn tree(&self) -> &Tree
        ensures tree { result.now.blocks ≡ self.now.blocks }
        ensures brought { AreBrought [] (take self.now.steps self.now.seen) self.now.blocks }
    {
        &self.tree
    }

    /// The best block at a moment, after the blocks are those that the seat has then seen.
    pub fn catch_up(&mut self, alloc: Global, seat: &mut Seat<'_, J>) -> Result<Stamped<Id>, Fault>
        ensures looked { IfOk result (λ r.
            IsLookedAt seat.old seat.new self.new.blocks r.at r.value) }
        ensures fault { IfErr result (IsLookFault seat.old seat.new) }
    {
        self.tell(seat);
        let best = seat.getbestblockhash()?;
        let note = seat.note();
        let found = seat.journal(alloc, self.steps, best.at)?;
        self.set_note(note);
        self.add_all(alloc, found.value.as_slice())?;
        Ok(best)
    }

    /// Has a seat hear what the index is of.
    fn tell(&self, seat: &mut Seat<'_, J>)
        ensures later { IsLater seat.old seat.new }
        ensures mine { seat.new.mine ≡ seat.old.mine }
        ensures wants { seat.new.wants ≡ seat.old.wants }
        ensures seen { IsPrefix self.now.seen seat.new.seen }
    {
        match &self.note {
            Some(note) => seat.told(note),
            None => {
                let own = seat.note();
                seat.told(&own);
            }
        }
    }

    /// The index is of this beginning of the history, which goes on from the one it was of.
    fn set_note(&mut self, note: Note<J>)
        requires { IsPrefix self.old.seen note.seen }
        ensures { self.new ≡ record self.old { seen = note.seen } }
    {
        self.note = Some(note);
    }

    /// Looks at all entries that it hasn't looked at.
    fn add_all(&mut self, alloc: Global, entries: &[Entry]) -> Result<(), Memory>
        requires { entries.now ≡ drop self.old.steps self.old.seen }
        ensures { OnOk result ((self.new.seen ≡ self.old.seen)
            × AreBrought [] self.new.seen self.new.blocks) }
    {
        for place in 0..entries.len() {
            self.add(alloc, &entries[place])?;
        }
        self.tree();
        Ok(())
    }

    /// Looks at the next entry.
    fn add(&mut self, alloc: Global, entry: &Entry) -> Result<(), Memory>
        requires within { self.old.steps < length self.old.seen }
        requires next { entry.now ≡ get_or self.old.seen self.old.steps entry.now }
        ensures { OnOk result ((self.new.seen ≡ self.old.seen)
            × (self.new.steps ≡ suc self.old.steps)) }
    {
        // No history has as many steps.
        let Some(steps) = self.steps.checked_add(1) else {
            return Err(Memory);
        };
        add_brought(alloc, &mut self.tree, entry)?;
        self.steps = steps;
        Ok(())
    }
}

/// Adds the block that an entry brings, if it brings one.
fn add_brought(alloc: Global, tree: &mut Tree, entry: &Entry) -> Result<(), Memory>
    ensures ok { OnOk result (IsTreeAfter tree.old.blocks entry.now tree.new.blocks) }
    ensures err { OnErr result (tree.new ≡ tree.old) }
{
    match brought_by(alloc, tree, entry)? {
        Some(new) => tree.add(alloc, new, &mut TakesNothing {}, ()),
        None => Ok(()),
    }
}

/// The block that an entry brings, if it brings one.
fn brought_by(alloc: Global, tree: &Tree, entry: &Entry) -> Result<Option<NewBlock>, Memory>
    ensures { IfOk result (λ found. MatchOption found (BringsNothing tree.now.blocks entry.now)
        (λ new. IsBrought tree.now.blocks entry.now new.block new.parent × CanKeep tree.now new)) }
{
    let Command::Submit(bytes, _) = &entry.command else {
        return Ok(None);
    };
    if !may_be_kept(entry.reply) || tree.len() >= MAX_BLOCKS {
        return Ok(None);
    }
    let block = match read(alloc, bytes.as_slice()) {
        Ok(block) => block,
        Err(ReadFault::Memory) => return Err(Memory),
        Err(_) => return Ok(None),
    };
    let id = block.header.id();
    if tree.find(&id).is_some() {
        return Ok(None);
    }
    let Some(parent) = tree.find(&block.header.prev) else {
        return Ok(None);
    };
    let block = StoredBlock::of(bytes.copy()?, &block);
    Ok(Some(NewBlock { block, id, parent }))
}

/// Whether a submission with this reply can have brought a block: it wasn't refused. Of an owed reply nothing is known.
fn may_be_kept(reply: Option<Reply>) -> bool
    ensures { result ≡ may_be_kept_by reply }
{
    match reply {
        None => true,
        Some(Reply::Submit(reply)) => is_kept(reply),
        Some(Reply::Mark(_)) => false,
    }
}
