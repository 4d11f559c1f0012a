//! The history of a run.

use crate::fault::RunFault;
use hash::Id;
use journal::{Asked, Step, block_of};
use model::{Command, Entry};
use scenario::{Definitions, Label};
use std::alloc::{AllocError, Global};

/// The names of the seats in a journal.
pub const SEATS: [&str; 16] = [
    "seat0", "seat1", "seat2", "seat3", "seat4", "seat5", "seat6", "seat7", "seat8", "seat9",
    "seat10", "seat11", "seat12", "seat13", "seat14", "seat15",
];

/// The names of a run's clients.
#[derive(Drop)]
pub struct Clients<'t> {
    /// The answers of the history's first entries, one by one, whatever seat they were played at.
    pub earlier: Vec<&'t str>,
    /// The answers of all others, by their seats.
    pub seats: Vec<&'t str>,
}

impl<'t> Clients<'t> {
    /// The client of the entry at this place, from 0, whose seat has this number.
    pub fn name(&self, place: usize, seat: usize) -> &'t str {
        match self.earlier.get(place) {
            Some(name) => name,
            None => self.seats.get(seat).copied().unwrap_or(""),
        }
    }

    /// This many entries are a client's. They stand at this place of the history, from 0, before those that had it.
    pub fn put_in(&mut self, place: u64, count: u64, name: &'t str) -> Result<(), AllocError> {
        for _ in 0..count {
            let at = self.earlier.len().min(place as usize);
            self.earlier.insert(at, name)?;
        }
        Ok(())
    }
}

/// The history of a run, with the names of its clients.
#[derive(Drop)]
pub struct Report<'d, 't> {
    definitions: &'d Definitions,
    clients: Clients<'t>,
    entries: Vec<Entry>,
    /// The block that each step of the journal is about.
    blocks: Vec<Id>,
}

impl<'d, 't> Report<'d, 't> {
    /// Of these entries, which these clients asked for.
    pub fn new(
        alloc: Global,
        definitions: &'d Definitions,
        clients: Clients<'t>,
        entries: Vec<Entry>,
    ) -> Result<Report<'d, 't>, RunFault<'static>> {
        let mut blocks = Vec::new(alloc);
        for entry in entries.as_slice() {
            blocks.push(block_of(alloc, entry)?)?;
        }
        Ok(Report {
            definitions,
            clients,
            entries,
            blocks,
        })
    }

    /// The steps, in order.
    pub fn entries(&self) -> &[Entry] {
        self.entries.as_slice()
    }

    /// The commands of the steps, in order.
    pub fn commands(&self, alloc: Global) -> Result<Vec<Command>, RunFault<'static>> {
        let mut commands = Vec::new(alloc);
        for entry in self.entries.as_slice() {
            commands.push(entry.command.copy()?)?;
        }
        Ok(commands)
    }

    /// The journal's lines, with the ids of blocks in digits.
    pub fn journal_in_digits(&self, alloc: Global) -> Result<String, AllocError> {
        let mut text = String::new(alloc);
        for (place, (entry, id)) in self.entries.iter().zip(self.blocks.iter()).enumerate() {
            writeln!(text, "{}", self.step(place + 1, entry, *id))?;
        }
        Ok(text)
    }

    /// The step at this place, from 0, about the name of its block.
    pub fn labelled(&self, place: usize) -> Option<Step<'t, Label<'_>>> {
        let (entry, id) = (self.entries.get(place)?, self.blocks.get(place)?);
        Some(self.step(place + 1, entry, self.definitions.label(*id)))
    }

    /// The step of this number, about this block.
    fn step<B>(&self, number: usize, entry: &Entry, block: B) -> Step<'t, B> {
        Step {
            number,
            client: self.clients.name(number.saturating_sub(1), entry.seat),
            asked: Asked::from_command(&entry.command),
            block,
            reply: entry.reply,
        }
    }
}
