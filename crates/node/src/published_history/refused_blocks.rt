//! Where refused blocks stand in the history.

use activate::Core;
use block::Bytes;
use hash::Id;
use model::{Command, Entry, PreparedCommand};
use std::alloc::Global;
use std::collections::HashMap;
use wire::Memory;

/// For the id of each block that was refused, the place of its last submission in the history. The history itself keeps its
/// bytes, so whoever follows a place compares them.
#[derive(Drop)]
pub(crate) struct RefusedBlocks {
    places: HashMap<Id, usize>,
}

impl RefusedBlocks {
    pub(crate) fn new(alloc: Global) -> RefusedBlocks {
        RefusedBlocks {
            places: HashMap::new(alloc),
        }
    }

    /// Room for one more, if the command is a submission.
    pub(crate) fn reserve(&mut self, command: &PreparedCommand) -> Result<(), Memory> {
        if submitted(command).is_some() {
            self.places.reserve(1)?;
        }
        Ok(())
    }

    /// Notes where a command was entered, if it submitted a block that isn't kept.
    pub(crate) fn note(&mut self, core: &Core, command: &PreparedCommand, place: usize) {
        if let Some(id) = submitted(command) {
            if core.block(id).is_none() {
                // `reserve` made room. Should the map refuse nevertheless, the block is only not found again.
                self.places.insert(*id, place).is_ok();
            }
        }
    }

    /// The block with an id that was refused last.
    pub(crate) fn find<'a>(&self, journal: &'a [Entry], id: &Id) -> Option<&'a Bytes> {
        match &journal.get(*self.places.get(id)?)?.command {
            Command::Submit(bytes, _) => Some(bytes),
            _ => None,
        }
    }
}

/// The id of the block that a command submits.
fn submitted(command: &PreparedCommand) -> Option<&Id> {
    match command {
        PreparedCommand::Submit(submission, _) => submission.block().map(|block| &block.id),
        _ => None,
    }
}
