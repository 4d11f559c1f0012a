//! What is asked of the chainstate, prepared: all work that needs no chain is done.

ghost use Rattle.std.specs.Option.{option_copied};
ghost use Rattle.std.specs.Prelude.{◌≡◌, IfOk};
ghost use Rattle.model.specs.PreparedCommand.{command_of};
ghost use Rattle.model.specs.SubmissionFacts.{IsJudged, IsSubmission};

use crate::command::Command;
use crate::shared_triple::SharedTriple;
use block::{Block, Bytes, ReadFault};
use hash::Id;
use rules::block_alone_with;
use std::alloc::Global;
use std::marker::Model;
use txn::{Reason, ids};
use wire::Memory;

/// The block of a submission, and what is known of it by itself.
#[derive(Debug, Drop)]
pub struct SubmittedBlock {
    pub block: Block,
    pub id: Id,
    /// The ids of its transactions, in order.
    pub ids: Vec<Id>,
    /// The first rule that it breaks by itself (Bitcoin Core's `CheckBlock`).
    pub fault: Option<Reason>,
}

/// Submitted bytes, decoded, hashed, and judged as far as no chain is needed. A clause sees the bytes: all else
/// follows from them.
#[derive(Debug, Drop)]
pub struct Submission {
    bytes: Bytes,
    block: Option<SubmittedBlock>,
}

impl Model for Submission {
    ghost use Rattle.model.specs.SubmissionFacts.{IsSubmission};
    ghost use Rattle.std.specs.Prelude.{List, ℕ};

    ghost Value = { List ℕ };

    ghost view = { λ s. s.bytes };

    ghost invariant = { λ s. IsSubmission s.bytes s.block };
}

impl Submission {
    /// Prepares a submission of these bytes. Those that spell no block are one too.
    pub fn read(alloc: Global, bytes: Bytes) -> Result<Submission, Memory>
        ensures { IfOk result (λ submission. submission ≡ bytes) }
    {
        match block::read(alloc, bytes.as_slice()) {
            Ok(block) => {
                let block = Some(judge(alloc, block)?);
                Ok(Submission { bytes, block })
            }
            Err(ReadFault::Memory) => Err(Memory),
            Err(_) => Ok(Submission { bytes, block: None }),
        }
    }

    /// The bytes, as they were submitted.
    pub fn bytes(&self) -> &Bytes
        ensures { result.now ≡ self.now }
    {
        &self.bytes
    }

    /// Their block, if they spell one.
    pub fn block(&self) -> Option<&SubmittedBlock>
        ensures { IsSubmission self.now (option_copied result) }
    {
        self.block.as_ref()
    }
}

/// A block with all that is known of it by itself.
fn judge(alloc: Global, block: Block) -> Result<SubmittedBlock, Memory>
    ensures { IfOk result (λ judged. (judged.block ≡ block) × IsJudged judged) }
{
    let id = block.id();
    let ids = ids(alloc, block.txs.as_slice())?;
    let fault = block_alone_with(alloc, &block, &id, &ids)?;
    Ok(SubmittedBlock {
        block,
        id,
        ids,
        fault,
    })
}

/// A command, prepared.
#[derive(Debug, Drop)]
pub enum PreparedCommand {
    /// To take the block of this submission, at this moment in seconds since 1970.
    Submit(Submission, u64),
    /// To mark the block of this id as invalid.
    Invalidate(Id),
    /// To take the marks from the block of this id, its ancestors and its descendants.
    Reconsider(Id),
    /// To prefer the block of this id to all that are as high.
    Precious(Id),
    /// To take down whether this signature is valid.
    Learn(SharedTriple, bool),
}

impl PreparedCommand {
    /// Prepares a command, whose bytes it shares.
    pub fn of(alloc: Global, command: &Command) -> Result<PreparedCommand, Memory>
        ensures { IfOk result (λ prepared. command_of prepared ≡ command.now) }
    {
        match command {
            Command::Submit(bytes, now) => {
                let submission = Submission::read(alloc, bytes.copy()?)?;
                Ok(PreparedCommand::Submit(submission, *now))
            }
            Command::Invalidate(id) => Ok(PreparedCommand::Invalidate(*id)),
            Command::Reconsider(id) => Ok(PreparedCommand::Reconsider(*id)),
            Command::Precious(id) => Ok(PreparedCommand::Precious(*id)),
            Command::Learn(triple, valid) => Ok(PreparedCommand::Learn(triple.clone()?, *valid)),
        }
    }

    /// The command, for a history. It shares the bytes.
    pub fn command(&self) -> Result<Command, Memory>
        ensures { IfOk result (λ command. command ≡ command_of self.now) }
    {
        match self {
            PreparedCommand::Submit(submission, now) => {
                Ok(Command::Submit(submission.bytes().copy()?, *now))
            }
            PreparedCommand::Invalidate(id) => Ok(Command::Invalidate(*id)),
            PreparedCommand::Reconsider(id) => Ok(Command::Reconsider(*id)),
            PreparedCommand::Precious(id) => Ok(Command::Precious(*id)),
            PreparedCommand::Learn(triple, valid) => Ok(Command::Learn(triple.clone()?, *valid)),
        }
    }
}
