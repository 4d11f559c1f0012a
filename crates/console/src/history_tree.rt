//! The block tree that a history leads to.

use crate::fault::RunFault;
use block::GENESIS_ID;
use hash::Id;
use journal::replayed_state;
use model::{Bytes, Command, Reply, SubmitReply};
use picture::{BlockStatus, BlockTree, TreeBlock};
use rules::Params;
use scenario::{Definitions, Label};
use signatures::Table;
use std::alloc::{AllocError, Global};
use std::collections::BTreeMap;

/// How many digits of its id stand for a block without a name.
const DIGITS: usize = 8;

/// A block that was submitted, and its parent.
#[derive(Clone, Copy)]
struct Submitted {
    id: Id,
    prev: Id,
}

/// A block that is kept.
#[derive(Clone, Copy)]
struct HistoryBlock {
    id: Id,
    /// The place of its parent.
    parent: usize,
    status: BlockStatus,
}

/// The tree after these commands, with the names that a scenario gives.
///
/// What is known of a block is asked by its submission once more, at a moment at which no new block is accepted.
pub fn history_tree(
    alloc: Global,
    params: &Params,
    commands: &[Command],
    table: &Table,
    definitions: Option<&Definitions>,
) -> Result<BlockTree, RunFault<'static>> {
    let submitted = submitted_blocks(alloc, commands)?;
    let questions = questions(alloc, commands)?;
    let state = replayed_state(alloc, params, commands, questions.as_slice(), table)?;
    let mut kept = kept_blocks(alloc, submitted.as_slice(), state.answers.as_slice())?;
    set_active(kept.as_mut_slice(), state.best);
    Ok(tree_of(alloc, kept.as_slice(), definitions)?)
}

/// The blocks that are submitted, in order.
fn submitted_blocks(
    alloc: Global,
    commands: &[Command],
) -> Result<Vec<Submitted>, RunFault<'static>> {
    let mut submitted = Vec::new(alloc);
    for command in commands {
        if let Command::Submit(bytes, _) = command {
            submitted.push(submitted_block(alloc, bytes.as_slice())?)?;
        }
    }
    Ok(submitted)
}

fn submitted_block(alloc: Global, bytes: &[u8]) -> Result<Submitted, RunFault<'static>> {
    let block = block::read(alloc, bytes)?;
    Ok(Submitted {
        id: block.id(),
        prev: block.header.prev,
    })
}

/// Each submission once more, at a moment at which no new block is accepted.
fn questions(alloc: Global, commands: &[Command]) -> Result<Vec<Command>, RunFault<'static>> {
    let mut questions = Vec::new(alloc);
    for command in commands {
        if let Command::Submit(bytes, _) = command {
            questions.push(question(alloc, bytes.as_slice())?)?;
        }
    }
    Ok(questions)
}

fn question(alloc: Global, bytes: &[u8]) -> Result<Command, RunFault<'static>> {
    let copy = Vec::from_slice(alloc, bytes)?;
    Ok(Command::Submit(Bytes::from_vec(alloc, copy)?, 0))
}

/// Blocks that are kept, each behind its parent, and their places.
#[derive(Drop)]
struct KeptBlocks {
    list: Vec<HistoryBlock>,
    places: BTreeMap<Id, usize>,
}

impl KeptBlocks {
    fn put(&mut self, id: Id, parent: usize, status: BlockStatus) -> Result<(), AllocError> {
        self.places.insert(id, self.list.len())?;
        self.list.push(HistoryBlock { id, parent, status })?;
        Ok(())
    }

    /// Keeps a block that isn't kept yet, by the reply to its submission once more.
    fn put_submitted(&mut self, block: &Submitted, answer: &Reply) -> Result<(), AllocError> {
        if self.places.contains_key(&block.id) {
            return Ok(());
        }
        match (status_of(answer), self.places.get(&block.prev).copied()) {
            (Some(status), Some(parent)) => self.put(block.id, parent, status),
            _ => Ok(()),
        }
    }
}

/// The blocks that are kept, genesis first, each behind its parent. Of each submission there is the reply
/// to it when it is made once more.
fn kept_blocks(
    alloc: Global,
    submitted: &[Submitted],
    answers: &[Reply],
) -> Result<Vec<HistoryBlock>, AllocError> {
    let mut kept = KeptBlocks {
        list: Vec::new(alloc),
        places: BTreeMap::new(alloc),
    };
    kept.put(GENESIS_ID, 0, BlockStatus::ValidFork)?;
    for (block, answer) in submitted.iter().zip(answers) {
        kept.put_submitted(block, answer)?;
    }
    let KeptBlocks { list, .. } = kept;
    Ok(list)
}

/// What is known of a block, by the reply to its submission once more; none where it isn't kept.
fn status_of(answer: &Reply) -> Option<BlockStatus> {
    match answer {
        Reply::Submit(SubmitReply::Duplicate) => Some(BlockStatus::ValidFork),
        Reply::Submit(SubmitReply::DuplicateInvalid) => Some(BlockStatus::Invalid),
        Reply::Submit(SubmitReply::DuplicateInconclusive) => Some(BlockStatus::ValidHeaders),
        _ => None,
    }
}

/// Makes the blocks of this one's branch active.
fn set_active(kept: &mut [HistoryBlock], best: Id) {
    let mut place = kept
        .iter()
        .position(|block| block.id == best)
        .unwrap_or_default();
    for _ in 0..kept.len() {
        let Some(block) = kept.get_mut(place) else {
            return;
        };
        block.status = BlockStatus::Active;
        if place == 0 {
            return;
        }
        place = block.parent;
    }
}

/// The tree of these blocks. One is marked itself where it is invalid, and its parent isn't.
fn tree_of(
    alloc: Global,
    kept: &[HistoryBlock],
    definitions: Option<&Definitions>,
) -> Result<BlockTree, AllocError> {
    let genesis = TreeBlock {
        label: label_of(alloc, GENESIS_ID, definitions)?,
        status: BlockStatus::Active,
        is_marked: false,
    };
    let mut tree = BlockTree::new(alloc, genesis)?;
    for block in kept.iter().skip(1) {
        let above = tree_block(alloc, kept, block, definitions)?;
        let _ = tree.add(block.parent, above)?;
    }
    Ok(tree)
}

fn tree_block(
    alloc: Global,
    kept: &[HistoryBlock],
    block: &HistoryBlock,
    definitions: Option<&Definitions>,
) -> Result<TreeBlock, AllocError> {
    Ok(TreeBlock {
        label: label_of(alloc, block.id, definitions)?,
        status: block.status,
        is_marked: block.status == BlockStatus::Invalid && !is_invalid(kept.get(block.parent)),
    })
}

fn is_invalid(block: Option<&HistoryBlock>) -> bool {
    match block {
        Some(block) => block.status == BlockStatus::Invalid,
        None => false,
    }
}

/// The name of a block, or the first of its id's digits.
fn label_of(
    alloc: Global,
    id: Id,
    definitions: Option<&Definitions>,
) -> Result<String, AllocError> {
    if let Some(definitions) = definitions {
        if let Label::Name(name) = definitions.label(id) {
            return String::from_str(alloc, name);
        }
    }
    let digits = id.to_string(alloc)?;
    match digits.as_str().get(..DIGITS) {
        Some(front) if id != GENESIS_ID => format!(in alloc; "{front}…"),
        _ => String::from_str(alloc, "genesis"),
    }
}
