//! Commands as the history keeps them.

ghost use Rattle.std.specs.Prelude.{◌≡◌, IfOk};

use crate::published_history::refused_blocks::RefusedBlocks;
use activate::Core;
use model::{Command, Entry, PreparedCommand};
use wire::Memory;

/// An equal command. It shares the bytes of a block that is kept, or that was refused before, so that one that is submitted
/// again takes none.
pub(crate) fn shared_command(
    core: &Core,
    journal: &[Entry],
    refused: &RefusedBlocks,
    command: &PreparedCommand,
    asked: &Command,
) -> Result<Command, Memory>
    ensures { IfOk result (λ entered. entered ≡ asked.now) }
{
    if let (PreparedCommand::Submit(submission, _), Command::Submit(bytes, now)) = (
        command, asked,
    ) {
        if let Some(block) = submission.block() {
            let found = core
                .block(&block.id)
                .or_else(|| refused.find(journal, &block.id));
            if let Some(known) = found {
                if known.as_slice() == bytes.as_slice() {
                    return Ok(Command::Submit(known.copy()?, *now));
                }
            }
        }
    }
    asked.copy()
}
