//! The replay of a journal by the chainstate of one thread.

ghost use Rattle.std.specs.Prelude.{◌≡◌, IfOk};
ghost use Rattle.tree.specs.State.{opening};
ghost use Rattle.model.specs.Regtest.{regtest};
ghost use Rattle.model.specs.Commands.{replies_of};

use activate::Chainstate;
use connect::Env;
use model::{Command, PreparedCommand, Reply};
use queue::{Alone, Open};
use reference::Watch;
use rules::Params;
use signatures::Table;
use std::alloc::Global;
use wire::Memory;

/// The replies to commands, from genesis on. The watch is told after each.
pub fn quick<W: Watch>(
    alloc: Global,
    params: &Params,
    commands: &[Command],
    table: &Table,
    watch: &mut W,
) -> Result<Vec<Reply>, Memory>
    ensures { IfOk result (λ replies.
        replies.items ≡ replies_of (regtest params.now table.now) opening commands.now) }
{
    let mut chain = Chainstate::with(alloc, *params)?;
    let env = Env {
        signatures: table,
        workers: 1,
        early: &[],
        crew: &Alone,
    };
    let mut replies = Vec::new(alloc);
    for index in 0..commands.len() {
        let command = PreparedCommand::of(alloc, &commands[index])?;
        replies.push(chain.step(alloc, &command, &env, &Open)?)?;
        watch.done(index + 1);
    }
    Ok(replies)
}
