//! The definition of the chainstate as a program. It replays the branch of each block from genesis when the block comes,
//! and keeps nothing but the blocks, the outcomes of these replays, the marks and the calls.

ghost use Rattle.std.specs.Prelude.{◌≡◌, IfOk};
ghost use Rattle.tree.specs.State.{opening};
ghost use Rattle.model.specs.Regtest.{regtest};
ghost use Rattle.model.specs.Commands.{replies_of};

use crate::branch_replay::Chain;
use crate::state::Replayed;
use crate::step::step;
use model::{Command, Reply};
use rules::Params;
use signatures::Table;
use std::alloc::Global;
use wire::Memory;

/// Who hears how far a replay is.
pub trait Watch {
    /// This many commands are answered.
    fn done(&mut self, commands: usize);
}

/// Nobody.
#[derive(Clone, Copy, Debug)]
pub struct Unwatched;

impl Watch for Unwatched {
    fn done(&mut self, _commands: usize) {}
}

/// The replies to commands, from genesis on. Its one refusal is that memory ran out.
pub fn slow(
    alloc: Global,
    params: &Params,
    commands: &[Command],
    table: &Table,
) -> Result<Vec<Reply>, Memory>
    ensures { IfOk result (λ replies.
        replies.items ≡ replies_of (regtest params.now table.now) opening commands.now) }
{
    slow_watched(alloc, params, commands, table, &mut Unwatched)
}

/// The same, told to a watch after each command.
pub fn slow_watched<W: Watch>(
    alloc: Global,
    params: &Params,
    commands: &[Command],
    table: &Table,
    watch: &mut W,
) -> Result<Vec<Reply>, Memory>
    ensures { IfOk result (λ replies.
        replies.items ≡ replies_of (regtest params.now table.now) opening commands.now) }
{
    let chain = Chain { params, table };
    let mut old = Replayed::new(alloc)?;
    let mut replies = Vec::new(alloc);
    for index in 0..commands.len() {
        replies.push(step(alloc, &chain, &mut old, &commands[index])?)?;
        watch.done(index + 1);
    }
    Ok(replies)
}
