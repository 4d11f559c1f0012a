//! The state that commands lead to, by the chainstate of one thread.

ghost use Rattle.std.specs.Prelude.{◌≡◌, IfOk};
ghost use Rattle.tree.specs.State.{opening};
ghost use Rattle.model.specs.Regtest.{regtest};
ghost use Rattle.model.specs.Commands.{replies_of, state_after_commands};
ghost use Rattle.model.specs.Settle.{best};

use activate::Chainstate;
use connect::Env;
use hash::Id;
use model::{Command, Reply};
use queue::{Alone, Open};
use rules::Params;
use signatures::Table;
use std::alloc::Global;
use wire::Memory;

/// What is asked of the state that commands lead to.
#[derive(Drop)]
pub struct ReplayedState {
    /// The active block.
    pub best: Id,
    /// The replies to questions.
    pub answers: Vec<Reply>,
}

/// The active block after commands, from genesis on, and the replies to questions then: these are commands too.
pub fn replayed_state(
    alloc: Global,
    params: &Params,
    commands: &[Command],
    questions: &[Command],
    table: &Table,
) -> Result<ReplayedState, Memory>
    ensures best { let ledger = regtest params.now table.now in
        IfOk result (λ state.
        state.best ≡ best ledger (state_after_commands ledger opening commands.now)) }
    ensures answers { let ledger = regtest params.now table.now in
        IfOk result (λ state.
        state.answers.items
        ≡ replies_of ledger (state_after_commands ledger opening commands.now) questions.now) }
{
    let mut chain = Chainstate::with(alloc, *params)?;
    let env = Env {
        signatures: table,
        workers: 1,
        early: &[],
        crew: &Alone,
    };
    chain.run(alloc, commands, &env, &Open)?;
    let best = chain.best();
    let answers = chain.run(alloc, questions, &env, &Open)?;
    Ok(ReplayedState { best, answers })
}
