//! The replies of a journal beside its replay's.

ghost use Rattle.std.specs.Prelude.{◌≡◌, IfOk, IfSome, None, Some, option_map, slice_get};
ghost use Rattle.tree.specs.State.{opening};
ghost use Rattle.model.specs.Regtest.{regtest};
ghost use Rattle.model.specs.Commands.{replies_of};
ghost use Rattle.journal.specs.Agreement.{agrees, IsFirstDifference};

use crate::quick::quick;
use model::{Command, Reply};
use reference::{Watch, slow_watched};
use rules::Params;
use signatures::Table;
use std::alloc::Global;
use wire::Memory;

/// Who replays a journal.
#[derive(Clone, Copy, Debug, PartialEq, Eq)]
pub enum Replayer {
    /// The definition of the chainstate as a program.
    Definition,
    /// The chainstate of one thread.
    Chainstate,
}

/// The first reply that a replay refutes.
#[derive(Clone, Copy, Debug)]
pub struct Refuted {
    /// From 0.
    pub place: usize,
    /// The reply of the replay.
    pub reply: Option<Reply>,
}

/// The first place at which a recorded reply isn't the one that the definition of the chainstate gives to these
/// commands, with that reply. A reply that is owed agrees with any. The watch is told after each command.
pub fn first_refuted<W: Watch>(
    alloc: Global,
    by: Replayer,
    params: &Params,
    commands: &[Command],
    table: &Table,
    recorded: &[Option<Reply>],
    watch: &mut W,
) -> Result<Option<Refuted>, Memory>
    ensures place { let same = ⟦<Reply as PartialEq>⟧.eq in
        let replayed = replies_of (regtest params.now table.now) opening commands.now in
        IfOk result (λ refuted.
        IsFirstDifference same recorded.now replayed (option_map (λ r. r.place) refuted)) }
    ensures reply { let replayed = replies_of (regtest params.now table.now) opening commands.now in
        IfOk result (λ refuted.
        IfSome refuted (λ r. r.reply ≡ slice_get replayed r.place)) }
{
    let replayed = match by {
        Replayer::Definition => slow_watched(alloc, params, commands, table, watch)?,
        Replayer::Chainstate => quick(alloc, params, commands, table, watch)?,
    };
    let Some(place) = first_difference(recorded, replayed.as_slice()) else {
        return Ok(None);
    };
    Ok(Some(Refuted {
        place,
        reply: replayed.get(place).copied(),
    }))
}

/// The first place, from 0, at which the two lists don't agree.
fn first_difference<R: PartialEq>(recorded: &[Option<R>], replayed: &[R]) -> Option<usize>
    ensures { IsFirstDifference R.eq recorded.now replayed.now result }
{
    recorded
        .iter()
        .zip(replayed)
        .position(|(one, other)| !agrees(one, other))
}

fn agrees<R: PartialEq>(recorded: &Option<R>, replayed: &R) -> bool
    ensures { result ≡ agrees R.eq recorded.now replayed.now }
{
    match recorded {
        Some(reply) => reply == replayed,
        None => true,
    }
}
