//! What is found of each block for a command that settles.

ghost use Rattle.std.specs.Prelude.{◌≡◌, ◌<◌, ◌&&◌, ℕ, length, reverse, not, true, slice_index_or, IfOk};
ghost use Rattle.std.specs.List.{list_all};
ghost use Rattle.block.specs.declared.block.Block.{Block};
ghost use Rattle.signatures.specs.Triple.{Triples};
ghost use Rattle.rules.specs.declared.params.Params.{Params};
ghost use Rattle.tree.specs.State.{State, rank_in, has_no_mark};
ghost use Rattle.model.specs.Regtest.{regtest};
ghost use Rattle.model.specs.Settle.{active};
ghost use Rattle.reference.specs.inside.Replay.{IsRight, AreJudged, AreJudgements, above, chain_rules, is_flagged, is_valid, judgement_at, judgement_in, state_of_replayed};

use crate::branch_replay::{Chain, Trial};
use crate::kept_block::branch_of;
use crate::state::Replayed;
use std::alloc::Global;
use wire::Memory;

/// A block's branch, and what decides which of two blocks is the better one.
#[derive(Clone, Copy, Debug)]
pub(crate) struct Judgement {
    pub(crate) trial: Trial,
    pub(crate) usable: bool,
    pub(crate) height: usize,
    pub(crate) rank: usize,
}

/// Each block, judged by what was found of its branch when it came.
pub(crate) fn survey(alloc: Global, chain: &Chain, old: &Replayed) -> Result<Vec<Judgement>, Memory>
    requires { IsRight (chain_rules chain.now) old.now }
    ensures { IfOk result (λ judged.
        AreJudgements (chain_rules chain.now) (state_of_replayed old.now) judged.items) }
{
    let mut judged = Vec::new(alloc);
    for place in 0..old.held.len() {
        judged.push(judge(chain, old, &judged, place))?;
    }
    Ok(judged)
}

/// The next block, where all before it are judged. Under which rules they are tried only the contract says.
fn judge(_chain: &Chain, old: &Replayed, judged: &[Judgement], place: usize) -> Judgement
    requires right { IsRight (chain_rules _chain.now) old.now }
    requires kept { place < length old.now.held.items }
    requires long { length judged.now ≡ place }
    requires below { let s = state_of_replayed old.now in
        AreJudged (chain_rules _chain.now) s judged.now place }
    ensures { result
        ≡ judgement_at (chain_rules _chain.now) (state_of_replayed old.now) place }
{
    let trial = old.held[place].trial;
    let rank = rank_of(&old.calls, place);
    if place == 0 {
        return Judgement {
            trial,
            usable: true,
            height: 0,
            rank,
        };
    }
    let below = judged[old.held[place].parent];
    Judgement {
        trial,
        usable: is_clean(old.bad[place], below.usable),
        height: below.height + 1,
        rank,
    }
}

/// Whether a block isn't marked, on a branch of which none is, or one.
fn is_clean(is_bad: bool, is_below: bool) -> bool
    ensures { result ≡ (not is_bad && is_below) }
{
    !is_bad && is_below
}

/// Whether no block of a branch is marked.
pub(crate) fn is_usable(alloc: Global, old: &Replayed, place: usize) -> Result<bool, Memory>
    requires right { (params : Params) × (triples : Triples)
        × IsRight (regtest params triples) old.now }
    requires kept { place < length old.now.held.items }
    ensures { IfOk result (λ found. found ≡ has_no_mark (state_of_replayed old.now) place) }
{
    let branch = branch_of(alloc, &old.held, place)?;
    Ok(has_none(&old.bad, &branch))
}

/// Whether none of these places has the flag.
fn has_none(flags: &[bool], places: &[usize]) -> bool
    requires { (i : ℕ) → i < length places.now → slice_index_or places.now i 0 < length flags.now }
    ensures { result ≡ list_all (λ x. not (is_flagged flags.now x)) places.now }
{
    for index in 0..places.len() {
        if flags[places[index]] {
            return false;
        }
    }
    true
}

/// The number of the last call for this place, from 1; 0 where there is none.
fn rank_of(calls: &[usize], place: usize) -> usize
    ensures { result ≡ rank_in (reverse calls.now) place }
{
    let mut rank = 0;
    for index in 0..calls.len() {
        if calls[index] == place {
            rank = index + 1;
        }
    }
    rank
}

/// The active block: the best of those that are usable and whose branch is valid.
pub(crate) fn best_of(judged: &[Judgement]) -> usize
    requires { 0 < length judged.now }
    ensures kept { result < length judged.now }
    ensures active { (params : Params) (triples : Triples) (s : State Block)
        → AreJudgements (regtest params triples) s judged.now → has_no_mark s 0 ≡ true
        → result ≡ active (regtest params triples) s }
{
    let mut best = 0;
    for place in 1..judged.len() {
        if beats(judged, place, best) {
            best = place;
        }
    }
    best
}

/// Whether a block may be the active one, and is better than another.
fn beats(judged: &[Judgement], place: usize, other: usize) -> bool
    requires place { place < length judged.now }
    requires other { other < length judged.now }
    ensures { let one = judgement_in judged.now place in
        result ≡ ((one.usable && is_valid one.trial) && above one place
        (judgement_in judged.now other) other) }
{
    can_be_active(&judged[place]) && is_above(&judged[place], place, &judged[other], other)
}

fn can_be_active(judged: &Judgement) -> bool
    ensures { result ≡ (judged.now.usable && is_valid judged.now.trial) }
{
    judged.usable && judged.trial == Trial::Valid
}

/// Whether the first of two blocks is better, where they came in the order of these places: higher; or as high and
/// called precious later; or as high, both never called, and came earlier.
pub(crate) fn is_above(one: &Judgement, place: usize, other: &Judgement, other_place: usize) -> bool
    ensures { result ≡ above one.now place other.now other_place }
{
    one.height > other.height
        || (one.height == other.height
            && (one.rank > other.rank || (one.rank == other.rank && place < other_place)))
}
