//! Settling: which block is active, and which become seen or marked.

ghost use Rattle.std.specs.Prelude.{◌≡◌, ◌<◌, ℕ, ◌&&◌, ◌||◌, false, length, replicate, slice_index_or, IfOk, OnOk};
ghost use Rattle.tree.specs.Branches.{has, on};
ghost use Rattle.model.specs.Settle.{active, settle};
ghost use Rattle.reference.specs.inside.Replay.{AreKeptBlocks, AreJudgements, IsRight, any_below, blocks_of, chain_rules, is_flagged, is_first, is_near, is_valid, judgement_in, state_of_replayed};

use crate::branch_replay::{Chain, Trial};
use crate::judgement::{Judgement, best_of, is_above, survey};
use crate::kept_block::{KeptBlock, branch_of};
use crate::state::Replayed;
use std::alloc::Global;
use wire::Memory;

/// What was found when the state was settled.
#[derive(Drop)]
pub(crate) struct Settlement {
    pub(crate) judged: Vec<Judgement>,
    pub(crate) active: usize,
}

/// Marks and sees what settling does, all decided on the state as it is.
pub(crate) fn settle(alloc: Global, chain: &Chain, old: &mut Replayed) -> Result<Settlement, Memory>
    requires { IsRight (chain_rules chain.now) old.old }
    ensures state { OnOk result
        (state_of_replayed old.new
        ≡ settle (chain_rules chain.now) (state_of_replayed old.old)) }
    ensures right { OnOk result (IsRight (chain_rules chain.now) old.new) }
    ensures judged { IfOk result (λ settled.
        AreJudgements (chain_rules chain.now) (state_of_replayed old.old)
        settled.judged.items) }
    ensures active { IfOk result (λ settled.
        settled.active ≡ active (chain_rules chain.now) (state_of_replayed old.old)) }
{
    let judged = survey(alloc, chain, &*old)?;
    let active = best_of(&judged);
    let near = near(alloc, &old.held, &judged, active)?;
    raise(&mut old.bad, &mut old.seen, &judged, &near);
    Ok(Settlement { judged, active })
}

/// Of each place, whether it is on the branch of a usable block that is the active one or better.
fn near(
    alloc: Global,
    held: &[KeptBlock],
    judged: &[Judgement],
    active: usize,
) -> Result<Vec<bool>, Memory>
    requires held { AreKeptBlocks (blocks_of held.now) held.now }
    requires same { length judged.now ≡ length held.now }
    requires active { active < length held.now }
    ensures same { IfOk result (λ near. length near.items ≡ length held.now) }
    ensures near { IfOk result (λ near.
        (x : ℕ) → x < length held.now
        → is_flagged near.items x ≡ any_below (λ c.
        is_near judged.now active c && on (blocks_of held.now) c x)
        (length held.now)) }
{
    let mut near = none(alloc, held.len())?;
    for place in 0..held.len() {
        if is_near(judged, active, place) {
            let branch = branch_of(alloc, held, place)?;
            add_all(&mut near, &branch);
        }
    }
    Ok(near)
}

fn none(alloc: Global, len: usize) -> Result<Vec<bool>, Memory>
    ensures { IfOk result (λ flags. flags.items ≡ replicate len false) }
{
    Ok(vec![in alloc; false; len]?)
}

/// Whether a block is usable, and the active one or better.
fn is_near(judged: &[Judgement], active: usize, place: usize) -> bool
    requires active { active < length judged.now }
    requires place { place < length judged.now }
    ensures { result ≡ is_near judged.now active place }
{
    judged[place].usable
        && (place == active || is_above(&judged[place], place, &judged[active], active))
}

fn add_all(flags: &mut Vec<bool>, places: &[usize])
    requires { (i : ℕ) → i < length places.now
        → slice_index_or places.now i 0 < length flags.old.items }
    ensures same { length flags.new.items ≡ length flags.old.items }
    ensures added { (x : ℕ) → x < length flags.old.items
        → is_flagged flags.new.items x ≡
        (is_flagged flags.old.items x || has places.now x) }
{
    for index in 0..places.len() {
        flags[places[index]] = true;
    }
}

/// Of the places that are near, those whose branch is valid become seen, and those that are the first that doesn't
/// connect are marked.
fn raise(bad: &mut Vec<bool>, seen: &mut Vec<bool>, judged: &[Judgement], near: &[bool])
    requires bad { length bad.old.items ≡ length near.now }
    requires seen { length seen.old.items ≡ length near.now }
    requires judged { length judged.now ≡ length near.now }
    ensures same_bad { length bad.new.items ≡ length near.now }
    ensures same_seen { length seen.new.items ≡ length near.now }
    ensures bad { (x : ℕ) → x < length near.now
        → is_flagged bad.new.items x ≡
        (is_flagged bad.old.items x
        || (is_first (judgement_in judged.now x).trial && is_flagged near.now x)) }
    ensures seen { (x : ℕ) → x < length near.now
        → is_flagged seen.new.items x ≡
        (is_flagged seen.old.items x
        || (is_valid (judgement_in judged.now x).trial && is_flagged near.now x)) }
{
    for place in 0..near.len() {
        let trial = judged[place].trial;
        bad[place] = joined(bad[place], is_first(trial), near[place]);
        seen[place] = joined(seen[place], is_valid(trial), near[place]);
    }
}

fn joined(flag: bool, passes: bool, is_near: bool) -> bool
    ensures { result ≡ (flag || (passes && is_near)) }
{
    flag || (passes && is_near)
}

fn is_first(trial: Trial) -> bool
    ensures { result ≡ is_first trial }
{
    match trial {
        Trial::Fails(_) => true,
        Trial::Valid => false,
        Trial::Below => false,
    }
}

fn is_valid(trial: Trial) -> bool
    ensures { result ≡ is_valid trial }
{
    match trial {
        Trial::Valid => true,
        Trial::Fails(_) => false,
        Trial::Below => false,
    }
}
