//! The caller's walk over a list, which is the answer.

ghost use Rattle.std.specs.Prelude.{◌≡◌, ◌<◌, IfOk, IfSome, vec_len};
ghost use Rattle.queue.specs.FirstAnswer.{NoneRefused};
ghost use Rattle.queue.specs.Ahead.{AreAccepted, AreOf, answer_of};
ghost use Rattle.queue.specs.inside.Walk.{AreRight, Walked};

use crate::checks::Places;
use crate::found::Seen;
use crate::gate::Gate;
use crate::verdict::Verdict;
use crate::workers::run;
use signatures::KeptTriple;
use std::alloc::Global;
use wire::Memory;

/// Where a walk ended, and what is wanted up to there.
#[derive(Drop)]
pub struct Walk {
    pub end: usize,
    pub wants: Vec<KeptTriple>,
}

/// Goes from the first place to the first that is refused, or to the end. A place on which no verdict was found ahead is
/// run, so that one round finds many wants.
#[tactic(auto, unfolding(crate::specs::FirstAnswer::wants_below))]
pub fn go_through<G: Gate, C: Places>(
    alloc: Global,
    list: &C,
    accepted: &[bool],
    slots: Vec<Option<Verdict>>,
    gate: &G,
) -> Result<Walk, Memory>
    requires accepted { AreAccepted (C.verdict list.now) accepted.now }
    requires slots { AreRight (C.verdict list.now) slots.items }
    ensures { IfOk result (λ walk.
        Walked (C.count list.now) (C.verdict list.now) walk.end walk.wants.items) }
{
    let mut slots = slots;
    let mut wants = Vec::new(alloc);
    for place in 0..list.count_places() {
        match verdict(alloc, list, accepted, &mut slots, place, gate)? {
            Verdict::Yes => {}
            Verdict::No => return Ok(Walk { end: place, wants }),
            Verdict::Wants(triple) => wants.push(Box::into_inner(triple))?,
        }
    }
    Ok(Walk {
        end: list.count_places(),
        wants,
    })
}

/// The verdict on a place: the known answer, or what was found ahead, or else what running it gives.
fn verdict<G: Gate, C: Places>(
    alloc: Global,
    list: &C,
    accepted: &[bool],
    slots: &mut Vec<Option<Verdict>>,
    place: usize,
    gate: &G,
) -> Result<Verdict, Memory>
    requires place { place < C.count list.now }
    // Behind a refused place none is run.
    requires before { NoneRefused (C.count list.now) (C.verdict list.now) place }
    requires accepted { AreAccepted (C.verdict list.now) accepted.now }
    requires slots { AreRight (C.verdict list.now) slots.old.items }
    ensures verdict { IfOk result (λ v. C.verdict list.now place ≡ answer_of v) }
    ensures slots { AreRight (C.verdict list.now) slots.new.items }
{
    if let Some(answer) = list.known(place) {
        return Ok(if answer { Verdict::Yes } else { Verdict::No });
    }
    if let Some(true) = accepted.get(place) {
        return Ok(Verdict::Yes);
    }
    if let Some(verdict) = take(list, slots, place) {
        return Ok(verdict);
    }
    run(alloc, list, place, gate)
}

/// Takes the verdict that was found on a place out of its slot.
pub(crate) fn take<C: Places>(
    _list: &C,
    slots: &mut Vec<Option<Verdict>>,
    place: usize,
) -> Option<Verdict>
    requires { AreRight (C.verdict _list.now) slots.old.items }
    ensures verdict { IfSome result (λ v. C.verdict _list.now place ≡ answer_of v) }
    ensures slots { AreRight (C.verdict _list.now) slots.new.items }
{
    if place < slots.len() {
        slots[place].take()
    } else {
        None
    }
}

/// What workers found, by place. Where they found nothing it is no list at all.
pub fn slots_of<C: Places>(
    alloc: Global,
    _list: &C,
    seen: Vec<Seen>,
    count: usize,
) -> Result<Vec<Option<Verdict>>, Memory>
    requires { AreOf (C.verdict _list.now) seen.items }
    ensures { IfOk result (λ slots. AreRight (C.verdict _list.now) slots.items) }
{
    if seen.is_empty() {
        return Ok(Vec::new(alloc));
    }
    let mut slots = empty_slots(alloc, _list, count)?;
    for found in seen {
        stand(_list, &mut slots, found);
    }
    Ok(slots)
}

/// The count of slots, each without a verdict.
pub(crate) fn empty_slots<C: Places>(
    alloc: Global,
    _list: &C,
    count: usize,
) -> Result<Vec<Option<Verdict>>, Memory>
    ensures len { IfOk result (λ slots. vec_len slots ≡ count) }
    ensures right { IfOk result (λ slots. AreRight (C.verdict _list.now) slots.items) }
{
    let mut slots = Vec::with_capacity(alloc, count)?;
    for _ in 0..count {
        slots.push(None)?;
    }
    Ok(slots)
}

/// Puts a verdict into the slot of its place.
fn stand<C: Places>(_list: &C, slots: &mut Vec<Option<Verdict>>, found: Seen)
    requires right { AreRight (C.verdict _list.now) slots.old.items }
    requires verdict { C.verdict _list.now found.place ≡ answer_of found.verdict }
    ensures { AreRight (C.verdict _list.now) slots.new.items }
{
    let Seen { place, verdict } = found;
    if place < slots.len() {
        slots[place] = Some(verdict);
    }
}
