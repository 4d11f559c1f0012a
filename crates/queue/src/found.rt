//! What is found ahead of the caller's walk.

ghost use Rattle.std.specs.Prelude.{◌≡◌, ℕ, Bool, true, IfOk, OnOk};
ghost use Rattle.interp.specs.Answer.{Answer, Says};
ghost use Rattle.queue.specs.Ahead.{AreAccepted, IsRight, answer_of};

use crate::checks::Places;
use crate::verdict::Verdict;
use std::alloc::Global;
use wire::Memory;

/// The verdict that was found of the job at a place.
#[derive(Drop)]
pub struct Seen {
    pub place: usize,
    pub verdict: Verdict,
}

/// What was found of the jobs of a list. Most jobs are accepted, so for such a job the caller has a byte to read, and no
/// verdict to move.
#[derive(Drop)]
pub struct Found {
    /// Of each place, from 0 on, whether its job was found to be accepted. It may end before the list does.
    pub accepted: Vec<bool>,
    /// The other verdicts, in any order.
    pub others: Vec<Seen>,
}

impl Found {
    /// Nothing, which is right of every list.
    pub(crate) fn nothing(alloc: Global) -> Found
        ensures { (verdict : ℕ → Answer Bool) → IsRight verdict result }
    {
        Found {
            accepted: Vec::new(alloc),
            others: Vec::new(alloc),
        }
    }
}

/// Nothing as yet, with room for a mark of each place.
pub(crate) fn no_marks<C: Places>(alloc: Global, list: &C) -> Result<Found, Memory>
    ensures { IfOk result (IsRight (C.verdict list.now)) }
{
    Ok(Found {
        accepted: Vec::from_elem(alloc, false, list.count_places())?,
        others: Vec::new(alloc),
    })
}

/// Adds the verdict on a place.
pub(crate) fn add<C: Places>(
    _list: &C,
    found: &mut Found,
    place: usize,
    verdict: Verdict,
) -> Result<(), Memory>
    requires found { IsRight (C.verdict _list.now) found.old }
    requires verdict { C.verdict _list.now place ≡ answer_of verdict }
    ensures { OnOk result (IsRight (C.verdict _list.now) found.new) }
{
    if let Verdict::Yes = verdict {
        mark(_list, &mut found.accepted, place);
        return Ok(());
    }
    found.others.push(Seen { place, verdict })?;
    Ok(())
}

/// Marks a place whose job is accepted.
fn mark<C: Places>(_list: &C, accepted: &mut Vec<bool>, place: usize)
    requires accepted { AreAccepted (C.verdict _list.now) accepted.old.items }
    requires yes { C.verdict _list.now place ≡ Says true }
    ensures { AreAccepted (C.verdict _list.now) accepted.new.items }
{
    if place < accepted.len() {
        accepted[place] = true;
    }
}

/// What two found.
pub(crate) fn both<C: Places>(_list: &C, one: Found, other: Found) -> Result<Found, Memory>
    requires one { IsRight (C.verdict _list.now) one }
    requires other { IsRight (C.verdict _list.now) other }
    ensures { IfOk result (IsRight (C.verdict _list.now)) }
{
    let Found {
        accepted,
        mut others,
    } = one;
    let Found {
        accepted: more,
        others: mut rest,
    } = other;
    others.append(&mut rest)?;
    let accepted = if accepted.is_empty() {
        more
    } else {
        joined(_list, accepted, &more)
    };
    Ok(Found { accepted, others })
}

/// The first marks, with the others as far as they go.
fn joined<C: Places>(_list: &C, accepted: Vec<bool>, more: &[bool]) -> Vec<bool>
    requires accepted { AreAccepted (C.verdict _list.now) accepted.items }
    requires more { AreAccepted (C.verdict _list.now) more.now }
    ensures { AreAccepted (C.verdict _list.now) result.items }
{
    let mut accepted = accepted;
    for place in 0..accepted.len().min(more.len()) {
        // Without a branch eight and more are joined at once.
        accepted[place] = accepted[place] | more[place];
    }
    accepted
}
