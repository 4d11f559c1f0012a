//! Workers run ahead of the caller: each claims the next places of the list, until there is none, or only such as lie
//! above a refused one.

ghost use Rattle.std.specs.Prelude.{◌≡◌, ◌<◌, ◌≤◌, IfOk, None, OnOk};
ghost use Rattle.queue.specs.Ahead.{IsRight, answer_of};

use crate::checks::Places;
use crate::claimed_places::{begin_of, claims_in};
use crate::found::{Found, add, no_marks};
use crate::gate::Gate;
use crate::verdict::Verdict;
use std::alloc::Global;
use std::sync::atomic::AtomicU64;
use std::sync::atomic::Ordering::SeqCst;
use wire::Memory;

/// The words that the workers share: how many claims were made, and the least place that was noted as refused. They
/// are hints: no answer depends on them.
#[derive(Drop)]
pub struct Words {
    pub claimed: AtomicU64,
    pub noted: AtomicU64,
}

/// What one worker found.
pub fn work<G: Gate, C: Places>(
    alloc: Global,
    list: &C,
    words: &Words,
    gate: &G,
) -> Result<Found, Memory>
    ensures { IfOk result (IsRight (C.verdict list.now)) }
{
    let count = list.count_places();
    let mut found = no_marks(alloc, list)?;
    for _ in 0..claims_in(count) {
        let claim = words.claimed.fetch_add(1, SeqCst) as usize;
        // Its later claims are above it too.
        if claim >= claims_in(count) {
            break;
        }
        let begin = begin_of(count, claim);
        let end = begin_of(count, claim + 1);
        work_between(alloc, list, words, &mut found, begin, end, gate)?;
    }
    Ok(found)
}

/// Adds the verdicts on the places between two, the second not among them, that aren't known and don't lie above a
/// refused one.
fn work_between<G: Gate, C: Places>(
    alloc: Global,
    list: &C,
    words: &Words,
    found: &mut Found,
    begin: usize,
    end: usize,
    gate: &G,
) -> Result<(), Memory>
    requires found { IsRight (C.verdict list.now) found.old }
    requires places { end ≤ C.count list.now }
    ensures { OnOk result (IsRight (C.verdict list.now) found.new) }
{
    for place in begin..end {
        let noted = words.noted.load(SeqCst) as usize;
        if noted >= place && list.known(place).is_none() {
            let verdict = run(alloc, list, place, gate)?;
            if let Verdict::No = verdict {
                words.noted.fetch_min(place as u64, SeqCst);
            }
            add(list, found, place, verdict)?;
        }
    }
    Ok(())
}

/// Runs a place whose answer isn't known, with the gate round it. One that still wants a signature isn't run again.
pub(crate) fn run<G: Gate, C: Places>(
    alloc: Global,
    list: &C,
    place: usize,
    gate: &G,
) -> Result<Verdict, Memory>
    requires place { place < C.count list.now }
    requires unknown { C.known_at list.now place ≡ None }
    ensures { IfOk result (λ v. C.verdict list.now place ≡ answer_of v) }
{
    if let Some(triple) = list.wanted(place) {
        return Ok(Verdict::Wants(Box::new(alloc, triple.copy()?)?));
    }
    gate.begin(place);
    let verdict = list.judge(alloc, place);
    gate.end(place);
    verdict
}
