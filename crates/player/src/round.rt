//! Seats of one node that are asked in turn, each of which is told before what the one before has seen.

use crate::log::{PlayLog, PlayOptions};
use crate::seat_calls::ask_again;
use node::{Naming, Node, Note, Seat};
use scenario::{Call, Payload, Request, Words};
use std::rt::Env;
use std::sync::Wait;
use std::thread;
use std::thread::Threads;
use wire::Memory;

/// The seats of a node, what the one that was asked last has seen, and what was answered.
#[derive(Drop)]
pub struct Round<'t, J: Naming> {
    pub seats: Vec<Seat<'t, J>>,
    pub note: Option<Note<J>>,
    pub log: PlayLog,
}

impl<'t, J: Naming> Round<'t, J> {
    /// Makes the call of this place at the seat whose turn it is. Where its reply is owed, that seat submits no bytes, which
    /// shows the step.
    fn ask<R>(
        &mut self,
        rt: &R,
        asked: &PlayOptions<'_>,
        node: &Node<'_, J>,
        place: usize,
        call: &Call<'_, '_>,
    ) -> Result<(), Memory>
    where
        R: AllocGlobal + Env + Threads + Wait + Sync,
    {
        let options = asked.options;
        let number = asked.turn(place, self.seats.len());
        if number >= self.seats.len() {
            return Ok(());
        }
        let seat = &mut self.seats[number];
        if let (Some(note), false) = (&self.note, options.is("untold")) {
            seat.told(note);
        }
        let is_counted = place >= options.count("skipped", 0);
        let log = &mut self.log;
        let stamp = ask_again(rt, asked.definitions, node, seat, call, is_counted, log)?;
        if stamp.is_none() {
            let nothing = Call {
                words: Words::Line("nothing"),
                request: Request::Submit(Payload::Lent(&[]), 0),
            };
            ask_again(rt, asked.definitions, node, seat, &nothing, true, log)?;
        }
        self.note = Some(seat.note());
        Ok(())
    }
}

/// A round, and whether there was memory to write what was answered.
type RoundOutcome<'t, J> = (Round<'t, J>, Result<(), Memory>);

/// The seat whose turn it is answers.
fn ask_here<'t, J: Naming, R>(
    rt: &R,
    asked: &PlayOptions<'_>,
    node: &Node<'_, J>,
    mut round: Round<'t, J>,
    place: usize,
    call: &Call<'_, '_>,
) -> RoundOutcome<'t, J>
where
    R: AllocGlobal + Env + Threads + Wait + Sync,
{
    let written = round.ask(rt, asked, node, place, call);
    (round, written)
}

/// It answers on another thread, to which the seats and the note are moved.
fn ask_elsewhere<'t, J: Naming, R>(
    rt: &R,
    asked: &PlayOptions<'_>,
    node: &Node<'_, J>,
    round: Round<'t, J>,
    place: usize,
    call: &Call<'_, '_>,
) -> RoundOutcome<'t, J>
where
    R: AllocGlobal + Env + Threads + Wait + Sync,
{
    let ask = move || ask_here(rt, asked, node, round, place, call);
    let (turned, ()) = thread::join(rt, ask, || ());
    turned
}

/// Makes these calls at all seats in turn.
pub fn ask_in_turn<'t, J: Naming, R>(
    rt: &R,
    asked: &PlayOptions<'_>,
    node: &Node<'_, J>,
    mut round: Round<'t, J>,
    calls: &[Call<'_, '_>],
) -> RoundOutcome<'t, J>
where
    R: AllocGlobal + Env + Threads + Wait + Sync,
{
    for (place, call) in calls.iter().enumerate() {
        let (turned, written) = if asked.options.is("moved") {
            ask_elsewhere(rt, asked, node, round, place, call)
        } else {
            ask_here(rt, asked, node, round, place, call)
        };
        if written.is_err() {
            return (turned, written);
        }
        round = turned;
    }
    (round, Ok(()))
}
