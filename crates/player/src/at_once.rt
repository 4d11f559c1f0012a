//! Seats that answer at once, or one after the other: a client each, or in a ring the calls of the second client, which
//! are dealt out to them.

use crate::board::RingBoard;
use crate::log::{PlayLog, PlayOptions};
use crate::seat_calls::ask_again;
use doors::Meeting;
use node::{Naming, Node, Seat};
use scenario::Call;
use std::alloc::{AllocError, Global};
use std::rt::Env;
use std::sync::Wait;
use std::thread;
use std::thread::{Threads, yield_now};
use wire::Memory;

/// A seat, and what it answered.
#[derive(Drop)]
pub struct SeatAnswer<'t, J: Naming> {
    pub seat: Seat<'t, J>,
    pub log: PlayLog,
    pub written: Result<(), Memory>,
}

/// The places of these seats, of which none has answered anything.
pub fn places_of<J: Naming>(
    alloc: Global,
    seats: Vec<Seat<'_, J>>,
) -> Result<Vec<SeatAnswer<'_, J>>, AllocError> {
    let mut places = Vec::new(alloc);
    for seat in seats {
        places.push(SeatAnswer {
            seat,
            log: PlayLog::new(alloc),
            written: Ok(()),
        })?;
    }
    Ok(places)
}

impl<'t, J: Naming> SeatAnswer<'t, J> {
    /// Makes these calls.
    fn ask_all<R>(
        &mut self,
        rt: &R,
        asked: &PlayOptions<'_>,
        node: &Node<'_, J>,
        calls: &[Call<'_, '_>],
    ) -> Result<(), Memory>
    where
        R: AllocGlobal + Env + Threads + Wait + Sync,
    {
        for call in calls {
            let (seat, log) = (&mut self.seat, &mut self.log);
            ask_again(rt, asked.definitions, node, seat, call, false, log)?;
        }
        Ok(())
    }

    /// Makes the calls whose turn it is at the seat of this number. It is told before each what its neighbour has
    /// seen, and writes how much that is.
    fn ask_in_ring<R>(
        &mut self,
        rt: &R,
        asked: &PlayOptions<'_>,
        node: &Node<'_, J>,
        calls: &[Call<'_, '_>],
        board: &RingBoard<J>,
        number: usize,
    ) -> Result<(), Memory>
    where
        R: AllocGlobal + Env + Threads + Wait + Sync,
    {
        for (place, call) in calls.iter().enumerate() {
            if asked.turn(place, board.seats()) == number {
                if let Some(at) = board.tell(rt, number, &mut self.seat) {
                    writeln!(self.log.text, "told {at}")?;
                }
                let (seat, log) = (&mut self.seat, &mut self.log);
                ask_again(rt, asked.definitions, node, seat, call, false, log)?;
                board.lay(rt, number, self.seat.note());
                // so that the others get to make their calls in between
                yield_now();
            }
        }
        Ok(())
    }
}

/// Each seat answers a client of its own, behind the first. The first seat begins when a script has, and opens the gate
/// when it has ended. Where the board has seats, they stand in a ring, and share the calls of the second client.
pub fn ask_at_once<'x, J: Naming, R>(
    rt: &'x R,
    asked: &'x PlayOptions<'_>,
    node: &'x Node<'_, J>,
    places: &mut [SeatAnswer<'_, J>],
    gate: &'x Meeting,
    board: &'x RingBoard<J>,
)
where
    R: AllocGlobal + Env + Threads + Wait + Sync,
{
    let clients = asked.clients.len().saturating_sub(1);
    let threads = asked
        .options
        .count("threads", board.seats().max(clients))
        .max(1);
    // Two closures, each with less than both ask for, are shown to cross threads.
    if board.seats() > 0 {
        let ask_one = |number: usize, place: &mut SeatAnswer<'_, J>| {
            place.written = place.ask_in_ring(rt, asked, node, asked.calls(1), board, number);
        };
        thread::for_each_mut(rt, places, threads, &ask_one);
        return;
    }
    let ask_one = |number: usize, place: &mut SeatAnswer<'_, J>| {
        let client = number.wrapping_add(1);
        if client < asked.clients.len() {
            if number == 0 {
                gate.wait_for_a_script();
            }
            place.written = place.ask_all(rt, asked, node, asked.calls(client));
            if number == 0 {
                gate.open();
            }
        }
    };
    thread::for_each_mut(rt, places, threads, &ask_one);
}
