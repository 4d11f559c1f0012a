//! The library, call by call: one thread submits a block and hands a note to another, which reads the coin after it.
#![tactic(auto)]

ghost use Rattle.std.specs.Prelude.{◌≡◌, ◌≤◌, IfOk, length};

mod sample;

use crossbeam_channel::{Receiver, Sender};
use node::{
    Fault, Gate, Naming, Node, Note, Open, Opening, Params, Seat, Stamped, SubmitReply, Table,
    UnspentOutput,
};
use sample::{BLOCK, COIN, NOW};
use std::alloc::Global;
use std::marker::Brand;
use std::sync::{Arc, Wait};
use std::thread;
use std::thread::Threads;

fn main(rt: HostRuntime) -> anyhow::Result<()> {
    let table = Arc::new(rt.alloc(), Table::new(rt.alloc()))?; // no signature is valid
    run::<Brand, _>(&rt, Opening::new(Params::regtest(), &table, 2), &Open)
}

/// Opens a node of two seats, which two threads use, and prints its history.
fn run<J: Naming, R>(rt: &R, opening: Opening<'_>, gate: &(dyn Gate + Sync)) -> anyhow::Result<()>
where
    R: AllocGlobal + Print + Threads + Wait + Sync,
    requires { opening ≡ J.origin }
{
    let alloc = rt.alloc();
    let (node, mut seats) = Node::<J>::open(alloc, opening, 2, gate)?;
    let used = use_seats(rt, &node, seats.as_mut_slice());
    let history = node.close(rt, seats.as_mut_slice())?;
    used?;
    for entry in history.as_slice() {
        println!(rt; "history: {:?}", entry.reply)?;
    }
    Ok(())
}

/// Gives each of two seats to a thread, and a channel for notes to both.
fn use_seats<J: Naming, R>(
    rt: &R,
    node: &Node<'_, J>,
    seats: &mut [Seat<'_, J>],
) -> anyhow::Result<()>
where
    R: AllocGlobal + Print + Threads + Wait + Sync,
{
    let alloc = rt.alloc();
    let (to, from) = crossbeam_channel::unbounded(alloc)?;
    let Some((first, others)) = seats.split_first_mut() else {
        return Ok(());
    };
    let Some(second) = others.first_mut() else {
        return Ok(());
    };
    let (submitted, coin) = thread::join(
        rt,
        || submit(rt, node, first, to),
        || wait_for_coin(rt, alloc, second, from),
    );
    submitted?;
    if let Some(
        Stamped {
            at,
            value: Some(coin),
        },
    ) = coin?
    {
        println!(rt; "coin: {} satoshis, after {} steps", coin.value, at)?;
    }
    Ok(())
}

/// Submits the block if it would be accepted, and sends a note of all that the seat has seen then.
fn submit<J: Naming, R: Threads + Wait + Sync>(
    rt: &R,
    node: &Node<'_, J>,
    seat: &mut Seat<'_, J>,
    to: Sender<Note<J>>,
) -> Result<(), Fault> {
    // A dry run takes no step: a block that it refuses is nowhere in the history.
    if seat.judge(rt, node, BLOCK, NOW)?.value != SubmitReply::Accepted {
        return Ok(());
    }
    seat.submit(rt, node, BLOCK, NOW)?;
    let _ = to.send(rt, seat.note()); // nobody may wait for it any more
    Ok(())
}

/// Waits for a note, and reads the coin after it.
fn wait_for_coin<J: Naming, R: Wait>(
    rt: &R,
    alloc: Global,
    seat: &mut Seat<'_, J>,
    from: Receiver<Note<J>>,
) -> Result<Option<Stamped<Option<UnspentOutput>>>, Fault> {
    let Ok(note) = from.recv(rt) else {
        return Ok(None);
    };
    Ok(Some(coin_after(alloc, seat, &note)?))
}

/// The coin, read no earlier than what the note's seat had seen.
#[tactic(auto, using(crate::proofs::Told::no_earlier))]
fn coin_after<J: Naming>(
    alloc: Global,
    seat: &mut Seat<'_, J>,
    note: &Note<J>,
) -> Result<Stamped<Option<UnspentOutput>>, Fault>
    ensures { IfOk result (λ read. length note.now.seen ≤ read.at) }
{
    seat.told(note);
    seat.gettxout(alloc, &COIN)
}
