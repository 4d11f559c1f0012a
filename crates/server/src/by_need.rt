//! Signatures by need: what a call wants, and verdicts that are told.

ghost use Rattle.std.specs.Prelude.{◌≡◌, length, slice_get, IfOk};
ghost use Rattle.signatures.specs.Lines.{lines};
ghost use Rattle.serving.specs.Answers.{wants_members};
ghost use Rattle.server.specs.inside.Answers.{IsLearnTold, IsReadLine, TellsLearnt};
ghost use Rattle.server.specs.inside.Verdicts.{AreLearnt, AreSpelled, IsSpelled};

use crate::answers::refused;
use crate::turn::Blank;
use console::fault::RunFault;
use console::report::Clients;
use node::{Command, Entry, KeptTriple, Naming, Node, Seat};
use serving::Answer;
use signatures::{TableFault, read_line};
use std::alloc::{AllocError, Global};
use std::sync::Wait;
use std::thread::Threads;
use wire::Memory;

/// The line of the signatures that a seat's last call wants which took no step for their sake.
pub fn wanted<J: Naming>(
    alloc: Global,
    blank: Blank,
    seat: &Seat<'_, J>,
) -> Result<Vec<u8>, AllocError>
    ensures { let at = length seat.now.seen in let wants = wants_members seat.now.wants in
        IfOk result (λ line. IsReadLine blank at wants line.items) }
{
    blank.read(alloc, seat.note().len(), Answer::Wants(seat.wants()))
}

/// Tells a node which signatures are valid, by the lines of a table, and which aren't, up to the first that contradicts
/// what is known. The line that answers it takes no memory, unless one does.
pub fn learnt<J: Naming, R>(
    rt: &R,
    node: &Node<'_, J>,
    blank: Blank,
    valid: Vec<u8>,
    invalid: Vec<u8>,
    seat: &mut Seat<'_, J>,
) -> Result<Vec<u8>, AllocError>
where
    R: AllocGlobal + Threads + Wait + Sync,
    ensures { IfOk result (λ line.
        IsLearnTold seat.old seat.new valid.items invalid.items blank line.items) }
{
    let alloc = rt.alloc();
    match learn_lines(rt, node, valid.as_slice(), true, seat) {
        Ok(None) => {
            let told = learn_lines(rt, node, invalid.as_slice(), false, seat);
            told_of(alloc, blank, told, seat)
        }
        told => told_of(alloc, blank, told, seat),
    }
}

/// The line of what came of verdicts.
fn told_of<J: Naming>(
    alloc: Global,
    blank: Blank,
    told: Result<Option<KeptTriple>, node::Fault>,
    seat: &Seat<'_, J>,
) -> Result<Vec<u8>, AllocError>
    ensures { IfOk result (λ line. TellsLearnt told seat.now blank line.items) }
{
    let at = seat.note().len();
    match told {
        Ok(None) => blank.answer(alloc, at, Answer::Reply("done")),
        Ok(Some(triple)) => blank.read(alloc, at, Answer::Contradicted(&triple)),
        Err(fault) => blank.refuse(refused(fault)),
    }
}

/// Tells a node that the signatures of a table's lines are valid, or that they aren't, up to the first of which the other
/// verdict is known.
pub fn learn_lines<J: Naming, R>(
    rt: &R,
    node: &Node<'_, J>,
    text: &[u8],
    valid: bool,
    seat: &mut Seat<'_, J>,
) -> Result<Option<KeptTriple>, node::Fault>
where
    R: AllocGlobal + Threads + Wait + Sync,
    ensures { AreLearnt seat.old seat.new (lines text.now) valid result }
{
    let triples = triples_of(rt.alloc(), text)?;
    match seat.learn_all(rt, node, triples.as_slice(), valid) {
        Ok(taken) => Ok(taken_from(triples, taken.value)),
        Err(fault) => Err(fault),
    }
}

/// The triple at a place, if there is one.
fn taken_from(mut triples: Vec<KeptTriple>, place: usize) -> Option<KeptTriple>
    ensures { result ≡ slice_get triples.items place }
{
    if place < triples.len() {
        Some(triples.swap_remove(place))
    } else {
        None
    }
}

/// The triples of a table's lines.
fn triples_of(alloc: Global, text: &[u8]) -> Result<Vec<KeptTriple>, Memory>
    ensures { IfOk result (λ triples. AreSpelled (lines text.now) triples.items) }
{
    let mut triples = Vec::new(alloc);
    for line in text.split(|byte| *byte == b'\n') {
        if let Some(triple) = triple_of(alloc, line)? {
            triples.push(triple)?;
        }
    }
    Ok(triples)
}

/// The triple that a line spells, if it spells one.
fn triple_of(alloc: Global, line: &[u8]) -> Result<Option<KeptTriple>, Memory>
    ensures { IfOk result (IsSpelled line.now) }
{
    match read_line(alloc, line, 0) {
        Ok(triple) => Ok(triple),
        Err(TableFault::BadLine(_)) => Ok(None),
        Err(TableFault::Memory) => Err(Memory),
    }
}

/// Tells a node that the signatures which a seat wants aren't valid.
pub fn deny_wants<J: Naming, R>(
    rt: &R,
    node: &Node<'_, J>,
    seat: &mut Seat<'_, J>,
) -> Result<(), node::Fault>
where
    R: AllocGlobal + Threads + Wait + Sync,
{
    let wants = copies(rt.alloc(), seat.wants())?;
    seat.learn_all(rt, node, wants.as_slice(), false)?;
    Ok(())
}

fn copies(alloc: Global, triples: &[KeptTriple]) -> Result<Vec<KeptTriple>, Memory> {
    let mut copies = Vec::new(alloc);
    for triple in triples {
        copies.push(triple.copy()?)?;
    }
    Ok(copies)
}

/// A history without its verdicts, and the signatures of which it says that they are valid, and that they aren't, as the
/// lines of tables.
#[derive(Drop)]
pub struct Parted<'t> {
    pub clients: Clients<'t>,
    pub entries: Vec<Entry>,
    pub valid: String,
    pub invalid: String,
}

/// Parts the verdicts of a history from its other entries, which change what the chainstate is.
pub fn without_verdicts<'t>(
    alloc: Global,
    clients: Clients<'t>,
    entries: Vec<Entry>,
) -> Result<Parted<'t>, RunFault<'static>> {
    let mut names = Vec::new(alloc);
    let mut others = Vec::new(alloc);
    let mut valid = String::new(alloc);
    let mut invalid = String::new(alloc);
    for (place, entry) in entries.into_iter().enumerate() {
        match &entry.command {
            Command::Learn(triple, true) => writeln!(valid, "{}", triple.triple())?,
            Command::Learn(triple, false) => writeln!(invalid, "{}", triple.triple())?,
            _ => {
                names.push(clients.name(place, entry.seat))?;
                others.push(entry)?;
            }
        }
    }
    Ok(Parted {
        clients: Clients {
            earlier: names,
            seats: clients.seats,
        },
        entries: others,
        valid,
        invalid,
    })
}
