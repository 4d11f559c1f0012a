//! The node: what the seats share.

ghost use Rattle.std.specs.Prelude.{◌≡◌, ℕ, ◌≤◌, [], true, Some, length, slice_get};
ghost use Rattle.std.specs.Prelude.{IfOk, IfErr, OnOk};
ghost use Rattle.std.specs.Arc.{arc_value};
ghost use Rattle.std.specs.Option.{option_map};
ghost use Rattle.view.specs.Origin.{origin_of};
ghost use Rattle.view.specs.ViewState.{IsLegal};
ghost use Rattle.node.specs.Pass.{Pass, IsStanding, opening_passes};
ghost use Rattle.node.specs.OpenFault.{IsAllowedCount, IsOpenFault};

use crate::fault::{EndFault, OpenFault};
use crate::origin::{Opening, SeatTokens};
use crate::published_history::{Opened, PublishedHistory, open_history};
use crate::seat::Seat;
use model::Entry;
use queue::Gate;
use rules::Params;
use signatures::Table;
use std::alloc::Global;
use std::sync::{Arc, Mutex, Wait};
use view::{Naming, ViewReader};
use wire::Memory;

/// The most workers that check scripts.
const MAX_WORKERS: usize = 16;

/// The most seats that a node has.
const MAX_SEATS: usize = 16;

/// What the seats share.
#[derive(Drop)]
pub struct NodeOf<G, J: Naming> {
    pub(crate) alloc: Global,
    pub(crate) workers: usize,
    pub(crate) gate: G,
    pub(crate) history: Mutex<PublishedHistory<J>>,
    ghost few: { (1 ≤ workers) × (workers ≤ 16) },
}

/// A node whose gate is known by its trait alone.
pub type Node<'g, J> = NodeOf<&'g (dyn Gate + Sync), J>;

impl<'g, J: Naming> NodeOf<&'g (dyn Gate + Sync), J> {
    /// A node and its seats, numbered from 0: 1 to 16 of them, and as many workers.
    ///
    /// Scripts are run by so many workers at a time, and the gate is called round each. The table of valid signatures
    /// isn't copied. It waits for nobody.
    pub fn open(
        alloc: Global,
        opening: Opening<'g>,
        workers: usize,
        gate: &'g (dyn Gate + Sync),
    ) -> Result<(Node<'g, J>, Vec<Seat<'g, J>>), OpenFault>
        requires { opening ≡ J.origin }
        ensures counts { OnOk result (IsAllowedCount workers × IsAllowedCount J.origin.seats) }
        ensures seats { IfOk result (λ r. r.1.items ≡ opening_passes J.origin J.origin.seats) }
        ensures refused { IfErr result (λ fault. IsOpenFault workers J.origin.seats fault) }
    {
        if workers < 1 || workers > MAX_WORKERS {
            return Err(OpenFault::Workers);
        }
        if opening.seats < 1 || opening.seats > MAX_SEATS {
            return Err(OpenFault::Seats);
        }
        let Ok((history, list)) = history_and_seats(alloc, opening) else {
            return Err(OpenFault::Memory);
        };
        let node = NodeOf {
            alloc,
            workers,
            gate,
            history: Mutex::new(history),
        };
        Ok((node, list))
    }

    /// The whole history, in which each seat that is passed has just its own entries, the owed ones too; where one doesn't,
    /// beside the fault.
    ///
    /// The seats are this node's that came back, each once. It waits for nobody and takes no memory; the two
    /// copies of what is published are never given back.
    pub fn finish(self, seats: &mut [Seat<'_, J>]) -> Result<Vec<Entry>, EndFault>
        ensures legal { IfOk result (λ history. IsLegal J.origin history.items) }
        ensures each { (k : ℕ) (p : Pass) → slice_get seats.old k ≡ Some p →
            IfOk result (λ history. IsStanding history.items p) }
        ensures closed { IfErr result (λ fault. IsLegal J.origin fault.history.items) }
        ensures same { seats.new ≡ seats.old }
    {
        match self.fitting_history(&*seats) {
            Ok(history) => Ok(history.into_journal()),
            Err(history) => Err(EndFault {
                history: history.into_journal(),
            }),
        }
    }

    /// The same. It waits for readers that are inside, and gives all memory back.
    pub fn close<R: Wait>(self, rt: &R, seats: &mut [Seat<'_, J>]) -> Result<Vec<Entry>, EndFault>
        ensures legal { IfOk result (λ history. IsLegal J.origin history.items) }
        ensures each { (k : ℕ) (p : Pass) → slice_get seats.old k ≡ Some p →
            IfOk result (λ history. IsStanding history.items p) }
        ensures closed { IfErr result (λ fault. IsLegal J.origin fault.history.items) }
        ensures same { seats.new ≡ seats.old }
    {
        match self.fitting_history(&*seats) {
            Ok(history) => Ok(history.close(rt)),
            Err(history) => Err(EndFault {
                history: history.close(rt),
            }),
        }
    }

    /// The history, and whether each of these seats fits it.
    fn fitting_history(
        self,
        seats: &[Seat<'_, J>],
    ) -> Result<PublishedHistory<J>, PublishedHistory<J>>
        ensures legal { IfOk result (λ history. IsLegal J.origin history.journal) }
        ensures each { (k : ℕ) (p : Pass) → slice_get seats.now k ≡ Some p →
            IfOk result (λ history. IsStanding history.journal p) }
        ensures closed { IfErr result (λ history. IsLegal J.origin history.journal) }
    {
        let NodeOf { history, .. } = self;
        let history = history.into_inner();
        let _legal = history.note();
        if !all_stand(seats, &history) {
            return Err(history);
        }
        Ok(history)
    }
}

/// A new history, and its seats.
fn history_and_seats<'g, J: Naming>(
    alloc: Global,
    opening: Opening<'g>,
) -> Result<(PublishedHistory<J>, Vec<Seat<'g, J>>), Memory>
    requires of { opening ≡ J.origin }
    requires few { J.origin.seats ≤ 16 }
    ensures { IfOk result (λ r. r.1.items ≡ opening_passes J.origin J.origin.seats) }
{
    let Opening {
        params,
        table,
        seats,
        tokens,
        counter,
        note,
    } = opening;
    let shared = match table {
        Some(table) => Some(Arc::try_clone(table)?),
        None => None,
    };
    let seen = note.copy();
    let Opened { history, readers } = open_history(alloc, params, shared, seats, counter, note)?;
    let list = seat_list(alloc, params, table, tokens, &seen, readers)?;
    Ok((history, list))
}

/// The seats, numbered from 0, one for each of these readers.
fn seat_list<'t, J: Naming>(
    alloc: Global,
    params: Params,
    table: Option<&'t Arc<Table>>,
    tokens: SeatTokens,
    note: &view::SeenHistory,
    readers: Vec<ViewReader<J>>,
) -> Result<Vec<Seat<'t, J>>, Memory>
    requires empty { note.now.entries ≡ [] }
    requires first { tokens ≡ 0 }
    requires few { length readers.items ≤ 16 }
    requires of { let triples = option_map (λ t. arc_value t.now) table in
        origin_of note.now.book params triples (length readers.items) ≡ J.origin }
    ensures { let seats = length readers.items in
        IfOk result (λ list. list.items ≡ opening_passes J.origin seats) }
{
    let mut readers = readers;
    let mut tokens = tokens;
    let mut list = Vec::new(alloc);
    for _ in 0..readers.len() {
        let Some(reader) = readers.pop() else {
            unreachable!()
        };
        let token = tokens.next();
        list.push(Seat::new(alloc, params, table, token, note.copy(), reader))?;
    }
    Ok(list)
}

/// Whether each of these seats stands in a history.
fn all_stand<J: Naming>(seats: &[Seat<'_, J>], history: &PublishedHistory<J>) -> bool
    ensures { (result ≡ true) → (k : ℕ) (p : Pass) →
        slice_get seats.now k ≡ Some p → IsStanding history.now.journal p }
{
    for k in 0..seats.len() {
        if !seats[k].stands_in(history) {
            return false;
        }
    }
    true
}
