//! What holds of the node's handles, and of what its seats are answered.

ghost use Rattle.std.specs.Prelude.{◌≡◌, ℕ, ◌<◌, List, [], ◌∷◌, Some, slice_get};
ghost use Rattle.std.specs.Option.{option_copied};
ghost use mathlib.Core.List.{IsPrefix};
ghost use Rattle.model.specs.declared.command.Command.{Command};
ghost use Rattle.model.specs.declared.command.Command.TheVariants as command;
ghost use Rattle.model.specs.declared.reply.Reply.{Reply};
ghost use Rattle.model.specs.declared.entry.Entry.{Entry};
ghost use Rattle.model.specs.History.{own_of};
ghost use Rattle.signatures.specs.Known.{Under};
ghost use Rattle.signatures.specs.Triple.{Triples};
ghost use Rattle.view.specs.Origin.{Origin, known_in};
ghost use Rattle.view.specs.ViewState.{IsLegal};
ghost use Rattle.node.specs.Pass.{Pass, IsStanding, opening_pass, opening_passes};
ghost use Rattle.node.specs.Runs.{Call, Submit, Mark, GetTxOut, CoinsFrom, GetBestBlockHash};
ghost use Rattle.node.specs.Runs.{GetChainTips, Judge, Spent};
ghost use Rattle.node.specs.Runs.{Journal, Note as Noted, Told, heard};
ghost use Rattle.node.specs.Runs.{Makes, IsStep, ExplainsAll, steps_of};

use crate::answer::{Stamped, UnspentOutput};
use crate::fault::Fault;
use crate::node::{Node, NodeOf};
use crate::note::Note;
use crate::seat::Seat;
use coins::Coin;
use hash::Id;
use model::{Entry, MarkReply, SubmitReply};
use std::alloc::Global;
use std::sync::Wait;
use std::thread::Threads;
use tree::Tip;
use txn::OutPoint;
use undo::BlockUndo;
use view::Naming;

/// Seats and notes may be given to other threads, and notes be shared with them.
pub fn handles_cross_threads<J: Naming>() {
    is_sent::<Seat<'_, J>>();
    is_sent::<Note<J>>();
    is_shared::<Note<J>>();
}

/// So may a node, whose gate may.
pub fn node_crosses_threads<G: Send + Sync, J: Naming>() {
    is_sent::<NodeOf<G, J>>();
    is_shared::<NodeOf<G, J>>();
}

fn is_sent<T: Send>() {}

fn is_shared<T: Sync>() {}

/// All calls of all seats are of one run of the chainstate: whatever the seats called, the legal list that `finish` gives
/// explains what each was answered, under every set of valid signatures that agrees with it. So does any other legal list
/// that begins with what a seat has seen.
pub fn all_calls_are_of_one_run()
    // Each answer is the chainstate's at its place, and no seat goes back.
    ensures places { (o : Origin) (history : List Entry) (seat : ℕ) (calls : List Call) (p : Pass)
        → IsLegal o history → Makes (opening_pass o seat) calls p → IsPrefix p.seen history
        → Under (known_in o history) (λ valid. ExplainsAll o history valid seat 0 calls) }
    // Each step stands once, in its caller's order, an owed one too.
    ensures steps { (o : Origin) (history : List Entry) (seat : ℕ) (calls : List Call) (p : Pass)
        → Makes (opening_pass o seat) calls p → IsStanding history p
        → own_of seat history ≡ steps_of seat calls }
    // And no place has steps of two seats.
    ensures apart { (o : Origin) (history : List Entry) (valid : Triples) (k l at : ℕ)
        (c d : Command) (r s : Reply)
        → IsStep o history valid k c at r → IsStep o history valid l d at s → k ≡ l }
{}

/// Each seat that `open` gives begins such a run.
pub fn each_opened_seat_begins_a_run()
    ensures { (o : Origin) (seats seat : ℕ) → seat < seats
        → slice_get (opening_passes o seats) seat ≡ Some (opening_pass o seat) }
{}

/// What a seat's writing calls answer.
#[derive(Drop)]
pub struct Writes {
    pub submit: Result<Stamped<SubmitReply>, Fault>,
    pub invalidate: Result<Stamped<MarkReply>, Fault>,
    pub reconsider: Result<Stamped<MarkReply>, Fault>,
    pub precious: Result<Stamped<MarkReply>, Fault>,
}

/// What its reading calls answer.
#[derive(Drop)]
pub struct Reads {
    pub gettxout: Result<Stamped<Option<UnspentOutput>>, Fault>,
    pub getbestblockhash: Result<Stamped<Id>, Fault>,
    pub getchaintips: Result<Stamped<Vec<Tip>>, Fault>,
    pub journal: Result<Stamped<Vec<Entry>>, Fault>,
}

/// The law asks of a writing call only what the call ensures.
pub fn writes_are_calls<J: Naming, R: Threads + Wait + Sync>(
    rt: &R,
    node: &Node<'_, J>,
    seat: &mut Seat<'_, J>,
    bytes: &[u8],
    now: u64,
    id: Id,
) -> Writes
    ensures { let submit = Submit bytes.now now result.submit in
        let invalidate = Mark (command.Invalidate id) result.invalidate in
        let reconsider = Mark (command.Reconsider id) result.reconsider in
        let precious = Mark (command.Precious id) result.precious in
        Makes seat.old (submit ∷ invalidate ∷ reconsider ∷ precious ∷ []) seat.new }
{
    Writes {
        submit: seat.submit(rt, node, bytes, now),
        invalidate: seat.invalidate(rt, node, id),
        reconsider: seat.reconsider(rt, node, id),
        precious: seat.precious(rt, node, id),
    }
}

/// And so of a dry run.
pub fn dry_runs_are_calls<J: Naming, R: Threads + Wait + Sync>(
    rt: &R,
    node: &Node<'_, J>,
    seat: &mut Seat<'_, J>,
    bytes: &[u8],
    now: u64,
) -> Result<Stamped<SubmitReply>, Fault>
    ensures { Makes seat.old (Judge bytes.now now result ∷ []) seat.new }
{
    seat.judge(rt, node, bytes, now)
}

/// And so of a look-up.
pub fn look_ups_are_calls<J: Naming, R: Wait>(
    rt: &R,
    node: &Node<'_, J>,
    seat: &mut Seat<'_, J>,
    id: &Id,
) -> Result<Stamped<Option<BlockUndo>>, Fault>
    ensures { Makes seat.old (Spent id.now result ∷ []) seat.new }
{
    seat.spent(rt, node, id)
}

/// And so of a reading call.
pub fn reads_are_calls<J: Naming>(
    alloc: Global,
    seat: &mut Seat<'_, J>,
    outpoint: &OutPoint,
    from: u64,
    to: u64,
) -> Reads
    ensures { let output = GetTxOut outpoint.now result.gettxout in
        let best = GetBestBlockHash result.getbestblockhash in
        let tips = GetChainTips result.getchaintips in
        let journal = Journal from to result.journal in
        Makes seat.old (output ∷ best ∷ tips ∷ journal ∷ []) seat.new }
{
    Reads {
        gettxout: seat.gettxout(alloc, outpoint),
        getbestblockhash: seat.getbestblockhash(),
        getchaintips: seat.getchaintips(alloc),
        journal: seat.journal(alloc, from, to),
    }
}

/// And so of one that lists coins.
pub fn lists_of_coins_are_calls<J: Naming>(
    alloc: Global,
    seat: &mut Seat<'_, J>,
    above: Option<&OutPoint>,
    most: usize,
) -> Result<Stamped<Vec<(OutPoint, Coin)>>, Fault>
    ensures { let coins = CoinsFrom (option_copied above.entry) most result in
        Makes seat.old (coins ∷ []) seat.new }
{
    seat.coins_from(alloc, above, most)
}

/// And of the calls by which seats tell each other what they have seen.
pub fn notes_are_calls<J: Naming>(
    seat: &mut Seat<'_, J>,
    other: &mut Seat<'_, J>,
    note: &Note<J>,
) -> Note<J>
    ensures seat { let met = Told (heard other.old) in
        Makes seat.old (met ∷ Told note.now ∷ Noted result ∷ []) seat.new }
    ensures other { Makes other.old (Told (heard seat.old) ∷ []) other.new }
{
    seat.meet(other);
    seat.told(note);
    seat.note()
}
