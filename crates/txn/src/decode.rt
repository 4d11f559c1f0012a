//! Transactions read from bytes.

ghost use Rattle.std.specs.Prelude.{◌≡◌, ◌++◌, ℕ, ◌/◌, min, List, [], length, vec_capacity, Ok, Err, IfOk, IfErr, OnErr, IfSome};
ghost use Rattle.wire.specs.declared.fault.WireFault.{WireFault};
ghost use Rattle.wire.specs.Grammar.{IsBytes};
ghost use Rattle.wire.specs.computed.Reader.{Gives, sized_at, many_at, counted_at};
ghost use Rattle.txn.specs.Tx.{Tx};
ghost use Rattle.txn.specs.Fault.{wire_fault_of};
ghost use Rattle.txn.specs.Grammar.{transaction};
ghost use Rattle.txn.specs.inside.Room.{least_input, least_output};
ghost use Rattle.txn.specs.computed.Reader.{outpoint_at, tx_in_at, tx_out_at, tx_at};

use crate::fault::TxFault;
use crate::input::{Inputs, TxIn};
use crate::outpoint::OutPoint;
use crate::output::{Outputs, TxOut};
use crate::script::Script;
use crate::tx::Tx;
use hash::Id;
use std::alloc::Global;
use wire::{Cursor, Parts};

/// The fewest bytes of an input: an id of 32, an index of 4, the count of an empty script, a sequence of 4.
const LEAST_INPUT: usize = 41;

/// The fewest bytes of an output: a value of 8, the count of an empty script.
const LEAST_OUTPUT: usize = 9;

#[tactic(auto, unfolding(crate::specs::computed::Reader::outpoint_at))]
fn outpoint(bytes: &mut Cursor) -> Result<OutPoint, TxFault>
    ensures { Gives wire_fault_of result bytes.new (outpoint_at bytes.old) }
{
    let mut id = [0; 32];
    id.copy_from_slice(bytes.take(32)?);
    let index = bytes.u32le()?;
    Ok(OutPoint { id: Id(id), index })
}

#[tactic(auto, unfolding(wire::specs::computed::Reader::sized_at))]
pub(crate) fn script(alloc: Global, bytes: &mut Cursor) -> Result<Script, TxFault>
    ensures { Gives wire_fault_of result bytes.new (sized_at bytes.old) }
{
    let len = bytes.compact()?;
    let piece = bytes.take(len as usize)?;
    Ok(Script::from_slice(alloc, piece)?)
}

#[tactic(auto, unfolding(crate::specs::computed::Reader::tx_in_at))]
fn tx_in(alloc: Global, bytes: &mut Cursor) -> Result<TxIn, TxFault>
    ensures { Gives wire_fault_of result bytes.new (tx_in_at bytes.old) }
{
    let prev = outpoint(bytes)?;
    let script = script(alloc, bytes)?;
    let sequence = bytes.u32le()?;
    Ok(TxIn {
        prev,
        script,
        sequence,
    })
}

#[tactic(auto, unfolding(crate::specs::computed::Reader::tx_out_at))]
fn tx_out(alloc: Global, bytes: &mut Cursor) -> Result<TxOut, TxFault>
    ensures { Gives wire_fault_of result bytes.new (tx_out_at bytes.old) }
{
    let value = bytes.i64le()?;
    let script = script(alloc, bytes)?;
    Ok(TxOut { value, script })
}

#[tactic(auto, unfolding(wire::specs::computed::Reader::counted_at))]
pub(crate) fn inputs(alloc: Global, bytes: &mut Cursor) -> Result<Parts<TxIn>, TxFault>
    ensures { Gives wire_fault_of result bytes.new (counted_at tx_in_at bytes.old) }
{
    let count = bytes.compact()?;
    some_inputs(alloc, bytes, count)
}

/// So many inputs.
pub(crate) fn some_inputs(
    alloc: Global,
    bytes: &mut Cursor,
    count: u64,
) -> Result<Parts<TxIn>, TxFault>
    ensures { Gives wire_fault_of result bytes.new (many_at tx_in_at count bytes.old) }
{
    // A count alone takes no memory: there is no room for more than the bytes can spell.
    let empty = Vec::with_capacity(alloc, bytes.room(count, LEAST_INPUT))?;
    each_input(alloc, bytes, count, empty)
}

/// The count of inputs, read into an empty list with room for no more than the bytes can spell.
fn each_input(
    alloc: Global,
    bytes: &mut Cursor,
    count: u64,
    empty: Vec<TxIn>,
) -> Result<Parts<TxIn>, TxFault>
    requires empty { empty.items ≡ [] }
    requires room { vec_capacity empty ≡ min count (length bytes.old / least_input) }
    ensures { Gives wire_fault_of result bytes.new (many_at tx_in_at count bytes.old) }
{
    let mut items = empty;
    for _ in 0..count {
        items.push(tx_in(alloc, bytes)?)?;
    }
    Ok(Parts::from_vec(items))
}

#[tactic(auto, unfolding(wire::specs::computed::Reader::counted_at))]
pub(crate) fn outputs(alloc: Global, bytes: &mut Cursor) -> Result<Outputs, TxFault>
    ensures { Gives wire_fault_of result bytes.new (counted_at tx_out_at bytes.old) }
{
    let count = bytes.compact()?;
    let empty = Vec::with_capacity(alloc, bytes.room(count, LEAST_OUTPUT))?;
    each_output(alloc, bytes, count, empty)
}

/// The count of outputs, read into an empty list with room for no more than the bytes can spell.
fn each_output(
    alloc: Global,
    bytes: &mut Cursor,
    count: u64,
    empty: Vec<TxOut>,
) -> Result<Outputs, TxFault>
    requires empty { empty.items ≡ [] }
    requires room { vec_capacity empty ≡ min count (length bytes.old / least_output) }
    ensures { Gives wire_fault_of result bytes.new (many_at tx_out_at count bytes.old) }
{
    let mut items = empty;
    for _ in 0..count {
        items.push(tx_out(alloc, bytes)?)?;
    }
    Ok(Outputs::from_vec(items))
}

#[tactic(auto, unfolding(crate::specs::computed::Reader::tx_at))]
fn tx(alloc: Global, bytes: &mut Cursor) -> Result<Tx, TxFault>
    ensures { Gives wire_fault_of result bytes.new (tx_at bytes.old) }
{
    let version = bytes.i32le()?;
    let inputs = inputs(alloc, bytes)?;
    let outputs = outputs(alloc, bytes)?;
    let lock_time = bytes.u32le()?;
    Ok(Tx {
        version,
        inputs: Inputs::of_parts(alloc, inputs),
        outputs,
        lock_time,
    })
}

/// The transaction at the front, as it is read from left to right.
pub(crate) fn front(alloc: Global, bytes: &mut Cursor) -> Result<Tx, TxFault>
    ensures exact { Gives wire_fault_of result bytes.new (tx_at bytes.old) }
    ensures kept { OnErr result (bytes.new ≡ bytes.old) }
    ensures bytes { IsBytes bytes.old }
{
    let mut ahead = Cursor::new(bytes.rest());
    let tx = tx(alloc, &mut ahead)?;
    *bytes = ahead;
    Ok(tx)
}

/// The transaction at the front. Numbers have their lowest byte first.
///
/// A count of 0 inputs is read as such. The first refusal met from the left is the answer.
pub fn read(alloc: Global, bytes: &mut Cursor) -> Result<Tx, TxFault>
    // What is read is lawful, and spelled at the front.
    ensures found { IfOk result (λ t. transaction.Lawful t
        × (bytes.old ≡ transaction.spell t ++ bytes.new)) }
    // A refusal names a fault that the bytes have, unless memory ran out.
    ensures refused { IfErr result (λ e. IfSome (wire_fault_of e)
        (λ fault. transaction.Faulty fault bytes.old)) }
    // A refusal leaves the cursor where it was.
    ensures kept { OnErr result (bytes.new ≡ bytes.old) }
    // What is spelled at the front is read, unless memory runs out.
    ensures reads { (t : Tx) (rest : List ℕ) → transaction.Lawful t
        → bytes.old ≡ transaction.spell t ++ rest
        → Gives wire_fault_of result bytes.new (Ok (t, rest)) }
    // What has a fault is refused with it, unless memory runs out.
    ensures refuses { (fault : WireFault) → transaction.Faulty fault bytes.old
        → Gives wire_fault_of result bytes.new (Err fault) }
    // The same, as reading from left to right.
    ensures exact { Gives wire_fault_of result bytes.new (tx_at bytes.old) }
{
    front(alloc, bytes)
}
