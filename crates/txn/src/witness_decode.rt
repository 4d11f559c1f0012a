//! Transactions read with their witnesses (BIP 144), or without.

ghost use Rattle.std.specs.Prelude.{◌≡◌, ◌++◌, ℕ, ◌/◌, min, List, [], length, vec_capacity, Ok, Err, IfOk, IfErr, OnErr, IfSome};
ghost use Rattle.wire.specs.declared.fault.WireFault.{WireFault};
ghost use Rattle.wire.specs.Grammar.{IsBytes};
ghost use Rattle.wire.specs.computed.Reader.{Gives, sized_at, many_at};
ghost use Rattle.txn.specs.Tx.{Tx};
ghost use Rattle.txn.specs.Fault.{wire_fault_of};
ghost use Rattle.txn.specs.WitnessGrammar.{transaction_by, has_witness};
ghost use Rattle.txn.specs.inside.Body.{BodyGives};
ghost use Rattle.txn.specs.inside.Room.{least_count};
ghost use Rattle.txn.specs.computed.WitnessReader.{witness_at, witnesses_at, flag_at, plain_at, empty_at, witness_body_at, flagged_at, body_after_at, witness_tx_at, tx_by_at};

use crate::decode::{front, inputs, outputs, script, some_inputs};
use crate::fault::TxFault;
use crate::input::{Inputs, Witness};
use crate::output::Outputs;
use crate::script::Script;
use crate::tx::Tx;
use std::alloc::Global;
use wire::{Cursor, Parts};

/// The fewest bytes of a witness, and of a string in one.
const LEAST_COUNT: usize = 1;

/// A transaction but for its version.
#[derive(Drop)]
struct TxBody {
    inputs: Inputs,
    outputs: Outputs,
    lock_time: u32,
}

#[tactic(auto, unfolding(crate::specs::computed::WitnessReader::witness_at, wire::specs::computed::Reader::counted_at))]
fn witness(alloc: Global, bytes: &mut Cursor) -> Result<Witness, TxFault>
    ensures { Gives wire_fault_of result bytes.new (witness_at bytes.old) }
{
    let count = bytes.compact()?;
    let empty = Vec::with_capacity(alloc, bytes.room(count, LEAST_COUNT))?;
    each_string(alloc, bytes, count, empty)
}

/// The count of strings, read into an empty list with room for no more than the bytes can spell.
fn each_string(
    alloc: Global,
    bytes: &mut Cursor,
    count: u64,
    empty: Vec<Script>,
) -> Result<Witness, TxFault>
    requires empty { empty.items ≡ [] }
    requires room { vec_capacity empty ≡ min count (length bytes.old / least_count) }
    ensures { Gives wire_fault_of result bytes.new (many_at sized_at count bytes.old) }
{
    let mut items = empty;
    for _ in 0..count {
        items.push(script(alloc, bytes)?)?;
    }
    Ok(Witness::from_vec(items))
}

/// The count of witnesses, read into an empty list with room for no more than the bytes can spell.
fn each_witness(
    alloc: Global,
    bytes: &mut Cursor,
    count: u64,
    empty: Vec<Witness>,
) -> Result<Parts<Witness>, TxFault>
    requires empty { empty.items ≡ [] }
    requires room { vec_capacity empty ≡ min count (length bytes.old / least_count) }
    ensures { Gives wire_fault_of result bytes.new (many_at witness_at count bytes.old) }
{
    let mut items = empty;
    for _ in 0..count {
        items.push(witness(alloc, bytes)?)?;
    }
    Ok(Parts::from_vec(items))
}

/// Whether one of the witnesses isn't empty (Bitcoin Core's `HasWitness`).
pub(crate) fn is_any_there(witnesses: &[Witness]) -> bool
    ensures { result ≡ has_witness witnesses.now }
{
    witnesses.iter().any(|witness| !witness.is_empty())
}

/// So many witnesses, of which one isn't empty.
#[tactic(auto, unfolding(crate::specs::computed::WitnessReader::witnesses_at))]
fn witnesses(alloc: Global, bytes: &mut Cursor, count: usize) -> Result<Parts<Witness>, TxFault>
    ensures { Gives wire_fault_of result bytes.new (witnesses_at count bytes.old) }
{
    let empty = Vec::with_capacity(alloc, bytes.room(count as u64, LEAST_COUNT))?;
    let found = each_witness(alloc, bytes, count as u64, empty)?;
    if !is_any_there(found.as_slice()) {
        return Err(TxFault::LongForm);
    }
    Ok(found)
}

/// Whether witnesses follow.
#[tactic(auto, unfolding(crate::specs::computed::WitnessReader::flag_at))]
fn flag(bytes: &mut Cursor) -> Result<bool, TxFault>
    ensures { Gives wire_fault_of result bytes.new (flag_at bytes.old) }
{
    let byte = bytes.take(1)?;
    match byte[0] {
        0 => Ok(false),
        1 => Ok(true),
        _ => Err(TxFault::TooLarge),
    }
}

/// After a count of inputs: no witnesses.
#[tactic(auto, unfolding(crate::specs::computed::WitnessReader::plain_at))]
fn plain(alloc: Global, bytes: &mut Cursor, count: u64) -> Result<TxBody, TxFault>
    ensures { BodyGives result bytes.new (plain_at count bytes.old) }
{
    let inputs = some_inputs(alloc, bytes, count)?;
    let outputs = outputs(alloc, bytes)?;
    let lock_time = bytes.u32le()?;
    Ok(TxBody {
        inputs: Inputs::of_parts(alloc, inputs),
        outputs,
        lock_time,
    })
}

#[tactic(auto, unfolding(crate::specs::computed::WitnessReader::empty_at))]
fn empty(alloc: Global, bytes: &mut Cursor) -> Result<TxBody, TxFault>
    ensures { BodyGives result bytes.new (empty_at bytes.old) }
{
    let lock_time = bytes.u32le()?;
    Ok(TxBody {
        inputs: Inputs::from_vec(Vec::new(alloc)),
        outputs: Outputs::from_vec(Vec::new(alloc)),
        lock_time,
    })
}

#[tactic(auto, unfolding(crate::specs::computed::WitnessReader::witness_body_at))]
fn with_witnesses(alloc: Global, bytes: &mut Cursor) -> Result<TxBody, TxFault>
    ensures { BodyGives result bytes.new (witness_body_at bytes.old) }
{
    let list = inputs(alloc, bytes)?;
    let outputs = outputs(alloc, bytes)?;
    let witnesses = witnesses(alloc, bytes, list.len())?;
    let lock_time = bytes.u32le()?;
    Ok(TxBody {
        inputs: Inputs { list, witnesses },
        outputs,
        lock_time,
    })
}

/// After a count of 0: the flag, and what it says.
#[tactic(auto, unfolding(crate::specs::computed::WitnessReader::flagged_at))]
fn flagged(alloc: Global, bytes: &mut Cursor) -> Result<TxBody, TxFault>
    ensures { BodyGives result bytes.new (flagged_at bytes.old) }
{
    if flag(bytes)? {
        with_witnesses(alloc, bytes)
    } else {
        empty(alloc, bytes)
    }
}

/// What follows the count in front.
fn after_count(alloc: Global, bytes: &mut Cursor, count: u64) -> Result<TxBody, TxFault>
    ensures { BodyGives result bytes.new (body_after_at count bytes.old) }
{
    if count == 0 {
        return flagged(alloc, bytes);
    }
    plain(alloc, bytes, count)
}

#[tactic(auto, unfolding(crate::specs::computed::WitnessReader::witness_tx_at))]
fn witness_tx(alloc: Global, bytes: &mut Cursor) -> Result<Tx, TxFault>
    ensures { Gives wire_fault_of result bytes.new (witness_tx_at bytes.old) }
{
    let version = bytes.i32le()?;
    let count = bytes.compact()?;
    let body = after_count(alloc, bytes, count)?;
    Ok(Tx {
        version,
        inputs: body.inputs,
        outputs: body.outputs,
        lock_time: body.lock_time,
    })
}

/// The transaction at the front, as it is read from left to right.
fn front_by(alloc: Global, bytes: &mut Cursor, has_flag: bool) -> Result<Tx, TxFault>
    ensures exact { Gives wire_fault_of result bytes.new (tx_by_at has_flag bytes.old) }
    ensures kept { OnErr result (bytes.new ≡ bytes.old) }
    ensures bytes { IsBytes bytes.old }
{
    if !has_flag {
        return front(alloc, bytes);
    }
    let mut ahead = Cursor::new(bytes.rest());
    let tx = witness_tx(alloc, &mut ahead)?;
    *bytes = ahead;
    Ok(tx)
}

/// The transaction at the front, with its witnesses where `has_flag` is true (BIP 144); else as [`read`](crate::read)
/// reads it.
///
/// Witnesses that are all empty are [`TxFault::LongForm`], and a flag above 1 is [`TxFault::TooLarge`]. The first refusal met
/// from the left is the answer.
pub fn read_by(alloc: Global, bytes: &mut Cursor, has_flag: bool) -> Result<Tx, TxFault>
    // What is read is lawful, and spelled at the front.
    ensures found { IfOk result (λ t. (transaction_by has_flag).Lawful t
        × (bytes.old ≡ (transaction_by has_flag).spell t ++ bytes.new)) }
    // A refusal names a fault that the bytes have, unless memory ran out.
    ensures refused { IfErr result (λ e. IfSome (wire_fault_of e)
        (λ fault. (transaction_by has_flag).Faulty fault bytes.old)) }
    // A refusal leaves the cursor where it was.
    ensures kept { OnErr result (bytes.new ≡ bytes.old) }
    // What is spelled at the front is read, unless memory runs out.
    ensures reads { (t : Tx) (rest : List ℕ) → (transaction_by has_flag).Lawful t
        → bytes.old ≡ (transaction_by has_flag).spell t ++ rest
        → Gives wire_fault_of result bytes.new (Ok (t, rest)) }
    // What has a fault is refused with it, unless memory runs out.
    ensures refuses { (fault : WireFault) → (transaction_by has_flag).Faulty fault bytes.old
        → Gives wire_fault_of result bytes.new (Err fault) }
    // The same, as reading from left to right.
    ensures exact { Gives wire_fault_of result bytes.new (tx_by_at has_flag bytes.old) }
{
    front_by(alloc, bytes, has_flag)
}
