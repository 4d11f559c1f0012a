//! A transaction's parts, read and written.

ghost use Rattle.std.specs.Prelude.{◌≡◌, ◌≢◌, ◌⊎◌, ◌+◌, ◌<◌, ◌≤◌, ◌++◌, length, drop, map, IfOk, IfSome, IfNone, OnOk};
ghost use Rattle.txn.specs.computed.Reader.{tx_at};
ghost use Rattle.ffi.specs.Parts.{ArePut, HasParts, IsTooSmall, IsWritten, input_bytes, input_row, input_scripts, output_bytes, output_row, output_scripts, scripts_of};
ghost use Rattle.ffi.specs.Refusals.{IsTold};

use crate::answers::{DONE, MEMORY, MISMATCH, Name, TOO_SMALL};
use crate::room::{fill, put};
use crate::shown::{InputRow, OutputRow};
use crate::transactions::front;
use hash::Id;
use std::alloc::Global;
use txn::{Inputs, OutPoint, Outputs, Script, Tx, TxIn, TxOut, write};
use wire::{Cursor, Memory};

/// The parts of the transaction at the front: its inputs and its outputs without their scripts, and these one after the
/// other. Nothing is written where a room is too small.
#[unsafe(no_mangle)]
pub extern "C" fn ffi_tx_parts(
    alloc: Global,
    bytes: &[u8],
    inputs: &mut [InputRow],
    outputs: &mut [OutputRow],
    scripts: &mut [u8],
) -> u32
    ensures { let kept = (inputs.new ≡ inputs.old) × (outputs.new ≡ outputs.old)
        × (scripts.new ≡ scripts.old) in
        IsTold (tx_at bytes.now) (λ tx.
        ((result ≡ 0) × ArePut tx inputs.old inputs.new outputs.old outputs.new
        scripts.old scripts.new)
        ⊎ ((result ≡ 5) × IsTooSmall tx inputs.old outputs.old scripts.old × kept)) kept result }
{
    let mut cursor = Cursor::new(bytes);
    match front(alloc, &mut cursor) {
        Err(code) => code,
        Ok(tx) => tell_parts(alloc, &tx, inputs, outputs, scripts),
    }
}

fn tell_parts(
    alloc: Global,
    tx: &Tx,
    inputs: &mut [InputRow],
    outputs: &mut [OutputRow],
    scripts: &mut [u8],
) -> u32
    ensures { let kept = (inputs.new ≡ inputs.old) × (outputs.new ≡ outputs.old)
        × (scripts.new ≡ scripts.old) in
        ((result ≡ 0) × ArePut tx.now inputs.old inputs.new outputs.old outputs.new
        scripts.old scripts.new)
        ⊎ (((result ≡ 5) × IsTooSmall tx.now inputs.old outputs.old scripts.old × kept)
        ⊎ ((result ≡ 1) × kept)) }
{
    let Ok(rows) = input_rows(alloc, tx.inputs.as_slice()) else {
        return MEMORY;
    };
    let Ok(others) = output_rows(alloc, tx.outputs.as_slice()) else {
        return MEMORY;
    };
    let Ok(bytes) = joined_scripts(alloc, tx) else {
        return MEMORY;
    };
    if rows.len() > inputs.len() || others.len() > outputs.len() || bytes.len() > scripts.len() {
        return TOO_SMALL;
    }
    put(rows.as_slice(), inputs);
    put(others.as_slice(), outputs);
    put(bytes.as_slice(), scripts);
    DONE
}

fn input_rows(alloc: Global, inputs: &[TxIn]) -> Result<Vec<InputRow>, Memory>
    ensures { IfOk result (λ rows. rows.items ≡ map input_row inputs.now) }
{
    let mut rows = Vec::new(alloc);
    for input in inputs {
        let bytes = input.prev.id.0;
        rows.push(InputRow {
            id: Name { bytes },
            script: input.script.len() as u64,
            index: input.prev.index,
            sequence: input.sequence,
        })?;
    }
    Ok(rows)
}

fn output_rows(alloc: Global, outputs: &[TxOut]) -> Result<Vec<OutputRow>, Memory>
    ensures { IfOk result (λ rows. rows.items ≡ map output_row outputs.now) }
{
    let mut rows = Vec::new(alloc);
    for output in outputs {
        rows.push(OutputRow {
            value: output.value,
            script: output.script.len() as u64,
        })?;
    }
    Ok(rows)
}

fn joined_scripts(alloc: Global, tx: &Tx) -> Result<Vec<u8>, Memory>
    ensures { IfOk result (λ scripts. scripts.items ≡ scripts_of tx.now) }
{
    let mut scripts = Vec::new(alloc);
    join_inputs(tx.inputs.as_slice(), &mut scripts)?;
    join_outputs(tx.outputs.as_slice(), &mut scripts)?;
    Ok(scripts)
}

fn join_inputs(inputs: &[TxIn], scripts: &mut Vec<u8>) -> Result<(), Memory>
    ensures { OnOk result (scripts.new.items ≡ scripts.old.items ++ input_scripts inputs.now) }
{
    for input in inputs {
        scripts.extend_from_slice(input.script.as_slice())?;
    }
    Ok(())
}

fn join_outputs(outputs: &[TxOut], scripts: &mut Vec<u8>) -> Result<(), Memory>
    ensures { OnOk result (scripts.new.items ≡ scripts.old.items ++ output_scripts outputs.now) }
{
    for output in outputs {
        scripts.extend_from_slice(output.script.as_slice())?;
    }
    Ok(())
}

/// The bytes of the transaction of these parts, at the front of what is passed for them, and how many they are. What is
/// written is read again where no list and no script is above 33,554,432.
#[unsafe(no_mangle)]
pub extern "C" fn ffi_tx_write(
    alloc: Global,
    version: i32,
    lock_time: u32,
    inputs: &[InputRow],
    outputs: &[OutputRow],
    scripts: &[u8],
    bytes: &mut [u8],
    count: &mut u64,
) -> u32
    ensures { IsWritten version lock_time inputs.now outputs.now scripts.now bytes.old bytes.new
        count.old count.new result }
{
    match tx_of(alloc, version, lock_time, inputs, outputs, scripts) {
        Err(_) => MEMORY,
        Ok(None) => MISMATCH,
        Ok(Some(tx)) => {
            let mut spelled = Vec::new(alloc);
            if write(&tx, &mut spelled).is_err() {
                return MEMORY;
            }
            *count = spelled.len() as u64;
            fill(spelled.as_slice(), bytes)
        }
    }
}

/// The transaction of these parts, if there is one.
fn tx_of(
    alloc: Global,
    version: i32,
    lock_time: u32,
    inputs: &[InputRow],
    outputs: &[OutputRow],
    scripts: &[u8],
) -> Result<Option<Tx>, Memory>
    ensures found { IfOk result (λ found. IfSome found (λ tx.
        HasParts tx version lock_time inputs.now outputs.now scripts.now)) }
    ensures none { IfOk result (λ found. IfNone found
        (input_bytes inputs.now + output_bytes outputs.now ≢ length scripts.now)) }
{
    let mut cursor = Cursor::new(scripts);
    let Some(inputs) = inputs_of(alloc, inputs, &mut cursor)? else {
        return Ok(None);
    };
    let Some(outputs) = outputs_of(alloc, outputs, &mut cursor)? else {
        return Ok(None);
    };
    if !cursor.rest().is_empty() {
        return Ok(None);
    }
    Ok(Some(Tx {
        version,
        inputs,
        outputs,
        lock_time,
    }))
}

/// The inputs of these rows, with the scripts that stand at the front; none where these end early.
fn inputs_of(
    alloc: Global,
    rows: &[InputRow],
    scripts: &mut Cursor,
) -> Result<Option<Inputs>, Memory>
    ensures found { IfOk result (λ found. IfSome found (λ inputs.
        (map input_row inputs.list ≡ rows.now)
        × (scripts.old ≡ input_scripts inputs.list ++ scripts.new))) }
    ensures count { IfOk result (λ found. IfSome found (λ inputs.
        length scripts.old ≡ input_bytes rows.now + length scripts.new)) }
    ensures none { IfOk result (λ found. IfNone found (length scripts.old < input_bytes rows.now)) }
{
    let mut list = Vec::new(alloc);
    for row in rows {
        let Ok(script) = scripts.take(row.script as usize) else {
            return Ok(None);
        };
        list.push(input_of(row, Vec::from_slice(alloc, script)?))?;
    }
    Ok(Some(Inputs::from_vec(list)))
}

fn input_of(row: &InputRow, script: Vec<u8>) -> TxIn
    requires { length script.items ≡ row.now.script }
    ensures row { input_row result ≡ row.now }
    ensures script { result.script ≡ script.items }
{
    let id = row.id.bytes;
    TxIn {
        prev: OutPoint {
            id: Id(id),
            index: row.index,
        },
        script: Script::from_vec(script),
        sequence: row.sequence,
    }
}

/// The same for outputs.
fn outputs_of(
    alloc: Global,
    rows: &[OutputRow],
    scripts: &mut Cursor,
) -> Result<Option<Outputs>, Memory>
    ensures found { IfOk result (λ found. IfSome found (λ list. (map output_row list ≡ rows.now)
        × (scripts.old ≡ output_scripts list ++ scripts.new))) }
    ensures count { IfOk result (λ found. IfSome found (λ list.
        length scripts.old ≡ output_bytes rows.now + length scripts.new)) }
    ensures none { IfOk result (λ found.
        IfNone found (length scripts.old < output_bytes rows.now)) }
{
    let mut list = Vec::new(alloc);
    for row in rows {
        let Ok(script) = scripts.take(row.script as usize) else {
            return Ok(None);
        };
        list.push(output_of(row, Vec::from_slice(alloc, script)?))?;
    }
    Ok(Some(Outputs::from_vec(list)))
}

fn output_of(row: &OutputRow, script: Vec<u8>) -> TxOut
    requires { length script.items ≡ row.now.script }
    ensures row { output_row result ≡ row.now }
    ensures script { result.script ≡ script.items }
{
    TxOut {
        value: row.value,
        script: Script::from_vec(script),
    }
}
