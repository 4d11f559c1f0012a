//! An input of a kept transaction, judged by what a set of coins has learnt of signatures.

ghost use Rattle.std.specs.Prelude.{◌≡◌};
ghost use Rattle.ffi.specs.NamedFailures.{IsInputKnown, told_of};
ghost use Rattle.ffi.specs.ParsedTransaction.{IsOfKept, tx_kept};

use crate::answers::{CLOSED, NO_INPUT};
use crate::named_failures::tell_failure;
use crate::parsed_transaction::verify_kept;
use crate::shown::{InputTold, KnownQuestion};
use crate::tx_slot::{TxSlot, put_tx, take_tx};
use crate::utxo::Utxo;
use crate::utxo_slot::{UtxoSlot, put_utxo, take_utxo};
use sighash::PrecomputedTx;
use std::alloc::Global;

/// Why an input of the transaction in a slot may not spend a script, as `ffi_tx_verify_input` tells it by two tables. No table
/// is read.
#[unsafe(no_mangle)]
pub extern "C" fn ffi_tx_verify_input_known(
    alloc: Global,
    slot: &mut TxSlot,
    set: &mut UtxoSlot,
    question: &KnownQuestion,
    told: &mut InputTold,
    asked: &mut [u8],
) -> u32
    ensures stays { slot.new.kept.value ≡ slot.old.kept.value }
    ensures learnt { set.new.kept.value ≡ set.old.kept.value }
    ensures told { let q = question.now in
        let before = told_of told.old.line told.old.error asked.old told.old.count in
        let after = told_of told.new.line told.new.error asked.new told.new.count in
        IsOfKept (tx_kept slot.old.kept.value) (λ tx. IsOfKept set.old.kept.value (λ u.
        IsInputKnown tx q.input q.spent.now q.flags u.verdicts before after result)
        (after ≡ before) result) (after ≡ before) result }
{
    let Some(tx) = take_tx(alloc, slot) else {
        return CLOSED;
    };
    let Some(utxo) = take_utxo(alloc, set) else {
        put_tx(slot, tx);
        return CLOSED;
    };
    let code = verify_input_known(alloc, &tx, &utxo, question, told, asked);
    put_tx(slot, tx);
    put_utxo(set, utxo);
    code
}

/// Why an input may not spend a script, 0 where it may.
fn verify_input_known(
    alloc: Global,
    kept: &PrecomputedTx,
    utxo: &Utxo,
    question: &KnownQuestion,
    told: &mut InputTold,
    asked: &mut [u8],
) -> u32
    ensures { let q = question.now in
        IsInputKnown kept.now.tx q.input q.spent.now q.flags utxo.now.verdicts
        (told_of told.old.line told.old.error asked.old told.old.count)
        (told_of told.new.line told.new.error asked.new told.new.count) result }
{
    if question.input >= kept.tx.inputs.len() as u64 {
        return NO_INPUT;
    }
    let (input, spent, flags) = (question.input as usize, question.spent, question.flags);
    let found = verify_kept(alloc, kept, input, spent, flags, utxo.known());
    tell_failure(alloc, found, &mut told.error, asked, &mut told.count)
}
