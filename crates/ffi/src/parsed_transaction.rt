//! A transaction that is read once and asked many times: C keeps it in a slot.

ghost use Rattle.std.specs.Prelude.{◌≡◌, ℕ, ◌+◌, ◌<◌, length, IfErr, IfOk, Ok, None, Option};
ghost use Rattle.signatures.specs.Known.{verdict_in};
ghost use Rattle.signatures.specs.Lines.{lines};
ghost use Rattle.interp.specs.Answer.{Answer, Tells};
ghost use Rattle.interp.specs.Question.{question};
ghost use Rattle.interp.specs.computed.NamedFailures.{verify_script};
ghost use Rattle.interp.specs.declared.script_error.ScriptError.{ScriptError as ScriptErrorValue};
ghost use Rattle.txn.specs.Grammar.{transaction};
ghost use Rattle.txn.specs.computed.Reader.{tx_at};
ghost use Rattle.ffi.specs.Answers.{close_number};
ghost use Rattle.ffi.specs.NamedFailures.{IsInputNamed, flags_in, told_of};
ghost use Rattle.ffi.specs.ParsedTransaction.{AreInputsNamed, IsOfKept, IsRead, IsReadWhole, IsRefusalAnswered, first_refused, told_all, tx_kept};
ghost use Rattle.ffi.specs.inside.Parts.{IsRefusal};

use crate::answers::{CLOSED, DONE, EXTRA, FULL, MEMORY, MISMATCH, NO_INPUT};
use crate::evaluation::all_elements;
use crate::known::{known_of, tell_line};
use crate::named_failures::{flags_in, number_of, tell_failure};
use crate::shown::{AllQuestion, AllTold, InputQuestion, InputTold};
use crate::transactions::front;
use crate::tx_slot::{TxSlot, put_tx, take_tx};
use interp::{Element, Job, ScriptError, Unverified, verify_script};
use sighash::{Midstates, PrecomputedTx, SpentScripts};
use signatures::{FoundTables, KnowsSignatures};
use std::alloc::Global;
use wire::Cursor;

/// Reads the transaction at the front of bytes into a slot; `used` is how many of them it takes.
#[unsafe(no_mangle)]
pub extern "C" fn ffi_tx_read(alloc: Global, slot: &mut TxSlot, bytes: &[u8], used: &mut u64) -> u32
    ensures { IsRead bytes.now (tx_kept slot.old.kept.value) (tx_kept slot.new.kept.value) used.old
        used.new result }
{
    if slot.is_full() {
        return FULL;
    }
    let mut cursor = Cursor::new(bytes);
    match boxed(alloc, &mut cursor) {
        Err(code) => code,
        Ok(tx) => {
            *used = (bytes.len() - cursor.rest().len()) as u64;
            put_tx(slot, tx);
            DONE
        }
    }
}

/// Reads the transaction that all the bytes spell into a slot.
#[unsafe(no_mangle)]
pub extern "C" fn ffi_tx_read_whole(alloc: Global, slot: &mut TxSlot, bytes: &[u8]) -> u32
    ensures { IsReadWhole bytes.now (tx_kept slot.old.kept.value) (tx_kept slot.new.kept.value)
        result }
{
    if slot.is_full() {
        return FULL;
    }
    let mut cursor = Cursor::new(bytes);
    match boxed(alloc, &mut cursor) {
        Err(code) => code,
        Ok(tx) => {
            if !cursor.rest().is_empty() {
                return EXTRA;
            }
            put_tx(slot, tx);
            DONE
        }
    }
}

/// The transaction at the front, or the number that says why there is none.
fn boxed(alloc: Global, bytes: &mut Cursor) -> Result<Box<PrecomputedTx>, u32>
    ensures found { IfOk result (λ kept. tx_at bytes.old ≡ Ok (kept.value.tx, bytes.new)) }
    ensures size { IfOk result (λ kept.
        length bytes.old ≡ length (transaction.spell kept.value.tx) + length bytes.new) }
    ensures refused { IfErr result (IsRefusal (tx_at bytes.old)) }
{
    let tx = match front(alloc, bytes) {
        Err(code) => return Err(code),
        Ok(tx) => tx,
    };
    let Ok(kept) = PrecomputedTx::of(alloc, tx) else {
        return Err(MEMORY);
    };
    match Box::new(alloc, kept) {
        Err(_) => Err(MEMORY),
        Ok(kept) => Ok(kept),
    }
}

/// Gives the transaction's memory back.
#[unsafe(no_mangle)]
pub extern "C" fn ffi_tx_free(alloc: Global, slot: &mut TxSlot) -> u32
    ensures away { slot.new.kept.value ≡ None }
    ensures code { result ≡ close_number slot.old.kept.value }
{
    match take_tx(alloc, slot) {
        None => CLOSED,
        Some(tx) => {
            drop(tx);
            DONE
        }
    }
}

/// Why an input of the transaction in a slot may not spend a script, as `ffi_verify_script` tells it of one that it reads.
#[unsafe(no_mangle)]
pub extern "C" fn ffi_tx_verify_input(
    alloc: Global,
    slot: &mut TxSlot,
    question: &InputQuestion,
    told: &mut InputTold,
    asked: &mut [u8],
) -> u32
    ensures stays { slot.new.kept.value ≡ slot.old.kept.value }
    ensures told { let before = told_of told.old.line told.old.error asked.old told.old.count in
        let after = told_of told.new.line told.new.error asked.new told.new.count in
        IsOfKept (tx_kept slot.old.kept.value) (λ tx. IsInputNamed tx question.now.input
        question.now.spent.now question.now.flags (lines question.now.valid.now)
        (lines question.now.invalid.now) before after result) (after ≡ before) result }
{
    let Some(tx) = take_tx(alloc, slot) else {
        return CLOSED;
    };
    let code = verify_input(alloc, &tx, question, told, asked);
    put_tx(slot, tx);
    code
}

/// Why an input may not spend a script, 0 where it may, by two tables.
fn verify_input(
    alloc: Global,
    kept: &PrecomputedTx,
    question: &InputQuestion,
    told: &mut InputTold,
    asked: &mut [u8],
) -> u32
    ensures { IsInputNamed kept.now.tx question.now.input question.now.spent.now question.now.flags
        (lines question.now.valid.now) (lines question.now.invalid.now)
        (told_of told.old.line told.old.error asked.old told.old.count)
        (told_of told.new.line told.new.error asked.new told.new.count) result }
{
    if question.input >= kept.tx.inputs.len() as u64 {
        return NO_INPUT;
    }
    match known_of(alloc, question.valid, question.invalid, &mut told.line) {
        Err(code) => code,
        Ok(known) => {
            let (input, spent, flags) = (question.input as usize, question.spent, question.flags);
            let found = verify_kept(alloc, kept, input, spent, flags, &known);
            tell_failure(alloc, found, &mut told.error, asked, &mut told.count)
        }
    }
}

/// The first input of the transaction in a slot that may not spend its script, and why, as `ffi_tx_verify_input` tells it of
/// one. What the messages of its signatures have in common is hashed once.
#[unsafe(no_mangle)]
pub extern "C" fn ffi_tx_verify(
    alloc: Global,
    slot: &mut TxSlot,
    question: &AllQuestion,
    told: &mut AllTold,
    asked: &mut [u8],
) -> u32
    ensures stays { slot.new.kept.value ≡ slot.old.kept.value }
    ensures told { let before = told_all told.old asked.old in
        let after = told_all told.new asked.new in
        IsOfKept (tx_kept slot.old.kept.value)
        (λ tx. AreInputsNamed tx question.now before after result) (after ≡ before) result }
{
    let Some(tx) = take_tx(alloc, slot) else {
        return CLOSED;
    };
    let code = verify_all(alloc, &tx, question, told, asked);
    put_tx(slot, tx);
    code
}

/// The first input that may not spend its script, and why, by two tables.
fn verify_all(
    alloc: Global,
    kept: &PrecomputedTx,
    all: &AllQuestion,
    told: &mut AllTold,
    asked: &mut [u8],
) -> u32
    ensures { AreInputsNamed kept.now.tx all.now (told_all told.old asked.old)
        (told_all told.new asked.new) result }
{
    if all.sizes.len() != kept.tx.inputs.len() {
        return MISMATCH;
    }
    let scripts = match all_elements(alloc, all.sizes, all.scripts) {
        Err(_) => return MEMORY,
        Ok(None) => return MISMATCH,
        Ok(Some(scripts)) => scripts,
    };
    match known_of(alloc, all.valid, all.invalid, &mut told.line) {
        Err(code) => code,
        Ok(known) => {
            let found = first_refused(alloc, kept, scripts.as_slice(), all.flags, &known);
            tell_refused(alloc, found, told, asked)
        }
    }
}

/// What was found of all inputs: the first that is refused and why, or none, or a triple that is asked for.
fn tell_refused(
    alloc: Global,
    found: Result<Option<(usize, ScriptError)>, Unverified>,
    told: &mut AllTold,
    asked: &mut [u8],
) -> u32
    ensures answer { (answer : Answer (Option (ℕ × ScriptErrorValue))) → Tells found answer
        → IsRefusalAnswered answer (told_all told.old asked.old) (told_all told.new asked.new)
        result }
    ensures line { told.new.line ≡ told.old.line }
{
    match found {
        Ok(None) => {
            told.input = 0;
            told.error = 0;
            DONE
        }
        Ok(Some((place, name))) => {
            told.input = place as u64;
            told.error = number_of(name);
            DONE
        }
        Err(Unverified::Memory) => MEMORY,
        Err(Unverified::Unknown(triple)) => tell_line(alloc, &triple, asked, &mut told.count),
    }
}

/// The scripts that the inputs of one transaction spend.
#[derive(Drop)]
struct Spent<'a> {
    scripts: &'a [Element],
}

impl SpentScripts for Spent<'_> {
    fn script(&self, _place: usize, input: usize) -> Option<&[u8]> {
        match self.scripts.get(input) {
            Some(script) => Some(script.as_slice()),
            None => None,
        }
    }
}

/// The first input that may not spend its script, and why.
fn first_refused(
    alloc: Global,
    kept: &PrecomputedTx,
    scripts: &[Element],
    flags: u32,
    known: &FoundTables,
) -> Result<Option<(usize, ScriptError)>, Unverified>
    requires { length scripts.now ≡ length kept.now.tx.inputs }
    ensures { Tells result (first_refused (verdict_in known.now) (flags_in flags) kept.now.tx 0
        scripts.now) }
{
    let midstates = kept.midstates_of_all(alloc, &Spent { scripts })?;
    for place in 0..scripts.len() {
        let spent = scripts[place].as_slice();
        match verify_one(alloc, &midstates, place, spent, flags, known) {
            Ok(Ok(())) => (),
            Ok(Err(name)) => return Ok(Some((place, name))),
            Err(stop) => return Err(stop),
        }
    }
    Ok(None)
}

/// Why an input of a kept transaction may not spend a script.
pub(crate) fn verify_kept<K: KnowsSignatures>(
    alloc: Global,
    kept: &PrecomputedTx,
    input: usize,
    spent: &[u8],
    flags: u32,
    known: &K,
) -> Result<Result<(), ScriptError>, Unverified>
    requires { input < length kept.now.tx.inputs }
    ensures { Tells result (verify_script (K.known known.now)
        (question kept.now.tx input spent.now (flags_in flags))) }
{
    let midstates = kept.midstates(alloc);
    verify_one(alloc, &midstates, input, spent, flags, known)
}

/// Why an input of the transaction of these midstates may not spend a script.
fn verify_one<'a, K: KnowsSignatures>(
    alloc: Global,
    midstates: &'a Midstates<'a>,
    input: usize,
    spent: &'a [u8],
    flags: u32,
    known: &K,
) -> Result<Result<(), ScriptError>, Unverified>
    requires { input < length midstates.now.tx.now.inputs }
    ensures { Tells result (verify_script (K.known known.now)
        (question midstates.now.tx.now input spent.now (flags_in flags))) }
{
    let flags = flags_in(flags);
    let job = Job {
        tx: midstates.tx,
        input,
        spent,
        flags,
        midstates: Some(midstates),
    };
    verify_script(alloc, &job, known)
}
