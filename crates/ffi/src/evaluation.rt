//! A script on a stack, which is passed and told as the lengths of its elements from the bottom up, and their bytes.

ghost use Rattle.std.specs.Prelude.{◌≡◌, ◌≢◌, ◌⊎◌, ◌+◌, ◌<◌, ◌++◌, length, map, Ok, IfOk, IfSome, IfNone};
ghost use Rattle.std.specs.List.{flat_map};
ghost use Rattle.signatures.specs.Known.{verdict_in};
ghost use Rattle.signatures.specs.Lines.{lines};
ghost use Rattle.interp.specs.Answer.{Tells};
ghost use Rattle.interp.specs.Question.{question};
ghost use Rattle.interp.specs.computed.NamedFailures.{eval_script};
ghost use Rattle.txn.specs.computed.Reader.{tx_at};
ghost use Rattle.ffi.specs.Known.{asked_of};
ghost use Rattle.ffi.specs.NamedFailures.{flags_in, all_sizes, sizes_of, bytes_in, rooms, IsByTables, IsLineAsked, IsOfOne, IsOfStack, IsLeftTold, IsRunAnswered};
ghost use Rattle.ffi.specs.Refusals.{IsTold};

use crate::answers::{ASKED_TOO_SMALL, DONE, MEMORY, MISMATCH, NO_INPUT, TOO_SMALL};
use crate::known::{known_of, tell_line};
use crate::named_failures::{flags_in, number_of};
use crate::room::put;
use crate::shown::ShownStack;
use crate::transactions::front;
use interp::{Element, Job, Pile, ScriptError, Unverified, eval_script};
use signatures::{FoundTables, KeptTriple};
use std::alloc::Global;
use txn::Tx;
use wire::{Cursor, Memory};

/// The stack that a script leaves, or the number of its failure, as a script of an input of a transaction under these
/// rules, by two tables: of signatures that are valid and of others that aren't. Where it asks for one of which nothing is
/// known, its line is put at the front of what is passed for it, or `ASKED_TOO_SMALL` is answered. Where a line of a table can't be
/// read, `line` is its number, from 1.
#[unsafe(no_mangle)]
pub extern "C" fn ffi_eval_script(
    alloc: Global,
    bytes: &[u8],
    input: u64,
    script: &[u8],
    flags: u32,
    sizes: &[u64],
    elements: &[u8],
    valid: &[u8],
    invalid: &[u8],
    line: &mut u64,
    shown: &mut ShownStack,
    left_sizes: &mut [u64],
    left: &mut [u8],
    asked: &mut [u8],
    count: &mut u64,
) -> u32
    ensures { let before = asked_of asked.old count.old in
        let after = asked_of asked.new count.new in
        let put = rooms left_sizes.old left.old in
        let put' = rooms left_sizes.new left.new in
        let untold = (shown.new ≡ shown.old) × (put' ≡ put) in
        let kept = (line.new ≡ line.old) × (after ≡ before) × untold in
        IsTold (tx_at bytes.now) (λ tx. IsOfOne tx input (IsOfStack sizes.now elements.now (λ stack.
        IsByTables (lines valid.now) (lines invalid.now) (λ found. IsRunAnswered
        (eval_script (verdict_in found) (question tx input script.now (flags_in flags)) script.now
        stack) (λ named. IsLeftTold named shown.new put put' result) untold before after result)
        line.old line.new ((after ≡ before) × untold) result) kept result) kept result)
        kept result }
{
    let mut cursor = Cursor::new(bytes);
    match front(alloc, &mut cursor) {
        Err(code) => code,
        Ok(tx) => {
            if input >= tx.inputs.len() as u64 {
                return NO_INPUT;
            }
            match stack_of(alloc, sizes, elements) {
                Err(_) => MEMORY,
                Ok(None) => MISMATCH,
                Ok(Some(stack)) => tell_by_tables(
                    alloc,
                    &tx,
                    input as usize,
                    script,
                    flags,
                    stack,
                    valid,
                    invalid,
                    line,
                    shown,
                    left_sizes,
                    left,
                    asked,
                    count,
                ),
            }
        }
    }
}

fn tell_by_tables(
    alloc: Global,
    tx: &Tx,
    input: usize,
    script: &[u8],
    flags: u32,
    stack: Pile<Element>,
    valid: &[u8],
    invalid: &[u8],
    line: &mut u64,
    shown: &mut ShownStack,
    left_sizes: &mut [u64],
    left: &mut [u8],
    asked: &mut [u8],
    count: &mut u64,
) -> u32
    requires { input < length tx.now.inputs }
    ensures { let before = asked_of asked.old count.old in
        let after = asked_of asked.new count.new in
        let put = rooms left_sizes.old left.old in
        let put' = rooms left_sizes.new left.new in
        let untold = (shown.new ≡ shown.old) × (put' ≡ put) in
        IsByTables (lines valid.now) (lines invalid.now) (λ found. IsRunAnswered
        (eval_script (verdict_in found) (question tx.now input script.now (flags_in flags))
        script.now stack) (λ named. IsLeftTold named shown.new put put' result) untold before after
        result) line.old line.new ((after ≡ before) × untold) result }
{
    match known_of(alloc, valid, invalid, line) {
        Err(code) => code,
        Ok(known) => tell_eval(
            alloc, tx, input, script, flags, stack, &known, shown, left_sizes, left, asked, count,
        ),
    }
}

fn tell_eval(
    alloc: Global,
    tx: &Tx,
    input: usize,
    script: &[u8],
    flags: u32,
    stack: Pile<Element>,
    known: &FoundTables,
    shown: &mut ShownStack,
    left_sizes: &mut [u64],
    left: &mut [u8],
    asked: &mut [u8],
    count: &mut u64,
) -> u32
    requires { input < length tx.now.inputs }
    ensures { let before = asked_of asked.old count.old in
        let after = asked_of asked.new count.new in
        let put = rooms left_sizes.old left.old in
        let put' = rooms left_sizes.new left.new in
        IsRunAnswered (eval_script (verdict_in known.now)
        (question tx.now input script.now (flags_in flags)) script.now stack)
        (λ named. IsLeftTold named shown.new put put' result)
        ((shown.new ≡ shown.old) × (put' ≡ put)) before after result }
{
    match run(alloc, tx, input, script, flags, stack, known) {
        Ok(Ok(end)) => tell_stack(alloc, &end, shown, left_sizes, left),
        Ok(Err(name)) => {
            *shown = ShownStack {
                elements: 0,
                size: 0,
                error: number_of(name),
            };
            DONE
        }
        Err(Unverified::Memory) => MEMORY,
        Err(Unverified::Unknown(triple)) => ask(alloc, &triple, asked, count),
    }
}

/// The line of a triple that is asked for. The rooms for a stack may be too small too, so a line without room has a number of
/// its own.
fn ask(alloc: Global, triple: &KeptTriple, asked: &mut [u8], count: &mut u64) -> u32
    ensures { let before = asked_of asked.old count.old in
        let after = asked_of asked.new count.new in
        IsLineAsked triple.now before after result ⊎ ((result ≡ 1) × (after ≡ before)) }
{
    match tell_line(alloc, triple, asked, count) {
        TOO_SMALL => ASKED_TOO_SMALL,
        code => code,
    }
}

fn run<'a>(
    alloc: Global,
    tx: &'a Tx,
    input: usize,
    script: &'a [u8],
    flags: u32,
    stack: Pile<Element>,
    known: &FoundTables,
) -> Result<Result<Pile<Element>, ScriptError>, Unverified>
    requires { input < length tx.now.inputs }
    ensures { Tells result (eval_script (verdict_in known.now)
        (question tx.now input script.now (flags_in flags)) script.now stack) }
{
    let flags = flags_in(flags);
    let job = Job {
        tx,
        input,
        spent: script,
        flags,
        midstates: None,
    };
    eval_script(alloc, &job, known, script, stack)
}

/// A stack at the front of the rooms for its lengths and its bytes, where it fits, and how large it is.
fn tell_stack(
    alloc: Global,
    stack: &Pile<Element>,
    shown: &mut ShownStack,
    left_sizes: &mut [u64],
    left: &mut [u8],
) -> u32
    ensures { let put = rooms left_sizes.old left.old in
        let put' = rooms left_sizes.new left.new in
        IsLeftTold (Ok stack.now) shown.new put put' result
        ⊎ ((result ≡ 1) × (shown.new ≡ shown.old) × (put' ≡ put)) }
{
    let sizes = match sizes_of(alloc, stack.as_slice()) {
        Err(_) => return MEMORY,
        Ok(sizes) => sizes,
    };
    let bytes = match bytes_in(alloc, stack.as_slice()) {
        Err(_) => return MEMORY,
        Ok(bytes) => bytes,
    };
    *shown = ShownStack {
        elements: sizes.len() as u64,
        size: bytes.len() as u64,
        error: 0,
    };
    if sizes.len() > left_sizes.len() || bytes.len() > left.len() {
        return TOO_SMALL;
    }
    put(sizes.as_slice(), left_sizes);
    put(bytes.as_slice(), left);
    DONE
}

fn sizes_of(alloc: Global, elements: &[Element]) -> Result<Vec<u64>, Memory>
    ensures { IfOk result (λ sizes. sizes.items ≡ map (λ element. length element) elements.now) }
{
    let mut sizes = Vec::new(alloc);
    for element in elements {
        sizes.push(element.as_slice().len() as u64)?;
    }
    Ok(sizes)
}

fn bytes_in(alloc: Global, elements: &[Element]) -> Result<Vec<u8>, Memory>
    ensures { IfOk result (λ bytes. bytes.items ≡ flat_map (λ element. element) elements.now) }
{
    let mut bytes = Vec::new(alloc);
    for element in elements {
        bytes.extend_from_slice(element.as_slice())?;
    }
    Ok(bytes)
}

/// The stack of elements of these lengths and bytes; none where the bytes are more or fewer.
fn stack_of(alloc: Global, sizes: &[u64], bytes: &[u8]) -> Result<Option<Pile<Element>>, Memory>
    ensures found { IfOk result (λ found. IfSome found (λ stack.
        (sizes_of stack ≡ sizes.now) × (bytes_in stack ≡ bytes.now))) }
    ensures none { IfOk result (λ found. IfNone found (all_sizes sizes.now ≢ length bytes.now)) }
{
    match all_elements(alloc, sizes, bytes)? {
        None => Ok(None),
        Some(elements) => Ok(Some(Pile::from_vec(elements))),
    }
}

/// The elements of these lengths and bytes; none where the bytes are more or fewer.
pub(crate) fn all_elements(
    alloc: Global,
    sizes: &[u64],
    bytes: &[u8],
) -> Result<Option<Vec<Element>>, Memory>
    ensures found { IfOk result (λ found. IfSome found (λ list.
        (map (λ element. length element) list.items ≡ sizes.now)
        × (flat_map (λ element. element) list.items ≡ bytes.now))) }
    ensures none { IfOk result (λ found. IfNone found (all_sizes sizes.now ≢ length bytes.now)) }
{
    let mut cursor = Cursor::new(bytes);
    let Some(elements) = elements_of(alloc, sizes, &mut cursor)? else {
        return Ok(None);
    };
    if !cursor.rest().is_empty() {
        return Ok(None);
    }
    Ok(Some(elements))
}

/// The elements of these lengths, with the bytes at the front; none where these end early.
fn elements_of(
    alloc: Global,
    sizes: &[u64],
    bytes: &mut Cursor,
) -> Result<Option<Vec<Element>>, Memory>
    ensures found { IfOk result (λ found. IfSome found (λ list.
        (map (λ element. length element) list.items ≡ sizes.now)
        × (bytes.old ≡ flat_map (λ element. element) list.items ++ bytes.new))) }
    ensures count { IfOk result (λ found. IfSome found (λ list.
        length bytes.old ≡ all_sizes sizes.now + length bytes.new)) }
    ensures none { IfOk result (λ found. IfNone found (length bytes.old < all_sizes sizes.now)) }
{
    let mut list = Vec::new(alloc);
    for size in sizes {
        let Ok(element) = bytes.take(*size as usize) else {
            return Ok(None);
        };
        list.push(Element::from_slice(alloc, element)?)?;
    }
    Ok(Some(list))
}
