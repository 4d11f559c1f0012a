//! The ids of many transactions.

ghost use Rattle.std.specs.Prelude.{◌≡◌, ◌≤◌, ◌++◌, IfOk, length, take};
ghost use Rattle.txn.specs.Identity.{ids_of};
ghost use Rattle.txn.specs.inside.Marks.{AreMarks, lanes};

use crate::encode::write;
use crate::tx::Tx;
use hash::Id;
use lanes::{LANES, double_sha_many};
use std::alloc::Global;
use wire::Memory;

// Where each of eight transactions begins, and where the last ends.
const MARKS: usize = LANES + 1;

// Spells eight transactions one after the other, in the place of what was there, and marks where each
// begins and ends.
fn spell_eight(bytes: &mut Vec<u8>, txs: &[Tx]) -> Result<[usize; MARKS], Memory>
    requires { length txs.now ≡ lanes }
    ensures { IfOk result (λ marks. AreMarks txs.now bytes.new.items marks lanes) }
{
    bytes.clear();
    let mut marks = [0; MARKS];
    'spelled: for k in 0..LANES {
        write(&txs[k], bytes)?;
        marks[k + 1] = bytes.len();
    }
    Ok(marks)
}

// The ids of eight transactions that are spelled in `bytes`, each from its mark to the next.
fn ids_between(bytes: &[u8], marks: &[usize; MARKS], txs: &[Tx]) -> [Id; LANES]
    requires txs { length txs.now ≡ lanes }
    requires marks { AreMarks txs.now bytes.now marks.now lanes }
    ensures { result ≡ ids_of txs.now }
{
    let mut messages = [bytes; LANES];
    'cut: for k in 0..LANES {
        messages[k] = &bytes[marks[k]..marks[k + 1]];
    }
    let mut ids = [Id([0; 32]); LANES];
    double_sha_many(&messages, &mut ids);
    ids
}

// The ids of eight transactions. What is in `bytes` is written over.
fn ids_of_eight(bytes: &mut Vec<u8>, txs: &[Tx]) -> Result<[Id; LANES], Memory>
    requires { length txs.now ≡ lanes }
    ensures { IfOk result (λ ids. ids ≡ ids_of txs.now) }
{
    let marks = spell_eight(bytes, txs)?;
    Ok(ids_between(bytes.as_slice(), &marks, txs))
}

// Adds the ids of all transactions but those after the last eight, and gives how many they are.
fn put_ids_by_eights(alloc: Global, ids: &mut Vec<Id>, txs: &[Tx]) -> Result<usize, Memory>
    ensures whole { IfOk result (λ n. n ≤ length txs.now) }
    ensures value { IfOk result (λ n. ids.new.items ≡ ids.old.items ++ ids_of (take n txs.now)) }
{
    let mut bytes = Vec::new(alloc);
    let turns = txs.len() / LANES;
    'turns: for k in 0..turns {
        ids.extend_from_slice(&ids_of_eight(&mut bytes, &txs[LANES * k..LANES * k + LANES])?)?;
    }
    Ok(LANES * turns)
}

/// The ids of transactions, in order. Eight at once are spelled into one buffer and hashed.
pub fn ids(alloc: Global, txs: &[Tx]) -> Result<Vec<Id>, Memory>
    ensures { IfOk result (λ ids. ids.items ≡ ids_of txs.now) }
{
    let mut ids = Vec::with_capacity(alloc, txs.len())?;
    let start = put_ids_by_eights(alloc, &mut ids, txs)?;
    for k in start..txs.len() {
        ids.push(txs[k].id())?;
    }
    Ok(ids)
}
