//! A transaction of many inputs, each of which is signed by itself.

use crate::check::Check;
use crate::clock::{Outcome, Timer};
use crate::fault::BenchFault;
use crate::scripts::accepted;
use interp::{Flags, Job};
use sighash::{Midstates, SpentScripts};
use signatures::Table;
use std::alloc::Global;
use std::rt::Clock;
use txn::Tx;
use workloads::inputs::lists::put;
use workloads::inputs::signed_transaction::{Signed, of_inputs};
use workloads::inputs::spends::ALL;

/// This many digests of a transaction of 1,000 inputs, each of which has a push that ends as a signature of type ALL does.
pub fn digests<R: AllocGlobal + Clock>(rt: &R, size: usize) -> Result<Outcome, BenchFault> {
    let tx = of_inputs(rt.alloc(), 1000, &[1, ALL])?;
    let timer = Timer::start(rt);
    timer.stop(rt, last_digest(rt.alloc(), &tx, size))
}

/// The last of so many digests of a transaction's inputs.
fn last_digest(alloc: Global, tx: &Tx, count: usize) -> Result<Check, BenchFault> {
    let code = [OP_CHECKSIG; 25];
    let spent = OneScript(code.as_slice());
    let midstates = Midstates::of(alloc, tx, 0, &spent)?;
    let mut last = [0; 32];
    for number in 0..count {
        last = shared_digest(&midstates, number % 1000, code.as_slice());
    }
    Ok(Check::of_digest(last))
}

/// What a signature of an input signs, by ALL. Where there is no such input, zeros.
fn shared_digest(midstates: &Midstates, input: usize, code: &[u8]) -> [u8; 32] {
    let tx = midstates.tx;
    if input < tx.inputs.len() {
        return midstates.digest(input, &[code], u32::from(ALL));
    }
    [0; 32]
}

const OP_CHECKSIG: u8 = 0xac;

/// The script that all inputs spend.
#[derive(Drop)]
struct OneScript<'a>(&'a [u8]);

impl<'a> SpentScripts for OneScript<'a> {
    fn script(&self, _place: usize, _input: usize) -> Option<&[u8]> {
        Some(self.0)
    }
}

/// How many inputs of such a transaction are accepted.
fn accepted_in(alloc: Global, signed: &Signed, table: &Table) -> Result<Check, BenchFault> {
    let spent = OneScript(signed.spent.as_slice());
    let midstates = Midstates::of(alloc, &signed.tx, 0, &spent)?;
    accepted_by(alloc, &midstates, signed.spent.as_slice(), table)
}

/// How many inputs of a transaction are accepted, whose digests share its midstates.
fn accepted_by<'a>(
    alloc: Global,
    midstates: &'a Midstates<'a>,
    spent: &'a [u8],
    table: &Table,
) -> Result<Check, BenchFault> {
    let jobs = jobs(alloc, midstates, spent)?;
    Ok(Check::Count(accepted(alloc, jobs.as_slice(), table)?))
}

/// A job for each input of a transaction, whose digests share its midstates.
fn jobs<'a>(
    alloc: Global,
    midstates: &'a Midstates<'a>,
    spent: &'a [u8],
) -> Result<Vec<Job<'a>>, BenchFault> {
    let mut jobs = Vec::new(alloc);
    let tx = midstates.tx;
    for input in 0..tx.inputs.len() {
        put(&mut jobs, shared_job(midstates, input, spent))?;
    }
    Ok(jobs)
}

fn shared_job<'a>(midstates: &'a Midstates<'a>, input: usize, spent: &'a [u8]) -> Job<'a> {
    Job {
        tx: midstates.tx,
        input,
        spent,
        flags: Flags::ALL,
        midstates: Some(midstates),
    }
}

/// CHECKSIG of each input of one transaction of so many.
pub fn each_input<R: AllocGlobal + Clock>(rt: &R, size: usize) -> Result<Outcome, BenchFault> {
    let signed = Signed::new(rt.alloc(), size)?;
    let table = signed.table(rt.alloc())?;
    let timer = Timer::start(rt);
    timer.stop(rt, accepted_in(rt.alloc(), &signed, &table))
}
