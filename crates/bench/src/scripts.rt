//! Scripts that are run, and how many of them accept.

use crate::check::Check;
use crate::fault::BenchFault;
use interp::{Job, verify};
use signatures::Table;
use std::alloc::Global;

/// How many jobs are accepted, where all are run so often.
pub fn accepted_in_all(
    alloc: Global,
    jobs: &[Job],
    table: &Table,
    times: usize,
) -> Result<Check, BenchFault> {
    let mut count = 0u64;
    for _ in 0..times {
        count = count.wrapping_add(accepted(alloc, jobs, table)?);
    }
    Ok(Check::Count(count))
}

/// How many jobs are accepted.
pub fn accepted(alloc: Global, jobs: &[Job], table: &Table) -> Result<u64, BenchFault> {
    let mut count = 0u64;
    for job in jobs {
        count = count.wrapping_add(u64::from(is_accepted(alloc, job, table)?));
    }
    Ok(count)
}

fn is_accepted(alloc: Global, job: &Job, table: &Table) -> Result<bool, BenchFault> {
    let tx = job.tx;
    if job.input >= tx.inputs.len() {
        return Ok(false);
    }
    Ok(verify(alloc, job, table)?)
}
