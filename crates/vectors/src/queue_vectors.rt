//! Verdicts got before.

ghost use Rattle.std.specs.Prelude.{◌≡◌, ◌<◌, ◌≤◌, ◌^◌, length, All, IsTrue};
ghost use Rattle.signatures.specs.Known.{all_known};
ghost use Rattle.queue.specs.Jobs.{HasInput, known_then};

use hash::Id;
use interp::{Flags, Job};
use queue::{
    Alone, Crew, EarlyJobs, Gate, Runs, Source, Threaded, Verdicts, check_early, first_failure,
};
use signatures::Table;
use std::alloc::{AllocError, Global};
use std::sync::atomic::AtomicU64;
use std::sync::atomic::Ordering::SeqCst;
use std::test::Fail;
use std::thread::Threads;
use txn::{Inputs, OutPoint, Outputs, Script, Tx, TxIn};
use wire::Memory;

/// A script that accepts, one that refuses.
const GOOD: &[u8] = &[0x51];

const BAD: &[u8] = &[0x00];

/// A transaction of so many inputs with empty scripts.
fn transaction(alloc: Global, count: usize) -> Result<Tx, AllocError> {
    let mut inputs = Vec::new(alloc);
    for index in 0..count.min(1000) as u32 {
        inputs.push(TxIn {
            prev: OutPoint {
                id: Id([7; 32]),
                index,
            },
            script: Script::from_vec(Vec::new(alloc)),
            sequence: 0,
        })?;
    }
    Ok(Tx {
        version: 1,
        inputs: Inputs::from_vec(inputs),
        outputs: Outputs::from_vec(Vec::new(alloc)),
        lock_time: 0,
    })
}

/// Jobs to be run early: of the first transaction's inputs, which spend these scripts, as far as it has some.
fn early<'t>(alloc: Global, txs: &'t [Tx], spent: &[&[u8]]) -> Result<EarlyJobs<'t>, Memory> {
    let mut jobs = EarlyJobs::new(alloc, txs, Flags::ALL);
    for (input, script) in spent.iter().enumerate() {
        if txs.is_empty() {
            break;
        }
        let tx = &txs[0];
        if input < tx.inputs.len() {
            jobs.push(0, input, Vec::from_slice(alloc, *script)?)?;
        }
    }
    Ok(jobs)
}

/// Counts the jobs that begin and those that end, and adds up the places of the first.
#[derive(Drop)]
struct JobCounts {
    count: AtomicU64,
    places: AtomicU64,
    ended: AtomicU64,
}

impl JobCounts {
    /// How many began, the sum of their places, and how many ended.
    fn sums(&self) -> [u64; 3] {
        [
            self.count.load(SeqCst),
            self.places.load(SeqCst),
            self.ended.load(SeqCst),
        ]
    }

    fn new() -> JobCounts {
        JobCounts {
            count: AtomicU64::new(0),
            places: AtomicU64::new(0),
            ended: AtomicU64::new(0),
        }
    }
}

impl Gate for JobCounts {
    fn begin(&self, job: usize) {
        self.count.fetch_add(1, SeqCst);
        self.places.fetch_add(job as u64, SeqCst);
    }

    fn end(&self, _job: usize) {
        self.ended.fetch_add(1, SeqCst);
    }
}

/// Scripts that are run early, and a job that is asked for then.
struct Row {
    name: &'static str,
    /// The scripts that the inputs of a transaction spend, and whether each accepts.
    early: &'static [&'static [u8]],
    accepted: &'static [bool],
    /// The script that the first input of an equal transaction spends, and under which rules.
    spent: &'static [u8],
    flags: Flags,
    /// What is answered to that job.
    answer: Option<usize>,
    /// How many scripts begin in all, where the caller alone is asked and then two workers, the sum of their places, and how
    /// many end.
    sums: [u64; 3],
}

/// One script that accepts under all rules, and the same job.
const SAME: Row = Row {
    name: "the same job",
    early: &[GOOD],
    accepted: &[true],
    spent: GOOD,
    flags: Flags::ALL,
    answer: None,
    sums: [1, 0, 1],
};

const ROWS: [Row; 4] = [
    SAME,
    Row {
        name: "other rules",
        flags: Flags::NONE,
        sums: [3, 0, 3],
        ..SAME
    },
    Row {
        name: "another script",
        spent: BAD,
        answer: Some(0),
        sums: [3, 0, 3],
        ..SAME
    },
    Row {
        name: "more verdicts than jobs",
        early: &[GOOD, BAD, GOOD],
        accepted: &[true, false, true],
        sums: [3, 3, 3],
        ..SAME
    },
];

#[test]
fn a_verdict_is_of_an_equal_job_alone(rt: HostRuntime) -> Result<(), Fail> {
    for row in &ROWS {
        assert!(rt; is_as_told(&rt, row)?, "{}", row.name);
    }
    Ok(())
}

/// Whether scripts are run and answered as a row has it.
fn is_as_told<R>(rt: &R, row: &Row) -> Result<bool, Memory>
where
    R: Threads + Sync + AllocGlobal,
{
    let alloc = rt.alloc();
    let table = Table::new(alloc);
    let txs = [transaction(alloc, row.early.len())?];
    let gate = JobCounts::new();
    let jobs = early(alloc, &txs, row.early)?;
    let verdicts = [check_early(rt, alloc, jobs, Source::Listed(&table), 2, &gate)?];
    let is_accepted = are_equal(verdicts[0].answers(), row.accepted);
    let equal = transaction(alloc, row.early.len())?;
    let is_answered = is_answered(rt, row, &equal, &verdicts, &table, &gate)?;
    Ok(is_accepted && is_answered && gate.sums() == row.sums)
}

/// Whether each job has an answer, and these they are.
fn are_equal(found: &[Option<bool>], wanted: &[bool]) -> bool {
    for place in 0..wanted.len() {
        let Some(Some(answer)) = found.get(place) else {
            return false;
        };
        if *answer != wanted[place] {
            return false;
        }
    }
    found.len() == wanted.len()
}

/// Whether the job is answered as a row has it, by the caller alone and by two workers.
fn is_answered<R>(
    rt: &R,
    row: &Row,
    tx: &Tx,
    verdicts: &[Verdicts],
    table: &Table,
    gate: &JobCounts,
) -> Result<bool, Memory>
where
    R: Threads + Sync + AllocGlobal,
    requires same_table { All (λ v. known_then v ≡ all_known table.now) verdicts.now }
{
    let jobs = [Job {
        tx,
        input: 0,
        spent: row.spent,
        flags: row.flags,
        midstates: None,
    }];
    if !are_ready(&jobs) {
        return Ok(false);
    }
    let alone = failing(&Alone, rt.alloc(), &jobs, verdicts, table, gate)?;
    let threaded = by_threads(rt, rt.alloc(), &jobs, verdicts, table, gate)?;
    Ok([alone, threaded] == [row.answer; 2])
}

/// Whether each job is of an input that is there.
fn are_ready(jobs: &[Job]) -> bool
    ensures { IsTrue result → All HasInput jobs.now }
{
    jobs.iter().all(|job| {
        let tx = job.tx;
        job.input < tx.inputs.len()
    })
}

/// The least job that isn't accepted, where each is compared by itself with the verdicts.
#[tactic(auto, using(connect::specs::laws::AtTable::tables_early))]
fn failing<'a, C: Crew<Table>>(
    crew: &'a C,
    alloc: Global,
    jobs: &[Job],
    verdicts: &'a [Verdicts<'a>],
    table: &'a Table,
    gate: &(dyn Gate + Sync),
) -> Result<Option<usize>, Memory>
    requires ready { C.is_ready crew.now }
    requires inputs { All HasInput jobs.now }
    requires same_table { All (λ v. known_then v ≡ all_known table.now) verdicts.now }
{
    let runs = Runs {
        by: table,
        early: verdicts,
        crew,
        workers: 2,
    };
    first_failure(alloc, jobs, &[], &runs, gate)
}

/// The same by two workers. The crew is made where its type is a parameter (`connect::Env` says why).
fn by_threads<'a, R: Threads + Sync>(
    rt: &R,
    alloc: Global,
    jobs: &[Job],
    verdicts: &'a [Verdicts<'a>],
    table: &'a Table,
    gate: &(dyn Gate + Sync),
) -> Result<Option<usize>, Memory>
    requires inputs { All HasInput jobs.now }
    requires same_table { All (λ v. known_then v ≡ all_known table.now) verdicts.now }
{
    failing(&Threaded { rt }, alloc, jobs, verdicts, table, gate)
}
