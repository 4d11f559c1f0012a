//! The command line, and the lines that are printed.

use crate::clock::Outcome;
use crate::fault::BenchFault;
use crate::workload::{ALL, Workload};
use std::env;
use std::io::Write;
use std::process::ExitCode;
use std::rt::{Clock, Env};
use std::sync::Wait;
use std::thread::Threads;

/// Does what the words of the process's command line say: with a workload's name and a size that workload, with a
/// line of name, size, seconds and check; without words each of them at its small size, with lines without seconds.
pub fn attempt<R, O>(rt: &R, out: &mut O) -> Result<(), BenchFault>
where
    R: Env + AllocGlobal + Clock + Threads + Wait + Sync,
    O: Write,
{
    let words = words(rt)?;
    match words.as_slice() {
        [] => each_small(rt, out),
        [name, size] => one(rt, out, name.as_str(), size.as_str()),
        _ => Err(BenchFault::Words),
    }
}

/// The words behind the program's own.
fn words<R: Env + AllocGlobal>(rt: &R) -> Result<Vec<String>, BenchFault> {
    Ok(env::args(rt)?.skip(1).collect(rt.alloc())?)
}

fn each_small<R, O>(rt: &R, out: &mut O) -> Result<(), BenchFault>
where
    R: AllocGlobal + Clock + Threads + Wait + Sync,
    O: Write,
{
    for (workload, name, size) in &ALL {
        print_untimed(out, name, *size, workload.run(rt, *size))?;
    }
    Ok(())
}

fn one<R, O>(rt: &R, out: &mut O, name: &str, size: &str) -> Result<(), BenchFault>
where
    R: AllocGlobal + Clock + Threads + Wait + Sync,
    O: Write,
{
    match (Workload::named(name), size.parse::<usize>()) {
        (Some(workload), Ok(size)) => print(out, name, size, workload.run(rt, size)),
        _ => Err(BenchFault::Words),
    }
}

fn print_untimed<O: Write>(
    out: &mut O,
    name: &str,
    size: usize,
    outcome: Result<Outcome, BenchFault>,
) -> Result<(), BenchFault> {
    let check = outcome?.check;
    writeln!(out, "{name} {size} {check}")?;
    Ok(())
}

fn print<O: Write>(
    out: &mut O,
    name: &str,
    size: usize,
    outcome: Result<Outcome, BenchFault>,
) -> Result<(), BenchFault> {
    let Outcome { check, spent } = outcome?;
    let seconds = spent.as_secs_f64();
    writeln!(out, "{name} {size} {seconds:.9} {check}")?;
    Ok(())
}

/// The status of a run, whose fault is told on the standard error.
pub fn status<E: Write>(outcome: Result<(), BenchFault>, err: &mut E) -> ExitCode {
    match outcome {
        Ok(()) => ExitCode::SUCCESS,
        Err(fault) => {
            let _ = write!(err, "{fault}");
            ExitCode::FAILURE
        }
    }
}
