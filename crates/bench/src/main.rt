//! Times one workload, or does each of them at a small size.
#![tactic(auto)]

mod chain_work;
mod check;
mod clock;
mod codec;
mod coin_work;
mod connections;
mod early_work;
mod fault;
mod hashes;
mod node_work;
mod plan;
mod queues;
mod read_work;
mod scripts;
mod seat_work;
mod signed_inputs;
mod words;
mod workload;

use std::process::ExitCode;

fn main(rt: HostRuntime) -> ExitCode {
    let mut err = rt.stderr();
    words::status(words::attempt(&rt, &mut rt.stdout()), &mut err)
}
