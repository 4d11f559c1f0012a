//! The program that users run.
#![tactic(auto)]

pub use program::program;
use program::{tell_waiting, words};
use std::io::IsTerminal;
use std::process::ExitCode;

fn main(rt: HostRuntime) -> ExitCode {
    let mut err = rt.stderr();
    let Some(words) = words(&rt, &mut err) else {
        return ExitCode::FAILURE;
    };
    let mut input = rt.stdin();
    tell_waiting(words.as_slice(), input.is_terminal(), &mut err);
    let status = program(
        &rt,
        words.as_slice(),
        &mut input,
        &mut rt.stdout(),
        &mut err,
    );
    ExitCode::from(status)
}
