//! The program of the command line, with a gate round each script and with streams that fail.
#![tactic(auto)]

mod play;

use anyhow::Context;
use doors::{Meeting, Options};
use play::play_program;
use std::env;

fn main(rt: HostRuntime) -> anyhow::Result<()> {
    let words: Vec<String> = env::args(&rt)?.skip(1).collect(rt.alloc())?;
    let options = Options::read(words.as_slice());
    let options = options.context("gated program - [NAME=NUMBER ..] -- WORD ..: see README.md")?;
    let gate = Meeting::new(
        options.number("wanted", 0),
        options.number("looks", 10_000_000),
    );
    play_program(&rt, &options, rt.stdin(), &gate)?;
    if options.text("wanted").is_some() {
        println!(&rt; "{}", gate.seen(rt.alloc())?)?;
    }
    Ok(())
}
