//! Plays a list of commands at one door, and prints what was answered: a line for each.
#![tactic(auto)]

mod allocations;
mod answer;
mod at_once;
mod board;
mod chain_play;
mod chainstates;
mod handover;
mod inside;
mod log;
mod node_play;
mod play;
mod round;
mod seat_calls;
mod state;
mod texts;

use anyhow::Context;
use doors::{Meeting, Options};
use play::play;
use std::env;
use texts::print_texts;

fn main(rt: HostRuntime) -> anyhow::Result<()> {
    let words: Vec<String> = env::args(&rt)?.skip(1).collect(rt.alloc())?;
    let options = Options::read(words.as_slice());
    let options = options.context("player DOOR LIST [NAME=NUMBER ..] [-- WORD ..]: see README.md")?;
    let gate = Meeting::new(
        options.number("wanted", 0),
        options.number("looks", 10_000_000),
    );
    match options.door {
        "texts" => print_texts(&rt)?,
        _ => play(&rt, &options, rt.stdin(), &gate)?,
    }
    if options.text("wanted").is_some() {
        println!(&rt; "{}", gate.seen(rt.alloc())?)?;
    }
    Ok(())
}
