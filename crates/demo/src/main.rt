//! Answers lines by the chainstate of one thread: what `./demo` shows.
#![tactic(auto)]

mod desk;
mod request;

use anyhow::Context;
use desk::Desk;
use request::Request;
use signatures::Table;

fn main(rt: HostRuntime) -> anyhow::Result<()> {
    let table = Table::new(rt.alloc());
    let mut desk = Desk::new(rt.alloc(), &table)?;
    answer_lines(&rt, &mut desk)
}

fn answer_lines(rt: &HostRuntime, desk: &mut Desk<'_>) -> anyhow::Result<()> {
    for line in rt.lines(rt.alloc()) {
        answer_line(rt, desk, line?.as_str())?;
    }
    Ok(())
}

fn answer_line(rt: &HostRuntime, desk: &mut Desk<'_>, line: &str) -> anyhow::Result<()> {
    let request = Request::read(rt.alloc(), line)?;
    desk.answer(rt, &request.context("a line can't be read")?)
}
