//! The program over streams that take so many writes.

use doors::{Meeting, Options};
use program::program_with_gate;
use std::alloc::Global;
use std::fs::File;
use std::io;
use std::io::{ErrorKind, IsTerminal, Print, Read, Write};
use std::rt::Files;
use std::sync::Wait;
use std::thread::Threads;
use std::time::Clock;

/// A stream that takes so many writes, and keeps each by itself.
#[derive(Drop)]
struct Stream {
    alloc: Global,
    left: u64,
    /// Every call of it fails, and it is a terminal.
    is_broken: bool,
    writes: Vec<Vec<u8>>,
}

impl Write for Stream {
    fn write(&mut self, buf: &[u8]) -> io::Result<usize> {
        if self.left == 0 {
            return Err(io::Error::from(ErrorKind::BrokenPipe));
        }
        self.left = self.left.saturating_sub(1);
        self.writes.push(Vec::from_slice(self.alloc, buf)?)?;
        Ok(buf.len())
    }

    fn flush(&mut self) -> io::Result<()> {
        if self.is_broken {
            return Err(io::Error::from(ErrorKind::BrokenPipe));
        }
        Ok(())
    }
}

impl IsTerminal for Stream {
    fn is_terminal(&self) -> bool {
        self.is_broken
    }
}

/// A stream that takes so many writes; one that takes none is broken.
fn stream_of(alloc: Global, left: u64) -> Stream {
    Stream {
        alloc,
        left,
        is_broken: left == 0,
        writes: Vec::new(alloc),
    }
}

/// Runs the program on the words behind `--`, and prints each write, the status and what was seen at the gate.
pub fn play_program<R, I>(
    rt: &R,
    options: &Options<'_>,
    mut input: I,
    gate: &Meeting,
) -> anyhow::Result<()>
where
    R: Files<File = File> + AllocGlobal + Clock + Print + Threads + Wait + Sync,
    I: Read + Send + Drop,
{
    let alloc = rt.alloc();
    let mut out = stream_of(alloc, options.number("writes", u64::MAX));
    let mut err = stream_of(alloc, options.number("errors", u64::MAX));
    let status = program_with_gate(rt, options.rest, gate, &mut input, &mut out, &mut err);
    for (name, writes) in [("out", &out.writes), ("err", &err.writes)] {
        for bytes in writes {
            println!(rt; "{name} {}", bytes.len())?;
            rt.write_all(bytes.as_slice())?;
        }
    }
    println!(rt; "status {status}")?;
    Ok(())
}
