//! How far the work is, for who waits for it.

use reference::Watch;
use std::io::Write;
use std::time::{Clock, Duration, Instant};

/// How many seconds lie between two lines, at least.
const PAUSE: u64 = 1;

/// Reports on a stream how far a run or an audit is.
#[derive(Drop)]
pub struct Progress<'c, 'e, C, E> {
    clock: &'c C,
    stream: &'e mut E,
    work: WorkDone,
    /// None where nothing is to be told, or the clock can't be read.
    times: Option<Times>,
}

/// What was done so far.
#[derive(Clone, Copy)]
enum WorkDone {
    /// How many commands were answered, and how many of them were submissions.
    Run { commands: u64, blocks: u64 },
    /// How many lines were replayed, and how many blocks the journal has.
    Audit { lines: u64, blocks: u64 },
}

/// When the work began, and when the last line was told.
#[derive(Clone, Copy)]
struct Times {
    begun: Instant,
    told: Instant,
}

impl<'c, 'e, C: Clock, E: Write> Progress<'c, 'e, C, E> {
    /// Of a run that begins now. Only where it is wanted something is told.
    pub fn new(clock: &'c C, stream: &'e mut E, is_wanted: bool) -> Progress<'c, 'e, C, E> {
        Progress {
            clock,
            stream,
            work: WorkDone::Run {
                commands: 0,
                blocks: 0,
            },
            times: if is_wanted { begun(clock) } else { None },
        }
    }

    /// One more command was answered.
    pub fn count(&mut self, is_submission: bool) {
        if let WorkDone::Run { commands, blocks } = self.work {
            self.work = WorkDone::Run {
                commands: commands.saturating_add(1),
                blocks: blocks.saturating_add(u64::from(is_submission)),
            };
            self.tell_at_times();
        }
    }

    /// A replay of so many lines and blocks begins.
    pub fn begin_replay(&mut self, lines: usize, blocks: usize) {
        if self.times.is_some() {
            let _ = writeln!(
                self.stream,
                "regchain: replaying {lines} lines, {blocks} blocks"
            );
        }
        self.work = WorkDone::Audit {
            lines: 0,
            blocks: blocks as u64,
        };
    }

    /// The work has ended.
    pub fn end(&mut self) {
        if let (Some(times), Ok(now)) = (self.times, Instant::now(self.clock)) {
            self.tell(now.duration_since(times.begun));
        }
    }

    /// Reports how far it is, where the last report is old enough.
    fn tell_at_times(&mut self) {
        let Some(times) = self.times else {
            return;
        };
        let Ok(now) = Instant::now(self.clock) else {
            return;
        };
        if now.duration_since(times.told).as_secs() >= PAUSE {
            self.times = Some(Times { told: now, ..times });
            self.tell(now.duration_since(times.begun));
        }
    }

    /// Writes a line. Where that fails the work goes on.
    fn tell(&mut self, passed: Duration) {
        let millis = passed.as_millis().max(1);
        let _ = match self.work {
            WorkDone::Run { commands, blocks } => {
                let rate = u128::from(blocks) * 1000 / millis;
                writeln!(
                    self.stream,
                    "regchain: {blocks} blocks, {rate} a second, {commands} commands"
                )
            }
            WorkDone::Audit { lines, blocks } => {
                let rate = u128::from(lines) * 1000 / millis;
                writeln!(
                    self.stream,
                    "regchain: {blocks} blocks, {lines} lines, {rate} a second"
                )
            }
        };
    }
}

/// The times of work that begins now, where there is a clock.
fn begun<C: Clock>(clock: &C) -> Option<Times> {
    match Instant::now(clock) {
        Ok(now) => Some(Times {
            begun: now,
            told: now,
        }),
        Err(_) => None,
    }
}

impl<C: Clock, E: Write> Watch for Progress<'_, '_, C, E> {
    fn done(&mut self, commands: usize) {
        if let WorkDone::Audit { blocks, .. } = self.work {
            self.work = WorkDone::Audit {
                lines: commands as u64,
                blocks,
            };
            self.tell_at_times();
        }
    }
}
