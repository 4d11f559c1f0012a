//! A log of lines. They wait in memory until a commit brings all onto the disk, by one write and one sync.

ghost use Rattle.std.specs.Prelude.{◌≡◌, ◌≤◌, ◌^◌, ◌-◌, ◌↔◌, ◌++◌, ◌∷◌, [], IsTrue, Decides};
ghost use Rattle.std.specs.Prelude.{if◌then◌else◌, false, length, take, drop, IfOk, IfErr, OnOk, OnErr, IsErrOf};
ghost use Rattle.durable.specs.Crash.{Synced, file_after};
ghost use Rattle.durable.specs.Lines.{lines, AreWhole, IsLine};
ghost use Rattle.durable.specs.KeptSteps.{told, AreUpTo, KeepsBetween, HasFailed};
ghost use Rattle.durable.specs.Log.{on_disk, file_of, history, IsSound, KeepsThrough, as_told, heard, FirstWaits};
ghost use Rattle.durable.specs.declared.log.AppendFault.TheVariants as faults;

use crate::host::Host;
use crate::lines::recover;
use crate::lost::Lost;
use crate::uncut_log::UncutLog;
use std::alloc::{AllocError, AllocFailed, Global};

/// A log over a host: what is on the disk, and the lines that wait.
#[derive(Drop)]
pub struct Log<H: Host> {
    pub host: H,
    /// How many lines are on the disk.
    pub durable: u64,
    /// How many lines there are.
    pub count: u64,
    /// The lines that wait, each with its end.
    pub pending: Vec<u8>,
}

/// An answer, and of how many steps it tells.
#[derive(Drop)]
pub struct Answer {
    pub stamp: u64,
    pub line: Vec<u8>,
}

/// Why a line isn't appended.
#[derive(Clone, Copy, Debug, PartialEq, Eq)]
pub enum AppendFault {
    Memory,
    /// A byte of it is zero or an end of line.
    NoLine,
    /// There are 2^64 - 1 lines.
    Full,
}

impl From<AllocError> for AppendFault {
    ghost from_gives = { λ _ fault. fault ≡ faults.Memory };

    fn from(_error: AllocError) -> AppendFault {
        AppendFault::Memory
    }
}

impl<T: Drop> From<AllocFailed<T>> for AppendFault {
    ghost from_gives = { λ _ fault. fault ≡ faults.Memory };

    fn from(_error: AllocFailed<T>) -> AppendFault {
        AppendFault::Memory
    }
}

impl<H: Host> Log<H> {
    /// The log of a file. What follows its whole lines is cut off.
    pub fn open(alloc: Global, uncut: UncutLog<H>) -> Result<Log<H>, Lost<H::Failure, H>>
        ensures sound { IfOk result (λ log. IsSound H.calls log) }
        ensures history { IfOk result (λ log.
            history H.calls log ≡ lines (file_of H.calls uncut.host)) }
        ensures any_moment { IfOk result (λ log. KeepsBetween
            (lines (file_of H.calls uncut.host)) (H.calls uncut.host) (H.calls log.host)) }
        ensures lost { IfErr result (λ lost. KeepsBetween
            (lines (file_of H.calls uncut.host)) (H.calls uncut.host) (H.calls lost.host)) }
        ensures failed { IfErr result (λ lost. HasFailed (H.calls lost.host)) }
    {
        let UncutLog { host, found, len } = uncut;
        let mut host = host;
        match recover(&mut host, found, len) {
            Ok(()) => Ok(Log::new(alloc, host, found.count)),
            Err(fault) => Err(Lost { fault, host }),
        }
    }

    /// The log of a file with whole lines alone, all of it on the disk: so many.
    fn new(alloc: Global, host: H, count: u64) -> Log<H>
        requires synced { file_after (H.calls host) ≡ Synced (on_disk (file_after (H.calls host))) }
        requires whole { AreWhole false (on_disk (file_after (H.calls host))) }
        requires count { count ≡ length (lines (on_disk (file_after (H.calls host)))) }
        requires no_more { AreUpTo count (told (H.calls host)) }

        ensures sound { IsSound H.calls result }
        ensures history { history H.calls result ≡ lines (on_disk (file_after (H.calls host))) }
        ensures host { result.host ≡ host }
    {
        Log {
            host,
            durable: count,
            count,
            pending: Vec::new(alloc),
        }
    }

    /// Takes in a line, which waits for the next commit. After a fault nothing has changed.
    pub fn append(&mut self, line: Vec<u8>) -> Result<(), AppendFault>
        requires { IsSound H.calls self.old }

        ensures sound { IsSound H.calls self.new }
        ensures appended { OnOk result
            (history H.calls self.new ≡ history H.calls self.old ++ line.items ∷ []) }
        ensures same { OnErr result (history H.calls self.new ≡ history H.calls self.old) }
        ensures host { self.new.host ≡ self.old.host }
        ensures durable { self.new.durable ≡ self.old.durable }
        ensures no_line { IsErrOf result faults.NoLine → IsLine line.items → ⊥ }
        ensures full { IsErrOf result faults.Full → self.old.count ≡ 2 ^ 64 - 1 }
    {
        if !is_line(&line) {
            return Err(AppendFault::NoLine);
        }
        let Some(count) = self.count.checked_add(1) else {
            return Err(AppendFault::Full);
        };
        let mut line = line;
        line.push(b'\n')?;
        self.pending.extend_from_slice(&line)?;
        self.count = count;
        Ok(())
    }

    /// Brings all that waits onto the disk. After a fault the file has to be opened again.
    pub fn commit(&mut self) -> Result<(), H::Failure>
        requires { IsSound H.calls self.old }

        ensures sound { OnOk result (IsSound H.calls self.new) }
        ensures same { OnOk result (history H.calls self.new ≡ history H.calls self.old) }
        ensures all { OnOk result (self.new.durable ≡ length (history H.calls self.old)) }
        ensures told { heard H.calls self.new ≡ heard H.calls self.old }
        ensures any_moment { KeepsThrough H.calls self.old self.new }
        ensures failed { OnErr result (HasFailed (H.calls self.new.host)) }
    {
        if self.pending.is_empty() {
            return Ok(());
        }
        self.host.append(&self.pending)?;
        self.host.sync()?;
        self.durable = self.count;
        self.pending.clear();
        Ok(())
    }

    /// Lets an answer out if the disk has the steps that it tells of. Else it waits.
    pub fn tell(&mut self, answer: &Answer) -> Result<bool, H::Failure>
        requires { IsSound H.calls self.old }

        ensures sound { IsSound H.calls self.new }
        ensures same { history H.calls self.new ≡ history H.calls self.old }
        ensures durable { self.new.durable ≡ self.old.durable }
        ensures went { IfOk result (λ went. IsTrue went ↔ (answer.now.stamp ≤ self.old.durable)) }
        ensures told { IfOk result (λ went. heard H.calls self.new ≡ heard H.calls self.old
            ++ (if went then (answer.now.stamp, answer.now.line.items) ∷ [] else [])) }
        ensures any_moment { KeepsThrough H.calls self.old self.new }
        ensures failed { OnErr result (HasFailed (H.calls self.new.host)) }
    {
        if answer.stamp > self.durable {
            return Ok(false);
        }
        self.host.tell(answer.stamp, &answer.line)?;
        Ok(true)
    }

    /// Lets answers out, in their order, up to the first that waits: how many went.
    fn let_go(&mut self, answers: &[Answer]) -> Result<usize, H::Failure>
        requires { IsSound H.calls self.old }

        ensures sound { IsSound H.calls self.new }
        ensures same { history H.calls self.new ≡ history H.calls self.old }
        ensures durable { self.new.durable ≡ self.old.durable }
        ensures went { IfOk result (λ n.
            heard H.calls self.new ≡ heard H.calls self.old ++ as_told (take n answers.now)) }
        ensures waits { IfOk result (λ n. FirstWaits self.old.durable (drop n answers.now)) }
        ensures any_moment { KeepsThrough H.calls self.old self.new }
        ensures failed { OnErr result (HasFailed (H.calls self.new.host)) }
    {
        for place in 0..answers.len() {
            if !self.tell(&answers[place])? {
                return Ok(place);
            }
        }
        Ok(answers.len())
    }

    /// Brings all that waits onto the disk, and lets answers out then, in their order, up to the first that tells of more:
    /// how many went. After a fault the file has to be opened again.
    pub fn round(&mut self, answers: &[Answer]) -> Result<usize, H::Failure>
        requires { IsSound H.calls self.old }

        ensures sound { OnOk result (IsSound H.calls self.new) }
        ensures same { OnOk result (history H.calls self.new ≡ history H.calls self.old) }
        ensures all { OnOk result (self.new.durable ≡ length (history H.calls self.old)) }
        ensures went { IfOk result (λ n.
            heard H.calls self.new ≡ heard H.calls self.old ++ as_told (take n answers.now)) }
        ensures waits { let steps = length (history H.calls self.old) in
            IfOk result (λ n. FirstWaits steps (drop n answers.now)) }

        // A crash at any moment leaves a beginning of the history that has every step that anyone was told of.
        ensures any_moment { KeepsThrough H.calls self.old self.new }

        // It gives up only where the host failed.
        ensures failed { OnErr result (HasFailed (H.calls self.new.host)) }
    {
        self.commit()?;
        self.let_go(answers)
    }
}

/// Whether it can be a line.
fn is_line(bytes: &[u8]) -> bool
    ensures { Decides result (IsLine bytes.now) }
{
    for place in 0..bytes.len() {
        let byte = bytes[place];
        if byte == 0 || byte == b'\n' {
            return false;
        }
    }
    true
}
