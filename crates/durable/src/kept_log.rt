//! A log that knows of itself that it is sound, so that it may be handed on, and lie under a lock.

ghost use Rattle.std.specs.Prelude.{◌≡◌, ◌≤◌, ◌++◌, ◌∷◌, [], length, take, drop, IfOk, IfErr};
ghost use Rattle.std.proofs.Props.{props};
ghost use Rattle.durable.specs.inside.Props.{whole-prop, up_to-prop};
ghost use Rattle.durable.specs.Lines.{lines};
ghost use Rattle.durable.specs.KeptSteps.{KeepsBetween, HasFailed};
ghost use Rattle.durable.specs.Log.{file_of, history, IsSound, KeepsThrough, as_told, heard, FirstWaits};

use crate::host::Host;
use crate::log::{Answer, AppendFault, Log};
use crate::lost::Lost;
use crate::uncut_log::UncutLog;
use std::alloc::Global;

/// A log over a host. It takes no call after one of the host's has failed: then the host alone is left.
#[derive(Drop)]
pub struct KeptLog<H: Host> {
    log: Log<H>,
    ghost sound: { IsSound H.calls log } by { Prim.hlevel (props, whole-prop, up_to-prop) },
}

impl<H: Host> KeptLog<H> {
    /// The log of a file. What follows its whole lines is cut off.
    pub fn open(alloc: Global, uncut: UncutLog<H>) -> Result<KeptLog<H>, Lost<H::Failure, H>>
        ensures history { IfOk result (λ log.
            history H.calls log.log ≡ lines (file_of H.calls uncut.host)) }
        ensures any_moment { IfOk result (λ log. KeepsBetween
            (lines (file_of H.calls uncut.host)) (H.calls uncut.host) (H.calls log.log.host)) }
        ensures lost { IfErr result (λ lost. KeepsBetween
            (lines (file_of H.calls uncut.host)) (H.calls uncut.host) (H.calls lost.host)) }
        ensures failed { IfErr result (λ lost. HasFailed (H.calls lost.host)) }
    {
        match Log::open(alloc, uncut) {
            Ok(log) => Ok(KeptLog { log }),
            Err(lost) => Err(lost),
        }
    }

    /// How many lines it has.
    pub fn count(&self) -> u64
        ensures { result ≡ self.now.log.count }
    {
        self.log.count
    }

    /// Its host alone.
    pub fn into_host(self) -> H
        ensures { result ≡ self.log.host }
    {
        let KeptLog { log } = self;
        let Log { host, .. } = log;
        host
    }

    /// Takes in a line, which waits for the next round.
    pub fn append(self, line: Vec<u8>) -> Result<KeptLog<H>, Lost<AppendFault, H>>
        ensures appended { IfOk result (λ log.
            history H.calls log.log ≡ history H.calls self.log ++ line.items ∷ []) }
        ensures host { IfOk result (λ log. log.log.host ≡ self.log.host) }
        ensures lost { IfErr result (λ lost. lost.host ≡ self.log.host) }
    {
        let KeptLog { mut log } = self;
        match log.append(line) {
            Ok(()) => Ok(KeptLog { log }),
            Err(fault) => Err(host_of(fault, log)),
        }
    }

    /// Brings all that waits onto the disk, and lets answers out then, in their order, up to the first that tells of more:
    /// how many went.
    pub fn round(self, answers: &[Answer]) -> Result<(KeptLog<H>, usize), Lost<H::Failure, H>>
        ensures same { IfOk result (λ r. history H.calls r.0.log ≡ history H.calls self.log) }
        ensures all { IfOk result (λ r. r.0.log.durable ≡ length (history H.calls self.log)) }
        ensures went { IfOk result (λ r.
            heard H.calls r.0.log ≡ heard H.calls self.log ++ as_told (take r.1 answers.now)) }
        ensures waits { let steps = length (history H.calls self.log) in
            IfOk result (λ r. FirstWaits steps (drop r.1 answers.now)) }

        // A crash at any moment leaves a beginning of the history that has every step that anyone was told of.
        ensures any_moment { IfOk result (λ r. KeepsThrough H.calls self.log r.0.log) }
        ensures lost { let before = H.calls self.log.host in IfErr result (λ lost.
            KeepsBetween (history H.calls self.log) before (H.calls lost.host)) }
        ensures failed { IfErr result (λ lost. HasFailed (H.calls lost.host)) }
    {
        let KeptLog { mut log } = self;
        match log.round(answers) {
            Ok(went) => Ok((KeptLog { log }, went)),
            Err(fault) => Err(host_of(fault, log)),
        }
    }
}

/// What is left of a log.
fn host_of<F, H: Host>(fault: F, log: Log<H>) -> Lost<F, H>
    ensures { result.host ≡ log.host }
{
    let Log { host, .. } = log;
    Lost { fault, host }
}
