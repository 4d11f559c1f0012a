//! CHECKLOCKTIMEVERIFY and CHECKSEQUENCEVERIFY (BIPs 65 and 112).

ghost use Rattle.std.specs.Prelude.{◌≡◌, ◌<◌, ◌^◌, ◌==◌, length, Bool};
ghost use Rattle.interp.specs.ScriptContext.{sequence_of};
ghost use Rattle.txn.specs.LockTime.{is_height};
ghost use Rattle.interp.specs.Timelocks.{locks_until, is_as_long, locks_for};
ghost use Rattle.interp.specs.Timelocks.{is_met};

use crate::element::natural;
use crate::running::Running;
use txn::LOCKTIME_THRESHOLD;
use txn::sequence::{SEQUENCE_FINAL, duration, has_relative_locks, is_disabled, is_time};

/// How many bytes a lock on the stack has at most.
pub const MAX_LOCK: usize = 5;

fn sequence(running: &Running) -> u32
    requires { running.now.input < length running.now.tx.now.inputs }
    ensures { result ≡ sequence_of running.now.tx.now running.now.input }
{
    let tx = running.tx;
    tx.inputs.as_slice()[running.input].sequence
}

fn is_height(lock_time: u64) -> bool
    ensures { result ≡ is_height lock_time }
{
    lock_time < u64::from(LOCKTIME_THRESHOLD)
}

/// Whether the transaction can't be in a block before this height or time.
#[tactic(auto, unfolding(crate::specs::Timelocks::locks_until))]
fn locks_until(running: &Running, n: u64) -> bool
    requires { running.now.input < length running.now.tx.now.inputs }
    ensures { result ≡ locks_until running.now.tx.now running.now.input n }
{
    let tx = running.tx;
    let lock_time = u64::from(tx.lock_time);
    is_height(n) == is_height(lock_time) && n <= lock_time && sequence(running) != SEQUENCE_FINAL
}

/// Whether the input's relative lock is as long at least.
#[tactic(auto, unfolding(crate::specs::Timelocks::is_as_long))]
fn is_as_long(n: u64, sequence: u64) -> bool
    ensures { result ≡ is_as_long n sequence }
{
    is_time(n) == is_time(sequence) && duration(n) <= duration(sequence)
}

/// Whether the input waits for as many blocks or seconds as this lock asks for.
#[tactic(auto, unfolding(crate::specs::Timelocks::locks_for))]
fn locks_for(running: &Running, n: u64) -> bool
    requires { running.now.input < length running.now.tx.now.inputs }
    ensures { result ≡ locks_for running.now.tx.now running.now.input n }
{
    let sequence = u64::from(sequence(running));
    is_disabled(n)
        || has_relative_locks(running.tx) && !is_disabled(sequence) && is_as_long(n, sequence)
}

/// What CHECKLOCKTIMEVERIFY asks of the element on top (BIP 65).
#[tactic(auto, unfolding(crate::specs::Timelocks::is_met))]
pub fn meets_lock_time(running: &Running, top: &[u8]) -> bool
    requires { running.now.input < length running.now.tx.now.inputs }
    ensures { result ≡ is_met (λ n. locks_until running.now.tx.now running.now.input n) top.now }
{
    match natural(top, MAX_LOCK) {
        Some(n) => locks_until(running, n),
        None => false,
    }
}

/// What CHECKSEQUENCEVERIFY asks of the element on top (BIP 112).
#[tactic(auto, unfolding(crate::specs::Timelocks::is_met))]
pub fn meets_sequence(running: &Running, top: &[u8]) -> bool
    requires { running.now.input < length running.now.tx.now.inputs }
    ensures { result ≡ is_met (λ n. locks_for running.now.tx.now running.now.input n) top.now }
{
    match natural(top, MAX_LOCK) {
        Some(n) => locks_for(running, n),
        None => false,
    }
}
