//! Relative locks (BIP 68).

ghost use Rattle.std.specs.Prelude.{◌≡◌, length};
ghost use Rattle.std.specs.List.{list_all, zip};
ghost use Rattle.locks.specs.Relative.{is_met, are_met};

use txn::sequence::{duration, has_relative_locks, is_disabled, is_time};
use txn::{Tx, TxIn};

/// Seconds in a unit of a relative lock that is a time (BIP 68).
const TIME_UNIT: u64 = 512;

/// From where the lock of an input counts.
#[derive(Clone, Copy, Debug, PartialEq, Eq)]
pub struct LockStart {
    /// The height of the block that holds the spent coin.
    pub height: u32,
    /// The median time past of the block before that one, or of genesis where the height is 0.
    pub median: u32,
}

/// Whether a transaction's relative locks are met in a block of this height (BIP 68; Bitcoin Core's
/// `SequenceLocks`). There is a start for each input, in order; the cutoff is the median time past of the
/// block's parent.
#[tactic(auto, unfolding(crate::specs::Relative::are_met))]
pub fn relative_ok(tx: &Tx, starts: &[LockStart], height: u32, cutoff: u32) -> bool
    requires { length starts.now ≡ length tx.now.inputs }
    ensures { result ≡ are_met tx.now starts.now height cutoff }
{
    !has_relative_locks(tx) || is_each_met(tx.inputs.as_slice(), starts, height, cutoff)
}

/// Whether the lock of each input is met.
fn is_each_met(inputs: &[TxIn], starts: &[LockStart], height: u32, cutoff: u32) -> bool
    ensures { result ≡ list_all (λ p.
        is_met height cutoff p.0.sequence p.1) (zip inputs.now starts.now) }
{
    inputs.iter().zip(starts).all(|(input, start)| is_met(input.sequence, start, height, cutoff))
}

/// Whether the lock of an input with this sequence number is met.
#[tactic(auto, unfolding(crate::specs::Relative::is_met))]
fn is_met(sequence: u32, start: &LockStart, height: u32, cutoff: u32) -> bool
    ensures { result ≡ is_met height cutoff sequence start.now }
{
    let sequence = u64::from(sequence);
    if is_disabled(sequence) {
        return true;
    }
    if is_time(sequence) {
        u64::from(start.median) + TIME_UNIT * duration(sequence) <= u64::from(cutoff)
    } else {
        u64::from(start.height) + duration(sequence) <= u64::from(height)
    }
}
