//! Whether a transaction is final.

ghost use Rattle.std.specs.Prelude.{◌≡◌, ◌==◌};
ghost use Rattle.std.specs.List.{list_all};
ghost use Rattle.txn.specs.Sequence.{sequence_final};
ghost use Rattle.locks.specs.Finality.{has_passed, is_final};

use txn::sequence::SEQUENCE_FINAL;
use txn::{LOCKTIME_THRESHOLD, Tx, TxIn};

/// Whether a transaction may be in a block of this height (Bitcoin Core's `IsFinalTx`). The cutoff is the
/// time that its lock time must lie below: the median time past of the block's parent (BIP 113).
#[tactic(auto, unfolding(crate::specs::Finality::is_final))]
pub fn is_final(tx: &Tx, height: u32, cutoff: u32) -> bool
    ensures { result ≡ is_final tx.now height cutoff }
{
    tx.lock_time == 0
        || has_passed(tx.lock_time, height, cutoff)
        || asks_for_none(tx.inputs.as_slice())
}

/// Whether a lock time, a height or a time, lies below the block's.
fn has_passed(lock_time: u32, height: u32, cutoff: u32) -> bool
    ensures { result ≡ has_passed lock_time height cutoff }
{
    if lock_time < LOCKTIME_THRESHOLD {
        lock_time < height
    } else {
        lock_time < cutoff
    }
}

/// Whether no input asks for the lock time.
fn asks_for_none(inputs: &[TxIn]) -> bool
    ensures { result ≡ list_all (λ input. input.sequence == sequence_final) inputs.now }
{
    inputs.iter().all(|input| input.sequence == SEQUENCE_FINAL)
}
