//! What an input's sequence number asks for (BIPs 65, 68 and 112; Bitcoin Core's `CTxIn`).

ghost use Rattle.std.specs.Prelude.{◌≡◌, ◌<◌, ◌^◌};
ghost use Rattle.txn.specs.Sequence.{has_relative_locks, is_disabled, is_time, duration};

use crate::tx::Tx;

/// The sequence number of an input that asks for no lock time.
pub const SEQUENCE_FINAL: u32 = 0xffff_ffff;

const SEQUENCE_LOCKTIME_DISABLE_FLAG: u64 = 1 << 31;

const SEQUENCE_LOCKTIME_TYPE_FLAG: u64 = 1 << 22;

const SEQUENCE_LOCKTIME_MASK: u64 = 0xffff;

/// The least version, as an unsigned number, of a transaction with relative locks.
const LEAST_VERSION: u32 = 2;

/// Whether the inputs of a transaction can have relative locks (BIP 68).
pub fn has_relative_locks(tx: &Tx) -> bool
    ensures { result ≡ has_relative_locks tx.now }
{
    tx.version.cast_unsigned() >= LEAST_VERSION
}

/// Whether an input with this sequence number has no relative lock.
pub fn is_disabled(sequence: u64) -> bool
    ensures { result ≡ is_disabled sequence }
{
    sequence & SEQUENCE_LOCKTIME_DISABLE_FLAG != 0
}

/// Whether a relative lock is a time, and not a number of blocks.
pub fn is_time(sequence: u64) -> bool
    ensures { result ≡ is_time sequence }
{
    sequence & SEQUENCE_LOCKTIME_TYPE_FLAG != 0
}

/// For how long a relative lock is: blocks, or units of 512 seconds.
pub fn duration(sequence: u64) -> u64
    ensures value { result ≡ duration sequence }
    ensures bound { result < 2 ^ 16 }
{
    sequence & SEQUENCE_LOCKTIME_MASK
}
