//! Proof of work.

ghost use Rattle.std.specs.Prelude.{◌≡◌, ◌==◌, IsTrue, ◌↔◌};
ghost use Rattle.std.specs.List.{list_all};
ghost use Rattle.block.specs.Target.{MeetsTarget, meets_target};

use byteorder::{ByteOrder, LittleEndian};
use hash::Id;
use wire::in_range;

/// The highest three bytes of regtest's target; the others are zero.
const TARGET_TOP: u64 = 0x7f_ffff;

/// Whether a block of this id has regtest's proof of work, whatever its bits say (Bitcoin Core's
/// `CheckProofOfWork`).
pub fn meets_target(id: &Id) -> bool
    ensures target { IsTrue result ↔ MeetsTarget id.now }
    // The same, as a test.
    ensures test { result ≡ meets_target id.now }
{
    let bytes = in_range(&id.0);
    let (low, high) = bytes.split_at(29);
    let top = LittleEndian::read_uint(high, 3);
    top < TARGET_TOP || (top == TARGET_TOP && is_zero(low))
}

/// Whether each byte is zero.
pub(crate) fn is_zero(bytes: &[u8]) -> bool
    ensures { result ≡ list_all (λ byte. byte == 0) bytes.now }
{
    bytes.iter().all(|byte| *byte == 0)
}
