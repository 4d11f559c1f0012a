//! Counts and lists written as bytes.

ghost use Rattle.std.specs.Prelude.{◌≡◌, ◌++◌, OnOk, OnErr};
ghost use Rattle.wire.specs.Numbers.{compact_size};

use crate::compact_size::CompactSize;
use crate::memory::Memory;

/// Writes a count at the end, in the shortest of its forms (Bitcoin Core's `WriteCompactSize`).
///
/// A count above [`LIMIT`](crate::LIMIT) is written too, though no reader takes it back.
pub fn put_compact(out: &mut Vec<u8>, n: u64) -> Result<(), Memory>
    ensures written { OnOk result (out.new.items ≡ out.old.items ++ compact_size n) }
    ensures kept { OnErr result (out.new.items ≡ out.old.items) }
{
    out.extend_from_slice(CompactSize::of(u128::from(n)).as_slice())?;
    Ok(())
}
