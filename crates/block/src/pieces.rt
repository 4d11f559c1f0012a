//! What is read of a source in several reads.

ghost use Rattle.std.specs.Prelude.{◌≡◌, ◌⊎◌, ◌+◌, ◌^◌, ◌<◌, ◌≤◌, ◌==◌, max, ℕ, List, [], ◌++◌, length, take, IfOk, IfErr, OnOk, is_ok, if◌then◌else◌, MatchBool, vec_capacity};
ghost use Rattle.std.specs.List.{list_all};
ghost use Rattle.block.specs.declared.blk_fault.BlkFault.TheVariants.{Read, Memory};
ghost use Rattle.block.specs.Blk.{IsEnd, Remain, CountsFailures};

use crate::blk_fault::BlkFault;
use crate::source::{ReadFailed, Source};
use crate::target::is_zero;
use std::alloc::Global;

/// How many bytes of a block are read at once.
const PIECE: usize = 65_536;

/// Fills the buffer, or puts all that is to come there. Returns how many bytes came.
pub(crate) fn fill<R: Source>(source: &mut R, buffer: &mut [u8]) -> Result<usize, ReadFailed>
    ensures room { IfOk result (λ end. end ≤ length buffer.new) }
    ensures came { IfOk result (λ end. R.to_come source.old
        ≡ take end buffer.new ++ R.to_come source.new) }
    ensures end { IfOk result (λ end. end < length buffer.new → R.to_come source.new ≡ []) }
    ensures remain { Remain (R.to_come source.old) (R.to_come source.new) }
    ensures failed { R.failed source.new
        ≡ (if is_ok result then R.failed source.old else R.failed source.old + 1) }
    ensures len { length buffer.new ≡ length buffer.old }
{
    let mut at = 0;
    while at < buffer.len() {
        let count = source.read(&mut buffer[at..])?;
        if count == 0 {
            return Ok(at);
        }
        at += count;
    }
    Ok(at)
}

/// Whether zero bytes alone are to come. Then they all have come.
pub(crate) fn ends<R: Source>(source: &mut R) -> Result<bool, ReadFailed>
    ensures found { IfOk result (λ zero. MatchBool zero
        (IsEnd (R.to_come source.old) × (R.to_come source.new ≡ []))
        (IsEnd (R.to_come source.old) → ⊥)) }
    ensures remain { Remain (R.to_come source.old) (R.to_come source.new) }
    ensures failed { R.failed source.new
        ≡ (if is_ok result then R.failed source.old else R.failed source.old + 1) }
{
    let mut piece = [0; 4096];
    loop {
        let count = source.read(&mut piece)?;
        if count == 0 {
            return Ok(true);
        }
        if !is_zero(&piece[..count]) {
            return Ok(false);
        }
    }
}

/// The next `len` bytes, or all that are to come where those are fewer.
///
/// They are read where they stay. Whatever `len` is, no room is asked for but for what has come and one piece more.
pub(crate) fn take<R: Source>(
    alloc: Global,
    source: &mut R,
    len: usize,
) -> Result<Vec<u8>, BlkFault>
    ensures came { IfOk result (λ bytes. R.to_come source.old
        ≡ bytes.items ++ R.to_come source.new) }
    ensures len { IfOk result (λ bytes. length bytes.items ≤ len) }
    ensures end { IfOk result (λ bytes. length bytes.items < len → R.to_come source.new ≡ []) }
    ensures remain { Remain (R.to_come source.old) (R.to_come source.new) }
    ensures fault { IfErr result (λ e. (e ≡ Read) ⊎ (e ≡ Memory)) }
    ensures failed { CountsFailures result (R.failed source.old) (R.failed source.new) }
{
    let mut bytes = Vec::new(alloc);
    while bytes.len() < len {
        let left = len - bytes.len();
        let want = left.min(PIECE);
        make_room(&mut bytes, want)?;
        if !source.append(&mut bytes, want)? {
            return Ok(bytes);
        }
    }
    Ok(bytes)
}

/// Makes room for `want` bytes more, and for no byte beyond them. A piece at a time costs little: the allocator
/// moves the pages of a long vector and copies none of its bytes.
fn make_room(bytes: &mut Vec<u8>, want: usize) -> Result<(), BlkFault>
    requires { want ≤ 65536 }
    ensures kept { bytes.new.items ≡ bytes.old.items }
    ensures enough { OnOk result (length bytes.old.items + want ≤ vec_capacity bytes.new) }
    ensures room { vec_capacity bytes.new ≤ max (vec_capacity bytes.old)
        (length bytes.old.items + want) }
    ensures fault { IfErr result (λ e. e ≡ Memory) }
{
    bytes.reserve_exact(want)?;
    Ok(())
}
