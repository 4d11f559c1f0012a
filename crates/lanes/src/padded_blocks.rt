//! The blocks of messages of any lengths, with their padding.

ghost use Rattle.std.specs.Prelude.{◌≡◌, ◌+◌, ◌*◌, ◌%◌, ◌^◌, ◌<◌, ◌≤◌, ◌++◌, ℕ, List, length, take, slice_index};
ghost use Rattle.sha2.specs.Sha256.{padding};
ghost use Rattle.lanes.specs.inside.PaddedBlocks.{IsTail, block, block_count, padded_len};

/// How many blocks a message has with its padding.
pub(crate) fn block_count(message: &[u8]) -> usize
    ensures { result ≡ block_count message.now }
{
    let whole = message.len() / 64;
    if message.len() % 64 < 56 {
        whole + 1
    } else {
        whole + 2
    }
}

/// The last bytes of a message, fewer than a block, with its padding, by its length: one block, or two.
pub(crate) fn padded(rest: &[u8], len: u64) -> [u8; 128]
    requires { length rest.now < 64 }
    ensures { (n : ℕ) → len ≡ n % 2 ^ 64 → n % 64 ≡ length rest.now
        → take (padded_len rest.now) result ≡ rest.now ++ padding n }
{
    let end = if rest.len() < 56 { 56 } else { 120 };
    let bits = len.wrapping_mul(8);
    let mut tail = [0; 128];
    tail[..rest.len()].copy_from_slice(rest);
    tail[rest.len()] = 0x80;
    tail[end..end + 8].copy_from_slice(&bits.to_be_bytes());
    tail
}

/// How many bytes of [`padded`] count.
pub(crate) fn padded_len(rest: &[u8]) -> usize
    ensures { result ≡ padded_len rest.now }
{
    if rest.len() < 56 { 64 } else { 128 }
}

/// What follows the whole blocks of a message: its last bytes and the padding, one block or two.
pub(crate) fn tail(message: &[u8]) -> [u8; 128]
    ensures { IsTail message.now result }
{
    padded(&message[message.len() / 64 * 64..], message.len() as u64)
}

/// Block `i` of a message with its padding, and some block where it has fewer.
#[inline(always)]
pub(crate) fn block(message: &[u8], tail: &[u8; 128], i: usize) -> [u8; 64]
    requires { IsTail message.now tail.now }
    ensures { i < block_count message.now → result ≡ block message.now i }
{
    let whole = message.len() / 64;
    let mut block = [0; 64];
    if i < whole {
        block.copy_from_slice(&message[i * 64..i * 64 + 64]);
    } else {
        let at = (i - whole).min(1);
        block.copy_from_slice(&tail[at * 64..at * 64 + 64]);
    }
    block
}
