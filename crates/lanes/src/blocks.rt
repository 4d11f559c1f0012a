//! From bytes to the words of a block, in eight lanes.

ghost use Rattle.std.specs.Prelude.{◌≡◌, ◌+◌, ◌*◌, ◌<◌, ◌≤◌, ◌++◌, ℕ, List, length, slice_index};
ghost use Rattle.sha2.specs.Sha256.{word_at};
ghost use Rattle.lanes.specs.Lane.{lanes};

use crate::words::{LANES, Words};
use hash::Id;
use std::simd::prelude::*;

/// Word `i` of some bytes, high byte first.
#[inline(always)]
pub(crate) fn word(bytes: &[u8], i: usize) -> u32
    requires { 4 * i + 4 ≤ length bytes.now }
    ensures { result ≡ word_at bytes.now (4 * i) }
{
    u32::from_be_bytes([
        bytes[4 * i],
        bytes[4 * i + 1],
        bytes[4 * i + 2],
        bytes[4 * i + 3],
    ])
}
