//! The message schedule of a block that is the same for all messages.

ghost use Rattle.std.specs.Prelude.{◌≡◌, ℕ, ◌<◌, length, slice_index};
ghost use Rattle.sha2.specs.Sha256.{schedule, small_sigma0, small_sigma1};
ghost use Rattle.lanes.specs.inside.Rounds.{AreSums};

use crate::blocks::word;
use crate::constants::ROUND;

fn lower_sigma0(x: u32) -> u32
    ensures { result ≡ small_sigma0 x }
{
    x.rotate_right(7) ^ x.rotate_right(18) ^ (x >> 3)
}

fn lower_sigma1(x: u32) -> u32
    ensures { result ≡ small_sigma1 x }
{
    x.rotate_right(17) ^ x.rotate_right(19) ^ (x >> 10)
}

// The words of the block, and behind them zeros.
#[inline(always)]
fn first_words(block: &[u8]) -> [u32; 64]
    requires { length block.now ≡ 64 }
    ensures { (t : ℕ) → t < 16 → slice_index result t ≡ slice_index (schedule block.now 48) t }
{
    let mut words = [0; 64];
    'words: for t in 0..16 {
        words[t] = word(block, t);
    }
    words
}

// The word of each round.
#[inline(always)]
fn schedule(block: &[u8]) -> [u32; 64]
    requires { length block.now ≡ 64 }
    ensures { (t : ℕ) → t < 64 → slice_index result t ≡ slice_index (schedule block.now 48) t }
{
    let mut words = first_words(block);
    'words: for t in 16..64 {
        words[t] = lower_sigma1(words[t - 2])
            .wrapping_add(words[t - 7])
            .wrapping_add(lower_sigma0(words[t - 15]))
            .wrapping_add(words[t - 16]);
    }
    words
}

/// The word of each round with its constant added.
#[inline(always)]
pub(crate) fn sums(block: &[u8]) -> [u32; 64]
    requires { length block.now ≡ 64 }
    ensures { AreSums result block.now }
{
    let mut sums = schedule(block);
    'rounds: for t in 0..64 {
        sums[t] = sums[t].wrapping_add(ROUND[t]);
    }
    sums
}
