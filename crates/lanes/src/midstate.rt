//! Eight messages that begin and end alike, and differ between.

ghost use Rattle.std.specs.Prelude.{◌≡◌, ℕ, ◌+◌, ◌*◌, ◌/◌, ◌%◌, ◌<◌, ◌≤◌, List, [], ◌++◌, length, take, drop, slice_index_or};
ghost use Rattle.hash.specs.declared.id.Id as whole;
ghost use Rattle.lanes.specs.Lane.{lanes};
ghost use Rattle.lanes.specs.Messages.{message_id};
ghost use Rattle.lanes.specs.Midstate.{IsAfter, IsValueAfter, part};
ghost use Rattle.lanes.specs.State.{lane};

use crate::digests::hashed_again;
use crate::many::load;
use crate::padded_blocks::{padded, padded_len};
use crate::rounds::{State, after_known, compressed, initial};
use crate::schedule::sums;
use crate::words::LANES;
use hash::Id;

// The hash values after whole blocks that are the same for all. The schedule of each is computed once.
fn after_shared(state: State, blocks: &[u8]) -> State
    requires { length blocks.now % 64 ≡ 0 }
    ensures { (l : ℕ) → l < lanes → (before : List ℕ) → IsValueAfter before (lane state l)
        → IsValueAfter (before ++ blocks.now) (lane result l) }
{
    let mut state = state;
    'turns: for k in 0..blocks.len() / 64 {
        state = after_known(state, &sums(&blocks[64 * k..64 * k + 64]));
    }
    state
}

// Block `k` of part `l` of eight.
#[inline(always)]
fn own_block(parts: &[u8], l: usize, k: usize) -> [u8; 64]
    requires l { l < lanes }
    requires k { 64 * k + 64 ≤ length parts.now / lanes }
    ensures { result ≡ take 64 (drop (64 * k) (part parts.now l)) }
{
    let at = l * (parts.len() / LANES) + 64 * k;
    let mut block = [0; 64];
    block.copy_from_slice(&parts[at..at + 64]);
    block
}

// Block `k` of each of eight parts.
#[inline(always)]
fn own_blocks(parts: &[u8], k: usize) -> [[u8; 64]; LANES]
    requires { 64 * k + 64 ≤ length parts.now / lanes }
    ensures { (l : ℕ) → l < lanes
        → slice_index_or result l [] ≡ take 64 (drop (64 * k) (part parts.now l)) }
{
    let mut blocks = [[0; 64]; LANES];
    'lanes: for l in 0..LANES {
        blocks[l] = own_block(parts, l, k);
    }
    blocks
}

// The hash values after whole blocks of each message's own, which lie one after the other.
fn after_own(state: State, parts: &[u8]) -> State
    requires { length parts.now % 512 ≡ 0 }
    ensures { (l : ℕ) → l < lanes → (before : List ℕ) → IsValueAfter before (lane state l)
        → IsValueAfter (before ++ part parts.now l) (lane result l) }
{
    let mut state = state;
    'turns: for k in 0..parts.len() / 512 {
        let blocks = own_blocks(parts, k);
        state = compressed(state, &load(&blocks));
    }
    state
}

/// The hash values of eight messages after the whole blocks that they all begin with.
#[derive(Drop)]
pub struct Midstate {
    state: State,
    len: u64,
}

impl Midstate {
    /// Before the first block.
    pub fn new() -> Midstate
        ensures { IsAfter result [] }
    {
        Midstate {
            state: initial(),
            len: 0,
        }
    }

    /// Takes in whole blocks, with which all eight messages go on.
    pub fn feed(&mut self, blocks: &[u8])
        requires { length blocks.now % 64 ≡ 0 }
        ensures { (before : List ℕ) → IsAfter self.old before → IsAfter self.new (before ++ blocks.now) }
    {
        self.state = after_shared(self.state, blocks);
        self.len = self.len.wrapping_add(blocks.len() as u64);
    }

    /// The double SHA-256 of each message: what all begin with, then whole blocks of its own, which lie one after the
    /// other in `parts`, and an end that is the same for all.
    pub fn double_shas(&self, parts: &[u8], end: &[u8]) -> [Id; LANES]
        requires { length parts.now % 512 ≡ 0 }
        ensures { (before : List ℕ) → IsAfter self.now before → (l : ℕ) → l < lanes → (d : whole.Id)
            → slice_index_or result l d ≡ message_id ((before ++ part parts.now l) ++ end.now) }
    {
        let len = self
            .len
            .wrapping_add((parts.len() / LANES) as u64)
            .wrapping_add(end.len() as u64);
        let (blocks, rest) = end.split_at(end.len() / 64 * 64);
        let state = after_shared(after_own(self.state, parts), blocks);
        let last = padded(rest, len);
        hashed_again(after_shared(state, &last[..padded_len(rest)]))
    }
}
