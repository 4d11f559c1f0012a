//! Messages of any lengths, eight at once.

ghost use Rattle.std.specs.Prelude.{◌≡◌, ◌+◌, ◌*◌, ◌<◌, ◌≤◌, ℕ, [], length, slice_index, slice_index_or};
ghost use Rattle.sha2.specs.Sha256.{final_hash, initial_hash_256, word_at};
ghost use Rattle.lanes.specs.Lane.{lanes};
ghost use Rattle.lanes.specs.Messages.{ids_of};
ghost use Rattle.lanes.specs.inside.Messages.{message_at};
ghost use Rattle.lanes.specs.inside.PaddedBlocks.{AreBlocks, AreCounts, AreTails};
ghost use Rattle.lanes.specs.State.{lane, lane_of};

use crate::blocks::word;
use crate::digests::hashed_again;
use crate::padded_blocks::{block, block_count, tail};
use crate::rounds::{State, compressed, initial};
use crate::words::{LANES, Words, chosen};
use hash::{Id, double_sha};
use std::simd::prelude::*;

// How many blocks each message has.
fn block_counts(messages: &[&[u8]]) -> [usize; LANES]
    requires { length messages.now ≡ lanes }
    ensures { AreCounts messages.now result }
{
    let mut counts = [0; LANES];
    'lanes: for k in 0..LANES {
        counts[k] = block_count(messages[k]);
    }
    counts
}

// The tail of each message.
fn tails(messages: &[&[u8]]) -> [[u8; 128]; LANES]
    requires { length messages.now ≡ lanes }
    ensures { AreTails messages.now result }
{
    let mut tails = [[0; 128]; LANES];
    'lanes: for k in 0..LANES {
        tails[k] = tail(messages[k]);
    }
    tails
}

// Block `i` of each message, and some block of one that has fewer.
#[inline(always)]
fn blocks(messages: &[&[u8]], tails: &[[u8; 128]; LANES], i: usize) -> [[u8; 64]; LANES]
    requires messages { length messages.now ≡ lanes }
    requires tails { AreTails messages.now tails.now }
    ensures { AreBlocks messages.now i result }
{
    let mut blocks = [[0; 64]; LANES];
    'lanes: for k in 0..LANES {
        blocks[k] = block(messages[k], &tails[k], i);
    }
    blocks
}

// Word `i` of each block.
#[inline(always)]
fn words(blocks: &[[u8; 64]; LANES], i: usize) -> Words
    requires { i < 16 }
    ensures { (l : ℕ) → l < lanes
        → slice_index result l ≡ word_at (slice_index_or blocks.now l []) (4 * i) }
{
    let mut words = [0; LANES];
    'lanes: for k in 0..LANES {
        words[k] = word(&blocks[k], i);
    }
    Words::from_array(words)
}

// The words of each block.
#[inline(always)]
pub(crate) fn load(blocks: &[[u8; 64]; LANES]) -> [Words; 16]
    ensures { (l : ℕ) → l < lanes → (k : ℕ) → k < 16
        → slice_index (lane_of result l) k ≡ word_at (slice_index_or blocks.now l []) (4 * k) }
{
    [
        words(blocks, 0),
        words(blocks, 1),
        words(blocks, 2),
        words(blocks, 3),
        words(blocks, 4),
        words(blocks, 5),
        words(blocks, 6),
        words(blocks, 7),
        words(blocks, 8),
        words(blocks, 9),
        words(blocks, 10),
        words(blocks, 11),
        words(blocks, 12),
        words(blocks, 13),
        words(blocks, 14),
        words(blocks, 15),
    ]
}

// 1 in each lane whose message has a block `i`, and else 0.
#[inline(always)]
fn running(counts: &[usize; LANES], i: usize) -> Words
    ensures on { (l : ℕ) → l < lanes → i < slice_index counts.now l → slice_index result l ≡ 1 }
    ensures off { (l : ℕ) → l < lanes → slice_index counts.now l ≤ i → slice_index result l ≡ 0 }
{
    let mut runs = [0; LANES];
    'lanes: for k in 0..LANES {
        runs[k] = u32::from(i < counts[k]);
    }
    Words::from_array(runs)
}

// The new hash value in each lane that runs; the others keep the old.
#[inline(always)]
fn kept(runs: Words, new: State, old: State) -> State
    ensures on { (l : ℕ) → l < lanes → slice_index runs l ≡ 1 → lane result l ≡ lane new l }
    ensures off { (l : ℕ) → l < lanes → slice_index runs l ≡ 0 → lane result l ≡ lane old l }
{
    State {
        a: chosen(runs, new.a, old.a),
        b: chosen(runs, new.b, old.b),
        c: chosen(runs, new.c, old.c),
        d: chosen(runs, new.d, old.d),
        e: chosen(runs, new.e, old.e),
        f: chosen(runs, new.f, old.f),
        g: chosen(runs, new.g, old.g),
        h: chosen(runs, new.h, old.h),
    }
}

// The greatest count.
fn most(counts: &[usize; LANES]) -> usize
    ensures { (l : ℕ) → l < lanes → slice_index counts.now l ≤ result }
{
    let mut most = 0;
    'lanes: for k in 0..LANES {
        most = most.max(counts[k]);
    }
    most
}

// The hash value of each message. A lane whose message has ended keeps its own.
fn hash_values(messages: &[&[u8]], counts: &[usize; LANES]) -> State
    requires messages { length messages.now ≡ lanes }
    requires counts { AreCounts messages.now counts.now }
    ensures { (l : ℕ) → l < lanes
        → lane result l ≡ final_hash initial_hash_256 (message_at messages.now l) }
{
    let tails = tails(messages);
    let mut state = initial();
    'turns: for i in 0..most(counts) {
        let blocks = blocks(messages, &tails, i);
        let next = compressed(state, &load(&blocks));
        state = kept(running(counts, i), next, state);
    }
    state
}

// One message after the other.
fn one_by_one(messages: &[&[u8]], out: &mut [Id])
    requires { length out.old ≡ length messages.now }
    ensures { out.new ≡ ids_of messages.now }
{
    'messages: for k in 0..messages.len() {
        out[k] = Id(double_sha(messages[k]));
    }
}

// Whether eight lanes are faster than one message after the other: a turn of eight lanes takes about as
// long as three blocks, or two on a wider processor. It is a matter of speed alone.
fn is_even(counts: &[usize; LANES]) -> bool {
    let longest = most(counts);
    let mut in_all = 0usize;
    'lanes: for k in 0..LANES {
        in_all = in_all.saturating_add(counts[k]);
    }
    in_all / 3 >= longest
}

// Eight messages.
fn eight(messages: &[&[u8]]) -> [Id; LANES]
    requires { length messages.now ≡ lanes }
    ensures { result ≡ ids_of messages.now }
{
    let counts = block_counts(messages);
    if is_even(&counts) {
        hashed_again(hash_values(messages, &counts))
    } else {
        let mut ids = [Id([0; 32]); LANES];
        one_by_one(messages, &mut ids);
        ids
    }
}

/// Double SHA-256 of each message, in order, each put to its place in `out`. They may have any lengths;
/// they are hashed fastest where eight neighbours are about as long.
pub fn double_sha_many(messages: &[&[u8]], out: &mut [Id])
    requires { length out.old ≡ length messages.now }
    ensures { out.new ≡ ids_of messages.now }
{
    let turns = messages.len() / LANES;
    'turns: for k in 0..turns {
        let hashed = eight(&messages[LANES * k..LANES * k + LANES]);
        out[LANES * k..LANES * k + LANES].copy_from_slice(&hashed);
    }
    one_by_one(&messages[LANES * turns..], &mut out[LANES * turns..]);
}
