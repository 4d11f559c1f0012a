//! The pairs of a level of a Merkle tree.

ghost use Rattle.std.specs.Prelude.{◌≡◌, ◌+◌, ◌*◌, ◌/◌, ◌<◌, ◌≤◌, ◌++◌, ℕ, List, [], length, drop, slice_index, slice_index_or};
ghost use Rattle.sha2.specs.Sha256.{word_at};
ghost use Rattle.lanes.specs.Lane.{lanes};
ghost use Rattle.lanes.specs.Level.{pair_ids};
ghost use Rattle.lanes.specs.inside.Level.{IsPairedUpTo, pair_at};
ghost use Rattle.lanes.specs.Messages.{message_id};
ghost use Rattle.lanes.specs.State.{lane_of};

use crate::blocks::word;
use crate::digests::hashed_again;
use crate::rounds::{after_padding, compressed, initial};
use crate::words::{LANES, Words};
use hash::{Id, finish};
use sha2::{Digest, Sha256};
use std::simd::prelude::*;

// Word `i` of two ids, one after the other.
#[inline(always)]
fn word_of_two(left: &Id, right: &Id, i: usize) -> u32
    requires { i < 16 }
    ensures len { length (left.now.0 ++ right.now.0) ≡ 64 }
    ensures value { result ≡ word_at (left.now.0 ++ right.now.0) (4 * i) }
{
    if i < 8 {
        word(&left.0, i)
    } else {
        word(&right.0, i - 8)
    }
}

// Word `i` of each pair.
#[inline(always)]
fn words(ids: &[Id], i: usize) -> Words
    requires ids { length ids.now ≡ 2 * lanes }
    requires i { i < 16 }
    ensures len { (l : ℕ) → l < lanes → length (pair_at ids.now l) ≡ 64 }
    ensures value { (l : ℕ) → l < lanes
        → slice_index result l ≡ word_at (pair_at ids.now l) (4 * i) }
{
    let mut words = [0; LANES];
    'lanes: for k in 0..LANES {
        words[k] = word_of_two(&ids[2 * k], &ids[2 * k + 1], i);
    }
    Words::from_array(words)
}

// The block that each pair is.
#[inline(always)]
fn load(ids: &[Id]) -> [Words; 16]
    requires { length ids.now ≡ 2 * lanes }
    ensures len { (l : ℕ) → l < lanes → length (pair_at ids.now l) ≡ 64 }
    ensures value { (l : ℕ) → l < lanes → (k : ℕ) → k < 16
        → slice_index (lane_of result l) k ≡ word_at (pair_at ids.now l) (4 * k) }
{
    [
        words(ids, 0),
        words(ids, 1),
        words(ids, 2),
        words(ids, 3),
        words(ids, 4),
        words(ids, 5),
        words(ids, 6),
        words(ids, 7),
        words(ids, 8),
        words(ids, 9),
        words(ids, 10),
        words(ids, 11),
        words(ids, 12),
        words(ids, 13),
        words(ids, 14),
        words(ids, 15),
    ]
}

// Eight pairs.
fn eight(ids: &[Id]) -> [Id; LANES]
    requires { length ids.now ≡ 2 * lanes }
    ensures { result ≡ pair_ids ids.now }
{
    let blocks = load(ids);
    hashed_again(after_padding(compressed(initial(), &blocks)))
}

// One pair.
fn pair(left: &Id, right: &Id) -> Id
    ensures { result ≡ message_id (left.now.0 ++ right.now.0) }
{
    let mut hasher = Sha256::new();
    hasher.update(left.0);
    hasher.update(right.0);
    Id(finish(hasher))
}

// Puts the pairs of a level into its front, eight at once, and gives how many they are.
fn eight_by_eight(level: &mut [Id]) -> usize
    ensures few { length level.old / 2 < result + lanes }
    ensures whole { 2 * result ≤ length level.old }
    ensures value { IsPairedUpTo level.old level.new result }
{
    let turns = level.len() / (2 * LANES);
    for k in 0..turns {
        let hashed = eight(&level[2 * LANES * k..2 * LANES * k + 2 * LANES]);
        level[LANES * k..LANES * k + LANES].copy_from_slice(&hashed);
    }
    LANES * turns
}

/// Puts the double SHA-256 of each two neighbouring ids of a Merkle level into its front, from left to
/// right. What follows stays; so an odd level's last id is left for the caller to pair.
pub fn pairs(level: &mut [Id])
    ensures { level.new ≡ pair_ids level.old ++ drop (length level.old / 2) level.old }
{
    let start = eight_by_eight(level);
    for k in start..level.len() / 2 {
        let hashed = pair(&level[2 * k], &level[2 * k + 1]);
        level[k] = hashed;
    }
}
