//! From hash values to digests, and the second hash of a double SHA-256.

ghost use Rattle.std.specs.Prelude.{◌≡◌, ◌*◌, ◌<◌, ◌++◌, ◌∷◌, [], ℕ, List, slice_index, slice_index_or};
ghost use Rattle.sha2.specs.Sha256.{digest_bytes, final_hash, initial_hash_256, padding, word_at};
ghost use Rattle.hash.specs.declared.id.Id as whole;
ghost use Rattle.lanes.specs.Lane.{lanes};
ghost use Rattle.lanes.specs.Messages.{message_id};
ghost use Rattle.lanes.specs.State.{lane, lane_of};

use crate::rounds::{State, compressed, initial};
use crate::words::{LANES, Words};
use hash::Id;
use std::simd::prelude::*;

// The block of a digest with its padding.
#[inline(always)]
fn digest_block(
    a: Words,
    b: Words,
    c: Words,
    d: Words,
    e: Words,
    f: Words,
    g: Words,
    h: Words,
) -> [Words; 16]
    ensures { (l : ℕ) → l < lanes → (k : ℕ) → k < 16
        → let words = lane_of (a ∷ b ∷ c ∷ d ∷ e ∷ f ∷ g ∷ h ∷ []) l in
        slice_index (lane_of result l) k ≡ word_at (digest_bytes words 8 ++ padding 32) (4 * k) }
{
    let end = Words::splat(0x8000_0000);
    let zero = Words::splat(0);
    let bits = Words::splat(256);
    [
        a, b, c, d, e, f, g, h, end, zero, zero, zero, zero, zero, zero, bits,
    ]
}

/// The bytes of a hash value, high byte first.
#[inline(always)]
fn digest(words: [u32; 8]) -> [u8; 32]
    ensures { result ≡ digest_bytes words 8 }
{
    let mut bytes = [0; 32];
    'words: for i in 0..8 {
        bytes[4 * i..4 * i + 4].copy_from_slice(&words[i].to_be_bytes());
    }
    bytes
}

// The digest of each lane.
#[inline(always)]
fn digests(state: State) -> [Id; LANES]
    ensures { (l : ℕ) → l < lanes → (d : whole.Id)
        → slice_index_or result l d ≡ record { 0 = digest_bytes (lane state l) 8 } }
{
    let a = state.a.to_array();
    let b = state.b.to_array();
    let c = state.c.to_array();
    let d = state.d.to_array();
    let e = state.e.to_array();
    let f = state.f.to_array();
    let g = state.g.to_array();
    let h = state.h.to_array();
    [
        Id(digest([a[0], b[0], c[0], d[0], e[0], f[0], g[0], h[0]])),
        Id(digest([a[1], b[1], c[1], d[1], e[1], f[1], g[1], h[1]])),
        Id(digest([a[2], b[2], c[2], d[2], e[2], f[2], g[2], h[2]])),
        Id(digest([a[3], b[3], c[3], d[3], e[3], f[3], g[3], h[3]])),
        Id(digest([a[4], b[4], c[4], d[4], e[4], f[4], g[4], h[4]])),
        Id(digest([a[5], b[5], c[5], d[5], e[5], f[5], g[5], h[5]])),
        Id(digest([a[6], b[6], c[6], d[6], e[6], f[6], g[6], h[6]])),
        Id(digest([a[7], b[7], c[7], d[7], e[7], f[7], g[7], h[7]])),
    ]
}

/// The double SHA-256 of each message, from the hash value of each.
#[inline(always)]
pub(crate) fn hashed_again(once: State) -> [Id; LANES]
    ensures { (l : ℕ) → l < lanes → (message : List ℕ)
        → lane once l ≡ final_hash initial_hash_256 message
        → (d : whole.Id) → slice_index_or result l d ≡ message_id message }
{
    let words = digest_block(
        once.a, once.b, once.c, once.d, once.e, once.f, once.g, once.h,
    );
    digests(compressed(initial(), &words))
}
