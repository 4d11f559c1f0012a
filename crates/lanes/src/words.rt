//! SHA-256's functions on words, each on eight words at once.

ghost use Rattle.std.specs.Prelude.{◌≡◌, ◌/◌, ◌^◌, ◌<◌, if◌then◌else◌, nat_lt, slice_index};
ghost use Rattle.std.specs.Int.{w32, rotate_right};
ghost use Rattle.sha2.specs.Sha256.{add32, ch, maj, big_sigma0, big_sigma1, small_sigma0, small_sigma1};
ghost use Rattle.lanes.specs.inside.EachLane.{EachLane};

use std::simd::prelude::*;

/// How many messages are hashed at once.
pub const LANES: usize = 8;

/// One word of each message.
pub(crate) type Words = u32x8;

// One operation fewer than the standard's form.
#[inline(always)]
pub(crate) fn choice(x: Words, y: Words, z: Words) -> Words
    ensures { EachLane result (λ l. ch (slice_index x l) (slice_index y l) (slice_index z l)) }
{
    z ^ (x & (y ^ z))
}

// The `x ^ y` of a round is the `y ^ z` of the next.
#[inline(always)]
pub(crate) fn majority(x: Words, y: Words, z: Words) -> Words
    ensures { EachLane result (λ l. maj (slice_index x l) (slice_index y l) (slice_index z l)) }
{
    y ^ ((x ^ y) & (y ^ z))
}

#[inline(always)]
fn shifted(x: Words, by: u32) -> Words
    requires { by < 32 }
    ensures { EachLane result (λ l. slice_index x l / 2 ^ by) }
{
    x >> by
}

#[inline(always)]
fn rotated(x: Words, by: u32) -> Words
    requires some { 0 < by }
    requires below { by < 32 }
    ensures { EachLane result (λ l. rotate_right w32 (slice_index x l) by) }
{
    (x >> by) | (x << (32 - by))
}

#[inline(always)]
pub(crate) fn upper_sigma0(x: Words) -> Words
    ensures { EachLane result (λ l. big_sigma0 (slice_index x l)) }
{
    rotated(x, 2) ^ rotated(x, 13) ^ rotated(x, 22)
}

#[inline(always)]
pub(crate) fn upper_sigma1(x: Words) -> Words
    ensures { EachLane result (λ l. big_sigma1 (slice_index x l)) }
{
    rotated(x, 6) ^ rotated(x, 11) ^ rotated(x, 25)
}

#[inline(always)]
fn lower_sigma0(x: Words) -> Words
    ensures { EachLane result (λ l. small_sigma0 (slice_index x l)) }
{
    rotated(x, 7) ^ rotated(x, 18) ^ shifted(x, 3)
}

#[inline(always)]
fn lower_sigma1(x: Words) -> Words
    ensures { EachLane result (λ l. small_sigma1 (slice_index x l)) }
{
    rotated(x, 17) ^ rotated(x, 19) ^ shifted(x, 10)
}

/// The sum, without the carry out of a word.
#[inline(always)]
pub(crate) fn sum(x: Words, y: Words) -> Words
    ensures { EachLane result (λ l. add32 (slice_index x l) (slice_index y l)) }
{
    x + y
}

/// The word of `new` in each lane that runs, and of `old` in any other.
#[inline(always)]
pub(crate) fn chosen(runs: Words, new: Words, old: Words) -> Words
    ensures { EachLane result (λ l.
        if nat_lt 0 (slice_index runs l) then slice_index new l else slice_index old l) }
{
    Words::splat(0).simd_lt(runs).select(new, old)
}

/// A word of the schedule, from those 2, 7, 15 and 16 before it.
#[inline(always)]
pub(crate) fn scheduled(two: Words, seven: Words, fifteen: Words, sixteen: Words) -> Words
    ensures { EachLane result (λ l. add32 (add32
        (add32 (small_sigma1 (slice_index two l)) (slice_index seven l))
        (small_sigma0 (slice_index fifteen l))) (slice_index sixteen l)) }
{
    lower_sigma1(two) + seven + lower_sigma0(fifteen) + sixteen
}
