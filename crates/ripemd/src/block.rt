//! One block of 64 bytes.

// One block of 64 bytes.

ghost use Rattle.std.specs.Prelude.{◌≡◌, ◌+◌, ◌≤◌, ◌<◌};
ghost use Rattle.ripemd.specs.Block.{after_block, end_of_block, line_step, words_of};
ghost use Rattle.ripemd.specs.Line.{left_line, right_line};
ghost use Rattle.ripemd.specs.inside.Lines.{lines_after};
ghost use Rattle.ripemd.specs.declared.state.State.{State};

use crate::line::{
    LEFT_CONSTANTS, LEFT_FUNCTIONS, LEFT_READS, LEFT_ROTATIONS, RIGHT_CONSTANTS, RIGHT_FUNCTIONS,
    RIGHT_READS, RIGHT_ROTATIONS,
};
use crate::state::State;

/// The length of a block in bytes.
pub const BLOCK_LEN: usize = 64;

// Step `j` of the left line, the first being 0.
#[inline(always)]
fn left_step(v: State, words: &[u32; 16], j: usize) -> State
    requires { j < 80 }
    ensures { result ≡ line_step left_line words.now j v }
{
    let (round, place) = (j / 16, j % 16);
    v.step(
        LEFT_FUNCTIONS[round],
        LEFT_CONSTANTS[round],
        words[LEFT_READS[round][place]],
        LEFT_ROTATIONS[round][place],
    )
}

// Step `j` of the right line, the first being 0.
#[inline(always)]
fn right_step(v: State, words: &[u32; 16], j: usize) -> State
    requires { j < 80 }
    ensures { result ≡ line_step right_line words.now j v }
{
    let (round, place) = (j / 16, j % 16);
    v.step(
        RIGHT_FUNCTIONS[round],
        RIGHT_CONSTANTS[round],
        words[RIGHT_READS[round][place]],
        RIGHT_ROTATIONS[round][place],
    )
}

// Both lines, which wait for nothing of each other: taken side by side, the processor overlaps them.
#[derive(Clone, Copy)]
struct Lines {
    left: State,
    right: State,
}

impl Lines {
    // Step `j` of both lines.
    #[inline(always)]
    fn step(self, words: &[u32; 16], j: usize) -> Lines
        requires { j < 80 }
        ensures { (h : State) → self ≡ lines_after words.now h j
            → result ≡ lines_after words.now h (j + 1) }
    {
        Lines {
            left: left_step(self.left, words, j),
            right: right_step(self.right, words, j),
        }
    }

    // Written out, here and in `round`, so that each step has its row of the tables as constants.
    #[inline(always)]
    fn four_steps(self, words: &[u32; 16], j: usize) -> Lines
        requires { j + 4 ≤ 80 }
        ensures { (h : State) → self ≡ lines_after words.now h j
            → result ≡ lines_after words.now h (j + 4) }
    {
        self.step(words, j)
            .step(words, j + 1)
            .step(words, j + 2)
            .step(words, j + 3)
    }

    // A round, from step `FIRST` on: each of the five is compiled by itself.
    fn round<const FIRST: usize>(self, words: &[u32; 16]) -> Lines
        requires { FIRST + 16 ≤ 80 }
        ensures { (h : State) → self ≡ lines_after words.now h FIRST
            → result ≡ lines_after words.now h (FIRST + 16) }
    {
        self.four_steps(words, FIRST)
            .four_steps(words, FIRST + 4)
            .four_steps(words, FIRST + 8)
            .four_steps(words, FIRST + 12)
    }
}

// The sixteen words of a block.
#[inline(always)]
fn words(block: &[u8; BLOCK_LEN]) -> [u32; 16]
    ensures { result ≡ words_of block.now }
{
    let (pieces, _) = block.as_chunks::<4>();
    let mut words = [0; 16];
    for (i, piece) in pieces.iter().enumerate() {
        words[i] = u32::from_le_bytes(*piece);
    }
    words
}

// The end of a block, where the lines cross.
#[inline(always)]
fn combine(h: State, left: State, right: State) -> State
    ensures { result ≡ end_of_block h left right }
{
    State {
        a: h.b.wrapping_add(left.c).wrapping_add(right.d),
        b: h.c.wrapping_add(left.d).wrapping_add(right.e),
        c: h.d.wrapping_add(left.e).wrapping_add(right.a),
        d: h.e.wrapping_add(left.a).wrapping_add(right.b),
        e: h.a.wrapping_add(left.b).wrapping_add(right.c),
    }
}

/// h0 to h4 after a block.
pub fn absorb(h: State, block: &[u8; BLOCK_LEN]) -> State
    ensures { result ≡ after_block h block.now }
{
    let words = words(block);
    let start = Lines { left: h, right: h };
    let end = start
        .round::<0>(&words)
        .round::<16>(&words)
        .round::<32>(&words)
        .round::<48>(&words)
        .round::<64>(&words);
    combine(h, end.left, end.right)
}
