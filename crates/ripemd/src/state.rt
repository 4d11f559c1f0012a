//! The five words of the state.

// The five words, and one step of a line.

ghost use Rattle.std.specs.Prelude.{◌≡◌};
ghost use Rattle.ripemd.specs.Block.{step};
ghost use Rattle.ripemd.specs.inside.Lines.{function_of};

use crate::line::Bitwise;

/// Five words: h0 to h4 between blocks, A to E within a line.
#[derive(Clone, Copy)]
pub struct State {
    pub a: u32,
    pub b: u32,
    pub c: u32,
    pub d: u32,
    pub e: u32,
}

impl State {
    /// A step of a line.
    #[inline(always)]
    pub fn step(self, function: Bitwise, constant: u32, word: u32, rotation: u32) -> State
        ensures { result ≡ step (function_of function) constant word rotation self }
    {
        // What comes of the step before is added last, which shortens the chain of waiting sums.
        let sum = word
            .wrapping_add(constant)
            .wrapping_add(self.a)
            .wrapping_add(function.of(self.b, self.c, self.d));
        State {
            a: self.e,
            b: sum.rotate_left(rotation).wrapping_add(self.e),
            c: self.b,
            d: self.c.rotate_left(10),
            e: self.d,
        }
    }
}
