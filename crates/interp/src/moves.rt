//! Rows of the stack: what is taken, and what is left in its place.

ghost use Rattle.std.specs.Prelude.{◌≡◌, IfOk};
ghost use Rattle.interp.specs.inside.Outcomes.{Gives};
ghost use Rattle.interp.specs.Effects.{moves};
ghost use Rattle.interp.specs.computed.Groups.{move_of};

use crate::element::Element;
use crate::pile::Pile;
use std::alloc::Global;
use wire::Memory;

/// Opcodes that rearrange the topmost elements.
#[derive(Clone, Copy, Debug, PartialEq, Eq)]
pub enum Move {
    Drop2,
    Dup2,
    Dup3,
    Over2,
    Rot2,
    Swap2,
    Drop1,
    Dup,
    Nip,
    Over,
    Rot,
    Swap,
    Tuck,
}

/// How many of the topmost elements it is about.
fn reach(by: Move) -> usize
    ensures { result ≡ (move_of by).0 }
{
    match by {
        Move::Drop1 | Move::Dup => 1,
        Move::Drop2 | Move::Dup2 | Move::Nip | Move::Over | Move::Swap | Move::Tuck => 2,
        Move::Dup3 | Move::Rot => 3,
        Move::Over2 | Move::Swap2 => 4,
        Move::Rot2 => 6,
    }
}

// Two elements change places, by how far below the top they lie; then the next two.
macro_rules! swap {
    ($stack:ident; $($m:literal $n:literal),*) => {{
        $($stack.swap($m, $n);)*
    }};
}

// A copy of the element so far below the top is pushed; then the next.
macro_rules! copy {
    ($alloc:ident, $stack:ident; $($n:literal)*) => {{
        $($stack.push_copy($alloc, $n)?;)*
    }};
}

// The elements stay in the stack's vector and change places there. Popped into names they would have a slot each in
// the frame, and to clear all these slots at each opcode costs more than the row.
/// Whether the elements are there; if so, they are rearranged.
#[tactic(auto, using(crate::proofs::Exchanges::moved))]
#[inline(always)]
pub fn rearrange(alloc: Global, stack: &mut Pile<Element>, by: Move) -> Result<bool, Memory>
    ensures { IfOk result (λ there. Gives there
        (moves (move_of by).0 (move_of by).1 stack.old) stack.new) }
{
    if stack.len() < reach(by) {
        return Ok(false);
    }
    match by {
        Move::Drop2 => stack.drop_top(2),
        Move::Dup2 => copy!(alloc, stack; 1 1),
        Move::Dup3 => copy!(alloc, stack; 2 2 2),
        Move::Over2 => copy!(alloc, stack; 3 3),
        Move::Rot2 => swap!(stack; 0 2, 1 3, 0 4, 1 5),
        Move::Swap2 => swap!(stack; 0 2, 1 3),
        Move::Drop1 => stack.drop_top(1),
        Move::Dup => copy!(alloc, stack; 0),
        Move::Nip => {
            swap!(stack; 0 1);
            stack.drop_top(1);
        }
        Move::Over => copy!(alloc, stack; 1),
        Move::Rot => swap!(stack; 0 1, 0 2),
        Move::Swap => swap!(stack; 0 1),
        Move::Tuck => {
            swap!(stack; 0 1);
            copy!(alloc, stack; 1);
        }
    }
    Ok(true)
}
