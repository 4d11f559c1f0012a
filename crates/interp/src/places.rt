//! Opcodes that reach into the stack by a number.

ghost use Rattle.std.specs.Prelude.{◌≡◌, ◌<◌, ◌∷◌, length, remove, IfOk, IfSome, MatchOption, pos, None, Some};
ghost use Rattle.script.specs.Num.{shortest_bytes};
ghost use Rattle.interp.specs.inside.Outcomes.{Gives};
ghost use Rattle.interp.specs.Effects.{depth, pop_place, pick, roll};

use crate::element::{Element, natural};
use crate::numbers::push_number;
use crate::pile::Pile;
use std::alloc::Global;
use wire::Memory;

/// Pushes the number of elements.
#[inline(never)]
pub fn push_depth(alloc: Global, stack: &mut Pile<Element>) -> Result<bool, Memory>
    ensures { IfOk result (λ there. Gives there (depth stack.old) stack.new) }
{
    push_number(alloc, stack, stack.depth())?;
    Ok(true)
}

/// Takes a number, if it is a place among the others: 0 is their top.
#[tactic(auto, unfolding(crate::specs::Effects::pop_place))]
fn pop_place(stack: &mut Pile<Element>) -> Option<usize>
    ensures value { MatchOption result (pop_place stack.old ≡ None)
        (λ n. pop_place stack.old ≡ Some (n, stack.new)) }
    ensures bound { IfSome result (λ n. n < length stack.new) }
{
    if stack.len() == 0 {
        return None;
    }
    let n = natural(stack.pop().as_slice(), 4)?;
    if n >= stack.len() as u64 {
        return None;
    }
    Some(n as usize)
}

/// Copies an element to the top.
#[tactic(auto, unfolding(crate::specs::Effects::pick))]
#[inline(never)]
pub fn pick(alloc: Global, stack: &mut Pile<Element>) -> Result<bool, Memory>
    ensures { IfOk result (λ there. Gives there (pick stack.old) stack.new) }
{
    let Some(n) = pop_place(stack) else {
        return Ok(false);
    };
    stack.push_copy(alloc, n)?;
    Ok(true)
}

/// Moves an element to the top.
#[tactic(auto, unfolding(crate::specs::Effects::roll))]
#[inline(never)]
pub fn roll(stack: &mut Pile<Element>) -> Result<bool, Memory>
    ensures { IfOk result (λ there. Gives there (roll stack.old) stack.new) }
{
    let Some(n) = pop_place(stack) else {
        return Ok(false);
    };
    let moved = stack.remove(n);
    stack.push(moved)?;
    Ok(true)
}
