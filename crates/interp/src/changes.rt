//! Opcodes that change the main stack alone.

ghost use Rattle.std.specs.Prelude.{◌≡◌, IfOk};
ghost use Rattle.interp.specs.inside.Outcomes.{Gives};
ghost use Rattle.interp.specs.Effects.{push, verify, if_dup, size, equal_bytes};
ghost use Rattle.interp.specs.computed.OpcodeRow.{change_of};

use crate::element::Element;
use crate::hashes::{Hash, digest_top};
use crate::moves::{Move, rearrange};
use crate::numbers::{Binary, Unary, change_number, join_numbers, push_number, within};
use crate::pile::Pile;
use crate::places::{pick, push_depth, roll};
use std::alloc::Global;
use wire::Memory;

/// What is done to the main stack alone.
#[derive(Clone, Copy, Debug, PartialEq, Eq)]
pub enum Change {
    MinusOne,
    Small(u8),
    Move(Move),
    Verify,
    IfDup,
    Size,
    Hash(Hash),
    Unary(Unary),
    Binary(Binary),
    Within,
    Depth,
    Pick,
    Roll,
}

/// Pushes some bytes.
pub fn push(alloc: Global, stack: &mut Pile<Element>, bytes: &[u8]) -> Result<bool, Memory>
    ensures { IfOk result (λ there. Gives there (push bytes.now stack.old) stack.new) }
{
    stack.push(Element::from_slice(alloc, bytes)?)?;
    Ok(true)
}

/// Takes the top, and says whether it is true.
pub fn verify(stack: &mut Pile<Element>) -> bool
    ensures { Gives result (verify stack.old) stack.new }
{
    if stack.len() == 0 {
        return false;
    }
    stack.pop().is_true()
}

/// Copies the top, if it is true.
#[inline(never)]
fn duplicate_if_true(alloc: Global, stack: &mut Pile<Element>) -> Result<bool, Memory>
    ensures { IfOk result (λ there. Gives there (if_dup stack.old) stack.new) }
{
    if stack.len() == 0 {
        return Ok(false);
    }
    let top = stack.pop();
    if top.is_true() {
        stack.push(top.copy(alloc)?)?;
    }
    stack.push(top)?;
    Ok(true)
}

/// Pushes the length of the top.
#[inline(never)]
fn push_size(alloc: Global, stack: &mut Pile<Element>) -> Result<bool, Memory>
    ensures { IfOk result (λ there. Gives there (size stack.old) stack.new) }
{
    if stack.len() == 0 {
        return Ok(false);
    }
    let top = stack.pop();
    let len = top.as_slice().len() as i64;
    stack.push(top)?;
    push_number(alloc, stack, len)?;
    Ok(true)
}

/// Takes the two on top, and pushes whether they have the same bytes.
pub fn compare(alloc: Global, stack: &mut Pile<Element>) -> Result<bool, Memory>
    ensures { IfOk result (λ there. Gives there (equal_bytes stack.old) stack.new) }
{
    if stack.len() < 2 {
        return Ok(false);
    }
    let b = stack.pop();
    let a = stack.pop();
    let same = a.as_slice() == b.as_slice();
    stack.push(Element::from_truth(alloc, same)?)?;
    Ok(true)
}

// Rows are calls that aren't inlined (`inline(never)`): in one frame each opcode would pay for clearing a slot for each
// value of each row. What stands between the loop and its rows is (`inline(always)`): there is a loop for each judge of
// signatures, and what two of them call the compiler would leave as a call for each opcode.
/// Does it, and says whether it could be done.
#[inline(always)]
pub fn apply(alloc: Global, stack: &mut Pile<Element>, by: Change) -> Result<bool, Memory>
    ensures { IfOk result (λ there. Gives there (change_of by stack.old) stack.new) }
{
    match by {
        Change::MinusOne => push(alloc, stack, &[0x81]),
        Change::Small(n) => push(alloc, stack, &[n]),
        Change::Move(by) => rearrange(alloc, stack, by),
        Change::Verify => Ok(verify(stack)),
        Change::IfDup => duplicate_if_true(alloc, stack),
        Change::Size => push_size(alloc, stack),
        Change::Hash(by) => digest_top(alloc, stack, by),
        Change::Unary(by) => change_number(alloc, stack, by),
        Change::Binary(by) => join_numbers(alloc, stack, by),
        Change::Within => within(alloc, stack),
        Change::Depth => push_depth(alloc, stack),
        Change::Pick => pick(alloc, stack),
        Change::Roll => roll(stack),
    }
}
