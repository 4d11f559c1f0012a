//! Opcodes that compute with numbers.

ghost use Rattle.std.specs.Prelude.{◌≡◌, ◌^◌, ◌∷◌, pos, negsuc, ◌<ℤ◌, IfOk, OnOk, MatchOption, IfSome, Some, None};
ghost use Rattle.script.specs.Num.{operand, shortest_bytes};
ghost use Rattle.interp.specs.inside.Outcomes.{Gives};
ghost use Rattle.interp.specs.Effects.{pop_number, one_number, two_numbers, within};
ghost use Rattle.interp.specs.computed.Groups.{unary_of, binary_of};

use crate::element::Element;
use crate::pile::Pile;
use script::Num;
use std::alloc::Global;
use wire::Memory;

/// Opcodes that change the number on top.
#[derive(Clone, Copy, Debug, PartialEq, Eq)]
pub enum Unary {
    Add1,
    Sub1,
    Negate,
    Abs,
    Not,
    NotZero,
}

/// Opcodes that make a number of the two on top.
#[derive(Clone, Copy, Debug, PartialEq, Eq)]
pub enum Binary {
    Add,
    Sub,
    BoolAnd,
    BoolOr,
    NumEqual,
    NumNotEqual,
    Less,
    Greater,
    LessOrEqual,
    GreaterOrEqual,
    Min,
    Max,
}

/// How many bytes an operand has at most.
pub const MAX_OPERAND: usize = 4;

/// The number of an operand.
fn number(bytes: &[u8]) -> Option<i64>
    ensures value { result ≡ operand 4 bytes.now }
    ensures above { IfSome result (λ z. negsuc (2 ^ 31) <ℤ z) }
    ensures below { IfSome result (λ z. z <ℤ pos (2 ^ 31)) }
{
    let Num(z) = Num::read(bytes, MAX_OPERAND)?;
    Some(z)
}

/// Takes the number on top.
#[tactic(auto, unfolding(crate::specs::Effects::pop_number))]
fn pop_number(stack: &mut Pile<Element>) -> Option<i64>
    ensures value { MatchOption result (pop_number stack.old ≡ None)
        (λ z. pop_number stack.old ≡ Some (z, stack.new)) }
    ensures above { IfSome result (λ z. negsuc (2 ^ 31) <ℤ z) }
    ensures below { IfSome result (λ z. z <ℤ pos (2 ^ 31)) }
{
    if stack.len() == 0 {
        return None;
    }
    let top = stack.pop();
    number(top.as_slice())
}

/// Pushes the shortest spelling of a number.
pub fn push_number(alloc: Global, stack: &mut Pile<Element>, z: i64) -> Result<(), Memory>
    ensures { OnOk result (stack.new ≡ shortest_bytes z ∷ stack.old) }
{
    stack.push(Element::from_number(alloc, z)?)
}

// The numbers that are taken, the lowest first, and the one that is pushed.
macro_rules! row {
    ($alloc:ident, $stack:ident; $a:ident -> $result:expr) => {{
        let Some($a) = pop_number($stack) else {
            return Ok(false);
        };
        push_number($alloc, $stack, $result)?;
        Ok(true)
    }};
    ($alloc:ident, $stack:ident; $a:ident $b:ident -> $result:expr) => {{
        let Some($b) = pop_number($stack) else {
            return Ok(false);
        };
        row!($alloc, $stack; $a -> $result)
    }};
    ($alloc:ident, $stack:ident; $a:ident $b:ident $c:ident -> $result:expr) => {{
        let Some($c) = pop_number($stack) else {
            return Ok(false);
        };
        row!($alloc, $stack; $a $b -> $result)
    }};
}

/// What an opcode makes of a number.
fn changed(by: Unary, a: i64) -> i64
    requires above { negsuc (2 ^ 31) <ℤ a }
    requires below { a <ℤ pos (2 ^ 31) }
    ensures { result ≡ unary_of by a }
{
    match by {
        Unary::Add1 => a + 1,
        Unary::Sub1 => a - 1,
        Unary::Negate => -a,
        Unary::Abs => a.abs(),
        Unary::Not => i64::from(a == 0),
        Unary::NotZero => i64::from(a != 0),
    }
}

/// Changes the number on top, if there is one.
#[tactic(auto, unfolding(crate::specs::Effects::one_number))]
#[inline(never)]
pub fn change_number(alloc: Global, stack: &mut Pile<Element>, by: Unary) -> Result<bool, Memory>
    ensures { IfOk result (λ there. Gives there (one_number (unary_of by) stack.old) stack.new) }
{
    row!(alloc, stack; a -> changed(by, a))
}

/// The number that an opcode makes of two.
fn joined(by: Binary, a: i64, b: i64) -> i64
    requires a_above { negsuc (2 ^ 31) <ℤ a }
    requires a_below { a <ℤ pos (2 ^ 31) }
    requires b_above { negsuc (2 ^ 31) <ℤ b }
    requires b_below { b <ℤ pos (2 ^ 31) }
    ensures { result ≡ binary_of by a b }
{
    match by {
        Binary::Add => a + b,
        Binary::Sub => a - b,
        Binary::BoolAnd => i64::from(a != 0 && b != 0),
        Binary::BoolOr => i64::from(a != 0 || b != 0),
        Binary::NumEqual => i64::from(a == b),
        Binary::NumNotEqual => i64::from(a != b),
        Binary::Less => i64::from(a < b),
        Binary::Greater => i64::from(a > b),
        Binary::LessOrEqual => i64::from(a <= b),
        Binary::GreaterOrEqual => i64::from(a >= b),
        Binary::Min => a.min(b),
        Binary::Max => a.max(b),
    }
}

/// Makes a number of the two on top, if they are there.
#[tactic(auto, unfolding(crate::specs::Effects::two_numbers))]
#[inline(never)]
pub fn join_numbers(alloc: Global, stack: &mut Pile<Element>, by: Binary) -> Result<bool, Memory>
    ensures { IfOk result (λ there. Gives there
        (two_numbers (binary_of by) stack.old) stack.new) }
{
    row!(alloc, stack; a b -> joined(by, a, b))
}

/// Whether a number lies from the second on and below the third, if the three are there.
#[tactic(auto, unfolding(crate::specs::Effects::within))]
#[inline(never)]
pub fn within(alloc: Global, stack: &mut Pile<Element>) -> Result<bool, Memory>
    ensures { IfOk result (λ there. Gives there (within stack.old) stack.new) }
{
    row!(alloc, stack; x min max -> i64::from(min <= x && x < max))
}
