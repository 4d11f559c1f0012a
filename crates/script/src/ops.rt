//! The opcodes of a script.

ghost use Rattle.std.specs.Prelude.{ℕ, List, ◌^◌, ◌≡◌, ◌<◌, ◌≤◌, ◌+◌, ◌++◌, [], length, take, IfSome, IfNone};
ghost use Rattle.std.specs.Iterator.{YieldsFirstRef, MakesProgress, item_count};
ghost use Rattle.script.specs.Op.{number_of, pushed_of};
ghost use Rattle.script.specs.Ops.{operand_len, op_len, ops, rest};

use crate::opcode::{OP_PUSHDATA1, OP_PUSHDATA2, OP_PUSHDATA4};
use std::marker::Model;

/// The opcodes of a script from left to right, each with its bytes.
///
/// They end at the script's end, or where a push is cut short.
#[derive(Drop)]
pub struct Ops<'a> {
    rest: &'a [u8],
}

impl<'a> Model for Ops<'a> {
    ghost Value = { List ℕ };

    ghost view = { λ s. s.rest.now };
}

impl<'a> Ops<'a> {
    /// All opcodes of the script.
    pub fn new(script: &'a [u8]) -> Ops<'a>
        ensures { result ≡ script.now }
    {
        Ops { rest: script }
    }

    /// The bytes that aren't yet read: after the last opcode, the rest.
    pub fn rest(&self) -> &'a [u8]
        ensures { result.now ≡ self.now }
    {
        self.rest
    }
}

impl<'a> Iterator for Ops<'a> {
    type Item = &'a [u8];

    ghost next_gives = { YieldsFirstRef ops };

    ghost remaining = { item_count ops };

    #[tactic(auto, using(crate::specs::laws::Ops::op_rules))]
    fn next(&mut self) -> Option<&'a [u8]>
        ensures steps { YieldsFirstRef ops self.old result self.new }
        ensures goes { MakesProgress (λ _. Unit {0}) (item_count ops) self.old result self.new }
        // An opcode is what stood at the front.
        ensures front { IfSome result (λ op. self.old ≡ op.now ++ self.new) }
        // Where none is left, the rest is.
        ensures ended { IfNone result ((self.old ≡ rest self.old) × (self.new ≡ self.old)) }
    {
        let len = first_len(self.rest)?;
        let (op, rest) = self.rest.split_at(len);
        self.rest = rest;
        Some(op)
    }
}

/// The length of the opcode at the front, if it is whole.
fn first_len(bytes: &[u8]) -> Option<usize>
    ensures value { result ≡ op_len bytes.now }
    ensures bound { IfSome result (λ n. n ≤ length bytes.now) }
{
    let (number, rest) = bytes.split_first()?;
    let len = operand_len(*number, rest)?;
    if rest.len() < len {
        return None;
    }
    Some(len + 1)
}

/// How many bytes belong to an opcode after its number, if its length is there.
#[tactic(auto, unfolding(crate::specs::Ops::operand_len))]
fn operand_len(number: u8, bytes: &[u8]) -> Option<usize>
    ensures value { result ≡ operand_len number bytes.now }
    ensures bound { IfSome result (λ n. n < 2 ^ 33) }
{
    match number {
        0..OP_PUSHDATA1 => Some(usize::from(number)),
        OP_PUSHDATA1 => {
            let [len, ..] = bytes else {
                return None;
            };
            Some(1 + usize::from(*len))
        }
        OP_PUSHDATA2 => {
            let [a, b, ..] = bytes else {
                return None;
            };
            Some(2 + usize::from(u16::from_le_bytes([*a, *b])))
        }
        OP_PUSHDATA4 => {
            let [a, b, c, d, ..] = bytes else {
                return None;
            };
            Some(4 + u32::from_le_bytes([*a, *b, *c, *d]) as usize)
        }
        _ => Some(0),
    }
}

/// The number of an opcode, which is its first byte: 0 where there is none.
pub fn number(op: &[u8]) -> u8
    ensures { result ≡ number_of op.now }
{
    match op {
        [] => 0,
        [number, ..] => *number,
    }
}

/// The bytes that an opcode pushes: none where it pushes no bytes of the script.
#[tactic(auto, unfolding(crate::specs::Op::pushed_of))]
pub fn pushed(op: &[u8]) -> &[u8]
    ensures { result.now ≡ pushed_of op.now }
{
    match op {
        [0..OP_PUSHDATA1, pushed @ ..] => pushed,
        [OP_PUSHDATA1, _, pushed @ ..] => pushed,
        [OP_PUSHDATA2, _, _, pushed @ ..] => pushed,
        [OP_PUSHDATA4, _, _, _, _, pushed @ ..] => pushed,
        _ => &[],
    }
}
