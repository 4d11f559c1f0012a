//! Kinds of scripts.

ghost use Rattle.std.specs.Prelude.{◌≡◌};
ghost use Rattle.script.specs.Kinds.{is_push_only, is_p2sh, is_unspendable};

use crate::opcode::{OP_16, OP_EQUAL, OP_HASH160, OP_RETURN};
use crate::ops::{Ops, number};

/// The length in bytes above which a script fails (Bitcoin Core's `MAX_SCRIPT_SIZE`).
pub const MAX_SCRIPT_SIZE: usize = 10_000;

/// Whether a script is wholly readable and holds no opcode above OP_16.
pub fn push_only(script: &[u8]) -> bool
    ensures { result ≡ is_push_only script.now }
{
    let mut ops = Ops::new(script);
    while let Some(op) = ops.next() {
        if number(op) > OP_16 {
            return false;
        }
    }
    ops.rest().is_empty()
}

/// Whether a script pays to the hash of another: the 23 bytes of BIP 16.
#[tactic(auto, unfolding(crate::specs::Kinds::is_p2sh))]
pub fn is_p2sh(script: &[u8]) -> bool
    ensures { result ≡ is_p2sh script.now }
{
    script.len() == 23 && script[0] == OP_HASH160 && script[1] == 20 && script[22] == OP_EQUAL
}

/// Whether an output of this script never becomes a coin, since no input could spend it.
#[tactic(auto, unfolding(crate::specs::Kinds::is_unspendable))]
pub fn unspendable(script: &[u8]) -> bool
    ensures { result ≡ is_unspendable script.now }
{
    number(script) == OP_RETURN || script.len() > MAX_SCRIPT_SIZE
}
