//! Counting signature operations.

ghost use Rattle.std.specs.Prelude.{◌≡◌, ◌≤◌};
ghost use Rattle.std.specs.List.{list_any};
ghost use Rattle.script.specs.inside.Signatures.{is_check};
ghost use Rattle.script.specs.Signatures.{keys, op_sigops, sigops, last_pushed, p2sh_sigops};

use crate::kinds::{is_p2sh, push_only};
use crate::opcode::{
    OP_1, OP_16, OP_CHECKMULTISIG, OP_CHECKMULTISIGVERIFY, OP_CHECKSIG, OP_CHECKSIGVERIFY,
    OP_INVALIDOPCODE,
};
use crate::ops::{Ops, number, pushed};

/// What a CHECKMULTISIG counts that gets its number of keys from the script.
#[derive(Clone, Copy, Debug, PartialEq, Eq)]
pub enum Counting {
    /// 20, whatever comes before it.
    Plain,
    /// The number that OP_1 to OP_16 directly before it names, else 20.
    Accurate,
}

/// The signature operations of a script, as far as it can be read.
///
/// Every script has its count: a `u128` holds 20 for each byte.
pub fn sigops(script: &[u8], counting: Counting) -> u128
    ensures { result ≡ sigops counting script.now }
{
    if !has_checks(script) {
        return 0;
    }
    let mut total = 0;
    let mut before = OP_INVALIDOPCODE;
    for op in Ops::new(script) {
        let number = number(op);
        total += op_sigops(counting, before, number);
        before = number;
    }
    total
}

/// Whether a byte of a script, be it of an opcode or of a push, is the number of an opcode that checks
/// signatures. It looks at each byte, so that the compiler can look at many at once.
fn has_checks(script: &[u8]) -> bool
    ensures { result ≡ list_any is_check script.now }
{
    let mut found = false;
    for byte in script {
        found |= OP_CHECKSIG <= *byte && *byte <= OP_CHECKMULTISIGVERIFY;
    }
    found
}

/// The signature operations of the inner script (BIP 16) of an input script and the script that it spends:
/// none where that isn't a script hash, or the input script doesn't only push.
#[tactic(auto, unfolding(crate::specs::Signatures::p2sh_sigops))]
pub fn p2sh_sigops(input: &[u8], spent: &[u8]) -> u128
    ensures { result ≡ p2sh_sigops input.now spent.now }
{
    if !is_p2sh(spent) || !push_only(input) {
        return 0;
    }
    sigops(last_pushed(input), Counting::Accurate)
}

/// What the last opcode of a script pushes.
pub(crate) fn last_pushed(script: &[u8]) -> &[u8]
    ensures { result.now ≡ last_pushed script.now }
{
    let mut last: &[u8] = &[];
    for op in Ops::new(script) {
        last = pushed(op);
    }
    last
}

/// What an opcode counts after another.
#[tactic(auto, unfolding(crate::specs::Signatures::op_sigops))]
fn op_sigops(counting: Counting, before: u8, number: u8) -> u128
    ensures value { result ≡ op_sigops counting before number }
    ensures bound { result ≤ 20 }
{
    match number {
        OP_CHECKSIG | OP_CHECKSIGVERIFY => 1,
        OP_CHECKMULTISIG | OP_CHECKMULTISIGVERIFY => keys(counting, before),
        _ => 0,
    }
}

/// What a CHECKMULTISIG counts after an opcode.
fn keys(counting: Counting, before: u8) -> u128
    ensures value { result ≡ keys counting before }
    ensures bound { result ≤ 20 }
{
    match counting {
        Counting::Accurate if OP_1 <= before && before <= OP_16 => u128::from(before - (OP_1 - 1)),
        Counting::Accurate | Counting::Plain => 20,
    }
}
