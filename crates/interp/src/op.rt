//! What each opcode does.

ghost use Rattle.std.specs.Prelude.{◌≡◌};
ghost use Rattle.interp.specs.Row.{row_at};
ghost use Rattle.interp.specs.computed.OpcodeRow.{meaning};

use crate::changes::Change;
use crate::hashes::Hash;
use crate::moves::Move;
use crate::numbers::{Binary, Unary};
use script::opcode::*;

/// What leaves a truth or a number, and so has a form with VERIFY.
#[derive(Clone, Copy, Debug, PartialEq, Eq)]
pub enum Test {
    Equal,
    NumEqual,
    CheckSig,
    CheckMultisig,
}

/// What an opcode that is no push of bytes does.
#[derive(Clone, Copy, Debug, PartialEq, Eq)]
pub enum Op {
    /// Fails, also in a branch that isn't taken.
    Disabled,
    Fails,
    Nothing,
    Change(Change),
    Test(Test),
    TestVerify(Test),
    If,
    NotIf,
    Else,
    EndIf,
    ToAlt,
    FromAlt,
    CodeSeparator,
    LockTime,
    Sequence,
}

/// The opcode of a number.
#[tactic(auto, using(crate::proofs::Table::failing), unfolding(crate::specs::Row::row_at))]
#[inline(always)]
pub fn op_of(number: u8) -> Op
    ensures { meaning result ≡ row_at number }
{
    match number {
        OP_1NEGATE => Op::Change(Change::MinusOne),
        OP_1..=OP_16 => Op::Change(Change::Small(number - (OP_1 - 1))),
        OP_NOP | OP_NOP1 | OP_NOP4..=OP_NOP10 => Op::Nothing,
        OP_IF => Op::If,
        OP_NOTIF => Op::NotIf,
        OP_VERIF | OP_VERNOTIF => Op::Disabled,
        OP_ELSE => Op::Else,
        OP_ENDIF => Op::EndIf,
        OP_VERIFY => Op::Change(Change::Verify),
        OP_TOALTSTACK => Op::ToAlt,
        OP_FROMALTSTACK => Op::FromAlt,
        OP_2DROP => Op::Change(Change::Move(Move::Drop2)),
        OP_2DUP => Op::Change(Change::Move(Move::Dup2)),
        OP_3DUP => Op::Change(Change::Move(Move::Dup3)),
        OP_2OVER => Op::Change(Change::Move(Move::Over2)),
        OP_2ROT => Op::Change(Change::Move(Move::Rot2)),
        OP_2SWAP => Op::Change(Change::Move(Move::Swap2)),
        OP_IFDUP => Op::Change(Change::IfDup),
        OP_DEPTH => Op::Change(Change::Depth),
        OP_DROP => Op::Change(Change::Move(Move::Drop1)),
        OP_DUP => Op::Change(Change::Move(Move::Dup)),
        OP_NIP => Op::Change(Change::Move(Move::Nip)),
        OP_OVER => Op::Change(Change::Move(Move::Over)),
        OP_PICK => Op::Change(Change::Pick),
        OP_ROLL => Op::Change(Change::Roll),
        OP_ROT => Op::Change(Change::Move(Move::Rot)),
        OP_SWAP => Op::Change(Change::Move(Move::Swap)),
        OP_TUCK => Op::Change(Change::Move(Move::Tuck)),
        OP_CAT..=OP_RIGHT | OP_INVERT..=OP_XOR | OP_2MUL | OP_2DIV | OP_MUL..=OP_RSHIFT =>
            Op::Disabled,
        OP_SIZE => Op::Change(Change::Size),
        OP_EQUAL => Op::Test(Test::Equal),
        OP_EQUALVERIFY => Op::TestVerify(Test::Equal),
        OP_1ADD => Op::Change(Change::Unary(Unary::Add1)),
        OP_1SUB => Op::Change(Change::Unary(Unary::Sub1)),
        OP_NEGATE => Op::Change(Change::Unary(Unary::Negate)),
        OP_ABS => Op::Change(Change::Unary(Unary::Abs)),
        OP_NOT => Op::Change(Change::Unary(Unary::Not)),
        OP_0NOTEQUAL => Op::Change(Change::Unary(Unary::NotZero)),
        OP_ADD => Op::Change(Change::Binary(Binary::Add)),
        OP_SUB => Op::Change(Change::Binary(Binary::Sub)),
        OP_BOOLAND => Op::Change(Change::Binary(Binary::BoolAnd)),
        OP_BOOLOR => Op::Change(Change::Binary(Binary::BoolOr)),
        OP_NUMEQUAL => Op::Test(Test::NumEqual),
        OP_NUMEQUALVERIFY => Op::TestVerify(Test::NumEqual),
        OP_NUMNOTEQUAL => Op::Change(Change::Binary(Binary::NumNotEqual)),
        OP_LESSTHAN => Op::Change(Change::Binary(Binary::Less)),
        OP_GREATERTHAN => Op::Change(Change::Binary(Binary::Greater)),
        OP_LESSTHANOREQUAL => Op::Change(Change::Binary(Binary::LessOrEqual)),
        OP_GREATERTHANOREQUAL => Op::Change(Change::Binary(Binary::GreaterOrEqual)),
        OP_MIN => Op::Change(Change::Binary(Binary::Min)),
        OP_MAX => Op::Change(Change::Binary(Binary::Max)),
        OP_WITHIN => Op::Change(Change::Within),
        OP_RIPEMD160 => Op::Change(Change::Hash(Hash::Ripemd160)),
        OP_SHA1 => Op::Change(Change::Hash(Hash::Sha1)),
        OP_SHA256 => Op::Change(Change::Hash(Hash::Sha256)),
        OP_HASH160 => Op::Change(Change::Hash(Hash::Hash160)),
        OP_HASH256 => Op::Change(Change::Hash(Hash::DoubleSha256)),
        OP_CODESEPARATOR => Op::CodeSeparator,
        OP_CHECKSIG => Op::Test(Test::CheckSig),
        OP_CHECKSIGVERIFY => Op::TestVerify(Test::CheckSig),
        OP_CHECKMULTISIG => Op::Test(Test::CheckMultisig),
        OP_CHECKMULTISIGVERIFY => Op::TestVerify(Test::CheckMultisig),
        OP_CHECKLOCKTIMEVERIFY => Op::LockTime,
        OP_CHECKSEQUENCEVERIFY => Op::Sequence,
        // What fails, a gap of the table at a time.
        OP_0..=OP_PUSHDATA4 => Op::Fails,
        OP_RESERVED => Op::Fails,
        OP_VER => Op::Fails,
        OP_RETURN => Op::Fails,
        OP_RESERVED1..=OP_RESERVED2 => Op::Fails,
        0xba..=OP_INVALIDOPCODE => Op::Fails,
    }
}
