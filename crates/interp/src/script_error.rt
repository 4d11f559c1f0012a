//! Why a script fails.

use std::fmt;

/// Why a script fails, by the name that Bitcoin Core gives it (`ScriptError`): those of the rules before segregated
/// witness. The texts are Core's.
#[derive(Clone, Copy, Debug, PartialEq, Eq)]
pub enum ScriptError {
    /// An element is too long to be read as a number.
    UnknownError,
    /// The top isn't true at the end, or there is none.
    EvalFalse,
    /// An OP_RETURN is executed.
    OpReturn,
    /// The script has more than 10,000 bytes.
    ScriptSize,
    /// A push has more than 520 bytes.
    PushSize,
    /// There are more than 201 opcodes above OP_16, with the keys of each CHECKMULTISIG.
    OpCount,
    /// Both stacks have more than 1,000 elements.
    StackSize,
    /// A CHECKMULTISIG has a negative number of signatures, or more than keys.
    SigCount,
    /// A CHECKMULTISIG has a negative number of keys, or more than 20.
    PubkeyCount,
    /// A VERIFY finds a false element.
    Verify,
    /// An EQUALVERIFY finds different elements.
    EqualVerify,
    /// A CHECKMULTISIGVERIFY finds a signature that is valid for no key.
    CheckMultisigVerify,
    /// A CHECKSIGVERIFY finds an invalid signature.
    CheckSigVerify,
    /// A NUMEQUALVERIFY finds different numbers.
    NumEqualVerify,
    /// An opcode has no meaning, or a push is cut short.
    BadOpcode,
    /// A disabled opcode, also in a branch that isn't taken.
    DisabledOpcode,
    /// An opcode finds too few elements, or no element at the place that it is to reach.
    InvalidStackOperation,
    /// A FROMALTSTACK finds none.
    InvalidAltstackOperation,
    /// An IF finds no element, an ELSE or ENDIF no IF, or an IF no ENDIF.
    UnbalancedConditional,
    /// The lock that is asked for is negative (BIPs 65 and 112).
    NegativeLocktime,
    /// The transaction doesn't keep the lock that is asked for (BIPs 65 and 112).
    UnsatisfiedLocktime,
    /// A signature that is tried isn't strictly encoded (BIP 66).
    SigDer,
    /// The input script of a script hash does more than push (BIP 16).
    SigPushOnly,
    /// The element more that a CHECKMULTISIG takes isn't empty (BIP 147).
    SigNullDummy,
}

impl fmt::Display for ScriptError {
    fn fmt<W: fmt::Write>(&self, f: &mut fmt::Formatter<W>) -> fmt::Result {
        f.write_str(match self {
            ScriptError::UnknownError => "unknown error",
            ScriptError::EvalFalse => {
                "Script evaluated without error but finished with a false/empty top stack element"
            }
            ScriptError::OpReturn => "OP_RETURN was encountered",
            ScriptError::ScriptSize => "Script is too big",
            ScriptError::PushSize => "Push value size limit exceeded",
            ScriptError::OpCount => "Operation limit exceeded",
            ScriptError::StackSize => "Stack size limit exceeded",
            ScriptError::SigCount => "Signature count negative or greater than pubkey count",
            ScriptError::PubkeyCount => "Pubkey count negative or limit exceeded",
            ScriptError::Verify => "Script failed an OP_VERIFY operation",
            ScriptError::EqualVerify => "Script failed an OP_EQUALVERIFY operation",
            ScriptError::CheckMultisigVerify => "Script failed an OP_CHECKMULTISIGVERIFY operation",
            ScriptError::CheckSigVerify => "Script failed an OP_CHECKSIGVERIFY operation",
            ScriptError::NumEqualVerify => "Script failed an OP_NUMEQUALVERIFY operation",
            ScriptError::BadOpcode => "Opcode missing or not understood",
            ScriptError::DisabledOpcode => "Attempted to use a disabled opcode",
            ScriptError::InvalidStackOperation => "Operation not valid with the current stack size",
            ScriptError::InvalidAltstackOperation => {
                "Operation not valid with the current altstack size"
            }
            ScriptError::UnbalancedConditional => "Invalid OP_IF construction",
            ScriptError::NegativeLocktime => "Negative locktime",
            ScriptError::UnsatisfiedLocktime => "Locktime requirement not satisfied",
            ScriptError::SigDer => "Non-canonical DER signature",
            ScriptError::SigPushOnly => "Only push operators allowed in signatures",
            ScriptError::SigNullDummy => "Dummy CHECKMULTISIG argument must be zero",
        })
    }
}
