//! Why a block is rejected.

ghost use Rattle.std.specs.Prelude.{◌≡◌, Some};
ghost use Rattle.txn.specs.Reason.{number_of, text_of};

use std::fmt;

/// Why a block is refused. The texts are Bitcoin Core's, but for two of our own: `BadVersion`'s, to which Core
/// adds the number, and `ScriptRefused`'s.
#[derive(Clone, Copy, Debug, PartialEq, Eq)]
pub enum Reason {
    /// The id is above the target.
    HighHash,
    /// The header's root isn't the transactions' root.
    BadMerkleRoot,
    /// Two equal hashes are paired in the Merkle tree, so another list has this root too.
    DuplicateTransactions,
    /// No transaction, or too many bytes.
    BadBlockLength,
    /// The first transaction is no coinbase.
    CoinbaseMissing,
    /// A later transaction is a coinbase.
    CoinbaseMultiple,
    /// A transaction has no input.
    NoInputs,
    /// A transaction has no output.
    NoOutputs,
    /// An output's value is below 0.
    OutputNegative,
    /// An output's value is above all the money there can be.
    OutputTooLarge,
    /// The values of a transaction's outputs are together above all the money there can be.
    OutputSumTooLarge,
    /// A transaction spends an outpoint twice.
    DuplicateInputs,
    /// A coinbase's script is too short or too long.
    CoinbaseLength,
    /// A transaction that is no coinbase spends the null outpoint.
    NullPrevout,
    /// The scripts have too many signature operations.
    TooManySigops,
    /// The parent isn't kept.
    ParentNotFound,
    /// A block of the parent's branch is marked.
    ParentInvalid,
    /// The bits aren't the network's.
    WrongBits,
    /// The time is at most the parent's median time past.
    TimeTooOld,
    /// The time is too far ahead of the given moment.
    TimeTooNew,
    /// The version is too low.
    BadVersion,
    /// A transaction's lock time, or an input's relative lock, isn't met.
    NonFinal,
    /// The coinbase's script doesn't begin with the block's height.
    CoinbaseHeight,
    /// A transaction would make a coin that is there already.
    OverwritesCoin,
    /// An input's outpoint is no coin.
    InputsMissingOrSpent,
    /// A coinbase's coin is spent too early.
    PrematureCoinbaseSpend,
    /// A transaction's inputs are worth less than its outputs.
    InputsBelowOutputs,
    /// The coinbase pays more than subsidy and fees.
    CoinbaseAmount,
    /// The script of this input of this transaction isn't accepted; both places count from 0.
    ScriptRefused { transaction: usize, input: usize },
}

impl Reason {
    /// Its number, from 1, in the order in which the rules are tested.
    pub fn number(&self) -> u8
        ensures { result ≡ number_of self.now }
    {
        match self {
            Reason::HighHash => 1,
            Reason::BadMerkleRoot => 2,
            Reason::DuplicateTransactions => 3,
            Reason::BadBlockLength => 4,
            Reason::CoinbaseMissing => 5,
            Reason::CoinbaseMultiple => 6,
            Reason::NoInputs => 7,
            Reason::NoOutputs => 8,
            Reason::OutputNegative => 9,
            Reason::OutputTooLarge => 10,
            Reason::OutputSumTooLarge => 11,
            Reason::DuplicateInputs => 12,
            Reason::CoinbaseLength => 13,
            Reason::NullPrevout => 14,
            Reason::TooManySigops => 15,
            Reason::ParentNotFound => 16,
            Reason::ParentInvalid => 17,
            Reason::WrongBits => 18,
            Reason::TimeTooOld => 19,
            Reason::TimeTooNew => 20,
            Reason::BadVersion => 21,
            Reason::NonFinal => 22,
            Reason::CoinbaseHeight => 23,
            Reason::OverwritesCoin => 24,
            Reason::InputsMissingOrSpent => 25,
            Reason::PrematureCoinbaseSpend => 26,
            Reason::InputsBelowOutputs => 27,
            Reason::CoinbaseAmount => 28,
            Reason::ScriptRefused { .. } => 29,
        }
    }
}

impl fmt::Display for Reason {
    ghost output = { λ reason. Some (text_of reason) };

    fn fmt<W: fmt::Write>(&self, f: &mut fmt::Formatter<W>) -> fmt::Result {
        let text = match self {
            Reason::HighHash => "high-hash",
            Reason::BadMerkleRoot => "bad-txnmrklroot",
            Reason::DuplicateTransactions => "bad-txns-duplicate",
            Reason::BadBlockLength => "bad-blk-length",
            Reason::CoinbaseMissing => "bad-cb-missing",
            Reason::CoinbaseMultiple => "bad-cb-multiple",
            Reason::NoInputs => "bad-txns-vin-empty",
            Reason::NoOutputs => "bad-txns-vout-empty",
            Reason::OutputNegative => "bad-txns-vout-negative",
            Reason::OutputTooLarge => "bad-txns-vout-toolarge",
            Reason::OutputSumTooLarge => "bad-txns-txouttotal-toolarge",
            Reason::DuplicateInputs => "bad-txns-inputs-duplicate",
            Reason::CoinbaseLength => "bad-cb-length",
            Reason::NullPrevout => "bad-txns-prevout-null",
            Reason::TooManySigops => "bad-blk-sigops",
            Reason::ParentNotFound => "prev-blk-not-found",
            Reason::ParentInvalid => "bad-prevblk",
            Reason::WrongBits => "bad-diffbits",
            Reason::TimeTooOld => "time-too-old",
            Reason::TimeTooNew => "time-too-new",
            Reason::BadVersion => "bad-version",
            Reason::NonFinal => "bad-txns-nonfinal",
            Reason::CoinbaseHeight => "bad-cb-height",
            Reason::OverwritesCoin => "bad-txns-BIP30",
            Reason::InputsMissingOrSpent => "bad-txns-inputs-missingorspent",
            Reason::PrematureCoinbaseSpend => "bad-txns-premature-spend-of-coinbase",
            Reason::InputsBelowOutputs => "bad-txns-in-belowout",
            Reason::CoinbaseAmount => "bad-cb-amount",
            Reason::ScriptRefused { transaction, input } => {
                return write!(f, "blk-bad-inputs {transaction}:{input}");
            }
        };
        f.write_str(text)
    }
}
