//! Replies, read back from their texts.

ghost use Rattle.std.specs.Prelude.{◌≡◌, ◌++◌, true, IfSome};

use model::{MarkReply, SubmitReply};
use std::fmt;
use std::fmt::Write;
use txn::Reason;

/// The replies to submissions that break no rule.
const REPLIES: [SubmitReply; 7] = [
    SubmitReply::Accepted,
    SubmitReply::Inconclusive,
    SubmitReply::Duplicate,
    SubmitReply::DuplicateInvalid,
    SubmitReply::DuplicateInconclusive,
    SubmitReply::DecodeFailed,
    SubmitReply::TreeFull,
];

/// The replies to marks.
const MARK_REPLIES: [MarkReply; 3] = [MarkReply::Done, MarkReply::NotFound, MarkReply::Genesis];

/// The reasons, but for the one that names an input.
const REASONS: [Reason; 28] = [
    Reason::HighHash,
    Reason::BadMerkleRoot,
    Reason::DuplicateTransactions,
    Reason::BadBlockLength,
    Reason::CoinbaseMissing,
    Reason::CoinbaseMultiple,
    Reason::NoInputs,
    Reason::NoOutputs,
    Reason::OutputNegative,
    Reason::OutputTooLarge,
    Reason::OutputSumTooLarge,
    Reason::DuplicateInputs,
    Reason::CoinbaseLength,
    Reason::NullPrevout,
    Reason::TooManySigops,
    Reason::ParentNotFound,
    Reason::ParentInvalid,
    Reason::WrongBits,
    Reason::TimeTooOld,
    Reason::TimeTooNew,
    Reason::BadVersion,
    Reason::NonFinal,
    Reason::CoinbaseHeight,
    Reason::OverwritesCoin,
    Reason::InputsMissingOrSpent,
    Reason::PrematureCoinbaseSpend,
    Reason::InputsBelowOutputs,
    Reason::CoinbaseAmount,
];

/// The reply to a submission that has this text.
pub fn read_submit_reply(text: &str) -> Option<SubmitReply> {
    let plain = REPLIES.iter().find(|reply| is_text_of(*reply, text));
    match plain {
        Some(reply) => Some(*reply),
        None => Some(SubmitReply::Rejected(read_reason(text)?)),
    }
}

/// The reply to a mark that has this text.
pub fn read_mark_reply(text: &str) -> Option<MarkReply> {
    MARK_REPLIES
        .iter()
        .find(|reply| is_text_of(*reply, text))
        .copied()
}

fn read_reason(text: &str) -> Option<Reason> {
    let plain = REASONS.iter().find(|reason| is_text_of(*reason, text));
    match plain {
        Some(reason) => Some(*reason),
        None => read_script_refused(text),
    }
}

/// The reason that names an input of a transaction.
fn read_script_refused(text: &str) -> Option<Reason> {
    let (_, place) = text.split_once(' ')?;
    let (transaction, input) = place.split_once(':')?;
    let reason = Reason::ScriptRefused {
        transaction: transaction.parse().ok()?,
        input: input.parse().ok()?,
    };
    if is_text_of(&reason, text) {
        Some(reason)
    } else {
        None
    }
}

/// Whether a value is printed so.
pub fn is_text_of<T: fmt::Display>(value: &T, text: &str) -> bool
    ensures { result ≡ true → IfSome (T.output value.now) (λ printed. text.now ≡ printed) }
{
    let mut rest = Rest { text };
    match write!(rest, "{value}") {
        Ok(()) => rest.text.is_empty(),
        Err(_) => false,
    }
}

/// A text of which the front is taken off by writing it.
#[derive(Clone, Copy)]
struct Rest<'t> {
    text: &'t str,
}

impl fmt::Write for Rest<'_> {
    ghost write_str_gives = { λ old bytes new. old.text.now ≡ bytes ++ new.text.now };

    fn write_str(&mut self, text: &str) -> fmt::Result {
        match self.text.strip_prefix(text) {
            Some(rest) => {
                self.text = rest;
                Ok(())
            }
            None => Err(fmt::Error),
        }
    }
}
