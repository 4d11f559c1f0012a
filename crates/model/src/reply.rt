//! The replies of the chainstate.

ghost use Rattle.std.specs.Prelude.{Some};
ghost use Rattle.model.specs.ReplyText.{text_of_submit, text_of_mark, text_of_reply};

use std::fmt;
use txn::Reason;

/// The reply to a submission (Bitcoin Core's `submitblock`).
#[derive(Clone, Copy, Debug, PartialEq, Eq)]
pub enum SubmitReply {
    /// The block is the active one.
    Accepted,
    /// The block is kept, and another is the active one.
    Inconclusive,
    /// The block is kept before, and was found valid.
    Duplicate,
    /// The block is kept before, and a block of its branch is marked.
    DuplicateInvalid,
    /// The block is kept before, and was never looked at whole.
    DuplicateInconclusive,
    /// The block breaks a rule.
    Rejected(Reason),
    /// The bytes are no block. It is no step.
    DecodeFailed,
    /// No more blocks can be kept.
    TreeFull,
}

impl fmt::Display for SubmitReply {
    ghost output = { λ reply. Some (text_of_submit reply) };

    fn fmt<W: fmt::Write>(&self, f: &mut fmt::Formatter<W>) -> fmt::Result {
        match self {
            SubmitReply::Accepted => f.write_str("accepted"),
            SubmitReply::Inconclusive => f.write_str("inconclusive"),
            SubmitReply::Duplicate => f.write_str("duplicate"),
            SubmitReply::DuplicateInvalid => f.write_str("duplicate-invalid"),
            SubmitReply::DuplicateInconclusive => f.write_str("duplicate-inconclusive"),
            SubmitReply::Rejected(reason) => reason.fmt(f),
            SubmitReply::DecodeFailed => f.write_str("decode-failed"),
            SubmitReply::TreeFull => f.write_str("tree-full"),
        }
    }
}

/// The reply to `invalidate`, `reconsider` or `precious`; a verdict on a signature is taken down as `Done`.
#[derive(Clone, Copy, Debug, PartialEq, Eq)]
pub enum MarkReply {
    Done,
    /// No such block is kept.
    NotFound,
    /// The genesis block is never marked.
    Genesis,
}

impl fmt::Display for MarkReply {
    ghost output = { λ reply. Some (text_of_mark reply) };

    fn fmt<W: fmt::Write>(&self, f: &mut fmt::Formatter<W>) -> fmt::Result {
        f.write_str(match self {
            MarkReply::Done => "done",
            MarkReply::NotFound => "not-found",
            MarkReply::Genesis => "genesis",
        })
    }
}

/// The reply of a step.
#[derive(Clone, Copy, Debug, PartialEq, Eq)]
pub enum Reply {
    Submit(SubmitReply),
    Mark(MarkReply),
}

impl fmt::Display for Reply {
    ghost output = { λ reply. Some (text_of_reply reply) };

    fn fmt<W: fmt::Write>(&self, f: &mut fmt::Formatter<W>) -> fmt::Result {
        match self {
            Reply::Submit(reply) => reply.fmt(f),
            Reply::Mark(reply) => reply.fmt(f),
        }
    }
}
