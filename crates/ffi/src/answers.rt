//! What C is answered.

ghost use Rattle.std.specs.Prelude.{◌≡◌};
ghost use Rattle.ffi.specs.Answers.{height_in, params_of};
ghost use Rattle.ffi.specs.Codes.{input_number, reason_number, reply_number, status_number, submit_number, transaction_number};

use model::{MarkReply, Reply, SubmitReply};
use rules::Params;
use tree::{Status, Tip};
use txn::Reason;

/// The call did what it says.
pub(crate) const DONE: u32 = 0;
/// There was no memory, and nothing changed.
pub(crate) const MEMORY: u32 = 1;
/// The slot holds no session.
pub(crate) const CLOSED: u32 = 2;
/// A line of the table can't be read.
pub(crate) const BAD_TABLE: u32 = 3;
/// There is no such thing: no coin, no tip, no block.
pub(crate) const NONE: u32 = 4;
/// The caller's room is too small; the answer says how much is needed.
pub(crate) const TOO_SMALL: u32 = 5;
/// The slot holds a session already.
pub(crate) const FULL: u32 = 6;
/// The bytes end too early.
pub(crate) const SHORT: u32 = 20;
/// Bytes stand behind what is read.
pub(crate) const EXTRA: u32 = 23;
/// The transaction has no input of this number.
pub(crate) const NO_INPUT: u32 = 24;
/// As many are wanted as there are inputs, or 1 to 11 times.
pub(crate) const MISMATCH: u32 = 25;
/// A script asks for a signature of which nothing is known.
pub(crate) const UNKNOWN: u32 = 29;
/// A signature is said to be valid and not to be.
pub(crate) const CONTRADICTION: u32 = 30;

/// Signatures have to be found out first; nothing else changed.
pub(crate) const WANTS: u32 = 31;
/// The room for the line of a signature that a run asks for is too small; how long it is was told.
pub(crate) const ASKED_TOO_SMALL: u32 = 32;

/// An id, in the order in which it is hashed and sent.
#[repr(C)]
#[derive(Clone, Copy, Drop)]
pub struct Name {
    pub bytes: [u8; 32],
}

/// A height, where `is_some` isn't 0.
#[repr(C)]
#[derive(Clone, Copy, Drop)]
pub struct MaybeHeight {
    pub is_some: u32,
    pub height: u32,
}

impl MaybeHeight {
    fn of(height: Option<u32>) -> MaybeHeight
        ensures { height_in result ≡ height }
    {
        match height {
            Some(height) => MaybeHeight { is_some: 1, height },
            None => MaybeHeight {
                is_some: 0,
                height: 0,
            },
        }
    }

    fn get(&self) -> Option<u32>
        ensures { result ≡ height_in self.now }
    {
        if self.is_some == 0 {
            return None;
        }
        Some(self.height)
    }
}

/// The heights from which soft forks are in force. The four of the published struct come first.
#[repr(C)]
#[derive(Clone, Copy, Drop)]
pub struct Heights {
    pub bip34: u32,
    pub bip65: u32,
    pub bip66: u32,
    pub csv: u32,
    pub nulldummy: MaybeHeight,
}

impl Heights {
    pub(crate) fn of(params: &Params) -> Heights
        ensures { params_of result ≡ params.now }
    {
        Heights {
            bip34: params.bip34,
            bip65: params.bip65,
            bip66: params.bip66,
            csv: params.csv,
            nulldummy: MaybeHeight::of(params.nulldummy),
        }
    }

    pub(crate) fn params(&self) -> Params
        ensures { result ≡ params_of self.now }
    {
        Params {
            bip34: self.bip34,
            bip65: self.bip65,
            bip66: self.bip66,
            csv: self.csv,
            nulldummy: self.nulldummy.get(),
        }
    }
}

/// An outpoint.
#[repr(C)]
#[derive(Clone, Copy, Drop)]
pub struct Place {
    pub id: Name,
    pub index: u32,
}

/// A reply, by its number; of a rejection the reason's number, and the transaction and the input whose script wasn't
/// accepted. All else is 0.
#[repr(C)]
#[derive(Clone, Copy, Drop)]
pub struct Answer {
    pub reply: u32,
    pub reason: u32,
    pub transaction: u64,
    pub input: u64,
}

/// A tip.
#[repr(C)]
#[derive(Clone, Copy, Drop)]
pub struct ShownTip {
    pub id: Name,
    pub height: u64,
    pub length: u64,
    pub status: u32,
}

/// A transaction of a block: its id, and how many outputs it has.
#[repr(C)]
#[derive(Clone, Copy, Drop)]
pub struct Made {
    pub id: Name,
    pub outputs: u64,
}

/// A coin without its script, and how long that is.
#[repr(C)]
#[derive(Clone, Copy, Drop)]
pub struct ShownCoin {
    pub value: i64,
    pub script: u64,
    pub height: u32,
    pub coinbase: u32,
}

/// The 80 bytes of a block's header, its height, and how many active blocks there are from it on, -1 where it isn't
/// active.
#[repr(C)]
#[derive(Clone, Copy, Drop)]
pub struct ShownHeader {
    pub header: [u8; 80],
    pub height: u64,
    pub confirmations: i64,
}

/// How many coins a block spent, and how many bytes their scripts are together.
#[repr(C)]
#[derive(Clone, Copy, Drop)]
pub struct ShownSpent {
    pub coins: u64,
    pub scripts: u64,
}

fn number_of_submission(reply: SubmitReply) -> u32
    ensures { result ≡ submit_number reply }
{
    match reply {
        SubmitReply::Accepted => 1,
        SubmitReply::Inconclusive => 2,
        SubmitReply::Duplicate => 3,
        SubmitReply::DuplicateInvalid => 4,
        SubmitReply::DuplicateInconclusive => 5,
        SubmitReply::Rejected(_) => 6,
        SubmitReply::DecodeFailed => 7,
        SubmitReply::TreeFull => 8,
    }
}

/// A reply as C receives it.
pub(crate) fn as_told(reply: Reply) -> Answer
    ensures reply { result.reply ≡ reply_number reply }
    ensures reason { result.reason ≡ reason_number reply }
    ensures transaction { result.transaction ≡ transaction_number reply }
    ensures input { result.input ≡ input_number reply }
{
    let mut told = Answer {
        reply: 0,
        reason: 0,
        transaction: 0,
        input: 0,
    };
    match reply {
        Reply::Submit(reply) => {
            told.reply = number_of_submission(reply);
            if let SubmitReply::Rejected(reason) = reply {
                told.reason = reason.number() as u32;
                if let Reason::ScriptRefused { transaction, input } = reason {
                    told.transaction = transaction as u64;
                    told.input = input as u64;
                }
            }
        }
        Reply::Mark(reply) => {
            told.reply = match reply {
                MarkReply::Done => 9,
                MarkReply::NotFound => 10,
                MarkReply::Genesis => 11,
            };
        }
    }
    told
}

/// A tip as C receives it.
pub(crate) fn shown_tip(tip: &Tip) -> ShownTip
    ensures id { result.id.bytes ≡ tip.now.id.0 }
    ensures height { result.height ≡ tip.now.height }
    ensures length { result.length ≡ tip.now.length }
    ensures status { result.status ≡ status_number tip.now.status }
{
    let bytes = tip.id.0;
    ShownTip {
        id: Name { bytes },
        height: tip.height as u64,
        length: tip.length as u64,
        status: match tip.status {
            Status::Active => 1,
            Status::Invalid => 2,
            Status::ValidFork => 3,
            Status::ValidHeaders => 4,
        },
    }
}
