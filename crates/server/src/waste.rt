//! What counts against `--history-memory`: submissions that are refused or repeated.

ghost use Rattle.std.specs.Prelude.{◌≡◌, ◌+◌, ◌-◌, ◌^◌, min, if◌then◌else◌};
ghost use Rattle.server.specs.inside.Brought.{is_kept as is_kept_by};

use node::SubmitReply;
use std::sync::atomic::AtomicU64;
use std::sync::atomic::Ordering::SeqCst;

/// How many bytes a megabyte has, as for Bitcoin Core's -maxmempool.
const MEGABYTE: u64 = 1_000_000;

/// What an entry of the history takes beside a block's bytes, about.
const ENTRY: u64 = 300;

/// How many bytes such submissions have come to, and may come to.
#[derive(Drop)]
pub struct Waste {
    most: Option<u64>,
    taken: AtomicU64,
}

impl Waste {
    /// They may take so many megabytes, or any number, and have taken so many bytes.
    pub fn new(megabytes: Option<u64>, taken: u64) -> Waste {
        let most = match megabytes {
            Some(megabytes) => Some(megabytes.saturating_mul(MEGABYTE)),
            None => None,
        };
        Waste {
            most,
            taken: AtomicU64::new(taken),
        }
    }

    /// A submission of so many bytes was a step.
    pub fn add(&self, reply: SubmitReply, bytes: usize) {
        let _ = self.taken.fetch_add(taken_by(reply, bytes), SeqCst);
    }

    /// Whether they have taken what they may.
    pub fn is_full(&self) -> bool {
        match self.most {
            Some(most) => self.taken.load(SeqCst) >= most,
            None => false,
        }
    }
}

/// What a submission of so many bytes counts; 0 if it is kept. A repeated one counts whole, though it shares the kept block's bytes.
pub fn taken_by(reply: SubmitReply, bytes: usize) -> u64
    ensures { result ≡ (if is_kept_by reply then 0 else min (300 + bytes) (2 ^ 64 - 1)) }
{
    if is_kept(reply) {
        0
    } else {
        ENTRY.saturating_add(bytes as u64)
    }
}

/// Whether a submission of this reply is kept, as a block that may be on the active branch.
pub fn is_kept(reply: SubmitReply) -> bool
    ensures { result ≡ is_kept_by reply }
{
    matches!(reply, SubmitReply::Accepted | SubmitReply::Inconclusive)
}
