//! Operations on what is published: one entry more, with what it changes.

ghost use Rattle.std.specs.Prelude.{◌≡◌, ◌++◌, ◌∷◌, [], IfSome, IfOk, IfErr};
ghost use Rattle.std.specs.Arc.{arc_value};
ghost use Rattle.view.specs.HistoryPrefix.{count_of};
ghost use Rattle.view.specs.inside.NextEntry.{IsNoPlace};

use crate::chain_info::ChainInfo;
use crate::hub::Hub;
use crate::seen_history::SeenHistory;
use crate::shared_entry::SharedEntry;
use coins::Changes;
use std::sync::Arc;
use std::sync::atomic::Ordering;

/// The most entries that a history may have. They take more memory than any machine of today can name.
const MAX_ENTRIES: u64 = 1 << 60;

/// Why an entry gets no place in the history.
#[derive(Drop)]
pub(crate) enum NoPlace {
    /// The history has another entry there: it is this.
    Taken(SeenHistory),
    /// It has as many entries as it may have.
    Full,
}

/// An entry, what it changes and the state after it. It is put behind the others, or, where it is none more, in
/// place of the last.
#[derive(Drop)]
pub struct Publication {
    pub hub: Arc<Hub>,
    /// The history before the entry.
    pub before: SeenHistory,
    pub entry: SharedEntry,
    /// Whether it is one entry more.
    pub is_new: bool,
    /// The coins that change, where it is one more.
    pub changes: Changes,
    pub info: ChainInfo,
    /// The number of the attempt that it belongs to: a later one keeps it from its place in the history.
    pub attempt: u64,
    pub ghost of_one_history: { (arc_value hub).counter ≡ count_of before.book },
}

impl Publication {
    /// The history with the entry, which gets its place there. None where a later attempt was made, or it gets none.
    pub(crate) fn note(&self) -> Option<SeenHistory>
        ensures { let b = self.now.before in IfSome result (λ n.
            (n.book ≡ b.book) × (n.entries ≡ b.entries ++ self.now.entry ∷ [])) }
    {
        if self.hub.attempt.load(Ordering::SeqCst) != self.attempt {
            return None;
        }
        self.place().ok()
    }

    /// Gives the entry its place in the history.
    fn place(&self) -> Result<SeenHistory, NoPlace>
        ensures ok { let b = self.now.before in IfOk result (λ n.
            (n.book ≡ b.book) × (n.entries ≡ b.entries ++ self.now.entry ∷ [])) }
        ensures err { IfErr result (λ why. IsNoPlace self.now.before why) }
    {
        if self.before.len() >= MAX_ENTRIES {
            return Err(NoPlace::Full);
        }
        let mut note = self.before.copy();
        if note.add(&self.hub.counter, self.entry.entry()) {
            return Ok(note);
        }
        Err(NoPlace::Taken(note))
    }
}
