//! What a publication brings of the entry that is owed, beside its changes.

ghost use Rattle.std.specs.Prelude.{◌≡◌, ◌++◌, ◌∷◌, [], true, false, None, IfSome, List};
ghost use Rattle.std.specs.Arc.{arc_value};
ghost use Rattle.model.specs.declared.entry.Entry.{Entry as EntryValue};
ghost use Rattle.node.specs.inside.Brought.{IsBrought};
ghost use Rattle.node.specs.inside.PublishedState.{entry_with_reply};

use crate::published_history::core_info::chain_info;
use activate::Core;
use model::{Entry, Reply};
use std::alloc::Global;
use std::sync::Arc;
use view::{ChainInfo, Hub, SharedEntry};

/// What a publication brings of an entry, beside its changes: what memory may be refused for.
#[derive(Drop)]
pub(crate) struct Brought {
    pub(crate) hub: Arc<Hub>,
    pub(crate) entry: SharedEntry,
    /// What stands after it.
    pub(crate) info: ChainInfo,
}

/// Whether a publication may bring this reply: one that brings an entry again brings none.
fn may_bring(is_new: bool, reply: &Option<Reply>) -> bool
    ensures { (result ≡ true) → (is_new ≡ false) → reply.now ≡ None }
{
    is_new || reply.is_none()
}

/// The last entry, with this reply.
fn last_with_reply(alloc: Global, journal: &[Entry], reply: Option<Reply>) -> Option<SharedEntry>
    ensures { (before : List EntryValue) (e : EntryValue) → journal.now ≡ before ++ e ∷ []
        → IfSome result (λ entry. entry ≡ entry_with_reply e reply) }
{
    let Some(last) = journal.last() else {
        return None;
    };
    let Ok(command) = last.command.copy() else {
        return None;
    };
    let entry = Entry {
        seat: last.seat,
        command,
        reply,
    };
    let Ok(entry) = SharedEntry::of(alloc, entry) else {
        return None;
    };
    Some(entry)
}

/// What a publication brings of the last entry, with a reply that it may bring. It owns all that memory may be refused
/// for, so that what publishes it has few ways out.
pub(crate) fn what_is_brought(
    alloc: Global,
    core: &Core,
    hub: &Arc<Hub>,
    journal: &[Entry],
    is_new: bool,
    reply: Option<Reply>,
) -> Option<Brought>
    ensures may { IfSome result (λ _. is_new ≡ false → reply ≡ None) }
    ensures hub { IfSome result (λ b. arc_value b.hub ≡ arc_value hub.now) }
    ensures brought { IfSome result (λ b. IsBrought core.now journal.now reply b.entry b.info) }
{
    if !may_bring(is_new, &reply) {
        return None;
    }
    let Ok(info) = chain_info(alloc, core) else {
        return None;
    };
    let Ok(hub) = Arc::try_clone(hub) else {
        return None;
    };
    let Some(entry) = last_with_reply(alloc, journal, reply) else {
        return None;
    };
    Some(Brought { hub, entry, info })
}
