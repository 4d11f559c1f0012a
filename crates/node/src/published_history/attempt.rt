//! The attempt to publish an entry that is owed.

ghost use Rattle.std.specs.Prelude.{◌≡◌, ◌++◌, ◌∷◌, [], IfSome, MatchBool, None, drop};
ghost use Rattle.view.specs.NextPublications.{AllFollow};
ghost use Rattle.node.specs.inside.PublishedState.{AreDue, Shows, entry_with_reply, is_owed, owed_by};

use crate::published_history::owed_step::Pending;
use crate::published_history::writer_home::WriterHome;
use std::sync::Wait;
use view::{Naming, Publication, SeenHistory, ViewWriter, publish};

/// What there is after the attempt.
#[derive(Drop)]
pub(crate) struct Attempt<J: Naming> {
    /// None where what is published has no note: nothing more is published then.
    pub(crate) home: Option<WriterHome<J>>,
    /// The history that is published.
    pub(crate) note: SeenHistory,
    /// Whether the entry is still owed.
    pub(crate) pending: Pending,
}

/// Publishes an entry that is owed.
pub(crate) fn attempt_to_publish<J: Naming, R: Wait>(
    rt: &R,
    writer: ViewWriter<J>,
    publication: Publication,
) -> Attempt<J>
    requires shown { let x = writer.desk.shown.value in
        Shows x x.origin publication.before.entries }
    requires book { publication.before.book ≡ writer.desk.shown.value.origin.book }
    requires follows { let pending = drop writer.behind writer.log.items in
        AllFollow writer.desk.shown.value (pending ++ publication ∷ []) }
    requires due { let pending = drop writer.behind writer.log.items in
        let p = publication in
        let journal = p.before.entries ++ entry_with_reply p.entry None ∷ [] in
        AreDue (owed_by p.is_new p.changes) writer.desk.shown.value pending journal }
    ensures book { result.note.book ≡ publication.before.book }
    ensures note { let p = publication in
        MatchBool (is_owed result.pending)
        (result.note.entries ≡ p.before.entries)
        (result.note.entries ≡ p.before.entries ++ p.entry ∷ []) }
    ensures shown { let o = writer.desk.shown.value.origin in
        IfSome result.home (λ h. Shows h.writer.desk.shown.value o result.note.entries) }
    ensures due { let p = publication in
        let journal = p.before.entries ++ entry_with_reply p.entry None ∷ [] in
        IfSome result.home (λ h.
        let left = drop h.writer.behind h.writer.log.items in
        AreDue result.pending h.writer.desk.shown.value left journal) }
{
    let before = publication.before.copy();
    let (writer, shown) = publish(rt, writer, publication);
    match shown {
        Ok(true) => {
            let Some(note) = writer.published().note() else {
                drop(WriterHome { writer });
                return Attempt {
                    home: None,
                    note: before,
                    pending: Pending::Again,
                };
            };
            Attempt {
                home: Some(WriterHome { writer }),
                note,
                pending: Pending::None,
            }
        }
        Ok(false) => Attempt {
            home: Some(WriterHome { writer }),
            note: before,
            pending: Pending::Again,
        },
        Err(publication) => {
            let Publication {
                is_new,
                changes,
                ..
            } = publication;
            Attempt {
                home: Some(WriterHome { writer }),
                note: before,
                pending: if is_new {
                    Pending::New(changes)
                } else {
                    Pending::Again
                },
            }
        }
    }
}
