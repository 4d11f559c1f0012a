//! What holds of what is published, by the definitions alone.

ghost use Rattle.std.specs.Prelude.{List, [], ◌<◌};
ghost use mathlib.Core.List.{IsPrefix};
ghost use Rattle.signatures.specs.Known.{Under};
ghost use Rattle.tree.specs.Limits.{max_blocks};
ghost use Rattle.view.specs.NextPublications.{AllFollow};
ghost use Rattle.view.specs.Origin.{Origin, known_in};
ghost use Rattle.view.specs.ViewState.{ViewState, IsExact, IsInfo, after_publications, opening_view};
ghost use Rattle.view.specs.declared.chain_info.ChainInfo.{ChainInfo};
ghost use Rattle.view.specs.declared.publication.Publication.{Publication};

use crate::history_name::Naming;
use crate::publishers::{ViewReader, ViewWriter};
use crate::seen_history::SeenHistory;

/// A view is exact at first: there are no coins then.
pub fn the_opening_view_is_exact()
    ensures { (o : Origin) (info : ChainInfo)
        → Under (known_in o []) (λ valid. IsInfo o valid [] info)
        → info.height < max_blocks → IsExact (opening_view o info) }
{}

/// It stays exact, as long as each publication follows what was there.
pub fn publications_keep_a_view_exact()
    ensures { (x : ViewState) (ps : List Publication) → IsExact x → AllFollow x ps
        → IsExact (after_publications x ps) }
{}

/// And what was published begins what is published then.
pub fn what_is_published_only_grows()
    ensures { (x : ViewState) (ps : List Publication) → IsExact x → AllFollow x ps
        → IsPrefix x.journal (after_publications x ps).journal }
{}

/// Notes, readers and the writer may be given to other threads, and notes be shared with them.
pub fn handles_cross_threads<J: Naming>() {
    is_sent::<SeenHistory>();
    is_shared::<SeenHistory>();
    is_sent::<ViewReader<J>>();
    is_sent::<ViewWriter<J>>();
}

fn is_sent<T: Send>() {}

fn is_shared<T: Sync>() {}
