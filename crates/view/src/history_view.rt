//! The published view, of which two copies are kept: readers take one while the other is changed.

ghost use Rattle.std.specs.Prelude.{◌≡◌, [], OnOk, OnErr, IfErr};
ghost use Rattle.std.specs.Arc.{arc_value};
ghost use Rattle.std.specs.Option.{option_map};
ghost use Rattle.view.specs.Origin.{origin_of};
ghost use Rattle.view.specs.ViewState.{after_publication, opening_view};

use crate::chain_info::ChainInfo;
use crate::growth::reserve_one;
use crate::publication::Publication;
use crate::seen_history::SeenHistory;
use crate::shared_entry::SharedEntry;
use coins::CoinMap;
use left_right::Absorb;
use rules::Params;
use signatures::Table;
use std::alloc::{AllocError, Global};
use std::marker::Model;
use std::sync::Arc;

/// The history so far, and what there is after it.
#[derive(Drop)]
pub struct View {
    alloc: Global,
    params: Params,
    /// All valid signatures, if they are known from the first.
    table: Option<Arc<Table>>,
    seats: usize,
    /// The history that the last publication went on from.
    before: SeenHistory,
    /// The entry that it brought.
    last: Option<SharedEntry>,
    /// The history with that entry too, once it has its place there.
    pub(crate) note: Option<SeenHistory>,
    pub(crate) journal: Vec<SharedEntry>,
    pub(crate) coins: CoinMap,
    pub(crate) info: ChainInfo,
}

impl Model for View {
    ghost use Rattle.std.specs.Prelude.{◌≡◌, ◌++◌, IfSome};
    ghost use Rattle.std.specs.Arc.{arc_value};
    ghost use Rattle.std.specs.Option.{option_map, option_to_list};
    ghost use Rattle.std.specs.Coded.{codes};
    ghost use Rattle.std.specs.FinSet as set;
    ghost use Rattle.signatures.specs.Triple.{triple_cmp, coded_triple};
    ghost use Rattle.coins.specs.Coins.{coded_coins};
    ghost use Rattle.view.specs.Origin.{origin_of};
    ghost use Rattle.view.specs.ViewState.{ViewState};

    ghost Value = { ViewState };

    ghost coded = { Prim.hlevel (codes, coded_coins, set.code {R = triple_cmp} coded_triple) };

    ghost view = { λ v. record {
      origin = origin_of v.before.book v.params (option_map arc_value v.table) v.seats;
      before = v.before.entries;
      last = v.last;
      journal = v.journal.items;
      coins = v.coins;
      info = v.info;
    } };

    ghost invariant = { λ v. IfSome v.note (λ n.
        (n.book ≡ v.before.book) × (n.entries ≡ v.before.entries ++ option_to_list v.last)) };
}

impl View {
    /// Nothing has been published yet.
    pub fn new(
        alloc: Global,
        params: Params,
        table: Option<Arc<Table>>,
        seats: usize,
        note: SeenHistory,
        info: ChainInfo,
    ) -> View
        requires { note.entries ≡ [] }
        ensures { let known = option_map arc_value table in
            result ≡ opening_view (origin_of note.book params known seats) info }
    {
        View {
            alloc,
            params,
            table,
            seats,
            note: Some(note.copy()),
            before: note,
            last: None,
            journal: Vec::new(alloc),
            coins: CoinMap::new(alloc),
            info,
        }
    }

    /// Takes a publication in that is lent. All memory is got first; the entry's place in the history is the last act.
    fn take_lent(&mut self, publication: &Publication) -> Result<(), AllocError>
        ensures ok { OnOk result (self.new ≡ after_publication self.old publication.now) }
        ensures err { OnErr result (self.new ≡ self.old) }
    {
        reserve_one(&mut self.journal)?;
        let entry = publication.entry.clone()?;
        let last = publication.entry.clone()?;
        let info = publication.info.clone()?;
        if !publication.is_new {
            self.journal.pop();
        } else if self.coins.lay(self.alloc, &publication.changes).is_err() {
            return Err(AllocError);
        }
        self.journal.push_reserved(entry);
        self.before = publication.before.copy();
        self.last = Some(last);
        self.info = info;
        self.note = publication.note();
        Ok(())
    }

    /// Takes the same publication in, its coins moved. Its entry has its place already.
    fn take_moved(&mut self, publication: Publication) -> Result<(), Publication>
        ensures ok { OnOk result (self.new ≡ after_publication self.old publication) }
        ensures err { OnErr result (self.new ≡ self.old) }
        ensures given_back { IfErr result (λ back. back ≡ publication) }
    {
        if reserve_one(&mut self.journal).is_err() {
            return Err(publication);
        }
        let Ok(last) = publication.entry.clone() else {
            return Err(publication);
        };
        let Publication {
            hub,
            before,
            entry,
            is_new,
            changes,
            info,
            attempt,
        } = publication;
        if !is_new {
            self.journal.pop();
        } else if let Err(changes) = self.coins.lay_taken(self.alloc, changes) {
            return Err(Publication {
                hub,
                before,
                entry,
                is_new,
                changes,
                info,
                attempt,
            });
        }
        self.journal.push_reserved(entry);
        self.before = before;
        self.last = Some(last);
        self.info = info;
        self.note = None;
        Ok(())
    }
}

impl Absorb<Publication> for View {
    ghost use Rattle.view.specs.ViewState.{after_publication};

    type State = View;

    ghost state = { λ v. v };

    ghost applied = { after_publication };

    fn absorb_first(&mut self, publication: &Publication, _other: &View) -> Result<(), AllocError> {
        self.take_lent(publication)
    }

    fn absorb_second(
        &mut self,
        publication: Publication,
        _other: &View,
    ) -> Result<(), Publication> {
        self.take_moved(publication)
    }
}
