//! What a node is opened from.

ghost use Rattle.std.specs.Prelude.{◌≡◌};
ghost use Rattle.std.specs.Arc.{arc_value};
ghost use Rattle.view.specs.Origin.{Origin, origin, origin_by_need};

mod seat_token;

pub(crate) use crate::origin::seat_token::{SeatToken, SeatTokens};
use rules::Params;
use signatures::Table;
use std::marker::Model;
use std::sync::Arc;
use view::EntryCount;

/// What a node is opened from: a history that has no entry and no name yet. A clause sees what it is of.
#[derive(Drop)]
pub struct Opening<'g> {
    pub(crate) params: Params,
    /// All valid signatures, if they are known from the first.
    pub(crate) table: Option<&'g Arc<Table>>,
    pub(crate) seats: usize,
    pub(crate) tokens: SeatTokens,
    pub(crate) counter: EntryCount,
    pub(crate) note: view::SeenHistory,
}

impl<'g> Model for Opening<'g> {
    ghost use Rattle.std.specs.Prelude.{◌≡◌, []};
    ghost use Rattle.std.specs.Arc.{arc_value};
    ghost use Rattle.std.specs.Coded.{codes};
    ghost use Rattle.std.specs.FinSet as set;
    ghost use Rattle.signatures.specs.Triple.{triple_cmp, coded_triple};
    ghost use Rattle.view.specs.HistoryPrefix.{count_of};
    ghost use Rattle.std.specs.Option.{option_map};
    ghost use Rattle.view.specs.Origin.{Origin, origin_of};

    ghost Value = { Origin };

    ghost coded = { Prim.hlevel (codes, set.code {R = triple_cmp} coded_triple) };

    ghost view = { λ o. origin_of o.note.book o.params (option_map (λ t. arc_value t.now) o.table) o.seats };

    ghost invariant = { λ o. (o.note.entries ≡ []) × (o.counter ≡ count_of o.note.book) × (o.tokens ≡ 0) };
}

impl<'g> Opening<'g> {
    ghost use Rattle.logbook.specs.Pages.{Book};
    ghost use Rattle.std.specs.Option.{option_map};
    ghost use Rattle.view.specs.Origin.{origin_of};

    /// A new history under these heights of soft forks and valid signatures, for so many seats. It takes no memory;
    /// the table isn't copied.
    pub fn new(params: Params, table: &'g Arc<Table>, seats: usize) -> Opening<'g>
        ensures { let triples = arc_value table.entry.now in
            (b : Book) × (result ≡ origin b params triples seats) }
    {
        Opening::of(params, Some(table), seats)
    }

    /// A new history under these heights of soft forks, for so many seats, of which no signature is known at first: seats
    /// tell it which are valid, by [`Seat::learn`](crate::Seat::learn). It takes no memory.
    pub fn by_need(params: Params, seats: usize) -> Opening<'g>
        ensures { (b : Book) × (result ≡ origin_by_need b params seats) }
    {
        Opening::of(params, None, seats)
    }

    fn of(params: Params, table: Option<&'g Arc<Table>>, seats: usize) -> Opening<'g>
        ensures { let triples = option_map (λ t. arc_value t.now) table.entry in
            (b : Book) × (result ≡ origin_of b params triples seats) }
    {
        let (counter, note) = view::SeenHistory::open();
        Opening {
            params,
            table,
            seats,
            tokens: SeatTokens::new(),
            counter,
            note,
        }
    }
}
