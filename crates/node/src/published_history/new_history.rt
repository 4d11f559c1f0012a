//! A new history, and its readers.

ghost use Rattle.std.specs.Prelude.{◌≡◌, ◌≤◌, [], IfOk, drop, length};
ghost use Rattle.std.specs.Arc.{arc_value};
ghost use Rattle.std.specs.Option.{option_map};
ghost use Rattle.view.specs.HistoryPrefix.{count_of};
ghost use Rattle.view.specs.Origin.{origin_of};
ghost use Rattle.view.specs.ViewState.{IsExact, opening_view};
ghost use Rattle.node.specs.inside.PublishedState.{Shows, opening_state};

use crate::published_history::PublishedHistory;
use crate::published_history::core_info::chain_info;
use crate::published_history::knowledge::Knowledge;
use crate::published_history::last_places::LastPlaces;
use crate::published_history::locked_chain::LockedChain;
use crate::published_history::writer_home::WriterHome;
use crate::reader_home::ReaderHome;
use activate::Core;
use rules::Params;
use signatures::Table;
use std::alloc::Global;
use std::sync::Arc;
use std::sync::atomic::AtomicU64;
use view::{
    ChainInfo, EntryCount, Hub, Naming, SeenHistory, View, ViewReader, ViewWriter, another_reader,
    open_writer,
};
use wire::Memory;

/// A history without entries, and a reader for each seat.
#[derive(Drop)]
pub(crate) struct Opened<J: Naming> {
    pub(crate) history: PublishedHistory<J>,
    pub(crate) readers: Vec<ViewReader<J>>,
}

/// The writer, a reader for the lock and one for each seat.
#[derive(Drop)]
struct WriterAndReaders<J: Naming> {
    home: WriterHome<J>,
    reader: ViewReader<J>,
    readers: Vec<ViewReader<J>>,
}

/// Opens a history, of a note without entries and the word that counts them.
pub(crate) fn open_history<J: Naming>(
    alloc: Global,
    params: Params,
    table: Option<Arc<Table>>,
    seats: usize,
    counter: EntryCount,
    note: SeenHistory,
) -> Result<Opened<J>, Memory>
    requires few { seats ≤ 16 }
    requires empty { note.entries ≡ [] }
    requires counter { counter ≡ count_of note.book }
    requires of { origin_of note.book params (option_map arc_value table) seats ≡ J.origin }
    ensures history { IfOk result (λ new. new.history ≡ opening_state J.origin) }
    ensures readers { IfOk result (λ new. length new.readers.items ≡ seats) }
{
    let core = Core::with(alloc, params)?;
    let info = chain_info(alloc, &core)?;
    let hub = Arc::new(
        alloc,
        Hub {
            counter,
            attempt: AtomicU64::new(0),
        },
    )?;
    let WriterAndReaders {
        home,
        reader,
        readers,
    } = writer_and_readers(alloc, params, &table, seats, &note, info)?;
    let known = Knowledge::opening(alloc, table);
    let reader = ReaderHome::of(reader);
    let chain = LockedChain {
        core,
        known,
        note,
        reader,
    };
    let last = LastPlaces::new(alloc, seats)?;
    let history = PublishedHistory::new(alloc, chain, hub, home, last);
    Ok(Opened { history, readers })
}

/// A writer over two equal views of a history without entries, and its readers. It owns both views at its own early
/// returns, so that what opens the history owns little at each of its.
fn writer_and_readers<J: Naming>(
    alloc: Global,
    params: Params,
    table: &Option<Arc<Table>>,
    seats: usize,
    note: &SeenHistory,
    info: ChainInfo,
) -> Result<WriterAndReaders<J>, Memory>
    requires few { seats ≤ 16 }
    requires empty { note.now.entries ≡ [] }
    requires of { origin_of note.now.book params (option_map arc_value table.now) seats ≡ J.origin }
    requires exact { IsExact (opening_view J.origin info) }
    ensures shown { IfOk result (λ p. Shows p.home.writer.desk.shown.value J.origin []) }
    ensures pending { IfOk result (λ p. drop p.home.writer.behind p.home.writer.log.items ≡ []) }
    ensures readers { IfOk result (λ p. length p.readers.items ≡ seats) }
{
    let same = info.clone()?;
    let one = same_table(table)?;
    let other = same_table(table)?;
    let first = View::new(alloc, params, one, seats, note.copy(), info);
    let second = View::new(alloc, params, other, seats, note.copy(), same);
    let home = WriterHome {
        writer: open_writer(alloc, first, second, seats + 1)?,
    };
    let reader = another_reader(&home.writer)?;
    let readers = all_readers(alloc, &home.writer, seats)?;
    Ok(WriterAndReaders {
        home,
        reader,
        readers,
    })
}

/// The same table, if there is one. It takes no memory.
fn same_table(table: &Option<Arc<Table>>) -> Result<Option<Arc<Table>>, Memory>
    ensures { IfOk result (λ same. option_map arc_value same ≡ option_map arc_value table.now) }
{
    match table {
        Some(table) => Ok(Some(Arc::try_clone(table)?)),
        None => Ok(None),
    }
}

/// A reader for each seat.
fn all_readers<J: Naming>(
    alloc: Global,
    writer: &ViewWriter<J>,
    seats: usize,
) -> Result<Vec<ViewReader<J>>, Memory>
    ensures { IfOk result (λ list. length list.items ≡ seats) }
{
    let mut list = Vec::new(alloc);
    for _ in 0..seats {
        list.push(another_reader(writer)?)?;
    }
    Ok(list)
}
