//! A reader that stays inside a view: the next publication but one waits for it, and no reader does.
//!
//! No public call of a node holds a reader inside, so the view is opened here by itself.

ghost use Rattle.std.specs.Prelude.{◌≡◌, [], IfOk, IfSome, drop, map};
ghost use Rattle.std.specs.Arc.{arc_value};
ghost use Rattle.signatures.specs.Triple.{Triples};
ghost use Rattle.tree.specs.Branches.{height};
ghost use Rattle.tree.specs.Tips.{tip_of_id};
ghost use Rattle.model.specs.Regtest.{regtest};
ghost use Rattle.model.specs.Settle.{active, best, tips};
ghost use Rattle.activate.specs.CoreState.{Follows};
ghost use Rattle.view.specs.Origin.{origin};

use crate::log::PlayLog;
use activate::Core;
use anyhow::Context;
use crossbeam_utils::rule::Outcome;
use node::{Naming, Params, Table};
use std::alloc::{AllocError, Global};
use std::marker::Brand;
use std::sync::atomic::Ordering::SeqCst;
use std::sync::atomic::{AtomicBool, AtomicU64};
use std::sync::{Arc, Wait};
use std::thread::{Threads, spawn, yield_now};
use view::{
    ChainInfo, SeenHistory, Tips, View, ViewReader, ViewWriter, another_reader, enter, open_writer,
};
use wire::Memory;

/// How often a thread looks at what another does.
const MANY: u32 = 10_000_000;

/// How often other readers come and go while one stays inside.
const OTHERS: u32 = 1_000;

/// What the threads tell each other.
#[derive(Drop)]
struct Signals {
    is_inside: AtomicBool,
    published: AtomicU64,
}

impl Signals {
    /// Waits until the reader is inside: whether it came.
    fn wait_for_the_reader(&self) -> bool {
        for _ in 0..MANY {
            if self.is_inside.load(SeqCst) {
                return true;
            }
            yield_now();
        }
        false
    }

    /// Waits until something is published: whether it was.
    fn wait_for_the_writer(&self) -> bool {
        for _ in 0..MANY {
            if self.published.load(SeqCst) > 0 {
                return true;
            }
            yield_now();
        }
        false
    }
}

/// Best block, height and tips of genesis alone.
fn opening_info(alloc: Global, core: &Core) -> Result<ChainInfo, Memory>
    ensures best { (triples : Triples) → Follows core.now triples
        → let r = regtest core.now.params triples in
        IfOk result (λ info. info.best ≡ best r core.now.state) }
    ensures height { (triples : Triples) → Follows core.now triples
        → let r = regtest core.now.params triples in
        let s = core.now.state in
        IfOk result (λ info. info.height ≡ height s.blocks (active r s)) }
    ensures tips { (triples : Triples) → Follows core.now triples
        → let r = regtest core.now.params triples in
        IfOk result (λ info. info.tips ≡ map tip_of_id (tips r core.now.state)) }
{
    let tips = core.tips(alloc)?;
    Ok(ChainInfo {
        best: core.best(),
        height: core.height(),
        tips: Tips::from_vec(alloc, tips)?,
    })
}

/// A writer over two opening views.
fn open_views<J: Naming>(
    alloc: Global,
    params: Params,
    table: Arc<Table>,
    note: SeenHistory,
) -> Result<ViewWriter<J>, Memory>
    requires empty { note.entries ≡ [] }
    requires of { origin note.book params (arc_value table) 1 ≡ J.origin }
    ensures { IfOk result (λ w. drop w.behind w.log.items ≡ []) }
{
    let core = Core::with(alloc, params)?;
    let info = opening_info(alloc, &core)?;
    let same = info.clone()?;
    let other = Arc::try_clone(&table)?;
    let first = View::new(alloc, params, Some(table), 1, note.copy(), info);
    let second = View::new(alloc, params, Some(other), 1, note, same);
    let writer = open_writer(alloc, first, second, 2)?;
    Ok(writer)
}

/// A reader that stays inside, and another one.
fn two_readers<J: Naming>(
    writer: &ViewWriter<J>,
) -> Result<(ViewReader<J>, ViewReader<J>), Memory> {
    Ok((another_reader(writer)?, another_reader(writer)?))
}

/// A publication of which its writer learns nothing.
struct Again;

impl Outcome<View, ()> for Again {
    ghost then = { λ v before after w. Unit {0} };
}

/// Shows readers what they see already, from the other copy.
fn publish_again<J: Naming, R: Wait>(rt: &R, writer: ViewWriter<J>) -> Option<ViewWriter<J>>
    requires { drop writer.behind writer.log.items ≡ [] }
    ensures { IfSome result (λ w. drop w.behind w.log.items ≡ []) }
{
    let (writer, shown) = writer.publish_as::<Again, R>(rt);
    match shown {
        Ok(()) => Some(writer),
        Err(_) => {
            drop(writer.take(rt));
            None
        }
    }
}

/// Publishes twice, as soon as the reader is inside, and lets the views go.
fn publish_twice<J: Naming, R: Wait>(rt: &R, writer: ViewWriter<J>, told: &Signals) -> bool
    requires { drop writer.behind writer.log.items ≡ [] }
{
    let has_come = told.wait_for_the_reader();
    let Some(writer) = publish_again(rt, writer) else {
        return false;
    };
    told.published.store(1, SeqCst);
    let Some(writer) = publish_again(rt, writer) else {
        return false;
    };
    told.published.store(2, SeqCst);
    drop(writer.take(rt));
    has_come
}

/// Enters, and leaves when another reader has come and gone many times: how often was published meanwhile.
fn stay_inside<J: Naming>(
    first: ViewReader<J>,
    second: ViewReader<J>,
    told: &Signals,
) -> Option<u64> {
    let inside = enter(first).ok()?;
    told.is_inside.store(true, SeqCst);
    let has_come = told.wait_for_the_writer();
    let others = come_and_go(second);
    let published = told.published.load(SeqCst);
    drop(inside.leave());
    (has_come && others == OTHERS).then_some(published)
}

/// How often a reader came and went.
fn come_and_go<J: Naming>(reader: ViewReader<J>) -> u32 {
    let mut reader = reader;
    for done in 0..OTHERS {
        match enter(reader) {
            Ok(inside) => reader = inside.leave(),
            Err(_) => return done,
        }
        yield_now();
    }
    OTHERS
}

/// Publishes twice while a reader stays inside: how many publications ended meanwhile, and how many did in all.
pub fn play_inside<R>(rt: &R, log: &mut PlayLog) -> anyhow::Result<()>
where
    R: AllocGlobal + Threads + Wait + Sync,
{
    let table = Arc::new(rt.alloc(), Table::new(rt.alloc()))?;
    let (_counter, note) = SeenHistory::open();
    stay_and_publish::<Brand, R>(rt, Params::regtest(), table, note, log)
}

fn stay_and_publish<J: Naming + 'static, R>(
    rt: &R,
    params: Params,
    table: Arc<Table>,
    note: SeenHistory,
    log: &mut PlayLog,
) -> anyhow::Result<()>
where
    R: AllocGlobal + Threads + Wait + Sync,
    requires empty { note.entries ≡ [] }
    requires of { origin note.book params (arc_value table) 1 ≡ J.origin }
{
    let (told, theirs) = told_twice(rt.alloc())?;
    let writer: ViewWriter<J> = open_views(rt.alloc(), params, table, note)?;
    let meanwhile = publish_beside(rt, writer, &told, theirs)?;
    if let Some(meanwhile) = meanwhile {
        log.answer(&"published while a reader was inside", meanwhile)?;
    }
    Ok(log.answer(&"published", told.published.load(SeqCst))?)
}

/// What two threads tell each other, for each of them.
fn told_twice(alloc: Global) -> Result<(Arc<Signals>, Arc<Signals>), AllocError> {
    let told = Signals {
        is_inside: AtomicBool::new(false),
        published: AtomicU64::new(0),
    };
    let told = Arc::new(alloc, told)?;
    let theirs = Arc::try_clone(&told)?;
    Ok((told, theirs))
}

/// Publishes twice beside a reader that stays inside: how often while it did, if it came.
fn publish_beside<J: Naming + 'static, R>(
    rt: &R,
    writer: ViewWriter<J>,
    told: &Signals,
    theirs: Arc<Signals>,
) -> anyhow::Result<Option<u64>>
where
    R: AllocGlobal + Threads + Wait + Sync,
    requires { drop writer.behind writer.log.items ≡ [] }
{
    let Ok((first, second)) = two_readers(&writer) else {
        drop(writer.take(rt));
        return Err(Memory.into());
    };
    let reader = spawn(rt, move || stay_inside(first, second, &theirs));
    let has_published = publish_twice(rt, writer, told);
    let meanwhile = reader.ok().context("a thread")?.join(rt);
    Ok(if has_published { meanwhile } else { None })
}
