//! The walk up a branch, block by block.

ghost use Rattle.std.specs.Prelude.{◌≡◌, ◌≤◌, ◌<◌, ◌++◌, ◌∷◌, [], length, IfOk, IfErr, OnOk, IfSome, MatchOption, None, Some};
ghost use Rattle.tree.specs.Branches.{parent_at, height};
ghost use Rattle.model.specs.Valid.{fault};
ghost use Rattle.model.specs.Regtest.{regtest};
ghost use Rattle.model.specs.StateInvariant.{AllKept};
ghost use Rattle.activate.specs.Wants.{AreJoined, AreWantedAt};
ghost use Rattle.activate.specs.Lookups.{undo_at};
ghost use Rattle.activate.specs.inside.Ascents.{top_of, AreMore, IsApplied, IsTop, AreWantedAbove, LeadsUp};
ghost use Rattle.activate.specs.inside.Paths.{IsStop};
ghost use Rattle.signatures.specs.Known.{Under};

use crate::medians::Medians;
use crate::path::{ActiveBranch, BranchPath};
use coins::{Base, Cache};
use connect::{BlockWithIds, Context, RunsScripts, apply_in_layer};
use queue::Gate;
use std::alloc::Global;
use tree::Tree;
use txn::Reason;
use undo::BlockUndo;
use wire::Memory;

/// Blocks of a branch that were connected, the lowest first.
#[derive(Drop)]
pub(crate) struct Ascent<'b, 'm, B: Base> {
    /// The layer that they were applied to.
    pub(crate) layer: Cache<'b, B>,
    /// What they spend, the lowest first.
    pub(crate) undo: Vec<BlockUndo>,
    /// The medians of the branch up to the last of them.
    pub(crate) medians: Medians<'m>,
}

/// Blocks of a branch that were applied, and what their scripts want.
#[derive(Drop)]
pub(crate) struct Climb<'b, 'm, B: Base, W: Drop> {
    pub(crate) ascent: Ascent<'b, 'm, B>,
    /// None where the blocks connect.
    pub(crate) wants: Option<W>,
}

/// What a walk up a path leaves where a block doesn't connect.
#[derive(Drop)]
pub(crate) struct FailedBlock {
    /// How many blocks connect before that one.
    pub(crate) passed: usize,
    pub(crate) reason: Reason,
}

/// Connects the blocks of a path to the coins of the fork's branch, from the lowest on, up to the first that
/// has a fault, where the layer is dropped. It starts at the fork.
///
/// Where scripts of a block want signatures, the walk goes on as if they accepted, since its coins don't hang on that, and
/// one round finds what several blocks want: up to the first with a fault, the end, or enough ([`queue::MAX_WANTS`]).
pub(crate) fn connect_up<'b, 'm, B: Base, S: RunsScripts>(
    alloc: Global,
    active_branch: &ActiveBranch<'_>,
    start: Ascent<'b, 'm, B>,
    path: &BranchPath,
    env: &S,
    gate: &(dyn Gate + Sync),
) -> Result<Result<Climb<'b, 'm, B, S::Stop>, FailedBlock>, S::Stop>
    requires path { LeadsUp active_branch.now.tree.now.blocks path.now.fork path.now.up.items }
    requires kept { let b = active_branch.now in Under (S.known env.now) (λ triples.
        AllKept (regtest b.params.now triples) b.tree.now.blocks) }
    requires start { let b = active_branch.now in Under (S.known env.now) (λ triples.
        IsTop (regtest b.params.now triples) b.tree.now.blocks path.now.fork []
        start.layer.base start.undo.items start.layer start.medians) }
    ensures top { let b = active_branch.now in let t = b.tree.now.blocks in
        let f = path.now.fork in let up = path.now.up.items in let known = S.known env.now in
        let base = start.entry.layer.base in
        IfOk result (λ answer. IfOk answer (λ climb. MatchOption climb.wants
        (Under known (λ triples. let ascent = climb.ascent in
        IsTop (regtest b.params.now triples) t f up
        base ascent.undo.items ascent.layer ascent.medians))
        (λ stop. IfSome (S.told stop)
        (AreJoined (AreWantedAbove b.params.now t f (top_of f up) known))))) }
    ensures applied { let t = active_branch.now.tree.now.blocks in
        let base = start.entry.layer.base in IfOk result (λ answer. IfOk answer (λ climb.
        IsApplied t (top_of path.now.fork path.now.up.items)
        base climb.ascent.layer climb.ascent.medians)) }
    ensures stops { let b = active_branch.now in let up = path.now.up.items in
        IfOk result (λ answer. IfErr answer (λ stop. Under (S.known env.now) (λ triples.
        IsStop (regtest b.params.now triples) b.tree.now.blocks (top_of path.now.fork up) up
        stop.passed stop.reason))) }
    ensures wants { let b = active_branch.now in IfErr result (λ stop. IfSome (S.told stop)
        (AreJoined (AreWantedAbove b.params.now b.tree.now.blocks path.now.fork
        (top_of path.now.fork path.now.up.items) (S.known env.now)))) }
{
    let up = path.up.as_slice();
    let mut ascent = start;
    let mut wants = None;
    for passed in 0..up.len() {
        let place = up[up.len() - 1 - passed];
        match connect_tip(alloc, active_branch, ascent, place, env, gate)? {
            Ok(next) => {
                ascent = next.ascent;
                wants = more(env, wants, next.wants)?;
            }
            Err(reason) => {
                return match wants {
                    Some(stop) => Err(stop),
                    None => Ok(Err(FailedBlock { passed, reason })),
                };
            }
        }
    }
    Ok(Ok(Climb { ascent, wants }))
}

/// What is wanted so far with what the next block wants, where a walk goes on. Else it is enough for a round, or there is
/// no memory.
pub(crate) fn more<S: RunsScripts>(
    env: &S,
    so_far: Option<S::Stop>,
    next: Option<S::Stop>,
) -> Result<Option<S::Stop>, S::Stop>
    ensures goes_on { IfOk result (AreMore S.told so_far next) }
    ensures ends { IfErr result (λ stop. AreMore S.told so_far next (Some stop)) }
{
    match (so_far, next) {
        (so_far, None) => Ok(so_far),
        (None, Some(next)) => unless_enough(env, next),
        (Some(first), Some(next)) => unless_enough(env, env.join(first, next)),
    }
}

/// A stop that doesn't tell enough for a round.
fn unless_enough<S: RunsScripts>(env: &S, stop: S::Stop) -> Result<Option<S::Stop>, S::Stop>
    ensures goes_on { IfOk result (λ found. found ≡ Some stop) }
    ensures ends { IfErr result (λ found. found ≡ stop) }
{
    if env.is_enough(&stop) {
        return Err(stop);
    }
    Ok(Some(stop))
}

/// Applies the block at a place to the coins of its parent's branch: it connects, or its scripts want signatures.
fn connect_tip<'b, 'm, B: Base, S: RunsScripts>(
    alloc: Global,
    active_branch: &ActiveBranch<'_>,
    start: Ascent<'b, 'm, B>,
    place: usize,
    env: &S,
    gate: &(dyn Gate + Sync),
) -> Result<Result<Climb<'b, 'm, B, S::Stop>, Reason>, S::Stop>
    requires place { (0 < place) × (place ≤ length active_branch.now.tree.now.blocks) }
    requires kept { let b = active_branch.now in Under (S.known env.now) (λ triples.
        AllKept (regtest b.params.now triples) b.tree.now.blocks) }
    requires start { let t = active_branch.now.tree.now.blocks in
        IsApplied t (parent_at t place) start.layer.base start.layer start.medians }
    ensures fault { let b = active_branch.now in
        IfOk result (λ answer. IfErr answer (λ reason. Under (S.known env.now) (λ triples.
        fault (regtest b.params.now triples) b.tree.now.blocks place ≡ Some reason))) }
    ensures scripts { let b = active_branch.now in let t = b.tree.now.blocks in
        let known = S.known env.now in
        IfOk result (λ answer. IfOk answer (λ next. MatchOption next.wants
        (Under known (λ triples. fault (regtest b.params.now triples) t place ≡ None))
        (λ stop. IfSome (S.told stop) (AreWantedAt b.params.now t known place)))) }
    ensures undo { let t = active_branch.now.tree.now.blocks in
        IfOk result (λ answer. IfOk answer (λ next.
        next.ascent.undo.items ≡ start.entry.undo.items ++ undo_at t place ∷ [])) }
    ensures next { let t = active_branch.now.tree.now.blocks in
        IfOk result (λ answer. IfOk answer (λ next.
        IsApplied t place start.entry.layer.base next.ascent.layer next.ascent.medians)) }
    ensures memory { IfErr result (λ stop. S.told stop ≡ None) }
{
    let Ascent {
        layer,
        mut undo,
        mut medians,
    } = start;
    let tree = active_branch.tree;
    let (block, ids) = tree.block(place).read_with_ids(alloc)?;
    let below = medians.as_slice();
    let context = Context {
        height: height_of(tree, place),
        cutoff: below[below.len() - 1],
        medians: below,
        params: active_branch.params,
    };
    let of = BlockWithIds {
        block: &block,
        ids: ids.as_slice(),
    };
    let done = match apply_in_layer(alloc, layer, &context, &of, env, gate)? {
        Ok(done) => done,
        Err(reason) => return Ok(Err(reason)),
    };
    medians.push(alloc, tree.median(place))?;
    append(&mut undo, done.undo)?;
    Ok(Ok(Climb {
        ascent: Ascent {
            layer: done.layer,
            undo,
            medians,
        },
        wants: done.stop,
    }))
}

/// Adds an item at the end of a list.
pub(crate) fn append<T: Drop>(list: &mut Vec<T>, item: T) -> Result<(), Memory>
    ensures { OnOk result (list.new.items ≡ list.old.items ++ item ∷ []) }
{
    Ok(list.push(item)?)
}

/// The height of a block. There are so few of them that it fits.
fn height_of(tree: &Tree, place: usize) -> u32
    requires { place ≤ length tree.now.blocks }
    ensures { result ≡ height tree.now.blocks place }
{
    tree.height(place) as u32
}
