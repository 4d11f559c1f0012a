//! What connecting a block needs beside the block and the coins.

ghost use Rattle.std.specs.Prelude.{◌≤◌, All};
ghost use Rattle.queue.specs.Jobs.{IsEarly};
ghost use Rattle.std.proofs.Props.{props};

use block::Block;
use hash::Id;
use queue::{Crew, Judges, Verdicts};
use rules::Params;

/// A block's place: its branch, and the rules that are in force there.
#[derive(Clone, Copy)]
pub struct Context<'a> {
    pub height: u32,
    /// The median time past of its parent, in seconds since 1970.
    pub cutoff: u32,
    /// The medians time past of its parent's branch by height, genesis first.
    pub medians: &'a [u32],
    pub params: &'a Params,
}

/// A block with the ids of its transactions, in their order, from `txn::ids`. They are hashed once, and handed on.
#[derive(Clone, Copy)]
pub struct BlockWithIds<'a> {
    pub block: &'a Block,
    pub ids: &'a [Id],
}

/// How scripts are run. The gate that is called round each is handed beside it, as a `&dyn`.
///
/// One with threads is made in a function that is generic in the crew: the prover makes no proof of one that makes it
/// for a named type of crew with a type parameter.
#[derive(Drop)]
pub struct Env<'a, S: Judges, C: Crew<S>> {
    /// A table of the valid signatures, or those that were found out.
    pub signatures: &'a S,
    /// From 1 to 16.
    pub workers: usize,
    /// Verdicts that were got before, by no more than is known now; possibly none.
    pub early: &'a [Verdicts<'a>],
    /// Who runs the scripts.
    pub crew: &'a C,
    pub ghost ready: { C.is_ready crew.now } by { C.ready_once crew.now },
    pub ghost few: { (1 ≤ workers) × (workers ≤ 16) } by { Prim.hlevel props },
    pub ghost right: { All (IsEarly (S.known signatures.now)) early.now } by { Prim.hlevel props },
}
