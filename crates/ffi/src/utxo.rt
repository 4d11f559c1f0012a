//! Coins that are given, apart from any chainstate: blocks are connected over them, and the last one is taken back.

ghost use Rattle.std.specs.Prelude.{◌≡◌, ◌+◌, ◌≤◌, length, None, IfOk, IfErr, IfSome, OnOk, OnErr, slice_get};
ghost use Rattle.std.specs.Map.Iter.{deref_pair};
ghost use Rattle.std.specs.Option.{option_copied, option_map};
ghost use Rattle.std.specs.Result.{result_err};
ghost use Rattle.std.specs.FinMap as coin_map;
ghost use Rattle.std.proofs.Props.{props};
ghost use Rattle.txn.specs.First.{first_broken};
ghost use Rattle.txn.specs.Identity.{ids_of};
ghost use Rattle.signatures.specs.Known.{Under, verdict_in};
ghost use Rattle.signatures.specs.Triple.{triple_of};
ghost use Rattle.coins.specs.Changes.{after_changes};
ghost use Rattle.coins.specs.Coins.{Coins};
ghost use Rattle.coins.specs.Next.{IsNext};
ghost use Rattle.queue.specs.Jobs.{told_by};
ghost use Rattle.rules.specs.Alone.{alone_rules};
ghost use Rattle.connect.specs.BlockContext.{Setting, setting};
ghost use Rattle.connect.specs.ConnectedBlock.{IsConnected};
ghost use Rattle.connect.specs.Faults.{fee};
ghost use Rattle.connect.specs.Turns.{effect, turn};
ghost use Rattle.connect.specs.Scripts.{AreWantedByBlock};
ghost use Rattle.ffi.specs.Medians.{lacks_medians};
ghost use Rattle.ffi.specs.Utxo.{spent_last, tx_fault};
ghost use Rattle.ffi.specs.UtxoState.{IsBlockFault, IsLearnt, IsNoAnswer, IsTakenBack, known_by, left_by, new_utxo, with_coin};

use crate::answers::{CONTRADICTION, DONE, MEMORY, NONE, WANTS};
use crate::medians::lacks_medians;
use block::Block;
use coins::{Cache, Changes, Coin, CoinMap};
use connect::{BlockWithIds, Context, Env, check_tx_inputs, connect_in_layer, disconnect_in_layer};
use hash::Id;
use queue::{Alone, Open, Undecided};
use rules::block_alone_with;
use signatures::{KeptTriple, KnownSignatures, KnowsSignatures};
use std::alloc::Global;
use std::marker::Model;
use txn::{OutPoint, Reason, Tx, check, ids};
use undo::BlockUndo;
use wire::Memory;

/// Coins, the block that was connected to them last, what was learnt of signatures, and which of them the block that was
/// asked for last wanted, where it had no answer. Scripts run by the caller.
#[derive(Drop)]
pub struct Utxo {
    coins: CoinMap,
    last: Option<Done>,
    known: KnownSignatures,
    wanted: Vec<KeptTriple>,
}

/// A block that was connected, the ids of its transactions, and what it spent.
#[derive(Drop)]
pub(crate) struct Done {
    pub(crate) block: Block,
    pub(crate) ids: Vec<Id>,
    pub(crate) undo: BlockUndo,
    ghost ids_are: { ids.items ≡ ids_of block.txs } by { Prim.hlevel props },
}

/// What a block that breaks no rule changes.
#[derive(Drop)]
struct Effect {
    changes: Changes,
    done: Done,
}

impl Model for Utxo {
    ghost use Rattle.std.specs.Coded.{codes};
    ghost use Rattle.std.specs.Option.{option_map};
    ghost use Rattle.signatures.specs.Known.{coded_verdicts};
    ghost use Rattle.signatures.specs.Triple.{coded_triple};
    ghost use Rattle.coins.specs.Coins.{coded_coins};
    ghost use Rattle.ffi.specs.Utxo.{spent_last, tx_fault};
    ghost use Rattle.ffi.specs.UtxoState.{UtxoState};
    ghost use Rattle.ffi.specs.inside.Utxo.{IsLast, connected_of};

    ghost Value = { UtxoState };

    ghost coded = { Prim.hlevel (codes, coded_coins, coded_triple, coded_verdicts) };

    ghost view = { λ u. record {
      coins = u.coins;
      last = option_map connected_of u.last;
      verdicts = u.known;
      wanted = u.wanted.items;
    } };

    ghost invariant = { λ u. IsLast u.coins (option_map connected_of u.last) };
}

impl Utxo {
    /// No coins, and nothing is known of signatures.
    pub(crate) fn new(alloc: Global) -> Utxo
        ensures { result ≡ new_utxo }
    {
        Utxo {
            coins: CoinMap::new(alloc),
            last: None,
            known: KnownSignatures::new(alloc),
            wanted: Vec::new(alloc),
        }
    }

    /// What was learnt of signatures.
    pub(crate) fn known(&self) -> &KnownSignatures
        ensures { result.now ≡ self.now.verdicts }
    {
        &self.known
    }

    /// Puts a coin at an outpoint. The block that was connected last can't be taken back any more.
    pub(crate) fn put(&mut self, at: OutPoint, coin: Coin) -> Result<(), Memory>
        ensures ok { OnOk result (self.new ≡ with_coin self.old at coin) }
        ensures err { OnErr result (self.new ≡ self.old) }
    {
        self.coins.insert(at, coin)?;
        self.last = None;
        Ok(())
    }

    /// The coin at an outpoint, lent.
    pub(crate) fn coin(&self, at: &OutPoint) -> Option<&Coin>
        ensures { option_copied result ≡ coin_map.get self.now.coins at.now }
    {
        self.coins.get(at)
    }

    /// The coin at the least outpoint above another, with that outpoint; above `None`, the least of all.
    pub(crate) fn coin_after(&self, at: Option<&OutPoint>) -> Option<(&OutPoint, &Coin)>
        ensures { IsNext self.now.coins (option_copied at.entry) (option_map deref_pair result) }
    {
        self.coins.after(at)
    }

    /// Whether a relative lock of a block counts from a median that isn't given.
    pub(crate) fn lacks_medians(&self, context: &Context, block: &Block) -> bool
        ensures { result ≡ lacks_medians (setting context.now) self.now.coins block.now }
    {
        lacks_medians(&self.coins, context, block)
    }

    /// Connects a block: the first rule that it breaks, or none; or the number that says why there is no answer.
    pub(crate) fn connect(
        &mut self,
        alloc: Global,
        context: &Context,
        block: Block,
    ) -> Result<Option<Reason>, u32>
        ensures fault { IfOk result (λ found. Under (known_by self.old) (λ triples.
            IsBlockFault (setting context.now) self.old.coins block triples found)) }
        ensures after { IfOk result (λ found.
            self.new ≡ left_by (setting context.now) self.old block found) }
        ensures refused { IfErr result
            (IsNoAnswer (setting context.now) self.old self.new block) }
    {
        match effect_of(alloc, &self.coins, &self.known, context, block) {
            Err(Undecided::Memory) => Err(MEMORY),
            Err(Undecided::Unknown(unknown)) => {
                self.wanted = unknown;
                Err(WANTS)
            }
            Ok(Err(reason)) => {
                self.wanted.truncate(0);
                Ok(Some(reason))
            }
            Ok(Ok(Effect { changes, done })) => {
                if self.coins.lay(alloc, &changes).is_err() {
                    return Err(MEMORY);
                }
                self.last = Some(done);
                self.wanted.truncate(0);
                Ok(None)
            }
        }
    }

    /// Takes back the block that was connected last.
    pub(crate) fn disconnect(&mut self, alloc: Global) -> u32
        ensures { IsTakenBack self.old self.old.last self.new result }
    {
        let Some(last) = &self.last else {
            return NONE;
        };
        let Ok(changes) = changes_back(alloc, &self.coins, last) else {
            return MEMORY;
        };
        if self.coins.lay(alloc, &changes).is_err() {
            return MEMORY;
        }
        self.last = None;
        DONE
    }

    /// Takes the verdict on a signature, which is without its hash type. One that is known stays.
    pub(crate) fn learn(
        &mut self,
        key: &[u8],
        signature: &[u8],
        digest: &[u8; 32],
        valid: bool,
    ) -> u32
        ensures { let t = triple_of key.now signature.now digest.now in
            IsLearnt self.old self.new t valid (known_by self.old t) result }
    {
        match self.known.find(key, signature, digest) {
            Some(known) => { if known == valid { DONE } else { CONTRADICTION } }
            None => match self.known.learn(key, signature, digest, valid) {
                Ok(()) => DONE,
                Err(Memory) => MEMORY,
            },
        }
    }

    /// What the block spent that was connected last.
    pub(crate) fn undo(&self) -> Option<&BlockUndo>
        ensures { option_copied result ≡ spent_last self.now.last }
    {
        match &self.last {
            Some(last) => Some(&last.undo),
            None => None,
        }
    }

    /// What a transaction gives as its fee in a block of this height, or the first rule that it breaks by itself or by its
    /// inputs.
    pub(crate) fn check_tx_inputs(
        &self,
        alloc: Global,
        tx: &Tx,
        height: u32,
    ) -> Result<Result<i128, Reason>, Memory>
        requires { length tx.now.inputs + length tx.now.outputs ≤ 1000000 }
        ensures fault { IfOk result (λ answer. (s : Setting) → s.height ≡ height
            → tx_fault s self.now.coins tx.now ≡ result_err answer) }
        ensures fee { IfOk result (λ answer.
            IfOk answer (λ given. given ≡ fee (turn tx.now self.now.coins 0))) }
    {
        if let Some(reason) = check(alloc, tx)? {
            return Ok(Err(reason));
        }
        check_tx_inputs(alloc, &self.coins, tx, height)
    }

    /// The wanted signature at a place of their list.
    pub(crate) fn wanted(&self, index: usize) -> Option<&KeptTriple>
        ensures { option_copied result ≡ slice_get self.now.wanted index }
    {
        self.wanted.as_slice().get(index)
    }
}

/// The first rule that a block breaks by itself or over these coins, or else what it changes.
fn effect_of(
    alloc: Global,
    coins: &CoinMap,
    known: &KnownSignatures,
    context: &Context,
    block: Block,
) -> Result<Result<Effect, Reason>, Undecided>
    ensures fault { let s = setting context.now in IfOk result (λ answer.
        Under (verdict_in known.now) (λ triples.
        IsBlockFault s coins.now block triples (result_err answer))) }
    ensures changes { let s = setting context.now in IfOk result (λ answer. IfOk answer (λ found.
        after_changes coins.now found.changes ≡ effect s.height coins.now block.txs)) }
    ensures block { IfOk result (λ answer. IfOk answer (λ found. found.done.block ≡ block)) }
    ensures connected { let s = setting context.now in IfOk result (λ answer. IfOk answer (λ found.
        IsConnected s coins.now block (after_changes coins.now found.changes) found.done.undo)) }
    ensures alone { IfErr result (λ stop. IfSome (told_by stop)
        (λ wanted. first_broken (alone_rules block) ≡ None)) }
    ensures stops { IfErr result (λ stop. IfSome (told_by stop) (AreWantedByBlock
        (setting context.now) coins.now block.txs (verdict_in known.now))) }
{
    let id = block.id();
    let ids = ids(alloc, block.txs.as_slice())?;
    if let Some(reason) = block_alone_with(alloc, &block, &id, &ids)? {
        return Ok(Err(reason));
    }
    let env = Env {
        signatures: known,
        workers: 1,
        early: &[],
        crew: &Alone,
    };
    let of = BlockWithIds {
        block: &block,
        ids: &ids,
    };
    let layer = Cache::over(alloc, coins);
    match connect_in_layer(alloc, layer, context, &of, &env, &Open)? {
        Err(reason) => Ok(Err(reason)),
        Ok((layer, undo)) => {
            let changes = layer.into_changes();
            let done = Done { block, ids, undo };
            Ok(Ok(Effect { changes, done }))
        }
    }
}

/// What taking a block back changes that was connected last.
fn changes_back(alloc: Global, coins: &CoinMap, last: &Done) -> Result<Changes, Memory>
    requires { (s : Setting) × (m : Coins) ×
        IsConnected s m last.now.block coins.now last.now.undo }
    ensures { (s : Setting) (m : Coins) →
        IsConnected s m last.now.block coins.now last.now.undo →
        IfOk result (λ changes. after_changes coins.now changes ≡ m) }
{
    let layer = Cache::over(alloc, coins);
    let left = disconnect_in_layer(alloc, layer, &last.block, &last.ids, &last.undo)?;
    Ok(left.into_changes())
}
