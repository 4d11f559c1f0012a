//! A chainstate with coins of its own.

ghost use Rattle.std.specs.Prelude.{◌≡◌, ◌≤◌, ℕ, IfErr, IfOk, None, OnErr, OnOk, is_some, length, map, take, IfSome};
ghost use Rattle.std.specs.Option.{option_map};
ghost use Rattle.std.specs.FinMap as coin_map;
ghost use Rattle.signatures.specs.Known.{Under};
ghost use Rattle.signatures.specs.Triple.{Triples};
ghost use Rattle.rules.specs.Params.{regtest as regtest_params};
ghost use Rattle.tree.specs.Branches.{height, place_of};
ghost use Rattle.tree.specs.Names.{names};
ghost use Rattle.tree.specs.Tips.{tip_of_id};
ghost use Rattle.model.specs.Commands.{outcome, replies_of, state_after_commands};
ghost use Rattle.model.specs.PreparedCommand.{command_of};
ghost use Rattle.model.specs.Regtest.{ledger, regtest};
ghost use Rattle.model.specs.Replay.{coins};
ghost use Rattle.model.specs.Settle.{active, best, tips};
ghost use Rattle.activate.specs.CoreState.{IsBlockOf, IsChainstate, KeepsUndo, most_undo, opened_core};
ghost use Rattle.activate.specs.Wants.{AreWantedByStep};

mod lookups;

use crate::active_branch::MOST_UNDO;
use crate::core_state::Core;
use crate::own_coins::OwnCoins;
use block::Bytes;
use coins::CoinMap;
use connect::{Env, RunsScripts};
use hash::Id;
use model::{Command, PreparedCommand, Reply};
use queue::{Crew, Gate};
use rules::Params;
use signatures::Table;
use std::alloc::Global;
use std::marker::Model;
use tree::Tip;
use wire::Memory;

/// The chainstate of one thread. A clause sees the heights of soft forks, the state, the active place, and the coins.
#[derive(Drop)]
pub struct Chainstate {
    core: Core,
    coins: OwnCoins,
}

impl Model for Chainstate {
    ghost use Rattle.std.specs.Coded.{codes};
    ghost use Rattle.coins.specs.Coins.{coded_coins};
    ghost use Rattle.activate.specs.CoreState.{WithCoins};

    ghost Value = { WithCoins };

    ghost coded = { Prim.hlevel (codes, coded_coins) };

    ghost view = { λ c. record { core = c.core; coins = c.coins } };
}

impl Chainstate {
    /// Genesis alone, by the rules of regtest.
    pub fn new(alloc: Global) -> Result<Chainstate, Memory>
        ensures value { IfOk result (λ chain.
            chain
            ≡ record { core = opened_core regtest_params; coins = coin_map.empty }) }
        ensures is_chainstate { (triples : Triples)
            → IfOk result (λ chain. IsChainstate chain triples) }
    {
        Chainstate::with(alloc, Params::regtest())
    }

    /// Genesis alone, with these heights of soft forks.
    pub fn with(alloc: Global, params: Params) -> Result<Chainstate, Memory>
        ensures value { IfOk result (λ chain.
            chain ≡ record { core = opened_core params; coins = coin_map.empty }) }
        ensures is_chainstate { (triples : Triples)
            → IfOk result (λ chain. IsChainstate chain triples) }
    {
        Ok(Chainstate {
            core: Core::with(alloc, params)?,
            coins: OwnCoins::new(alloc),
        })
    }

    /// Takes a command. Where signatures aren't all known, it may instead list those that have to be verified first:
    /// then nothing has changed, and the same call can be made again once they are known. Each call brings the table
    /// that the first one brought, or what is known by then.
    pub fn step<S: RunsScripts>(
        &mut self,
        alloc: Global,
        command: &PreparedCommand,
        env: &S,
        gate: &(dyn Gate + Sync),
    ) -> Result<Reply, S::Stop>
        requires is_chainstate { Under (S.known env.now) (λ triples.
            IsChainstate self.old triples) }
        ensures outcome { IfOk result (λ reply. Under (S.known env.now) (λ triples.
            (self.new.core.state, reply)
            ≡ outcome (regtest self.old.core.params triples) self.old.core.state
            (command_of command.now))) }
        // There is one at least: no verdict on it is known, and a block that this step tries asks for it.
        ensures wants { IfErr result (λ stop. IfSome (S.told stop)
            (AreWantedByStep self.old.core (command_of command.now) (S.known env.now))) }
        ensures params { self.new.core.params ≡ self.old.core.params }
        ensures is_chainstate { Under (S.known env.now) (λ triples. IsChainstate self.new triples) }
        ensures undo { OnOk result (KeepsUndo self.old.core self.new.core) }
        ensures err { OnErr result (self.new ≡ self.old) }
    {
        // The clause on undo rests on it.
        let few = self.core.undo_kept() <= MOST_UNDO;
        prove!(few);
        let prepared = self
            .core
            .prepare(alloc, self.coins.map(), command, env, gate)?;
        Ok(self.core.flush(alloc, prepared, &mut self.coins)?)
    }

    /// The reply that [`Chainstate::step`] would give now, or the signatures that it would list. Nothing changes.
    pub fn judge<S: RunsScripts>(
        &self,
        alloc: Global,
        command: &PreparedCommand,
        env: &S,
        gate: &(dyn Gate + Sync),
    ) -> Result<Reply, S::Stop>
        requires is_chainstate { Under (S.known env.now) (λ triples.
            IsChainstate self.now triples) }
        ensures reply { let core = self.now.core in let c = command_of command.now in
            IfOk result (λ reply. Under (S.known env.now) (λ triples.
            reply ≡ (outcome (regtest core.params triples) core.state c).1)) }
        ensures wants { IfErr result (λ stop. IfSome (S.told stop)
            (AreWantedByStep self.now.core (command_of command.now) (S.known env.now))) }
    {
        self.core
            .judge_over(alloc, self.coins.map(), command, env, gate)
    }

    /// An equal chainstate, which goes on by itself. Blocks share their bytes.
    pub fn copy(&self, alloc: Global) -> Result<Chainstate, Memory>
        ensures { IfOk result (λ chain. chain ≡ self.now) }
    {
        Ok(Chainstate {
            core: self.core.copy(alloc)?,
            coins: self.coins.copy()?,
        })
    }

    /// Takes commands one after the other. Out of memory leaves it behind the last command that was taken.
    pub fn run<C: Crew<Table>>(
        &mut self,
        alloc: Global,
        commands: &[Command],
        env: &Env<'_, Table, C>,
        gate: &(dyn Gate + Sync),
    ) -> Result<Vec<Reply>, Memory>
        requires is_chainstate { IsChainstate self.old env.now.signatures.now }
        ensures replies { IfOk result (λ replies.
            replies.items
            ≡ replies_of (regtest self.old.core.params env.now.signatures.now)
            self.old.core.state commands.now) }
        ensures state { OnOk result
            (self.new.core.state
            ≡ state_after_commands
            (regtest self.old.core.params env.now.signatures.now)
            self.old.core.state commands.now) }
        ensures params { self.new.core.params ≡ self.old.core.params }
        ensures is_chainstate { IsChainstate self.new env.now.signatures.now }
        ensures err { OnErr result
            ((n : ℕ) × (n ≤ length commands.now)
            ×
            (self.new.core.state
            ≡ state_after_commands
            (regtest self.old.core.params env.now.signatures.now)
            self.old.core.state (take n commands.now))) }
    {
        let mut replies = Vec::new(alloc);
        for index in 0..commands.len() {
            replies.reserve(1)?;
            let command = PreparedCommand::of(alloc, &commands[index])?;
            let reply = self.step(alloc, &command, env, gate)?;
            replies.push_reserved(reply);
        }
        Ok(replies)
    }

    /// Whether a block with this id is kept. Genesis is.
    pub fn is_kept(&self, id: &Id) -> bool
        ensures { result ≡ is_some (place_of names self.now.core.state.blocks id.now) }
    {
        self.core.is_kept(id)
    }

    /// The bytes of the block with this id, as they were submitted. Of genesis none are kept.
    pub fn block(&self, id: &Id) -> Option<&Bytes>
        ensures { IsBlockOf self.now.core.state.blocks
            (place_of names self.now.core.state.blocks id.now) (option_map (λ b. b.now) result) }
    {
        self.core.block(id)
    }

    /// The active block's id.
    pub fn best(&self) -> Id
        ensures { (triples : Triples) → IsChainstate self.now triples
            → result ≡ best (regtest self.now.core.params triples) self.now.core.state }
    {
        self.core.best()
    }

    /// The active block's height.
    pub fn height(&self) -> usize
        ensures { (triples : Triples) → IsChainstate self.now triples
            → result ≡ height self.now.core.state.blocks
            (active (regtest self.now.core.params triples) self.now.core.state) }
    {
        self.core.height()
    }

    /// The coins that the active branch leaves, lent.
    pub fn coins(&self) -> &CoinMap
        ensures value { result.now ≡ self.now.coins }
        ensures replayed { (triples : Triples) → IsChainstate self.now triples
            → result.now ≡ coins (regtest self.now.core.params triples) ledger
            self.now.core.state }
    {
        self.coins.map()
    }

    /// Of how many of the highest active blocks undo is kept.
    pub fn undo_kept(&self) -> usize
        ensures value { result ≡ self.now.core.undo_kept }
        ensures few { result ≤ most_undo }
    {
        self.core.undo_kept()
    }

    /// The tips of the tree, by height downwards, then by arrival (Bitcoin Core's `getchaintips`).
    pub fn tips(&self, alloc: Global) -> Result<Vec<Tip>, Memory>
        ensures { (triples : Triples) → IsChainstate self.now triples
            → IfOk result (λ list.
            list.items
            ≡ map tip_of_id (tips (regtest self.now.core.params triples) self.now.core.state)) }
    {
        self.core.tips(alloc)
    }
}
