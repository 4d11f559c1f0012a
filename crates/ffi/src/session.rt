//! A chainstate with what is known of signatures.

ghost use Rattle.std.specs.Prelude.{◌≡◌, ◌<◌, [], false, true, IfOk, IfErr, OnOk, OnErr, Some, length, map, slice_get};
ghost use Rattle.std.specs.FinMap as coin_map;
ghost use Rattle.std.specs.FinSet as set;
ghost use Rattle.std.specs.Map.Iter.{deref_pair};
ghost use Rattle.std.specs.Option.{option_copied, option_map};
ghost use Rattle.signatures.specs.Known.{Under};
ghost use Rattle.signatures.specs.Lines.{lines, IsTableOf, IsFaultOf};
ghost use Rattle.signatures.specs.Triple.{Triples, triple_of};
ghost use Rattle.coins.specs.Next.{IsNext};
ghost use Rattle.tree.specs.Branches.{height, place_of};
ghost use Rattle.tree.specs.Names.{names};
ghost use Rattle.tree.specs.Tips.{tip_of_id};
ghost use Rattle.model.specs.Commands.{outcome};
ghost use Rattle.model.specs.Regtest.{ledger};
ghost use Rattle.model.specs.Replay.{coins};
ghost use Rattle.model.specs.Settle.{active, best, tips};
ghost use Rattle.activate.specs.CoreState.{IsBlockOf, IsChainstate, opened_core};
ghost use Rattle.ffi.specs.SessionState.{IsLearntBy, IsNoStep, KeepsRules, known_of, new_session, rules_of, rules_under, tree_of};
ghost use Rattle.ffi.specs.Signatures.{valid_in, invalid_in, is_by_need};
ghost use Rattle.ffi.specs.inside.Signatures.{known_in};

mod lookups;

use crate::answers::{CONTRADICTION, DONE, MEMORY, WANTS};
use crate::signature_sources::Signatures;
use activate::Chainstate;
use block::Bytes;
use coins::Coin;
use connect::Env;
use hash::Id;
use model::{Command, PreparedCommand, Reply};
use queue::{Alone, Open, Undecided};
use rules::Params;
use signatures::{KeptTriple, KnownSignatures, KnowsSignatures, Table, TableFault};
use std::alloc::Global;
use std::marker::Model;
use tree::Tip;
use txn::OutPoint;
use wire::Memory;

/// A chainstate, what is known of signatures, and which of them the last step wanted, where it was none. Scripts run by
/// the caller.
#[derive(Drop)]
pub struct Session {
    chain: Chainstate,
    signatures: Signatures,
    wanted: Vec<KeptTriple>,
}

impl Model for Session {
    ghost use Rattle.std.specs.Coded.{codes};
    ghost use Rattle.std.specs.FinSet as set;
    ghost use Rattle.signatures.specs.Known.{Under};
    ghost use Rattle.signatures.specs.Triple.{triple_cmp, coded_triple};
    ghost use Rattle.coins.specs.Coins.{coded_coins};
    ghost use Rattle.activate.specs.CoreState.{IsChainstate};
    ghost use Rattle.ffi.specs.SessionState.{SessionState};
    ghost use Rattle.ffi.specs.Signatures.{valid_in, invalid_in, is_by_need};
    ghost use Rattle.ffi.specs.inside.Signatures.{known_in};

    ghost Value = { SessionState };

    ghost coded = { Prim.hlevel (codes, coded_coins, coded_triple, set.code {R = triple_cmp} coded_triple) };

    ghost view = { λ s. record {
      chain = s.chain;
      triples = valid_in s.signatures;
      invalid = invalid_in s.signatures;
      by_need = is_by_need s.signatures;
      wanted = s.wanted.items;
    } };

    // The second is the first under one of those sets.
    ghost invariant = { λ s. Under (known_in s.signatures) (λ triples. IsChainstate s.chain triples)
        × IsChainstate s.chain (valid_in s.signatures) };
}

/// Genesis alone, as a chainstate under any valid signatures is at first.
fn chainstate_at_first(alloc: Global, params: Params) -> Result<Chainstate, Memory>
    ensures value { IfOk result (λ chain.
        chain ≡ record { core = opened_core params; coins = coin_map.empty }) }
    ensures is_chainstate { IfOk result (λ chain. (triples : Triples)
        → IsChainstate chain triples) }
{
    Chainstate::with(alloc, params)
}

impl Session {
    fn at_first(alloc: Global, chain: Chainstate, signatures: Signatures) -> Session
        requires { (triples : Triples) → IsChainstate chain triples }
        ensures { result ≡ record {
          chain = chain;
          triples = valid_in signatures;
          invalid = invalid_in signatures;
          by_need = is_by_need signatures;
          wanted = [];
        } }
    {
        Session {
            chain,
            signatures,
            wanted: Vec::new(alloc),
        }
    }

    /// Genesis alone, with these heights of soft forks and the valid signatures of a table's text.
    pub(crate) fn open(alloc: Global, params: Params, text: &[u8]) -> Result<Session, TableFault>
        ensures found { IfOk result (λ session.
            (session ≡ new_session params session.triples false)
            × IsTableOf (lines text.now) session.triples) }
        ensures refused { IfErr result (IsFaultOf (lines text.now)) }
    {
        let table = Table::from_lines(alloc, text)?;
        match chainstate_at_first(alloc, params) {
            Ok(chain) => Ok(Session::at_first(alloc, chain, Signatures::Listed(table))),
            Err(_) => Err(TableFault::Memory),
        }
    }

    /// Genesis alone, with these heights of soft forks, where nothing is known of signatures.
    pub(crate) fn open_by_need(alloc: Global, params: Params) -> Result<Session, Memory>
        ensures { IfOk result (λ session. session ≡ new_session params set.empty true) }
    {
        let chain = chainstate_at_first(alloc, params)?;
        let found = Signatures::Found(KnownSignatures::new(alloc));
        Ok(Session::at_first(alloc, chain, found))
    }

    /// Takes a command, or answers the number that says why it took no step.
    pub(crate) fn step(&mut self, alloc: Global, command: &Command) -> Result<Reply, u32>
        ensures outcome { IfOk result (λ reply. Under (known_of self.old) (λ triples.
            (tree_of self.new, reply)
            ≡ outcome (rules_under self.old triples) (tree_of self.old) command.now)) }
        ensures rules { OnOk result (KeepsRules self.old self.new) }
        ensures wanted { OnOk result (self.new.wanted ≡ []) }
        ensures refused { IfErr result (IsNoStep self.old self.new command.now) }
    {
        let Ok(command) = PreparedCommand::of(alloc, command) else {
            return Err(MEMORY);
        };
        let env = Env {
            signatures: &self.signatures,
            workers: 1,
            early: &[],
            crew: &Alone,
        };
        match self.chain.step(alloc, &command, &env, &Open) {
            Ok(reply) => {
                self.wanted.truncate(0);
                Ok(reply)
            }
            Err(Undecided::Memory) => Err(MEMORY),
            Err(Undecided::Unknown(unknown)) => {
                self.wanted = unknown;
                Err(WANTS)
            }
        }
    }

    /// The reply that a command would be given now, or the number that says why there is none. No step is taken.
    pub(crate) fn judge(&mut self, alloc: Global, command: &Command) -> Result<Reply, u32>
        ensures reply { IfOk result (λ reply. Under (known_of self.old) (λ triples.
            reply ≡ (outcome (rules_under self.old triples) (tree_of self.old) command.now).1)) }
        ensures stays { OnOk result (self.new ≡ record self.old { wanted = [] }) }
        ensures refused { IfErr result (IsNoStep self.old self.new command.now) }
    {
        let Ok(command) = PreparedCommand::of(alloc, command) else {
            return Err(MEMORY);
        };
        let env = Env {
            signatures: &self.signatures,
            workers: 1,
            early: &[],
            crew: &Alone,
        };
        match self.chain.judge(alloc, &command, &env, &Open) {
            Ok(reply) => {
                self.wanted = Vec::new(alloc);
                Ok(reply)
            }
            Err(Undecided::Memory) => Err(MEMORY),
            Err(Undecided::Unknown(unknown)) => {
                self.wanted = unknown;
                Err(WANTS)
            }
        }
    }

    /// The same session, which wants nothing.
    pub(crate) fn copy(&self, alloc: Global) -> Result<Session, Memory>
        ensures { IfOk result (λ session. session ≡ record self.now { wanted = [] }) }
    {
        let chain = self.chain.copy(alloc)?;
        let signatures = self.signatures.copy()?;
        Ok(Session {
            chain,
            signatures,
            wanted: Vec::new(alloc),
        })
    }

    /// Takes the verdict on a signature, which is without its hash type. One that is known stays.
    pub(crate) fn learn(
        &mut self,
        key: &[u8],
        signature: &[u8],
        digest: &[u8; 32],
        valid: bool,
    ) -> u32
        ensures { let t = triple_of key.now signature.now digest.now in
            IsLearntBy self.old self.new t valid (known_of self.old t) result }
    {
        match self.signatures.find(key, signature, digest) {
            Some(known) => { if known == valid { DONE } else { CONTRADICTION } }
            None => match &mut self.signatures {
                Signatures::Listed(_) => unreachable!(),
                Signatures::Found(found) => match found.learn(key, signature, digest, valid) {
                    Ok(()) => DONE,
                    Err(Memory) => MEMORY,
                },
            },
        }
    }

    /// The wanted signature at a place of their list.
    pub(crate) fn wanted(&self, index: usize) -> Option<&KeptTriple>
        ensures { option_copied result ≡ slice_get self.now.wanted index }
    {
        self.wanted.as_slice().get(index)
    }

    /// The active block's id.
    pub(crate) fn best(&self) -> Id
        ensures { result ≡ best (rules_of self.now) (tree_of self.now) }
    {
        self.chain.best()
    }

    /// The active block's height.
    pub(crate) fn height(&self) -> usize
        ensures { result ≡ height (tree_of self.now).blocks
            (active (rules_of self.now) (tree_of self.now)) }
    {
        self.chain.height()
    }

    /// The tips, by height downwards, then by arrival.
    pub(crate) fn tips(&self, alloc: Global) -> Result<Vec<Tip>, Memory>
        ensures { IfOk result (λ list.
            list.items ≡ map tip_of_id (tips (rules_of self.now) (tree_of self.now))) }
    {
        self.chain.tips(alloc)
    }

    /// The coin at an outpoint, lent.
    pub(crate) fn coin(&self, at: &OutPoint) -> Option<&Coin>
        ensures { option_copied result
            ≡ coin_map.get (coins (rules_of self.now) ledger (tree_of self.now)) at.now }
    {
        self.chain.coins().get(at)
    }

    /// The coin at the least outpoint above another, with that outpoint; above `None`, the least of all.
    pub(crate) fn coin_after(&self, at: Option<&OutPoint>) -> Option<(&OutPoint, &Coin)>
        ensures { let all = coins (rules_of self.now) ledger (tree_of self.now) in
            IsNext all (option_copied at.entry) (option_map deref_pair result) }
    {
        self.chain.coins().after(at)
    }

    /// The bytes of the block with this id. Of genesis none are kept.
    pub(crate) fn block(&self, id: &Id) -> Option<&Bytes>
        ensures { let t = (tree_of self.now).blocks in
            IsBlockOf t (place_of names t id.now) (option_map (λ b. b.now) result) }
    {
        self.chain.block(id)
    }
}
