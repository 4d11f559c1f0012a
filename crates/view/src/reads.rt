//! What a reader reads from the view that it has entered.

ghost use Rattle.std.specs.Prelude.{◌≡◌, ◌<◌, IfSome, MatchOption, None, Some, length, map};
ghost use Rattle.coins.specs.Lent.{lent};
ghost use Rattle.model.specs.Regtest.{regtest};
ghost use Rattle.model.specs.Chainstate.{confirmations};
ghost use Rattle.model.specs.Settle.{active};
ghost use Rattle.tree.specs.Branches.{height};
ghost use Rattle.tree.specs.Limits.{max_blocks};
ghost use Rattle.tree.specs.Tips.{tip_of_id};
ghost use Rattle.signatures.specs.Known.{Under};
ghost use Rattle.view.specs.Origin.{known_in, machine};
ghost use Rattle.view.specs.ViewState.{IsExact, state_after};

use crate::chain_info::ChainInfo;
use crate::history_view::View;
use crate::seen_history::SeenHistory;
use crate::shared_entry::SharedEntry;
use coins::{CoinMap, Lent};
use hash::Id;
use tree::Tip;
use txn::OutPoint;

impl View {
    /// How many entries the history has: the place of what is read in it.
    pub fn at(&self) -> u64
        ensures { result ≡ length self.now.journal }
    {
        self.journal.len() as u64
    }

    /// The history, as its readers keep it. None where its last entry has no place there.
    pub fn note(&self) -> Option<SeenHistory>
        requires { IsExact self.now }
        ensures { IfSome result (λ note.
            (note.book ≡ self.now.origin.book) × (note.entries ≡ self.now.journal)) }
    {
        match &self.note {
            Some(note) => Some(note.copy()),
            None => None,
        }
    }

    /// Its entries, lent.
    pub fn journal(&self) -> &[SharedEntry]
        ensures { result.now ≡ self.now.journal }
    {
        self.journal.as_slice()
    }

    /// The coins after them, lent.
    pub fn coins(&self) -> &CoinMap
        ensures { result.now ≡ self.now.coins }
    {
        &self.coins
    }

    /// The best block, its height and the tips after them, lent.
    pub fn info(&self) -> &ChainInfo
        ensures { result.now ≡ self.now.info }
    {
        &self.info
    }

    /// The best block's id (Bitcoin Core's `getbestblockhash`).
    pub fn best(&self) -> Id
        requires { IsExact self.now }
        ensures { let o = self.now.origin in let es = self.now.journal in
            Under (known_in o es) (λ valid.
            result ≡ (machine o valid).best (state_after o valid es)) }
    {
        self.info.best
    }

    /// The best block's height.
    pub fn height(&self) -> usize
        requires { IsExact self.now }
        ensures fits { result < max_blocks }
        ensures value { let o = self.now.origin in let es = self.now.journal in
            Under (known_in o es) (λ valid. let s = state_after o valid es in
            result ≡ height s.blocks (active (regtest o.params valid) s)) }
    {
        self.info.height
    }

    /// The tips of the tree, lent (Bitcoin Core's `getchaintips`).
    pub fn tips(&self) -> &[Tip]
        requires { IsExact self.now }
        ensures { let o = self.now.origin in let es = self.now.journal in
            Under (known_in o es) (λ valid.
            result.now ≡ map tip_of_id ((machine o valid).tips (state_after o valid es))) }
    {
        self.info.tips.as_slice()
    }

    /// The coin at an outpoint, lent, and how many blocks confirm it (Bitcoin Core's `gettxout`).
    pub fn unspent(&self, outpoint: &OutPoint) -> Option<(Lent<'_>, u32)>
        requires { IsExact self.now }
        ensures { let o = self.now.origin in let es = self.now.journal in
            Under (known_in o es) (λ valid.
            let found = (machine o valid).coin (state_after o valid es) outpoint.now in
            MatchOption result (found ≡ None) (λ x. found ≡ Some (lent x.0, x.1))) }
    {
        match self.coins.get(outpoint) {
            Some(coin) => Some((coin.lend(), self.confirmations(coin.height))),
            None => None,
        }
    }

    /// How many blocks of the active branch there are from this height on.
    fn confirmations(&self, height: u32) -> u32
        requires { IsExact self.now }
        ensures { let o = self.now.origin in let es = self.now.journal in
            Under (known_in o es) (λ valid.
            result ≡ confirmations (regtest o.params valid) (state_after o valid es) height) }
    {
        let blocks = self.info.height as u32 + 1;
        blocks.saturating_sub(height)
    }
}
