//! A seat's reading calls. They wait for nobody: each enters the published view once.

ghost use Rattle.std.specs.Prelude.{◌≡◌, IfOk, IfErr, take, drop};
ghost use Rattle.std.specs.Option.{option_copied};
ghost use Rattle.signatures.specs.Known.{Under};
ghost use Rattle.view.specs.Origin.{known_in};
ghost use Rattle.view.specs.ViewState.{IsExact, state_after};
ghost use Rattle.node.specs.Told.{AreNext, best_in, coins_in, output_at, shown_tips};

use crate::answer::{Stamped, UnspentOutput};
use crate::fault::Fault;
use crate::seat::Seat;
use coins::{Coin, CoinMap};
use hash::Id;
use model::Entry;
use std::alloc::Global;
use tree::Tip;
use txn::OutPoint;
use view::{Naming, SharedEntry, View};
use wire::Memory;

/// The output at an outpoint of a view, if it isn't spent.
fn output(alloc: Global, view: &View, outpoint: &OutPoint) -> Result<Option<UnspentOutput>, Memory>
    requires { IsExact view.now }
    ensures { let o = view.now.origin in let es = view.now.journal in
        IfOk result (λ found. Under (known_in o es) (λ valid.
        found ≡ output_at o outpoint.now valid (state_after o valid es))) }
{
    match view.unspent(outpoint) {
        Some((coin, confirmations)) => Ok(Some(UnspentOutput::of(alloc, &coin, confirmations)?)),
        None => Ok(None),
    }
}

/// The coins above an outpoint by rising outpoints, at most so many.
fn next_coins(
    alloc: Global,
    coins: &CoinMap,
    above: Option<&OutPoint>,
    most: usize,
) -> Result<Vec<(OutPoint, Coin)>, Memory>
    ensures { IfOk result (λ list. AreNext coins.now (option_copied above.entry) most list.items) }
{
    let mut list = Vec::new(alloc);
    let mut last = above;
    for _ in 0..most {
        let Some((outpoint, coin)) = coins.after(last) else {
            return Ok(list);
        };
        list.push((*outpoint, coin.copy()?))?;
        last = Some(outpoint);
    }
    Ok(list)
}

/// The coins of a view above an outpoint by rising outpoints, at most so many.
fn coins_above(
    alloc: Global,
    view: &View,
    above: Option<&OutPoint>,
    most: usize,
) -> Result<Vec<(OutPoint, Coin)>, Memory>
    requires { IsExact view.now }
    ensures { let o = view.now.origin in let es = view.now.journal in
        IfOk result (λ list. Under (known_in o es) (λ valid.
        let coins = coins_in o valid (state_after o valid es) in
        AreNext coins (option_copied above.entry) most list.items)) }
{
    next_coins(alloc, view.coins(), above, most)
}

/// The tips of a view.
fn tips(alloc: Global, view: &View) -> Result<Vec<Tip>, Memory>
    requires { IsExact view.now }
    ensures { let o = view.now.origin in let es = view.now.journal in
        IfOk result (λ list. Under (known_in o es) (λ valid.
        list.items ≡ shown_tips o valid (state_after o valid es))) }
{
    Ok(Vec::from_slice(alloc, view.tips())?)
}

/// The entries of a view after the first `from`, up to the one of number `to`.
fn entries(alloc: Global, view: &View, from: u64, to: u64) -> Result<Vec<Entry>, Memory>
    ensures { IfOk result (λ list. list.items ≡ drop from (take to view.now.journal)) }
{
    let journal = view.journal();
    let front = &journal[..to.min(journal.len() as u64) as usize];
    copies(alloc, &front[from.min(front.len() as u64) as usize..])
}

/// Copies of entries, which share their blocks' bytes.
fn copies(alloc: Global, entries: &[SharedEntry]) -> Result<Vec<Entry>, Memory>
    ensures { IfOk result (λ list. list.items ≡ entries.now) }
{
    let mut list = Vec::with_capacity(alloc, entries.len())?;
    for entry in entries {
        list.push(entry.entry().copy()?)?;
    }
    Ok(list)
}

impl<'t, J: Naming> Seat<'t, J> {
    ghost use Rattle.node.specs.Calls.{IsReadFault, IsClosedFault};
    ghost use Rattle.node.specs.Pass.{AreCoins, IsLater, IsOwn, IsRead, IsListed};

    /// The output at an outpoint, if it isn't spent, after all that the seat has then seen (Bitcoin Core's
    /// `gettxout`).
    pub fn gettxout(
        &mut self,
        alloc: Global,
        outpoint: &OutPoint,
    ) -> Result<Stamped<Option<UnspentOutput>>, Fault>
        ensures later { IsLater self.old self.new }
        ensures answer { let output = output_at self.old.origin outpoint.now in
            IfOk result (λ r. IsRead self.old self.new output r.at r.value) }
        ensures own { IsOwn self.new }
        ensures fault { IfErr result (λ fault. IsReadFault self.old self.new fault) }
    {
        let Some((reading, found)) = self.reader.enter_from(&self.seen) else {
            return Err(Fault::Closed);
        };
        let value = output(alloc, reading.get(), outpoint);
        self.reader.leave(reading);
        let value = value?;
        let at = self.see(found);
        Ok(Stamped { at, value })
    }

    /// The coins at the outpoints above one, or from the least on, by rising outpoints, after all that the seat has then
    /// seen: at most so many, and fewer only where there are no more. Lists with the same stamp are of one state.
    pub fn coins_from(
        &mut self,
        alloc: Global,
        above: Option<&OutPoint>,
        most: usize,
    ) -> Result<Stamped<Vec<(OutPoint, Coin)>>, Fault>
        ensures later { IsLater self.old self.new }
        ensures answer { IfOk result (λ r.
            AreCoins self.old self.new (option_copied above.entry) most r.at r.value.items) }
        ensures own { IsOwn self.new }
        ensures fault { IfErr result (λ fault. IsReadFault self.old self.new fault) }
    {
        let Some((reading, found)) = self.reader.enter_from(&self.seen) else {
            return Err(Fault::Closed);
        };
        let value = coins_above(alloc, reading.get(), above, most);
        self.reader.leave(reading);
        let value = value?;
        let at = self.see(found);
        Ok(Stamped { at, value })
    }

    /// The id of the best block, after all that the seat has then seen. It takes no memory.
    pub fn getbestblockhash(&mut self) -> Result<Stamped<Id>, Fault>
        ensures later { IsLater self.old self.new }
        ensures answer { let best = best_in self.old.origin in
            IfOk result (λ r. IsRead self.old self.new best r.at r.value) }
        ensures own { IsOwn self.new }
        ensures fault { IfErr result (λ fault. IsClosedFault self.old self.new fault) }
    {
        let Some((reading, found)) = self.reader.enter_from(&self.seen) else {
            return Err(Fault::Closed);
        };
        let value = reading.get().best();
        self.reader.leave(reading);
        let at = self.see(found);
        Ok(Stamped { at, value })
    }

    /// The tips of the tree, by height downwards, then by arrival, after all that the seat has then seen.
    pub fn getchaintips(&mut self, alloc: Global) -> Result<Stamped<Vec<Tip>>, Fault>
        ensures later { IsLater self.old self.new }
        ensures answer { let tips = shown_tips self.old.origin in
            IfOk result (λ r. IsRead self.old self.new tips r.at r.value.items) }
        ensures own { IsOwn self.new }
        ensures fault { IfErr result (λ fault. IsReadFault self.old self.new fault) }
    {
        let Some((reading, found)) = self.reader.enter_from(&self.seen) else {
            return Err(Fault::Closed);
        };
        let value = tips(alloc, reading.get());
        self.reader.leave(reading);
        let value = value?;
        let at = self.see(found);
        Ok(Stamped { at, value })
    }

    /// The entries of the history after the first `from`, up to the one of number `to`, of all that the seat has then
    /// seen. Blocks' bytes are shared, not copied.
    pub fn journal(
        &mut self,
        alloc: Global,
        from: u64,
        to: u64,
    ) -> Result<Stamped<Vec<Entry>>, Fault>
        ensures later { IsLater self.old self.new }
        ensures answer { IfOk result (λ r. IsListed self.old self.new from to r.at r.value.items) }
        ensures own { IsOwn self.new }
        ensures fault { IfErr result (λ fault. IsReadFault self.old self.new fault) }
    {
        let Some((reading, found)) = self.reader.enter_from(&self.seen) else {
            return Err(Fault::Closed);
        };
        let value = entries(alloc, reading.get(), from, to);
        self.reader.leave(reading);
        let value = value?;
        let at = self.see(found);
        Ok(Stamped { at, value })
    }
}
