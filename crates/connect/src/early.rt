//! Scripts of a block that can be run before it is connected.

ghost use Rattle.std.specs.Prelude.{◌≡◌, ◌++◌, ◌<◌, IfOk, OnOk, length, map, take};
ghost use Rattle.std.specs.Option.{option_map, option_to_list};
ghost use Rattle.txn.specs.Identity.{ids_of};
ghost use Rattle.queue.specs.Jobs.{spending, tx_at};
ghost use Rattle.rules.specs.Params.{at};
ghost use Rattle.connect.specs.Scripts.{flags_of};
ghost use Rattle.connect.specs.Early.{script_at, early_inputs, early_spendings};
ghost use Rattle.connect.specs.inside.Early.{ArePlaces};

use crate::scripts::flags_of;
use block::Block;
use coins::Base;
use hash::Id;
use interp::Flags;
use queue::EarlyJobs;
use rules::{InForce, Params};
use script::unspendable;
use std::alloc::Global;
use std::collections::BTreeMap;
use txn::{OutPoint, Tx};
use wire::Memory;

/// The rules of scripts that are in force at a height (Bitcoin Core's `GetBlockScriptFlags`).
pub fn script_flags(params: &Params, height: u32) -> Flags
    ensures { result ≡ flags_of (at params.now height) }
{
    flags_of(params.at(height))
}

/// The inputs of a block whose coins are there, with copies of the scripts that they spend: among these coins, or made
/// by an earlier transaction of the block.
///
/// Coins that aren't found are passed over. No rule is looked at, so the block may well break one.
pub fn early_jobs<'t, B: Base>(
    alloc: Global,
    base: &B,
    block: &'t Block,
    ids: &[Id],
    rules: InForce,
) -> Result<EarlyJobs<'t>, Memory>
    requires ids { ids.now ≡ ids_of block.now.txs }
    ensures { IfOk result (λ jobs. jobs ≡ record {
      txs = block.entry.now.txs;
      flags = flags_of rules;
      spendings = early_spendings (B.coins base.now) block.entry.now.txs;
    }) }
{
    let txs = block.txs.as_slice();
    let mut jobs = EarlyJobs::new(alloc, txs, flags_of(rules));
    let mut places = BTreeMap::new(alloc);
    for place in 0..txs.len() {
        add_inputs(alloc, &mut jobs, base, txs, &places, place)?;
        let id = ids[place];
        places.insert(id, place)?;
    }
    Ok(jobs)
}

/// Adds the inputs of the transaction at a place, by the places of those before it.
fn add_inputs<'t, B: Base>(
    alloc: Global,
    jobs: &mut EarlyJobs<'t>,
    base: &B,
    txs: &'t [Tx],
    places: &BTreeMap<Id, usize>,
    place: usize,
) -> Result<(), Memory>
    requires place { place < length txs.now }
    requires txs { jobs.old.txs ≡ txs.now }
    requires places { ArePlaces txs.now (take place txs.now) places.now.entries }
    ensures { let all = txs.entry.now in OnOk result (jobs.new ≡ record jobs.old {
      spendings = jobs.old.spendings ++
          early_inputs (B.coins base.now) (take place all) place (tx_at all place);
    }) }
{
    let tx = &txs[place];
    if tx.is_coinbase() {
        return Ok(());
    }
    let inputs = tx.inputs.as_slice();
    for input in 0..inputs.len() {
        let script = script_at(base, txs, places, place, &inputs[input].prev);
        add_input(alloc, jobs, place, input, script)?;
    }
    Ok(())
}

/// Adds an input of the transaction at a place, if there is a script that it spends.
fn add_input(
    alloc: Global,
    jobs: &mut EarlyJobs<'_>,
    place: usize,
    input: usize,
    script: Option<&[u8]>,
) -> Result<(), Memory>
    requires place { place < length jobs.old.txs }
    requires input { input < length (tx_at jobs.old.txs place).inputs }
    ensures { OnOk result (jobs.new ≡ record jobs.old {
      spendings = jobs.old.spendings ++
          map (spending place input) (option_to_list (option_map (λ s. s.now) script.entry));
    }) }
{
    let Some(script) = script else {
        return Ok(());
    };
    jobs.push(place, input, Vec::from_slice(alloc, script)?)
}

/// The script of the coin at an outpoint, among these coins or those that the transactions before a place make.
fn script_at<'l, B: Base>(
    base: &'l B,
    txs: &'l [Tx],
    places: &BTreeMap<Id, usize>,
    place: usize,
    at: &OutPoint,
) -> Option<&'l [u8]>
    requires { ArePlaces txs.now (take place txs.now) places.now.entries }
    ensures { option_map (λ script. script.now) result ≡
        script_at (B.coins base.entry.now) (take place txs.entry.now) at.now }
{
    if let Some(coin) = base.get(at) {
        return Some(coin.script);
    }
    let output = txs
        .get(*places.get(&at.id)?)?
        .outputs
        .as_slice()
        .get(at.index as usize)?;
    if unspendable(output.script.as_slice()) {
        return None;
    }
    Some(output.script.as_slice())
}
