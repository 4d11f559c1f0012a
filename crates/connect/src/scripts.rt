//! The scripts of a block, run after all else.

ghost use Rattle.std.specs.Prelude.{◌≡◌, ◌+◌, ◌<◌, ◌≤◌, ◌^◌, ◌++◌, All, IfErr, IfOk, IfSome, OnOk, length, sum_by};
ghost use Rattle.std.specs.List.{AllZip};
ghost use Rattle.signatures.specs.Known.{Under};
ghost use Rattle.queue.specs.Jobs.{HasInput};
ghost use Rattle.sighash.specs.Midstates.{AreOf};
ghost use Rattle.connect.specs.Scripts.{flags_of, input_checks, IsFirstRefused, AreWantedAmong};
ghost use Rattle.connect.specs.inside.ScriptLists.{checks_from, checks_in, IsEven};

use crate::runs_scripts::RunsScripts;
use coins::Coin;
use interp::{Flags, Job};
use queue::Gate;
use rules::InForce;
use sighash::{Midstates, SpentScripts};
use std::alloc::Global;
use txn::{Reason, Tx};
use undo::BlockUndo;
use wire::Memory;

/// The scripts of a block that have to accept, by transaction and then by input, each with the place of its
/// transaction. They borrow the coins that the block spends from its undo, and share midstates.
#[derive(Drop)]
struct Checks<'a> {
    jobs: Vec<Job<'a>>,
    places: Vec<usize>,
}

/// The first script that isn't accepted, of transactions of a block but the first, with the coins that they
/// spend.
pub(crate) fn first_refused<'a, S: RunsScripts>(
    alloc: Global,
    txs: &'a [Tx],
    undo: &'a BlockUndo,
    rules: InForce,
    env: &S,
    gate: &(dyn Gate + Sync),
) -> Result<Option<Reason>, S::Stop>
    requires alike { AllZip (λ tx coins. length coins ≤ length tx.inputs) txs.now undo.now }
    requires few { sum_by (λ coins. length coins) undo.now ≤ 1000000 }
    ensures answer { IfOk result (λ found. Under (S.known env.now) (λ triples.
        IsFirstRefused triples (checks_from (flags_of rules) 1 txs.now undo.now) found)) }
    ensures stops { IfErr result (λ stop. IfSome (S.told stop) (AreWantedAmong (S.known env.now)
        (checks_from (flags_of rules) 1 txs.now undo.now))) }
{
    let coins = SpentCoins { undo };
    let midstates = midstates(alloc, txs, &coins, env)?;
    let checks = list(alloc, txs, undo, &midstates, flags_of(rules))?;
    let found = env.first_failure(alloc, &checks.jobs, &checks.places, gate)?;
    let Some(place) = found else {
        return Ok(None);
    };
    Ok(Some(Reason::ScriptRefused {
        transaction: checks.places[place],
        input: checks.jobs[place].input,
    }))
}

/// The midstates of the transactions, or none where verdicts may spare their jobs.
fn midstates<'a, S: RunsScripts>(
    alloc: Global,
    txs: &'a [Tx],
    spent: &SpentCoins,
    env: &S,
) -> Result<Vec<Midstates<'a>>, Memory>
    ensures { IfOk result (λ list. AreOf txs.entry.now list.items) }
{
    if env.has_verdicts() {
        return Ok(Vec::new(alloc));
    }
    Midstates::of_each(alloc, txs, spent)
}

/// The coins that transactions spend.
#[derive(Drop)]
struct SpentCoins<'a> {
    undo: &'a BlockUndo,
}

impl<'a> SpentScripts for SpentCoins<'a> {
    fn script(&self, place: usize, input: usize) -> Option<&[u8]> {
        let coins = self.undo.as_slice().get(place)?;
        Some(coins.as_slice().get(input)?.script.as_slice())
    }
}

/// The script rules that are in force where these rules of blocks are (Bitcoin Core's `GetBlockScriptFlags`).
pub(crate) fn flags_of(rules: InForce) -> Flags
    ensures { result ≡ flags_of rules }
{
    Flags {
        p2sh: true,
        dersig: rules.bip66,
        cltv: rules.bip65,
        csv: rules.csv,
        nulldummy: rules.nulldummy,
    }
}

/// The checks of transactions but the first.
fn list<'a>(
    alloc: Global,
    txs: &'a [Tx],
    undo: &'a BlockUndo,
    midstates: &'a [Midstates<'a>],
    flags: Flags,
) -> Result<Checks<'a>, Memory>
    requires alike { AllZip (λ tx coins. length coins ≤ length tx.inputs) txs.now undo.now }
    requires midstates { AreOf txs.now midstates.now }
    ensures checks_from { IfOk result (λ checks.
        checks_in checks ≡ checks_from flags 1 txs.now undo.now) }
    ensures even { IfOk result (λ checks. IsEven checks) }
    ensures inputs { IfOk result (λ checks. All HasInput checks.jobs.items) }
    ensures few { IfOk result (λ checks. length checks.jobs.items ≡
        sum_by (λ coins. length coins) undo.now) }
{
    let mut checks = Checks {
        jobs: Vec::new(alloc),
        places: Vec::new(alloc),
    };
    for index in 0..txs.len() {
        add(
            &mut checks,
            index + 1,
            &txs[index],
            midstates.get(index),
            undo.as_slice()[index].as_slice(),
            flags,
        )?;
    }
    Ok(checks)
}

/// Adds the checks of the transaction at a place.
fn add<'a>(
    checks: &mut Checks<'a>,
    place: usize,
    tx: &'a Tx,
    midstates: Option<&'a Midstates<'a>>,
    coins: &'a [Coin],
    flags: Flags,
) -> Result<(), Memory>
    requires each { length coins.now ≤ length tx.now.inputs }
    requires midstates { IfSome midstates (λ m. m.now.tx.now ≡ tx.now) }
    requires even { IsEven checks.old }
    requires inputs { All HasInput checks.old.jobs.items }
    ensures checks_from { OnOk result (checks_in checks.new ≡ checks_in checks.old ++
        input_checks flags place tx.now coins.now) }
    ensures even { OnOk result (IsEven checks.new) }
    ensures inputs { OnOk result (All HasInput checks.new.jobs.items) }
    ensures few { OnOk result (length checks.new.jobs.items ≡
        length checks.old.jobs.items + length coins.now) }
{
    for (input, coin) in coins.iter().enumerate() {
        checks.jobs.push(Job {
            tx,
            input,
            spent: coin.script.as_slice(),
            flags,
            midstates,
        })?;
        checks.places.push(place)?;
    }
    Ok(())
}
