//! What the digests of one transaction's inputs have in common.

ghost use Rattle.std.specs.Prelude.{◌≡◌, ◌≤◌, ◌<◌, IfOk, IfSome, length};
ghost use Rattle.std.specs.List.{concat};
ghost use Rattle.sha2.specs.Hashers.{Holds256};
ghost use Rattle.script.specs.Removal.{bytes_of};
ghost use Rattle.sighash.specs.Digest.{digest_of};
ghost use Rattle.sighash.specs.inside.Ahead.{AreGroups, AreGroups-prop};
ghost use Rattle.sighash.specs.inside.MessageFront.{beginning, AreMidstates, AreMidstates-prop};

use crate::ahead::{Group, groups};
use crate::code_pieces::are_code;
use crate::hasher_input::{feed_among, feed_others};
use crate::kind::signs_inputs;
use crate::signature_hash::digest;
use crate::spent::SpentScripts;
use hash::finish;
use lanes::LANES;
use sha2::{Digest, Sha256};
use std::alloc::Global;
use txn::Tx;
use txn::hasher_input::{feed_count, feed_outputs};
use wire::Memory;

/// How many inputs are between one state and the next.
const STEP: usize = 16;

/// Of a transaction with fewer inputs no state is kept.
const FEWEST: usize = 32;

/// The hash type ALL.
pub const ALL: u32 = 1;

/// A transaction, with the hasher's states at every 16th of its inputs (Bitcoin Core's word is midstate).
///
/// Where all inputs are signed with their sequences, a message begins with the version, the count of inputs, and the
/// inputs before the signed one without scripts. That of each later input begins with the same, so it is hashed once.
#[derive(Drop)]
pub struct Midstates<'a> {
    pub tx: &'a Tx,
    states: Vec<Sha256>,
    /// States that are kept with the transaction; `states` is empty then.
    kept: &'a [Sha256],
    groups: Vec<Option<Group>>,
    ghost fed: { AreMidstates tx.now states.items } by { AreMidstates-prop tx.now states.items },
    ghost lent: { AreMidstates tx.now kept.now } by { AreMidstates-prop tx.now kept.now },
    ghost found: { AreGroups tx.now groups.items } by { AreGroups-prop tx.now groups.items },
}

impl<'a> Midstates<'a> {
    ghost use Rattle.sighash.specs.Midstates.{AreOf};

    /// The midstates of the transaction at a place, whose inputs spend these scripts. None of one with fewer than 32
    /// inputs, for which no memory is taken.
    pub fn of<S: SpentScripts>(
        alloc: Global,
        tx: &'a Tx,
        place: usize,
        spent: &S,
    ) -> Result<Midstates<'a>, Memory>
        ensures { IfOk result (λ midstates. midstates.tx.now ≡ tx.entry.now) }
    {
        if tx.inputs.len() < FEWEST {
            return Ok(Midstates::none(alloc, tx));
        }
        let states = states_of(alloc, tx)?;
        let groups = groups(alloc, tx, place, spent)?;
        let kept: &'a [Sha256] = &[];
        Ok(Midstates {
            tx,
            states,
            kept,
            groups,
        })
    }

    /// Those of each of some transactions, by their places, whose inputs spend these scripts. Where none has 32 inputs
    /// it is no list at all.
    pub fn of_each<S: SpentScripts>(
        alloc: Global,
        txs: &'a [Tx],
        spent: &S,
    ) -> Result<Vec<Midstates<'a>>, Memory>
        ensures { IfOk result (λ list. AreOf txs.entry.now list.items) }
    {
        if !txs.iter().any(|tx| tx.inputs.len() >= FEWEST) {
            return Ok(Vec::new(alloc));
        }
        let mut list = Vec::with_capacity(alloc, txs.len())?;
        for place in 0..txs.len() {
            list.push(Midstates::of(alloc, &txs[place], place, spent)?)?;
        }
        Ok(list)
    }

    /// None of a transaction: each digest hashes the whole message.
    pub fn none(alloc: Global, tx: &'a Tx) -> Midstates<'a>
        ensures { result.tx.now ≡ tx.entry.now }
    {
        let kept: &'a [Sha256] = &[];
        Midstates::lent(alloc, tx, kept)
    }

    /// With states that are kept elsewhere. No digest is found ahead.
    pub(crate) fn lent(alloc: Global, tx: &'a Tx, kept: &'a [Sha256]) -> Midstates<'a>
        requires { AreMidstates tx.now kept.now }
        ensures { result.tx.now ≡ tx.entry.now }
    {
        Midstates {
            tx,
            states: Vec::new(alloc),
            kept,
            groups: Vec::new(alloc),
        }
    }

    /// The same, with the digests that are found ahead, where the inputs of the transaction at a place spend these scripts.
    pub(crate) fn lent_ahead<S: SpentScripts>(
        alloc: Global,
        tx: &'a Tx,
        place: usize,
        kept: &'a [Sha256],
        spent: &S,
    ) -> Result<Midstates<'a>, Memory>
        requires { AreMidstates tx.now kept.now }
        ensures { IfOk result (λ midstates. midstates.tx.now ≡ tx.entry.now) }
    {
        if tx.inputs.len() < FEWEST {
            return Ok(Midstates::lent(alloc, tx, kept));
        }
        let groups = groups(alloc, tx, place, spent)?;
        Ok(Midstates {
            tx,
            states: Vec::new(alloc),
            kept,
            groups,
        })
    }

    /// What [`digest`] gives for the transaction.
    pub fn digest(&self, input: usize, code: &[&[u8]], kind: u32) -> [u8; 32]
        requires { input < length self.now.tx.now.inputs }
        ensures { result ≡ digest_of self.now.tx.now input (concat (bytes_of code.now)) kind }
    {
        if !signs_inputs(kind) {
            return digest(self.tx, input, code, kind);
        }
        if let Some(digest) = self.found_ahead(input, code, kind) {
            return digest;
        }
        let tx = self.tx;
        let (mut hasher, from) = self.nearest(input);
        let (_, rest) = tx.inputs.as_slice().split_at(from);
        feed_among(&mut hasher, rest, input - from, code, kind);
        feed_outputs(&mut hasher, tx.outputs.as_slice());
        hasher.update(tx.lock_time.to_le_bytes());
        hasher.update(kind.to_le_bytes());
        finish(hasher)
    }

    /// The digest, if it was found ahead.
    fn found_ahead(&self, input: usize, code: &[&[u8]], kind: u32) -> Option<[u8; 32]>
        requires { input < length self.now.tx.now.inputs }
        ensures { IfSome result (λ digest.
            digest ≡ digest_of self.now.tx.now input (concat (bytes_of code.now)) kind) }
    {
        if kind != ALL {
            return None;
        }
        let found = self.groups.get(input / LANES)?;
        let group = found.as_ref()?;
        let lane = input % LANES;
        let codes = group.codes.as_slice();
        let width = codes.len() / LANES;
        if !are_code(code, &codes[lane * width..lane * width + width]) {
            return None;
        }
        Some(group.digests[lane].0)
    }

    /// A hasher that was fed all that is before an input, which is this one or an earlier one, and that one's number.
    fn nearest(&self, input: usize) -> (Sha256, usize)
        ensures near { result.1 ≤ input }
        ensures fed { Holds256 result.0 (beginning self.now.tx.now result.1) }
    {
        let steps = input / STEP;
        if steps > 0 {
            if let Some(state) = self.states().get(steps - 1) {
                return (state.clone().unwrap(), steps * STEP);
            }
        }
        (begun(self.tx), 0)
    }

    /// Its own states, or those that are kept.
    fn states(&self) -> &[Sha256]
        ensures { AreMidstates self.now.tx.now result.now }
    {
        if self.states.is_empty() {
            return self.kept;
        }
        self.states.as_slice()
    }
}

/// A hasher that was fed what is before the first input.
fn begun(tx: &Tx) -> Sha256
    ensures { Holds256 result (beginning tx.now 0) }
{
    let mut hasher = Sha256::new();
    hasher.update(tx.version.to_le_bytes());
    feed_count(&mut hasher, tx.inputs.len() as u128);
    hasher
}

/// The states of a transaction, where they are worth their memory: none of one with fewer than 32 inputs.
pub(crate) fn states_worth_keeping(alloc: Global, tx: &Tx) -> Result<Vec<Sha256>, Memory>
    ensures { IfOk result (λ states. AreMidstates tx.now states.items) }
{
    if tx.inputs.len() < FEWEST {
        return Ok(Vec::new(alloc));
    }
    states_of(alloc, tx)
}

/// The states of a transaction: the first is before input 16.
fn states_of(alloc: Global, tx: &Tx) -> Result<Vec<Sha256>, Memory>
    ensures { IfOk result (λ states. AreMidstates tx.now states.items) }
{
    let inputs = tx.inputs.as_slice();
    let count = inputs.len() / STEP;
    let mut states = Vec::with_capacity(alloc, count)?;
    let mut hasher = begun(tx);
    for place in 0..count {
        let (_, rest) = inputs.split_at(STEP * place);
        let (next, _) = rest.split_at(STEP);
        feed_others(&mut hasher, next, ALL);
        states.push(hasher.clone().unwrap())?;
    }
    Ok(states)
}
