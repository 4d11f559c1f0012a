//! Digests of neighbouring inputs, eight at once, before they are asked for.

ghost use Rattle.std.specs.Prelude.{◌≡◌, ◌≤◌, ◌<◌, ◌++◌, ◌+◌, ◌*◌, ◌/◌, IfOk, IfSome, IsTrue, OnOk, ℕ, length, take};
ghost use Rattle.lanes.specs.Lane.{lanes};
ghost use Rattle.lanes.specs.Midstate.{IsAfter, part};
ghost use Rattle.sighash.specs.inside.Ahead.{AreDigests, AreGroups, AreOfLength, IsBegun, code_at};
ghost use Rattle.sighash.specs.inside.MessageFront.{beginning};
ghost use Rattle.sighash.specs.inside.Flat.{with_script};

use crate::first_code::expected_code;
use crate::flat::{Flat, put_script};
use crate::spent::SpentScripts;
use hash::Id;
use lanes::{LANES, Midstate};
use std::alloc::Global;
use txn::Tx;
use wire::{CompactSize, Memory};

/// The longest code of which digests are found ahead.
const LONGEST: usize = 1000;

/// The bytes of an input before its script.
const BEFORE_SCRIPT: usize = 36;

/// The codes that eight neighbouring inputs are expected to sign, one after the other, with the digests of hash type ALL.
#[derive(Drop)]
pub struct Group {
    pub codes: Vec<u8>,
    pub digests: [Id; LANES],
}

/// What the messages begin with, as far as it was taken in.
#[derive(Drop)]
struct Begun {
    midstate: Midstate,
    fed: usize,
}

/// The groups of the transaction at a place, the first of its first eight inputs. None is of inputs whose codes aren't
/// expected, or differ in length.
pub fn groups<S: SpentScripts>(
    alloc: Global,
    tx: &Tx,
    place: usize,
    spent: &S,
) -> Result<Vec<Option<Group>>, Memory>
    ensures { IfOk result (λ groups. AreGroups tx.now groups.items) }
{
    let flat = Flat::of(alloc, tx)?;
    let mut begun = Begun {
        midstate: Midstate::new(),
        fed: 0,
    };
    let mut own = Vec::new(alloc);
    let count = tx.inputs.len() / LANES;
    let mut groups = Vec::with_capacity(alloc, count)?;
    for number in 0..count {
        let codes = expected_codes(tx, place, LANES * number, spent);
        let group = next_group(alloc, &flat, &mut begun, &mut own, LANES * number, &codes)?;
        groups.push(group)?;
    }
    Ok(groups)
}

/// The code that each of eight inputs is expected to sign: empty where none is.
fn expected_codes<'a, S: SpentScripts>(
    tx: &'a Tx,
    place: usize,
    first: usize,
    spent: &'a S,
) -> [&'a [u8]; LANES]
    requires { first + lanes ≤ length tx.now.inputs }
{
    let none: &'a [u8] = &[];
    let mut codes = [none; LANES];
    for lane in 0..LANES {
        let script = tx.inputs.as_slice()[first + lane].script.as_slice();
        if let Some(spent) = spent.script(place, first + lane) {
            codes[lane] = expected_code(spent, script);
        }
    }
    codes
}

/// Whether the codes have one length, and digests are found ahead of such.
fn are_alike(codes: &[&[u8]; LANES]) -> bool
    ensures { IsTrue result → AreOfLength (length (code_at codes.now 0)) codes.now }
{
    let len = codes[0].len();
    for lane in 0..LANES {
        if codes[lane].len() != len {
            return false;
        }
    }
    0 < len && len <= LONGEST
}

/// The codes, one after the other.
fn joined_codes(alloc: Global, codes: &[&[u8]; LANES]) -> Result<Vec<u8>, Memory>
    requires { AreOfLength (length (code_at codes.now 0)) codes.now }
    ensures { IfOk result (λ joined. (l : ℕ) → l < lanes
        → part joined.items l ≡ code_at codes.now l) }
{
    let mut joined = Vec::new(alloc);
    for lane in 0..LANES {
        joined.extend_from_slice(codes[lane])?;
    }
    Ok(joined)
}

/// The group of eight inputs. What is before them is taken in first.
fn next_group(
    alloc: Global,
    flat: &Flat,
    begun: &mut Begun,
    own: &mut Vec<u8>,
    first: usize,
    codes: &[&[u8]; LANES],
) -> Result<Option<Group>, Memory>
    requires inputs { first + lanes ≤ length flat.now.tx.now.inputs }
    requires begun { IsBegun flat.now.bytes.items begun.old }
    requires before { begun.old.fed ≤ length (beginning flat.now.tx.now first) }
    ensures group { IfOk result (λ found. IfSome found (λ group.
        AreDigests flat.now.tx.now first (part group.codes.items) group.digests)) }
    ensures begun { OnOk result (IsBegun flat.now.bytes.items begun.new) }
    ensures before { OnOk result (begun.new.fed ≤ length (beginning flat.now.tx.now first)) }
{
    if !are_alike(codes) {
        return Ok(None);
    }
    let from = flat.place(first) / 64 * 64;
    begun.midstate.feed(&flat.bytes[begun.fed..from]);
    begun.fed = from;
    let Some(digests) = eight(flat, &begun.midstate, own, first, codes)? else {
        return Ok(None);
    };
    let codes = joined_codes(alloc, codes)?;
    Ok(Some(Group { codes, digests }))
}

/// The digests of eight inputs whose codes have one length, if so much is behind them as to fill a block.
fn eight(
    flat: &Flat,
    midstate: &Midstate,
    own: &mut Vec<u8>,
    first: usize,
    codes: &[&[u8]; LANES],
) -> Result<Option<[Id; LANES]>, Memory>
    requires inputs { first + lanes ≤ length flat.now.tx.now.inputs }
    requires codes { AreOfLength (length (code_at codes.now 0)) codes.now }
    requires midstate { IsAfter midstate.now
        (take (length (beginning flat.now.tx.now first) / 64 * 64) flat.now.bytes.items) }
    ensures { IfOk result (λ found. IfSome found (λ digests.
        AreDigests flat.now.tx.now first (code_at codes.now) digests)) }
{
    let len = codes[0].len();
    let script = CompactSize::of(len as u128).as_slice().len() + len;
    let from = flat.place(first) / 64 * 64;
    let end = flat.place(first + LANES);
    let grown = end - 1 - from + script;
    let to = end + (grown.div_ceil(64) * 64 - grown);
    if to > flat.bytes.len() {
        return Ok(None);
    }
    own.clear();
    for lane in 0..LANES {
        let empty = flat.place(first + lane) + BEFORE_SCRIPT;
        put_with_script(own, flat.bytes.as_slice(), from, empty, to, codes[lane])?;
    }
    Ok(Some(midstate.double_shas(own.as_slice(), &flat.bytes[to..])))
}

/// Writes what is between two places, with a script in place of the empty one.
fn put_with_script(
    out: &mut Vec<u8>,
    flat: &[u8],
    from: usize,
    empty: usize,
    to: usize,
    script: &[u8],
) -> Result<(), Memory>
    requires from { from ≤ empty }
    requires empty { empty < to }
    requires to { to ≤ length flat.now }
    ensures { OnOk result (out.new.items
        ≡ out.old.items ++ with_script flat.now from empty to script.now) }
{
    out.extend_from_slice(&flat[from..empty])?;
    put_script(out, script)?;
    out.extend_from_slice(&flat[empty + 1..to])?;
    Ok(())
}
