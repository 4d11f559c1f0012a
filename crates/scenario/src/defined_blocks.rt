//! Blocks as a scenario defines them.

ghost use Rattle.std.specs.Prelude.{◌≡◌, ◌+◌, ◌<◌, ◌≤◌, ◌^◌, length, IfOk, OnOk, IfSome, IfNone, option_map};
ghost use Rattle.txn.specs.Identity as identity;
ghost use Rattle.block.specs.Merkle as tree;
ghost use Rattle.scenario.specs.inside.DefinedBlocks.{IsMined, IsBarren, IsSealed, IsMade};
ghost use Rattle.scenario.specs.inside.DefinedBlocks.{coinbase_said, with_first, header_to_seal};

use crate::coinbase::coinbase;
use crate::complaint::Complaint;
use crate::fault::LineFault;
use crate::known::Known;
use crate::recipe::{CoinbaseRecipe, HeaderRecipe, Recipe};
use block::{Block, GENESIS, GENESIS_ID, GENESIS_TIME, Header, Txs, meets_target, merkle};
use hash::Id;
use rules::REGTEST_BITS;
use std::alloc::Global;
use txn::{Tx, ids};
use wire::{Cursor, Memory};

/// The version of each block by default.
const VERSION: i32 = 4;

/// Where the coinbase of the genesis block begins: after the header and a count of one byte.
const COINBASE_AT: usize = 81;

/// A block that has a name.
#[derive(Drop)]
pub struct Named {
    pub name: String,
    pub id: Id,
    pub height: u32,
    /// In seconds since 1970.
    pub time: u32,
    pub bytes: Vec<u8>,
    pub coinbase: Option<Known>,
}

/// The genesis block.
pub fn genesis(alloc: Global) -> Result<Named, Memory> {
    let mut bytes = Cursor::new(&GENESIS[COINBASE_AT..]);
    // Its bytes have no fault, so running out of memory is the only one.
    let coinbase = txn::read(alloc, &mut bytes).map_err(|_| Memory)?;
    Ok(Named {
        name: String::from_str(alloc, "genesis")?,
        id: GENESIS_ID,
        height: 0,
        time: GENESIS_TIME,
        bytes: Vec::from_slice(alloc, &GENESIS)?,
        coinbase: Some(Known::from_tx(coinbase)),
    })
}

/// The block of this name on a parent, as a line says it.
///
/// There is none on a parent of the greatest height, by default on one of the greatest time, and where no
/// nonce meets the target.
pub fn made(alloc: Global, name: &str, parent: &Named, recipe: Recipe) -> Result<Named, LineFault>
    requires { length name.now ≤ 75 }
    ensures { IfOk result (IsMade recipe name.now parent.now) }
{
    let height = parent
        .height
        .checked_add(1)
        .ok_or(LineFault::of_line(Complaint::Height))?;
    let Recipe {
        header,
        has_coinbase,
        coinbase,
        mut transactions,
    } = recipe;
    let coinbase = known(alloc, has_coinbase, coinbase, name, height)?;
    put_first(&mut transactions, &coinbase)?;
    let unsealed = unsealed(alloc, header, parent, transactions.as_slice())?;
    let Some(header) = sealed(unsealed, header.nonce) else {
        return Err(LineFault::of_line(Complaint::Nonce));
    };
    let txs = Txs::from_vec(transactions);
    let mut bytes = Vec::new(alloc);
    block::write(&Block { header, txs }, &mut bytes)?;
    Ok(Named {
        name: String::from_str(alloc, name)?,
        id: header.id(),
        height,
        time: header.time,
        bytes,
        coinbase,
    })
}

/// The coinbase, unless there is none.
fn known(
    alloc: Global,
    has_coinbase: bool,
    recipe: CoinbaseRecipe,
    name: &str,
    height: u32,
) -> Result<Option<Known>, Memory>
    requires { length name.now ≤ 75 }
    ensures tx { let said = coinbase_said has_coinbase recipe name.now height in
        IfOk result (λ known. option_map (λ k. k.tx) known ≡ said) }
    ensures id { IfOk result (λ known. IfSome known (λ k. k.id ≡ identity.id_of k.tx)) }
{
    if !has_coinbase {
        return Ok(None);
    }
    let coinbase = coinbase(alloc, recipe, name, height)?;
    Ok(Some(Known::from_tx(coinbase)))
}

/// Puts a copy of the coinbase first, if there is one.
fn put_first(transactions: &mut Vec<Tx>, coinbase: &Option<Known>) -> Result<(), Memory>
    ensures { let first = option_map (λ k. k.tx) coinbase.now in
        OnOk result (transactions.new.items ≡ with_first first transactions.old.items) }
{
    if let Some(known) = coinbase {
        transactions.insert(0, known.tx.copy()?)?;
    }
    Ok(())
}

/// The header of these transactions on a parent, before its nonce.
fn unsealed(
    alloc: Global,
    recipe: HeaderRecipe,
    parent: &Named,
    txs: &[Tx],
) -> Result<Header, LineFault>
    ensures { IfOk result (λ header. header ≡ header_to_seal recipe parent.now txs.now) }
{
    let time = match recipe.time {
        Some(time) => time,
        None => parent
            .time
            .checked_add(1)
            .ok_or(LineFault::of_line(Complaint::Time))?,
    };
    let root = match recipe.root {
        Some(root) => root,
        None => true_root(alloc, txs)?,
    };
    Ok(Header {
        version: recipe.version.unwrap_or(VERSION),
        prev: parent.id,
        root,
        time,
        bits: recipe.bits.unwrap_or(REGTEST_BITS),
        nonce: 0,
    })
}

/// The header with this nonce, by default the lowest that meets the target.
fn sealed(header: Header, nonce: Option<u32>) -> Option<Header>
    ensures { IfSome result (IsSealed nonce header) }
{
    match nonce {
        Some(nonce) => Some(Header { nonce, ..header }),
        None => mined(header),
    }
}

/// The Merkle root of these transactions.
fn true_root(alloc: Global, txs: &[Tx]) -> Result<Id, Memory>
    ensures { IfOk result (λ id. id ≡ tree.root (identity.ids_of txs.now)) }
{
    let (root, _) = merkle(alloc, ids(alloc, txs)?.as_slice())?;
    Ok(root)
}

/// The header with the lowest nonce that meets the target, if one does.
fn mined(header: Header) -> Option<Header>
    ensures found { IfSome result (IsMined header) }
    ensures none { IfNone result (IsBarren header) }
{
    for nonce in 0..=u32::MAX {
        let mined = Header { nonce, ..header };
        if meets_target(&mined.id()) {
            return Some(mined);
        }
    }
    None
}
