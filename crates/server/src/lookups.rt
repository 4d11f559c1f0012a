//! Requests that look blocks and coins up.

ghost use Rattle.std.specs.Prelude.{◌≡◌, ◌≤◌, Some, length, map, IfOk, IfSome};
ghost use Rattle.std.specs.Bool.{Decides};
ghost use Rattle.std.specs.Option.{option_copied};
ghost use Rattle.json.specs.Json.{object};
ghost use Rattle.tree.specs.Branches.{height};
ghost use Rattle.tree.specs.Limits.{max_blocks};
ghost use Rattle.activate.specs.Lookups.{ancestor_of, fork_of};
ghost use Rattle.serving.specs.Answers.{coin_members};
ghost use Rattle.server.specs.inside.Lists.{coin_json};
ghost use Rattle.server.specs.inside.Answers.{AreCoinsTold, IsDeep, IsLookTold, SpellsKept, TellsBlock, TellsHash, TellsHeader, TellsRead, coins_answer, confirmations_of};

use crate::answers::refused;
use crate::board::Board;
use crate::turn::Blank;
use activate::{ancestor_of, fork_of, header_of};
use block::laws::genesis_is_its_parts;
use block::{GENESIS, StoredBlock};
use coins::Coin;
use hash::Id;
use node::{Naming, Seat, Stamped};
use serving::{Answer, CoinAt, Header, Refusal};
use std::alloc::{AllocError, Global};
use std::sync::Wait;
use tree::Tree;
use txn::OutPoint;

/// How many coins are listed at once. A list holds up writing calls while it is made.
const MOST_COINS: u64 = 1_000;

/// The line of a block's bytes.
pub fn block<J: Naming, R>(
    rt: &R,
    board: &Board<J>,
    blank: Blank,
    id: &Id,
    seat: &mut Seat<'_, J>,
) -> Result<Vec<u8>, AllocError>
where
    R: AllocGlobal + Wait,
    ensures { IfOk result (λ line. IsLookTold seat.old seat.new
        (λ t best. TellsBlock t id.now blank) blank line.items) }
{
    let mut blocks = board.blocks.lock(rt);
    match blocks.catch_up(rt.alloc(), seat) {
        Ok(Stamped { at, .. }) => block_line(rt.alloc(), blank, at, blocks.tree(), id),
        Err(fault) => blank.refuse(refused(fault)),
    }
}

fn block_line(
    alloc: Global,
    blank: Blank,
    at: u64,
    tree: &Tree,
    id: &Id,
) -> Result<Vec<u8>, AllocError>
    ensures { IfOk result (λ line. TellsBlock tree.now.blocks id.now blank at line.items) }
{
    match tree.find(id) {
        Some(place) => blank.read(alloc, at, Answer::Block(bytes_of(tree.block(place)))),
        None => blank.read(alloc, at, Answer::Absent),
    }
}

/// The bytes that spell a kept block.
fn bytes_of(block: &StoredBlock) -> &[u8]
    ensures { SpellsKept result.now block.now }
{
    match block.bytes() {
        Some(bytes) => bytes.as_slice(),
        None => {
            genesis_is_its_parts();
            &GENESIS
        }
    }
}

/// The line of a block's header.
pub fn header<J: Naming, R>(
    rt: &R,
    board: &Board<J>,
    blank: Blank,
    id: &Id,
    seat: &mut Seat<'_, J>,
) -> Result<Vec<u8>, AllocError>
where
    R: AllocGlobal + Wait,
    ensures { IfOk result (λ line. IsLookTold seat.old seat.new
        (λ t best. TellsHeader t best id.now blank) blank line.items) }
{
    let mut blocks = board.blocks.lock(rt);
    match blocks.catch_up(rt.alloc(), seat) {
        Ok(best) => header_line(rt.alloc(), blank, &best, blocks.tree(), id),
        Err(fault) => blank.refuse(refused(fault)),
    }
}

fn header_line(
    alloc: Global,
    blank: Blank,
    best: &Stamped<Id>,
    tree: &Tree,
    id: &Id,
) -> Result<Vec<u8>, AllocError>
    ensures { IfOk result (λ line.
        TellsHeader tree.now.blocks best.now.value id.now blank best.now.at line.items) }
{
    let Some(place) = tree.find(id) else {
        return blank.read(alloc, best.at, Answer::Absent);
    };
    let Some(bytes) = header_of(tree, id) else {
        return blank.read(alloc, best.at, Answer::Absent);
    };
    let count = confirmations(tree, &best.value, id, place);
    let header = shown_header(&bytes, tree.height(place), count);
    blank.read(alloc, best.at, Answer::Header(header))
}

/// A header with its height and its confirmations.
fn shown_header(bytes: &[u8], height: usize, count: Option<usize>) -> Header<'_>
    requires { IfSome count (λ n. n ≤ max_blocks) }
    ensures bytes { result.bytes.now ≡ bytes.now }
    ensures height { result.height ≡ height }
    ensures confirmations { result.confirmations ≡ confirmations_of count }
{
    let mut shown = Header {
        bytes,
        height: height as u64,
        confirmations: -1,
    };
    if let Some(n) = count {
        shown.confirmations = n as i64;
    }
    shown
}

/// How many blocks of the best one's branch there are from the block at a place on. None where it isn't on that branch.
fn confirmations(tree: &Tree, best: &Id, id: &Id, place: usize) -> Option<usize>
    requires { place ≤ length tree.now.blocks }
    ensures deep { let t = tree.now.blocks in
        IsDeep t best.now id.now (height t place) result }
    ensures few { IfSome result (λ n. n ≤ max_blocks) }
{
    let height = tree.height(place);
    let Some(top) = tree.find(best) else {
        return None;
    };
    if !is_at(tree, best, height, id) {
        return None;
    }
    Some(tree.height(top).saturating_sub(height) + 1)
}

/// Whether the block with an id stands at a height of the best one's branch.
fn is_at(tree: &Tree, best: &Id, height: usize, id: &Id) -> bool
    ensures { Decides result (ancestor_of tree.now.blocks best.now height ≡ Some id.now) }
{
    match ancestor_of(tree, best, height) {
        Some(active) => active == *id,
        None => false,
    }
}

/// The line of the active branch's block at a height.
pub fn hash<J: Naming, R>(
    rt: &R,
    board: &Board<J>,
    blank: Blank,
    height: u64,
    seat: &mut Seat<'_, J>,
) -> Result<Vec<u8>, AllocError>
where
    R: AllocGlobal + Wait,
    ensures { IfOk result (λ line. IsLookTold seat.old seat.new
        (λ t best. TellsHash (ancestor_of t best height) blank) blank line.items) }
{
    let mut blocks = board.blocks.lock(rt);
    match blocks.catch_up(rt.alloc(), seat) {
        Ok(Stamped { at, value }) => {
            let found = ancestor_of(blocks.tree(), &value, height as usize);
            hash_line(rt.alloc(), blank, at, found)
        }
        Err(fault) => blank.refuse(refused(fault)),
    }
}

/// The line of the block at a height of a block's branch.
pub fn ancestor<J: Naming, R>(
    rt: &R,
    board: &Board<J>,
    blank: Blank,
    id: &Id,
    height: u64,
    seat: &mut Seat<'_, J>,
) -> Result<Vec<u8>, AllocError>
where
    R: AllocGlobal + Wait,
    ensures { IfOk result (λ line. IsLookTold seat.old seat.new
        (λ t best. TellsHash (ancestor_of t id.now height) blank) blank line.items) }
{
    let mut blocks = board.blocks.lock(rt);
    match blocks.catch_up(rt.alloc(), seat) {
        Ok(Stamped { at, .. }) => {
            let found = ancestor_of(blocks.tree(), id, height as usize);
            hash_line(rt.alloc(), blank, at, found)
        }
        Err(fault) => blank.refuse(refused(fault)),
    }
}

/// The line of the last block that the branches of two share.
pub fn fork<J: Naming, R>(
    rt: &R,
    board: &Board<J>,
    blank: Blank,
    id: &Id,
    other: &Id,
    seat: &mut Seat<'_, J>,
) -> Result<Vec<u8>, AllocError>
where
    R: AllocGlobal + Wait,
    ensures { IfOk result (λ line. IsLookTold seat.old seat.new
        (λ t best. TellsHash (fork_of t id.now other.now) blank) blank line.items) }
{
    let mut blocks = board.blocks.lock(rt);
    match blocks.catch_up(rt.alloc(), seat) {
        Ok(Stamped { at, .. }) => {
            let found = fork_of(blocks.tree(), id, other);
            hash_line(rt.alloc(), blank, at, found)
        }
        Err(fault) => blank.refuse(refused(fault)),
    }
}

fn hash_line(alloc: Global, blank: Blank, at: u64, found: Option<Id>) -> Result<Vec<u8>, AllocError>
    ensures { IfOk result (λ line. TellsHash found blank at line.items) }
{
    match found {
        Some(id) => blank.read(alloc, at, Answer::Best(id)),
        None => blank.read(alloc, at, Answer::Absent),
    }
}

/// The line of the coins at the outpoints above one.
pub fn coins<J: Naming>(
    alloc: Global,
    blank: Blank,
    above: Option<&OutPoint>,
    most: u64,
    seat: &mut Seat<'_, J>,
) -> Result<Vec<u8>, AllocError>
    ensures { IfOk result (λ line. AreCoinsTold
        seat.old seat.new (option_copied above.entry) most blank line.items) }
{
    let most = most.min(MOST_COINS) as usize;
    let found = seat.coins_from(alloc, above, most);
    listed_coins(alloc, blank, found)
}

fn listed_coins(
    alloc: Global,
    blank: Blank,
    found: Result<Stamped<Vec<(OutPoint, Coin)>>, node::Fault>,
) -> Result<Vec<u8>, AllocError>
    ensures { IfOk result (λ line. TellsRead coins_answer blank found line.items) }
{
    match found {
        Ok(Stamped { at, value }) => match rows(alloc, value.as_slice()) {
            Ok(rows) => blank.read(alloc, at, Answer::Coins(rows.as_slice())),
            Err(AllocError) => blank.refuse(Refusal::Memory),
        },
        Err(fault) => blank.refuse(refused(fault)),
    }
}

fn rows(alloc: Global, coins: &[(OutPoint, Coin)]) -> Result<Vec<CoinAt<'_>>, AllocError>
    ensures { IfOk result (λ rows.
        map (λ row. object (coin_members row)) rows.items ≡ map coin_json coins.now) }
{
    let mut rows = Vec::new(alloc);
    for coin in coins {
        rows.push(row(coin))?;
    }
    Ok(rows)
}

/// A coin, as its object has it.
fn row(coin: &(OutPoint, Coin)) -> CoinAt<'_>
    ensures { object (coin_members result) ≡ coin_json coin.now }
{
    let (outpoint, coin) = coin;
    CoinAt {
        txid: outpoint.id,
        n: outpoint.index,
        value: coin.value,
        script: coin.script.as_slice(),
        height: coin.height,
        coinbase: coin.coinbase,
    }
}
