//! Requests for the coins that a block spent.

ghost use Rattle.std.specs.Prelude.{◌≡◌, ◌++◌, map, IfOk, OnOk};
ghost use Rattle.std.specs.List.{flat_map};
ghost use Rattle.json.specs.Json.{object};
ghost use Rattle.serving.specs.Answers.{spent_members};
ghost use Rattle.server.specs.inside.Lists.{spent_json};
ghost use Rattle.server.specs.inside.Answers.{IsReadLine, IsSpentTold, TellsRead, spent_answer};

use crate::answers::refused;
use crate::turn::Blank;
use coins::Coin;
use hash::Id;
use node::{BlockUndo, Naming, Node, Seat, Stamped};
use serving::{Answer, Refusal, SpentCoin};
use std::alloc::{AllocError, Global};
use std::sync::Wait;
use undo::Spent;

/// The line of the coins that a block of the active branch spent.
pub fn spent<J: Naming, R>(
    rt: &R,
    node: &Node<'_, J>,
    blank: Blank,
    id: &Id,
    seat: &mut Seat<'_, J>,
) -> Result<Vec<u8>, AllocError>
where
    R: AllocGlobal + Wait,
    ensures { IfOk result (λ line. IsSpentTold seat.old seat.new id.now blank line.items) }
{
    let found = seat.spent(rt, node, id);
    listed_spent(rt.alloc(), blank, found)
}

fn listed_spent(
    alloc: Global,
    blank: Blank,
    found: Result<Stamped<Option<BlockUndo>>, node::Fault>,
) -> Result<Vec<u8>, AllocError>
    ensures { IfOk result (λ line. TellsRead spent_answer blank found line.items) }
{
    match found {
        Ok(Stamped { at, value }) => spent_line(alloc, blank, at, value),
        Err(fault) => blank.refuse(refused(fault)),
    }
}

fn spent_line(
    alloc: Global,
    blank: Blank,
    at: u64,
    undo: Option<BlockUndo>,
) -> Result<Vec<u8>, AllocError>
    ensures { IfOk result (λ line. IsReadLine blank at (spent_answer undo) line.items) }
{
    match undo {
        None => blank.read(alloc, at, Answer::Absent),
        Some(undo) => match spent_rows(alloc, undo.as_slice()) {
            Ok(rows) => blank.read(alloc, at, Answer::Spent(rows.as_slice())),
            Err(AllocError) => blank.refuse(Refusal::Memory),
        },
    }
}

fn spent_rows(alloc: Global, txs: &[Spent]) -> Result<Vec<SpentCoin<'_>>, AllocError>
    ensures { let coins = flat_map (λ coins. coins) txs.now in IfOk result (λ rows.
        map (λ row. object (spent_members row)) rows.items ≡ map spent_json coins) }
{
    let mut rows = Vec::new(alloc);
    for spent in txs {
        add_spent(spent.as_slice(), &mut rows)?;
    }
    Ok(rows)
}

fn add_spent<'a>(coins: &'a [Coin], rows: &mut Vec<SpentCoin<'a>>) -> Result<(), AllocError>
    ensures { OnOk result (map (λ row. object (spent_members row)) rows.new.items
        ≡ map (λ row. object (spent_members row)) rows.old.items ++ map spent_json coins.now) }
{
    for coin in coins {
        rows.push(spent_row(coin))?;
    }
    Ok(())
}

/// A coin, as its object has it.
fn spent_row(coin: &Coin) -> SpentCoin<'_>
    ensures { object (spent_members result) ≡ spent_json coin.now }
{
    SpentCoin {
        value: coin.value,
        script: coin.script.as_slice(),
        height: coin.height,
        coinbase: coin.coinbase,
    }
}
