//! What a chainstate shows, as lines.

use crate::answer::CommandAnswer;
use crate::chainstates::ChainLook;
use coins::{Coin, CoinMap};
use node::UnspentOutput;
use scenario::{Call, Definitions, Request};
use std::alloc::Global;
use txn::Script;
use wire::Memory;

/// The lines of a state.
#[derive(Drop, PartialEq)]
pub struct StateLines {
    /// Height, how many blocks' undo is kept, best block and tips.
    pub head: String,
    /// The coins at the outputs that are asked.
    pub coins: String,
}

/// The coins at the outputs that these calls ask: a line for each that is there.
pub fn coins_text(
    alloc: Global,
    coins: &CoinMap,
    outputs: &[Call<'_, '_>],
) -> Result<String, Memory> {
    let mut text = String::new(alloc);
    for call in outputs {
        if let Request::Output(at) = &call.request {
            if let Some(coin) = coins.get(at) {
                write!(text, "{} = {} ", call.words, coin.value)?;
                for byte in coin.script.as_slice() {
                    write!(text, "{byte:02x}")?;
                }
                let mark = if coin.coinbase { " coinbase" } else { "" };
                writeln!(text, " height {}{mark}", coin.height)?;
            }
        }
    }
    Ok(text)
}

/// The state of a chainstate.
pub fn state_of(
    alloc: Global,
    definitions: &Definitions,
    look: &ChainLook<'_>,
    outputs: &[Call<'_, '_>],
) -> Result<StateLines, Memory> {
    let mut head = format!(in alloc; "height = {}\nundo = {}\n", look.height, look.undo_kept)?;
    for (name, request) in [("best", Request::Best), ("tips", Request::Tips)] {
        if let Some(answer) = read(alloc, definitions, look, &request)? {
            writeln!(head, "{name} = {answer}")?;
        }
    }
    let coins = coins_text(alloc, look.coins, outputs)?;
    Ok(StateLines { head, coins })
}

/// What is read of a chainstate by a request that takes no step.
pub fn read<'d>(
    alloc: Global,
    definitions: &'d Definitions,
    look: &ChainLook<'_>,
    request: &Request<'_>,
) -> Result<Option<CommandAnswer<'d>>, Memory> {
    Ok(match request {
        Request::Best => Some(CommandAnswer::Best(definitions.label(look.best))),
        Request::Tips => {
            let tips = Vec::from_slice(alloc, look.tips.as_slice())?;
            Some(CommandAnswer::Tips(definitions, tips))
        }
        Request::Output(at) => {
            let output = match look.coins.get(at) {
                Some(coin) => Some(output_of(alloc, coin, look.height)?),
                None => None,
            };
            Some(CommandAnswer::Output(output))
        }
        _ => None,
    })
}

/// What is reported about a coin where the active block has this height.
fn output_of(alloc: Global, coin: &Coin, height: usize) -> Result<UnspentOutput, Memory> {
    let above = u32::try_from(height)
        .unwrap_or(u32::MAX)
        .saturating_sub(coin.height);
    Ok(UnspentOutput {
        value: coin.value,
        script: coin.script.clone()?,
        height: coin.height,
        coinbase: coin.coinbase,
        confirmations: above.saturating_add(1),
    })
}
