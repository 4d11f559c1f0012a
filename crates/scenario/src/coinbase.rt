//! The coinbase of a block that a scenario defines.

ghost use Rattle.std.specs.Prelude.{◌≡◌, ◌≤◌, ◌++◌, [], ◌∷◌, length, IfOk, OnOk};
ghost use Rattle.rules.specs.Context.{height_push};
ghost use Rattle.scenario.specs.inside.Coinbase.{said_or, script_of, coinbase_of};

use crate::recipe::CoinbaseRecipe;
use block::subsidy;
use script::Num;
use script::opcode::OP_1;
use std::alloc::Global;
use txn::{Inputs, OutPoint, Outputs, Script, Tx, TxIn, TxOut};
use wire::Memory;

/// The coinbase of the block of this name and height: by default it pays the subsidy to anyone.
pub fn coinbase(
    alloc: Global,
    recipe: CoinbaseRecipe,
    name: &str,
    height: u32,
) -> Result<Tx, Memory>
    requires { length name.now ≤ 75 }
    ensures { IfOk result (λ tx. tx ≡ coinbase_of recipe name.now height) }
{
    let CoinbaseRecipe {
        script,
        reward,
        pay,
    } = recipe;
    let script = input_script(alloc, script, name, height)?;
    let value = reward.unwrap_or(subsidy(height));
    let output = TxOut {
        value,
        script: output_script(alloc, pay)?,
    };
    let input = TxIn {
        prev: OutPoint::NULL,
        script,
        sequence: u32::MAX,
    };
    Ok(Tx {
        version: 1,
        inputs: Inputs::from_vec(vec![in alloc; input]?),
        outputs: Outputs::from_vec(vec![in alloc; output]?),
        lock_time: 0,
    })
}

/// The script that is said, by default one that makes the coinbase unlike any other height's or name's.
fn input_script(
    alloc: Global,
    said: Option<Script>,
    name: &str,
    height: u32,
) -> Result<Script, Memory>
    requires { length name.now ≤ 75 }
    ensures { IfOk result (λ script. script ≡ said_or (script_of name.now height) said) }
{
    if let Some(script) = said {
        return Ok(script);
    }
    let mut script = height_push(alloc, height)?;
    push(&mut script, name.as_bytes())?;
    Ok(Script::from_vec(script))
}

/// The script that is said, by default one that anyone may spend.
fn output_script(alloc: Global, said: Option<Script>) -> Result<Script, Memory>
    ensures { IfOk result (λ script. script ≡ said_or (0x51 ∷ []) said) }
{
    match said {
        Some(script) => Ok(script),
        None => Ok(Script::from_vec(vec![in alloc; OP_1]?)),
    }
}

/// The script that pushes a height (BIP 34): an opcode of its own for 1 to 16, else the number in the fewest
/// bytes, of which the highest bit is the sign's.
#[tactic(auto, unfolding(rules::specs::Context::height_push))]
fn height_push(alloc: Global, height: u32) -> Result<Vec<u8>, Memory>
    ensures { IfOk result (λ script. script.items ≡ height_push height) }
{
    let mut script = Vec::new(alloc);
    if height >= 1 && height <= 16 {
        script.push(OP_1 - 1 + height as u8)?;
        return Ok(script);
    }
    let number = Num(i64::from(height)).spell(alloc)?;
    push(&mut script, number.as_slice())?;
    Ok(script)
}

/// Adds the opcode that pushes bytes, of which there are at most 75.
fn push(script: &mut Vec<u8>, bytes: &[u8]) -> Result<(), Memory>
    requires { length bytes.now ≤ 75 }
    ensures { OnOk result (script.new.items ≡ script.old.items ++ length bytes.now ∷ bytes.now) }
{
    script.push(bytes.len() as u8)?;
    script.extend_from_slice(bytes)?;
    Ok(())
}
