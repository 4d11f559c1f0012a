//! A transaction that is applied and taken back.

ghost use Rattle.std.specs.Prelude.{◌≡◌, ◌∷◌, [], length, IfOk};

use coins::{Base, Cache, CoinMap};
use hash::Id;
use std::alloc::Global;
use std::test::*;
use txn::{Inputs, OutPoint, Outputs, Script, Tx, TxIn, TxOut};
use undo::{apply_tx, revert_tx};
use wire::Memory;

/// A transaction of one input, with an output of 50 that can be a coin and one that can't.
fn spending(alloc: Global, prev: OutPoint) -> Result<Tx, Memory>
    ensures input { IfOk result (λ tx. tx.inputs
        ≡ record { prev = prev; script = []; sequence = 0 } ∷ []) }
    ensures outputs { IfOk result (λ tx. length tx.outputs ≡ 2) }
{
    let mut inputs = Vec::new(alloc);
    inputs.push(TxIn {
        prev,
        script: Script::from_vec(Vec::new(alloc)),
        sequence: 0,
    })?;
    let outputs = outputs(alloc)?;
    Ok(Tx {
        version: 1,
        inputs: Inputs::from_vec(inputs),
        outputs: Outputs::from_vec(outputs),
        lock_time: 0,
    })
}

/// An output of 50 that can be a coin, and one that can't: it begins with OP_RETURN.
fn outputs(alloc: Global) -> Result<Vec<TxOut>, Memory>
    ensures { IfOk result (λ outputs. length outputs.items ≡ 2) }
{
    let mut outputs = Vec::new(alloc);
    outputs.push(output(alloc, 50, 0x51)?)?;
    outputs.push(output(alloc, 7, 0x6a)?)?;
    Ok(outputs)
}

fn output(alloc: Global, value: i64, op: u8) -> Result<TxOut, Memory> {
    Ok(TxOut {
        value,
        script: Script::from_vec(vec![in alloc; op]?),
    })
}

const ID: Id = Id([7; 32]);

fn value_at<B: Base>(base: &B, index: u32) -> Option<i64> {
    base.get(&OutPoint { id: ID, index }).map(|coin| coin.value)
}

#[test]
fn a_coinbase(rt: HostRuntime) -> Result<(), Fail> {
    let map = CoinMap::new(rt.alloc());
    let mut layer = Cache::over(rt.alloc(), &map);
    let tx = spending(rt.alloc(), OutPoint::NULL)?;
    let spent = apply_tx(rt.alloc(), &mut layer, &tx, ID, 9)?;
    let applied = [value_at(&layer, 0), value_at(&layer, 1)];
    revert_tx(rt.alloc(), &mut layer, &tx, ID, &spent)?;
    assert_eq!(rt; (applied, value_at(&layer, 0)), ([Some(50), None], None));
    assert!(rt; spent.is_empty());
    Ok(())
}
