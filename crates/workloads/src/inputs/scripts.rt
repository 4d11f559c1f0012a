//! Spends of scripts that do much.

use crate::inputs::fault::InputsFault;
use crate::inputs::lists::{copied, put_bytes, put_times};
use crate::inputs::random_bytes::Filling;
use crate::inputs::spends::{Spend, Spends, key, signature, signed_input, spender};
use std::alloc::Global;

const OP_0: u8 = 0x00;

const OP_1: u8 = 0x51;

const OP_IF: u8 = 0x63;

const OP_ENDIF: u8 = 0x68;

const OP_2DUP: u8 = 0x6e;

const OP_DROP: u8 = 0x75;

const OP_SWAP: u8 = 0x7c;

const OP_HASH256: u8 = 0xaa;

const OP_CHECKSIG: u8 = 0xac;

/// One transaction whose input of this script spends that one, where it was made.
fn one(
    alloc: Global,
    input: &[u8],
    spent: Result<Vec<u8>, InputsFault>,
) -> Result<Spends, InputsFault> {
    let tx = spender(alloc, &mut Filling::new(8), input);
    Spends::one(alloc, Spend::of(tx, spent), &[])
}

/// 201 times SWAP on two elements of 520 bytes.
pub fn swaps(alloc: Global) -> Result<Spends, InputsFault> {
    let mut filling = Filling::new(9);
    let mut input = [0; 1046];
    for at in [0, 523] {
        input[at..at + 3].copy_from_slice(&[0x4d, 8, 2]);
        filling.fill(&mut input[at + 3..at + 523]);
    }
    one(alloc, input.as_slice(), of_runs(alloc, &[(OP_SWAP, 201)]))
}

/// 200 times HASH256.
pub fn hashes(alloc: Global) -> Result<Spends, InputsFault> {
    let mut input = [32; 33];
    Filling::new(10).fill(&mut input[1..]);
    one(
        alloc,
        input.as_slice(),
        of_runs(alloc, &[(OP_HASH256, 200)]),
    )
}

/// 9,700 opcodes under 100 open conditions.
pub fn conditions(alloc: Global) -> Result<Spends, InputsFault> {
    let runs = [
        (OP_0, 1),
        (OP_IF, 100),
        (OP_1, 9700),
        (OP_ENDIF, 100),
        (OP_1, 1),
    ];
    one(alloc, &[], of_runs(alloc, &runs))
}

/// A script of opcodes, each of them so often.
fn of_runs(alloc: Global, runs: &[(u8, usize)]) -> Result<Vec<u8>, InputsFault> {
    let mut script = Vec::new(alloc);
    put_runs(&mut script, runs)?;
    Ok(script)
}

/// Puts opcodes behind a script, each of them so often.
fn put_runs(script: &mut Vec<u8>, runs: &[(u8, usize)]) -> Result<(), InputsFault> {
    for (op, count) in runs {
        put_times(script, *op, *count)?;
    }
    Ok(())
}

/// 66 times CHECKSIG in a script of 9,600 opcodes, most of which aren't executed.
pub fn long_code(alloc: Global) -> Result<Spends, InputsFault> {
    let mut filling = Filling::new(11);
    let key = key(&mut filling, 0);
    let signer = (key, signature(&mut filling));
    let input = signed_input(&signer);
    let tx = spender(alloc, &mut Filling::new(8), input.as_slice());
    Spends::one(alloc, Spend::of(tx, long_script(alloc, &[])), &[signer])
}

/// The same script behind a signature and a key that it pushes itself.
pub fn long_script_alone(alloc: Global) -> Result<Vec<u8>, InputsFault> {
    let mut filling = Filling::new(17);
    let key = key(&mut filling, 0);
    let signer = (key, signature(&mut filling));
    long_script(alloc, signed_input(&signer).as_slice())
}

/// Behind these pushes, or the input's, 66 CHECKSIG of two elements in a script of 9,600 opcodes, nearly all in a branch
/// that isn't taken. So it is what a signature signs that costs.
fn long_script(alloc: Global, pushes: &[u8]) -> Result<Vec<u8>, InputsFault> {
    let mut script = copied(alloc, pushes)?;
    put_long(&mut script)?;
    Ok(script)
}

fn put_long(script: &mut Vec<u8>) -> Result<(), InputsFault> {
    put_runs(
        script,
        &[(OP_0, 1), (OP_IF, 1), (OP_1, 9399), (OP_ENDIF, 1)],
    )?;
    for _ in 0..66 {
        put_bytes(script, &[OP_2DUP, OP_CHECKSIG, OP_DROP])?;
    }
    Ok(())
}
