//! Witness programs (BIP 141).

ghost use Rattle.std.specs.Prelude.{◌≡◌, ◌∷◌, length};
ghost use Rattle.std.specs.Str.{bytes_eq};
ghost use Rattle.script.specs.Programs.{version_named, program_of, spent_program, program_sigops, witness_sigops};
ghost use Rattle.script.specs.Signatures.{last_pushed};

use crate::kinds::{is_p2sh, push_only};
use crate::opcode::{OP_0, OP_1, OP_16};
use crate::signatures::{Counting, last_pushed, sigops};
use std::marker::Model;

/// A witness program: a script that is a version and one push, and nothing else.
#[derive(Drop)]
pub struct Program<'a> {
    /// 0 to 16.
    pub version: u8,
    /// 2 to 40 bytes.
    pub bytes: &'a [u8],
}

impl<'a> Model for Program<'a> {
    ghost use Rattle.script.specs.Programs.{Program};

    ghost Value = { Program };

    ghost view = { λ p. record { version = p.version; bytes = p.bytes.now } };
}

/// The witness program that an input spends.
#[derive(Drop)]
pub struct SpentProgram<'a> {
    pub program: Program<'a>,
    /// It is the inner script of BIP 16, and not the spent script itself.
    pub is_nested: bool,
    /// The input script is what the rules ask for: empty, or for a nested program its push by one length.
    pub is_exact: bool,
}

impl<'a> Model for SpentProgram<'a> {
    ghost use Rattle.script.specs.Programs.{SpentProgram};

    ghost Value = { SpentProgram };

    ghost view = { λ s. record { program = s.program; is_nested = s.is_nested; is_exact = s.is_exact } };
}

/// The witness program that a script is (Bitcoin Core's `IsWitnessProgram`).
#[tactic(auto, unfolding(crate::specs::Programs::program_of))]
pub fn witness_program<'a>(script: &'a [u8]) -> Option<Program<'a>>
    ensures { result ≡ program_of script.now }
{
    let [number, len, bytes @ ..] = script else {
        return None;
    };
    if *len < 2 || *len > 40 || bytes.len() != usize::from(*len) {
        return None;
    }
    let version = version(*number)?;
    Some(Program { version, bytes })
}

/// The version that an opcode of this number names.
fn version(number: u8) -> Option<u8>
    ensures { result ≡ version_named number }
{
    match number {
        OP_0 => Some(0),
        OP_1..=OP_16 => Some(number - (OP_1 - 1)),
        _ => None,
    }
}

/// The witness program that an input script and the script that it spends name, if they do: the spent script is one,
/// or it pays to the hash of one, which the input script pushes last (BIP 16).
#[tactic(auto, unfolding(crate::specs::Programs::spent_program))]
pub fn spent_program<'a>(input: &'a [u8], spent: &'a [u8]) -> Option<SpentProgram<'a>>
    ensures { result ≡ spent_program input.now spent.now }
{
    if let Some(program) = witness_program(spent) {
        return Some(SpentProgram {
            program,
            is_nested: false,
            is_exact: input.is_empty(),
        });
    }
    if !is_p2sh(spent) || !push_only(input) {
        return None;
    }
    let inner = last_pushed(input);
    let program = witness_program(inner)?;
    Some(SpentProgram {
        program,
        is_nested: true,
        is_exact: is_pushed_by(input, inner),
    })
}

/// Whether a script is a length of one byte and these bytes.
fn is_pushed_by(script: &[u8], bytes: &[u8]) -> bool
    ensures { result ≡ bytes_eq script.now (length bytes.now ∷ bytes.now) }
{
    match script {
        [] => false,
        [len, pushed @ ..] => usize::from(*len) == bytes.len() && pushed == bytes,
    }
}

/// The signature operations of an input's witness (Bitcoin Core's `CountWitnessSigOps`): `last` is the last string of
/// the witness, empty where it has none.
#[tactic(auto, unfolding(crate::specs::Programs::witness_sigops))]
pub fn witness_sigops(input: &[u8], spent: &[u8], last: &[u8]) -> u128
    ensures { result ≡ witness_sigops input.now spent.now last.now }
{
    let Some(found) = spent_program(input, spent) else {
        return 0;
    };
    if found.program.version != 0 {
        return 0;
    }
    match found.program.bytes.len() {
        20 => 1,
        32 => sigops(last, Counting::Accurate),
        _ => 0,
    }
}
