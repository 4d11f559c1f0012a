//! Scripts as opcodes: their kinds, their signature operations, their numbers.
#![tactic(auto)]

mod kinds;
pub mod laws;
mod num;
pub mod opcode;
mod ops;
mod programs;
mod removal;
mod signatures;

pub use kinds::{MAX_SCRIPT_SIZE, is_p2sh, push_only, unspendable};
pub use num::Num;
pub use ops::{Ops, number, pushed};
pub use programs::{Program, SpentProgram, spent_program, witness_program, witness_sigops};
pub use removal::without;
pub use signatures::{Counting, p2sh_sigops, sigops};
