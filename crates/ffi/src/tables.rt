//! A table of valid signatures, which is passed as its text.

ghost use Rattle.std.specs.Prelude.{◌≡◌, ◌++◌, ⊤, IfErr, IfOk, OnOk};
ghost use Rattle.std.specs.FinSet as set;
ghost use Rattle.signatures.specs.Lines.{IsTableOf, lines};
ghost use Rattle.signatures.specs.Triple.{triple_of};
ghost use Rattle.hex.specs.Hex.{encode_lower};
ghost use Rattle.ffi.specs.Refusals.{bit};
ghost use Rattle.ffi.specs.Room.{IsCounted};
ghost use Rattle.ffi.specs.Tables.{IsByTable, line_of, word_of};
ghost use Rattle.ffi.specs.inside.Parts.{IsNoTable};

use crate::answers::{BAD_TABLE, DONE, MEMORY, Name};
use crate::room::fill;
use crate::shown::bit;
use signatures::{Table, TableFault};
use std::alloc::Global;
use wire::Memory;

/// Whether each line of a table can be read; else `line` is the number, from 1, of the first that can't.
#[unsafe(no_mangle)]
pub extern "C" fn ffi_table(alloc: Global, table: &[u8], line: &mut u64) -> u32
    ensures { IsByTable (lines table.now) (λ _. ⊤) line.old line.new ⊤ result }
{
    match table_of(alloc, table, line) {
        Err(code) => code,
        Ok(_table) => DONE,
    }
}

/// The table of a text; else the number that says why there is none, and where a line can't be read its number.
pub(crate) fn table_of(alloc: Global, text: &[u8], line: &mut u64) -> Result<Table, u32>
    ensures found { IfOk result (IsTableOf (lines text.now)) }
    ensures kept { OnOk result (line.new ≡ line.old) }
    ensures refused { IfErr result (IsNoTable (lines text.now) line.old line.new) }
{
    match Table::from_lines(alloc, text) {
        Err(TableFault::Memory) => Err(MEMORY),
        Err(TableFault::BadLine(number)) => {
            *line = number as u64;
            Err(BAD_TABLE)
        }
        Ok(table) => Ok(table),
    }
}

/// Whether a table has a triple: a key, a signature without its hash type, and a digest.
#[unsafe(no_mangle)]
pub extern "C" fn ffi_table_has(
    alloc: Global,
    table: &[u8],
    key: &[u8],
    signature: &[u8],
    digest: &Name,
    line: &mut u64,
    yes: &mut u32,
) -> u32
    ensures { IsByTable (lines table.now) (λ triples. yes.new
        ≡ bit (set.contains triples (triple_of key.now signature.now digest.now.bytes)))
        line.old line.new (yes.new ≡ yes.old) result }
{
    match table_of(alloc, table, line) {
        Err(code) => code,
        Ok(table) => {
            let wanted = digest.bytes;
            *yes = bit(table.has(key, signature, &wanted));
            DONE
        }
    }
}

/// What is appended to a table's text for one more triple, at the front of what is passed for it, and how many bytes it
/// has.
#[unsafe(no_mangle)]
pub extern "C" fn ffi_table_line(
    alloc: Global,
    key: &[u8],
    signature: &[u8],
    digest: &Name,
    line: &mut [u8],
    count: &mut u64,
) -> u32
    ensures { IsCounted (line_of key.now signature.now digest.now.bytes) line.old line.new
        count.old count.new result }
{
    match spelled_line(alloc, key, signature, digest) {
        Err(_) => MEMORY,
        Ok(spelled) => {
            *count = spelled.len() as u64;
            fill(spelled.as_slice(), line)
        }
    }
}

pub(crate) fn spelled_line(
    alloc: Global,
    key: &[u8],
    signature: &[u8],
    digest: &Name,
) -> Result<Vec<u8>, Memory>
    ensures { IfOk result (λ line. line.items ≡ line_of key.now signature.now digest.now.bytes) }
{
    let mut line = Vec::new(alloc);
    let digest = digest.bytes;
    line.push(b'\n')?;
    put_word(alloc, key, &mut line)?;
    line.push(b' ')?;
    put_word(alloc, signature, &mut line)?;
    line.push(b' ')?;
    put_hex(alloc, &digest, &mut line)?;
    Ok(line)
}

fn put_word(alloc: Global, bytes: &[u8], line: &mut Vec<u8>) -> Result<(), Memory>
    ensures { OnOk result (line.new.items ≡ line.old.items ++ word_of bytes.now) }
{
    if bytes.is_empty() {
        line.push(b'-')?;
        return Ok(());
    }
    put_hex(alloc, bytes, line)
}

fn put_hex(alloc: Global, bytes: &[u8], line: &mut Vec<u8>) -> Result<(), Memory>
    ensures { OnOk result (line.new.items ≡ line.old.items ++ encode_lower bytes.now) }
{
    let text = hex::encode(alloc, bytes)?;
    line.extend_from_slice(text.as_bytes())?;
    Ok(())
}
