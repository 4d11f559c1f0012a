//! A scenario's text, as far as its definitions go.

ghost use Rattle.std.specs.Prelude.{◌≤◌, length};

use crate::fault::RunFault;
use scenario::{Definitions, Line, lines};
use signatures::Table;
use std::alloc::Global;

/// The definitions of a text, and the lines from its first client on.
#[derive(Drop)]
pub struct Text<'t> {
    pub definitions: Definitions,
    pub below: Vec<Line<'t>>,
}

/// Reads the definitions of a text, beside these valid signatures.
pub fn read_definitions<'t>(
    alloc: Global,
    text: &'t [u8],
    table: Table,
) -> Result<Text<'t>, RunFault<'static>> {
    let mut above = lines(alloc, text)?;
    let first = first_client(above.as_slice());
    let below = above.split_off(first)?;
    let definitions = Definitions::read(alloc, above.as_slice(), table)?;
    Ok(Text { definitions, below })
}

/// The place of the first client's line, or the number of lines where there is none.
fn first_client(lines: &[Line<'_>]) -> usize
    ensures { result ≤ length lines.now }
{
    let is_client = |line: &Line<'_>| line.words.first() == Some(&"client");
    lines.iter().position(is_client).unwrap_or(lines.len())
}
