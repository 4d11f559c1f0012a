//! What a scenario defines, to be handed to another program.

use crate::fault::RunFault;
use crate::files::{print, read_scenario};
use crate::options::ShowOptions;
use crate::text::read_definitions;
use scenario::{Definitions, LineFault, Shown};
use signatures::Table;
use std::alloc::{AllocError, Global};
use std::io::{Read, Write};
use std::rt::Files;

/// Prints a line for each of these names, or for each that the scenario defines: the name, the id, and the bytes in
/// hexadecimal.
pub fn show<'w, R, I, O>(
    rt: &R,
    options: &ShowOptions<'w>,
    input: &mut I,
    out: &mut O,
) -> Result<(), RunFault<'w>>
where
    R: Files + AllocGlobal,
    I: Read,
    O: Write,
{
    let alloc = rt.alloc();
    let text = read_scenario(rt, options.scenario, input)?;
    let text = read_definitions(alloc, text.as_slice(), Table::new(alloc))?;
    if options.names.is_empty() {
        return show_all(alloc, &text.definitions, out);
    }
    for name in options.names.as_slice() {
        show_name(alloc, &text.definitions, name, out)?;
    }
    Ok(())
}

/// Prints a line for each name of the definitions.
fn show_all<O: Write>(
    alloc: Global,
    definitions: &Definitions,
    out: &mut O,
) -> Result<(), RunFault<'static>> {
    for name in definitions.names() {
        if let Some(line) = line(alloc, definitions, name.as_str())? {
            print(out, line.as_str())?;
        }
    }
    Ok(())
}

/// Prints the line of a name.
fn show_name<'w, O: Write>(
    alloc: Global,
    definitions: &Definitions,
    name: &'w str,
    out: &mut O,
) -> Result<(), RunFault<'w>> {
    match line(alloc, definitions, name)? {
        Some(line) => print(out, line.as_str()),
        None => Err(RunFault::NoName(name)),
    }
}

/// The line of a name, if something has it.
fn line(
    alloc: Global,
    definitions: &Definitions,
    name: &str,
) -> Result<Option<String>, AllocError> {
    match definitions.shown(name) {
        Ok(shown) => {
            let Shown { id, digits } = shown;
            Ok(Some(format!(in alloc; "{name} {id} {digits}\n")?))
        }
        Err(LineFault::Memory) => Err(AllocError),
        Err(_) => Ok(None),
    }
}
