//! An output beside the one that was expected.

use console::fault::{Difference, RunFault};
use std::alloc::Global;
use std::str;

/// Refuses an output that isn't the file's, by its first line that differs.
pub fn compare(alloc: Global, expected: &[u8], written: &str) -> Result<(), RunFault<'static>> {
    if expected == written.as_bytes() {
        return Ok(());
    }
    let mut lines = expected.split(|byte| *byte == b'\n');
    let mut others = written.as_bytes().split(|byte| *byte == b'\n');
    for place in 0..=written.len().saturating_add(1) {
        let (line, other) = (lines.next(), others.next());
        if line != other {
            return Err(RunFault::Differs(Difference {
                line: place.saturating_add(1),
                expected: text_of(alloc, line)?,
                written: text_of(alloc, other)?,
            }));
        }
    }
    Ok(())
}

/// A line's text, or what is shown in place of bytes that are no text.
fn text_of(alloc: Global, line: Option<&[u8]>) -> Result<Option<String>, RunFault<'static>> {
    let Some(line) = line else {
        return Ok(None);
    };
    let text = str::from_utf8(line).unwrap_or("no text");
    Ok(Some(String::from_str(alloc, text)?))
}
